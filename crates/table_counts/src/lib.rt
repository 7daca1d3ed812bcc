// What a diagram's table says of counts: the items', the copies of triggers behind them, and those that a use changes.
// Nothing is asked of a caller: past the table's end a cell is 0.
#![tactic(auto)]

ghost use Rattle.std.specs.Prelude.{◌≡◌};
ghost use Rattle.diagram_table.specs.Cells.{shared_in, counts_in, run_first, run_length};

use diagram_table::{COPIES, COUNT, FIRST_COPY, RANK, RECEIVERS, SOME_TRIGGER, TRIGGER};
use effbd::limits::MOST_ITEMS;

// The count of an item at first: a trigger's shared count is 0.
#[tactic(auto, unfolding(diagram_table::specs::Cells::shared_in))]
pub fn shared_count(table: &[u16], item: u32) -> u16
    ensures { result ≡ shared_in table.now item }
{
    if diagram_table::cell(table, TRIGGER, item) == 0 {
        return diagram_table::cell(table, COUNT, item);
    }
    0
}

// How many counts a state has behind its rows: the items', and behind these the copies of triggers.
#[tactic(auto, unfolding(diagram_table::specs::Cells::counts_in))]
pub fn count_total(table: &[u16], items: u16) -> u32
    ensures { result ≡ counts_in table.now items }
{
    if diagram_table::cell(table, SOME_TRIGGER, 0) == 0 {
        return items as u32;
    }
    items as u32 + diagram_table::cell(table, COPIES, 0) as u32
}

// The first of the counts that use `index` of a row changes, which names `item`: of a trigger a take changes the row's own copy, a give all.
#[tactic(auto, unfolding(diagram_table::specs::Cells::run_first))]
pub fn run_first(table: &[u16], giving: bool, row: u32, index: u32, item: u32) -> u32
    ensures { result ≡ run_first table.now giving row index item }
{
    if diagram_table::cell(table, TRIGGER, item) == 0 {
        return item;
    }
    let first = diagram_table::cell(table, FIRST_COPY, item) as u32;
    if giving {
        return first;
    }
    let rank = words::get(
        table,
        RANK as usize + MOST_ITEMS as usize * row as usize + index as usize,
    );
    first + rank as u32
}

// How many they are.
#[tactic(auto, unfolding(diagram_table::specs::Cells::run_length))]
pub fn run_length(table: &[u16], giving: bool, item: u32) -> u32
    ensures { result ≡ run_length table.now giving item }
{
    if !giving || diagram_table::cell(table, TRIGGER, item) == 0 {
        return 1;
    }
    diagram_table::cell(table, RECEIVERS, item) as u32
}
