// What a move changes in the counts and clocks of a diagram's state: takes, gives and ticks. Crate table_move says which of it a move does.
// Every function is total: past the end a cell or word is 0, a store changes nothing.
#![tactic(auto)]

ghost use Rattle.std.specs.Prelude.{◌≡◌, ◌+◌, ◌<◌, length, length as long};
ghost use Rattle.diagram_table.specs.Cells.{uses_of, uses_in};
ghost use Rattle.diagram_moves.specs.Decisions.{changed as changing};
ghost use Rattle.diagram_moves.specs.Decisions.{count_place};
ghost use Rattle.diagram_moves.specs.Changes.{count_turn, use_changed, counts_changed, tick_turn, fold};

use diagram_state::cells;
use diagram_table::{Plant, USE_SIZE, USES_NUMBER};

// A count after a give or a take; a difference stops at 0.
#[tactic(auto, unfolding(diagram_moves::specs::Decisions::changed))]
fn changed(giving: bool, count: u16, amount: u16) -> u16
    ensures { result ≡ changing giving count amount }
{
    if giving {
        words::added(count, amount)
    } else {
        count.saturating_sub(amount)
    }
}

// Count number `index` from count `first` on, after a take or a give.
#[tactic(auto, unfolding(diagram_moves::specs::Changes::count_turn))]
fn change_count(state: &mut [u16], rows: u32, first: u32, index: u32, giving: bool, amount: u16)
    ensures { state.new ≡ count_turn giving rows first amount index state.old }
{
    let count = cells::count(state, rows, first, index);
    words::put(
        state,
        3 * rows as usize + (first as usize + index as usize),
        changed(giving, count, amount),
    );
}

// The same of a count that is known to stand: beside `change_count`, so that a run of counts is asked once whether it stands.
#[tactic(auto, unfolding(diagram_moves::specs::Changes::count_turn))]
fn change_known(state: &mut [u16], rows: u32, first: u32, index: u32, giving: bool, amount: u16)
    requires { count_place rows (first + index) < long state.old }
    ensures { state.new ≡ count_turn giving rows first amount index state.old }
{
    let at = 3 * rows as usize + (first as usize + index as usize);
    let count = state[at];
    state[at] = changed(giving, count, amount);
}

// A run of counts, as far as the state has them: one look at its length serves all. A give of a trigger reaches all its copies.
fn change_run(state: &mut [u16], rows: u32, first: u32, length: u32, giving: bool, amount: u16)
    ensures { state.new ≡ fold length (count_turn giving rows first amount) state.old }
{
    let standing = cells::standing(state, rows, first, length);
    for index in 0..standing {
        change_known(state, rows, first, index, giving, amount);
    }
}

// Use `index` of a row: where its amount is 0 no count is touched. Table and rows by themselves, and below uses by tails: with a plant by
// reference, or by chunks, the end of a FUNCTION took up to 1.4 times as long.
#[tactic(auto, unfolding(diagram_moves::specs::Changes::use_changed))]
fn change_use(
    table: &[u16],
    rows: u32,
    state: &mut [u16],
    row: u32,
    index: u32,
    item: u32,
    giving: bool,
    amount: u16,
)
    ensures { state.new ≡ use_changed table.now giving rows row index item amount state.old }
{
    if amount != 0 {
        let first = table_counts::run_first(table, giving, row, index, item);
        let length = table_counts::run_length(table, giving, item);
        if length == 1 {
            change_count(state, rows, first, 0, giving, amount);
        } else {
            change_run(state, rows, first, length, giving, amount);
        }
    }
}

// The takes or the gives of a row's uses.
fn change_uses(uses: &[u8], table: &[u16], rows: u32, state: &mut [u16], row: u32, giving: bool)
    requires { length uses.now < 393216 }
    ensures { state.new ≡ counts_changed table.now giving rows row 0 (uses_of uses.now) state.old }
{
    let mut rest = uses;
    let mut index = 0;
    while USE_SIZE <= rest.len() {
        let item = words::word(rest, 0) as u32;
        let amount = diagram_uses::amount(rest, giving);
        change_use(table, rows, state, row, index, item, giving, amount);
        rest = words::tail(rest, USE_SIZE);
        index += 1;
    }
}

// The same for the uses of a row, as the very bytes of the file. Two calls: each way gets a loop of its own, without a test of the way at each use.
pub fn change_counts(plant: &Plant, state: &mut [u16], row: u32, giving: bool)
    ensures { state.new ≡ counts_changed plant.now.table.now giving plant.now.rows row 0 (uses_in plant.now.table.now plant.now.file.now row) state.old }
{
    let number = plant.cell(USES_NUMBER, row) as usize;
    let uses = words::front(plant.uses(row), USE_SIZE * number);
    if giving {
        change_uses(uses, plant.table, plant.rows, state, row, true);
    } else {
        change_uses(uses, plant.table, plant.rows, state, row, false);
    }
}

#[tactic(auto, unfolding(diagram_moves::specs::Changes::tick_turn))]
fn tick_row(state: &mut [u16], ticks: u16, row: u32)
    ensures { state.new ≡ tick_turn ticks row state.old }
{
    if cells::activity(state, row) == 2 {
        let clock = cells::clock(state, row);
        words::put(state, 3 * row as usize + 2, words::added(clock, ticks));
    }
}

// Every running clock grows; an idle row has none.
pub fn pass_ticks(state: &mut [u16], rows: u32, ticks: u16)
    ensures { state.new ≡ fold rows (tick_turn ticks) state.old }
{
    let mut from = 0;
    while let Some(row) = cells::next_busy(state, from, rows) {
        tick_row(state, ticks, row);
        from = row + 1;
    }
}
