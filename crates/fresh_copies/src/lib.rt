// The fresh state of a diagram with triggers: the words of its rows and items, and behind them every copy at its trigger's initial count.
// Nothing is asked of a caller: past the end a cell is 0, a store changes nothing.
// Table, rows and items go side by side, as in crate copies: both numbers have 16 bits.
#![tactic(auto)]

ghost use Rattle.std.specs.Prelude.{◌≡◌, ◌+◌, ◌*◌, take};
ghost use Rattle.words.specs.Stores.{copied};
ghost use Rattle.fresh_copies.specs.Runs.{run_put, runs_put, fresh_put, FreshMade};

use diagram_table::COUNT;
use effbd::limits::MOST_PLACES;

// Stores a value at `many` counts of a state, from its count `first` on, as far as it has them.
fn put_run(state: &mut [u16], rows: u16, first: u32, many: u32, value: u16)
    ensures { state.new ≡ run_put (3 * rows + first) many value state.old }
{
    let from = state.len().min(3 * rows as usize + first as usize);
    let to = state.len().min(from + many as usize);
    state[from..to].fill(value);
}

// The initial count of each item, at the counts that a give of it changes: its own, or a trigger's copies.
fn put_runs(state: &mut [u16], table: &[u16], rows: u16, items: u16)
    ensures { state.new ≡ runs_put rows items table.now state.old }
{
    for item in 0..items as u32 {
        let first = table_counts::run_first(table, true, 0, 0, item);
        let many = table_counts::run_length(table, true, item);
        let count = diagram_table::cell(table, COUNT, item);
        put_run(state, rows, first, many, count);
    }
}

#[tactic(auto, unfolding(crate::specs::Runs::fresh_put))]
fn put_fresh(state: &mut [u16], plain: &[u16], table: &[u16], rows: u16, items: u16)
    ensures { state.new ≡ fresh_put rows items plain.now table.now state.old }
{
    words::copy(
        state,
        words::front(plain, 3 * rows as usize + items as usize),
    );
    put_runs(state, table, rows, items);
}

// The fresh state of a table with copies, from the words of its rows and items.
pub fn fresh_state(
    plain: &[u16],
    table: &[u16],
    rows: u16,
    items: u16,
) -> [u16; MOST_PLACES as usize]
    ensures { FreshMade rows items plain.now table.now result }
{
    let mut state = [0u16; MOST_PLACES as usize];
    put_fresh(&mut state, plain, table, rows, items);
    state
}
