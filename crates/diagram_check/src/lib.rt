// Which states are one of a diagram's: the check of a state, refusal 20. Every function is total: what table or state does not hold is read as 0.
#![tactic(auto)]

ghost use Rattle.std.specs.Prelude.{◌≡◌, ◌&&◌, ◌+◌, ◌*◌, eqb, length};
ghost use Rattle.diagram_moves.specs.Decisions.{activity_allowed, turns_allowed, clock_allowed, row_allowed, count_allowed, shared_allowed, state_allowed};
ghost use Rattle.effbd.specs.Ranges.{all_below};
ghost use Rattle.diagram_table.specs.Cells.{kind_in, owner_in};

use diagram_state::cells;
use diagram_table::{FIRST, OWNER, Plant, SECOND, SOME_TRIGGER, TRIGGER};

// The activities that the kind of a row has.
#[tactic(auto, unfolding(diagram_moves::specs::Decisions::activity_allowed))]
fn activity_allowed(table: &[u16], row: u32, activity: u16) -> bool
    ensures { result ≡ activity_allowed table.now row activity }
{
    match diagram_table::kind(table, row) {
        kinds::FUNCTION => activity <= 2,
        kinds::BRANCH => activity == 0 || (activity == 3 && in_and(table, row)),
        kinds::AND_CLOSE => activity == 0,
        _ => activity <= 1,
    }
}

// A BRANCH is one of an AND.
fn in_and(table: &[u16], row: u32) -> bool
    ensures { result ≡ eqb (kind_in table.now (owner_in table.now row)) 17 }
{
    let owner = diagram_table::cell(table, OWNER, row) as u32;
    diagram_table::kind(table, owner) == kinds::AND_OPEN
}

// The turns of an IT open are at most its count; no other row has turns.
#[tactic(auto, unfolding(diagram_moves::specs::Decisions::turns_allowed))]
fn turns_allowed(table: &[u16], row: u32, turns: u16) -> bool
    ensures { result ≡ turns_allowed table.now row turns }
{
    if diagram_table::kind(table, row) == kinds::IT_OPEN {
        return turns <= diagram_table::cell(table, FIRST, row);
    }
    turns == 0
}

// The clock of a running row is at most its β; no other row has a clock. Of an EXIT the cell is no β, but its activity is never 2.
#[tactic(auto, unfolding(diagram_moves::specs::Decisions::clock_allowed))]
fn clock_allowed(table: &[u16], row: u32, activity: u16, clock: u16) -> bool
    ensures { result ≡ clock_allowed table.now row activity clock }
{
    if activity == 2 {
        return clock <= diagram_table::cell(table, SECOND, row);
    }
    clock == 0
}

// An idle row, with no turns and no clock.
fn rests(activity: u16, turns: u16, clock: u16) -> bool
    ensures { result ≡ (eqb activity 0 && (eqb turns 0 && eqb clock 0)) }
{
    activity == 0 && turns == 0 && clock == 0
}

// Most rows of a plant rest, and a resting row passes whatever its kind.
#[tactic(auto, unfolding(diagram_moves::specs::Decisions::row_allowed))]
fn row_allowed(table: &[u16], state: &[u16], row: u32) -> bool
    ensures { result ≡ row_allowed table.now state.now row }
{
    let activity = cells::activity(state, row);
    let turns = cells::turns(state, row);
    let clock = cells::clock(state, row);
    rests(activity, turns, clock)
        || (activity_allowed(table, row, activity)
            && turns_allowed(table, row, turns)
            && clock_allowed(table, row, activity, clock))
}

// A state has three words for each row and one for each count, and every row passes. A loop: `all` took twice as long.
pub fn rows_allowed(plant: &Plant, counts: u32, state: &[u16]) -> bool
    ensures { result ≡ (eqb (length state.now) (3 * plant.now.rows + counts) && all_below plant.now.rows (row_allowed plant.now.table.now state.now)) }
{
    if state.len() != 3 * plant.rows as usize + counts as usize {
        return false;
    }
    for row in 0..plant.rows {
        if !row_allowed(plant.table, state, row) {
            return false;
        }
    }
    true
}

// The shared count of a trigger is 0.
#[tactic(auto, unfolding(diagram_moves::specs::Decisions::count_allowed))]
fn count_allowed(plant: &Plant, state: &[u16], item: u32) -> bool
    ensures { result ≡ count_allowed plant.now.table.now plant.now.rows state.now item }
{
    plant.cell(TRIGGER, item) == 0 || cells::count(state, plant.rows, item, 0) == 0
}

// A plant without triggers has no such count to look at.
fn shared_allowed(plant: &Plant, state: &[u16]) -> bool
    ensures { result ≡ shared_allowed plant.now.table.now plant.now.rows plant.now.items state.now }
{
    if plant.cell(SOME_TRIGGER, 0) == 0 {
        return true;
    }
    for item in 0..plant.items {
        if !count_allowed(plant, state, item) {
            return false;
        }
    }
    true
}

// The check of a state that has so many counts: its rows, then the shared counts of its triggers.
#[tactic(auto, unfolding(diagram_moves::specs::Decisions::state_allowed))]
pub fn state_allowed(plant: &Plant, counts: u32, state: &[u16]) -> bool
    ensures { result ≡ state_allowed plant.now.table.now plant.now.rows plant.now.items counts state.now }
{
    rows_allowed(plant, counts, state) && shared_allowed(plant, state)
}
