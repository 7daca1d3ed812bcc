// What a wait is told: 21 and 26.
ghost use Rattle.std.specs.Prelude.{◌≡◌};
ghost use Rattle.effbd.specs.Ranges.{all_below};
ghost use Rattle.effbd.specs.Answers.{said};
ghost use Rattle.diagram_moves.specs.Decisions.{and_done, function_holds, row_holds, row_free, wait_verdict};

use crate::steps;
use diagram_state::cells;
use diagram_table::{BRANCH_ENDED, CLOSE, OWNER, Plant, SECOND};
use effbd::{Answer, Reason, Refusal};

// A FUNCTION holds a wait if it is ready with all its takes, or if its clock would pass its β.
#[tactic(auto, unfolding(diagram_moves::specs::Decisions::function_holds))]
fn function_holds(plant: &Plant, state: &[u16], ticks: u16, row: u32) -> bool
    ensures { result ≡ function_holds plant.now.table.now plant.now.rows plant.now.items plant.now.file.now state.now ticks row }
{
    match cells::activity(state, row) {
        1 => plant.items <= diagram_uses::blocked_item(plant, state, row, false),
        2 => {
            let beta = plant.cell(SECOND, row) as u32;
            beta < cells::clock(state, row) as u32 + ticks as u32
        }
        _ => false,
    }
}

// The first BRANCH row of an AND whose BRANCH rows are all done.
#[tactic(auto, unfolding(diagram_moves::specs::Decisions::and_done))]
fn and_done(table: &[u16], state: &[u16], row: u32) -> bool
    ensures { result ≡ and_done table.now state.now row }
{
    let owner = diagram_table::cell(table, OWNER, row) as u32;
    if owner + 1 != row {
        return false;
    }
    let close = diagram_table::cell(table, CLOSE, owner) as u32;
    let last = diagram_table::cell(table, BRANCH_ENDED, close) as u32;
    steps::all_done(table, state, last)
}

// Any other row but END holds it if it is ready. An AND close that could step is seen at the first BRANCH row of its AND, which is done.
#[tactic(auto, unfolding(diagram_moves::specs::Decisions::row_holds))]
fn row_holds(plant: &Plant, state: &[u16], ticks: u16, row: u32) -> bool
    ensures { result ≡ row_holds plant.now.table.now plant.now.rows plant.now.items plant.now.file.now state.now ticks row }
{
    match plant.kind(row) {
        kinds::FUNCTION => function_holds(plant, state, ticks, row),
        kinds::END => false,
        _ => match cells::activity(state, row) {
            1 => true,
            3 => and_done(plant.table, state, row),
            _ => false,
        },
    }
}

// No row holds it; an idle one never does.
fn unheld(plant: &Plant, state: &[u16], ticks: u16) -> bool
    ensures { result ≡ all_below plant.now.rows (row_free plant.now.table.now plant.now.rows plant.now.items plant.now.file.now state.now ticks) }
{
    let mut from = 0;
    while let Some(row) = cells::next_busy(state, from, plant.rows) {
        if row_holds(plant, state, ticks, row) {
            return false;
        }
        from = row + 1;
    }
    true
}

#[tactic(auto, unfolding(diagram_moves::specs::Decisions::wait_verdict))]
pub(crate) fn wait(plant: &Plant, state: &[u16], ticks: u16) -> Answer
    ensures { said result ≡ wait_verdict plant.now.table.now plant.now.rows plant.now.items plant.now.file.now state.now ticks }
{
    if ticks == 0 {
        return Err(Refusal {
            reason: Reason::CodeOff,
            value: 0,
        });
    }
    if unheld(plant, state, ticks) {
        return Ok(0);
    }
    Err(Refusal {
        reason: Reason::WaitHeld,
        value: 0,
    })
}
