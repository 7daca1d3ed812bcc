// What a diagram's move is told before anything is written.
// A diagram is its table (crate diagram_file). Every function is total: what the table does not hold is read as 0.
#![tactic(auto)]

ghost use Rattle.std.specs.Prelude.{◌≡◌};
ghost use Rattle.effbd.specs.Answers.{said};
ghost use Rattle.diagram_moves.specs.Decisions.{move_verdict};

use diagram_table::Plant;
use effbd::{Answer, Reason, Refusal, moves};

mod steps;
mod waits;

// What a move of a state is told, with nothing written: 21 to 26, or accepted. The state is taken as it is: refusal 20 is crate diagram_check's. Of the
// table that crate diagram_file makes of an accepted file, and a state that passes, this is document 01's outcome (theorem `made-is` of
// crate diagram_moves).
#[tactic(auto, unfolding(diagram_moves::specs::Decisions::move_verdict))]
pub fn decide(plant: &Plant, state: &[u16], code: u16, argument: u16) -> Answer
    ensures { said result ≡ move_verdict plant.now.table.now plant.now.rows plant.now.items plant.now.file.now state.now code argument }
{
    match code {
        moves::STEP => steps::step(plant, state, argument as u32),
        moves::WAIT => waits::wait(plant, state, argument),
        _ => Err(Refusal {
            reason: Reason::CodeOff,
            value: 0,
        }),
    }
}
