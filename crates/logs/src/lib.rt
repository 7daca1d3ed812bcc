// Logs of moves: setpoints of 4 bytes one after another, made from fresh on a diagram's table. Refusals 40 and 42.
// A caller walks a log move by move; what the walk has come to is crate logs' `Walk` (specs/Walk).
#![tactic(auto)]

ghost use Rattle.std.specs.Prelude.{◌≡◌};
ghost use Rattle.effbd.specs.Answers.{said, returning_zero, afterwards, fault};
ghost use Rattle.effbd.specs.Logs.{setpoint_at, move_count, log_fault, with_index};
ghost use Rattle.diagram_moves.specs.Changes.{table_move};

use diagram_table::Plant;
use effbd::limits::{MOST_MOVES, SETPOINT_LENGTH};
use effbd::{Answer, Reason, Refusal};

// 40: too many moves, or bytes left over.
#[tactic(auto, unfolding(effbd::specs::Logs::log_fault))]
pub fn fault(log: &[u8]) -> Option<Reason>
    ensures { fault result ≡ log_fault log.now }
{
    if log.len() % SETPOINT_LENGTH != 0 || MOST_MOVES < move_count(log) {
        return Some(Reason::LogOff);
    }
    None
}

// How many moves a log has.
pub fn move_count(log: &[u8]) -> usize
    ensures { result ≡ move_count log.now }
{
    log.len() / SETPOINT_LENGTH
}

// A move of a log: its code, and the row that it steps or the ticks that it waits.
#[derive(Clone, Copy)]
pub struct Setpoint {
    pub code: u16,
    pub argument: u16,
}

// Move `index` of a log; one look at the length serves all four bytes.
pub fn setpoint_at(log: &[u8], index: u32) -> Setpoint
    ensures { (result.code ≡ (setpoint_at log.now index).code) × (result.argument ≡ (setpoint_at log.now index).argument) }
{
    let start = SETPOINT_LENGTH * index as usize;
    let end = start + SETPOINT_LENGTH;
    if end <= log.len() {
        let bytes = &log[start..end];
        return Setpoint {
            code: words::word(bytes, 0),
            argument: words::word(bytes, 2),
        };
    }
    Setpoint {
        code: words::word(log, start),
        argument: words::word(log, start + 2),
    }
}

// Makes move `index` of a log, as its setpoint says it, on a diagram's table, without a check of the state: every state of a log passes it. A
// move that is refused is 42 with its index, and leaves the state as it was.
pub fn make_move(setpoint: Setpoint, index: u32, plant: &Plant, state: &mut [u16]) -> Answer
    ensures result_value { said result ≡ returning_zero (with_index index (table_move plant.now.table.now plant.now.rows plant.now.items plant.now.file.now state.old setpoint.code setpoint.argument)) }
    ensures state_after { state.new ≡ afterwards state.old (table_move plant.now.table.now plant.now.rows plant.now.items plant.now.file.now state.old setpoint.code setpoint.argument) }
{
    table_move::make_move(setpoint.code, setpoint.argument, plant, state).map_err(|_| Refusal {
        reason: Reason::MoveRefused,
        value: index,
    })
}
