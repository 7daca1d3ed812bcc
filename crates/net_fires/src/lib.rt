// Which transition a step fires, on any net file: looked for, as the stepper of nets does.
#![tactic(auto)]

ghost use Rattle.std.specs.Prelude.{◌≡◌};
ghost use Rattle.effbd.specs.Answers.{said};
ghost use Rattle.effbd.specs.Transitions.{transition_net};

use effbd::{Answer, Reason, Refusal};
use net_walk::{HEAD_LENGTH, PLACE_LENGTH};

// The number of the lowest-numbered enabled transition labelled with the row.
pub fn transition(net: &[u8], state: &[u16], row: u16) -> Answer
    ensures { said result ≡ transition_net net.now row state.now }
{
    let size = net_file::read(net)?;
    if state.len() != size as usize {
        return Err(Refusal {
            reason: Reason::StateOff,
            value: 0,
        });
    }
    let places = words::word(net, 4) as usize;
    let count = words::word(net, 6);
    let transitions = words::tail(net, HEAD_LENGTH + PLACE_LENGTH * places);
    let lowest = net_walk::lowest(&state[..places], transitions, count, row).ok_or(Refusal {
        reason: Reason::NotStanding,
        value: row as u32,
    })?;
    Ok(lowest as u32)
}
