// The fresh state of a net, on any net file: its marks, then the clocks of its transitions, all 0.
#![tactic(auto)]

ghost use Rattle.std.specs.Prelude.{◌≡◌, length};
ghost use Rattle.effbd.specs.Answers.{said, afterwards, returning_zero};
ghost use Rattle.effbd.specs.Ranges.{tabulate};
ghost use Rattle.effbd.specs.Firing.{fresh_net};
ghost use Rattle.net_fresh.specs.FreshWords.{fresh_word};

use effbd::{Answer, Reason, Refusal};
use net_walk::{HEAD_LENGTH, PLACE_LENGTH};

// Word i of a fresh state. A place's mark stands behind its length and its kind.
#[tactic(auto, unfolding(crate::specs::FreshWords::fresh_word))]
fn fresh_word(net: &[u8], places: u16, i: usize) -> u16
    ensures { result ≡ fresh_word net.now places i }
{
    if i < places as usize {
        return words::word(net, HEAD_LENGTH + PLACE_LENGTH * i + 4);
    }
    0
}

// Every word of a fresh state.
fn fill(net: &[u8], places: u16, state: &mut [u16])
    ensures { state.new ≡ tabulate (length state.old) (fresh_word net.now places) }
{
    for (i, word) in state.iter_mut().enumerate() {
        *word = fresh_word(net, places, i);
    }
}

// Makes the state fresh: the file's marks, all clocks 0; refused by the file's own numbers or 20.
pub fn fresh(net: &[u8], state: &mut [u16]) -> Answer
    ensures result_value { said result ≡ returning_zero (fresh_net net.now state.old) }
    ensures state_after { state.new ≡ afterwards state.old (fresh_net net.now state.old) }
{
    let size = net_file::read(net)?;
    if state.len() != size as usize {
        return Err(Refusal {
            reason: Reason::StateOff,
            value: 0,
        });
    }
    fill(net, words::word(net, 4), state);
    Ok(0)
}
