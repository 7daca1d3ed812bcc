// The leader's end of the bus: a move is offered, made and written as a telegram.
#![tactic(auto)]

ghost use Rattle.std.specs.Prelude.{◌≡◌, ◌≤◌, ◌<◌, length};
ghost use Rattle.effbd.specs.Answers.{said, number, returning_zero};
ghost use Rattle.effbd.specs.Moves.{step_diagram};
ghost use Rattle.effbd.specs.BusEnds.{offered};
ghost use Rattle.bus_leader.specs.Offers.{withheld};

use effbd::{Answer, Reason, Refusal, limits};

// The words of a state: at most so many where there are no triggers; no diagram has more than these.
const PLAIN_WORDS: usize = limits::PLAIN_PLACES as usize;

const MOST_WORDS: usize = limits::MOST_PLACES as usize;

// The leader's call: a move that is accepted is written as a telegram, numbered with the new count, into the first 14 bytes of the area.
pub fn offer(
    file: &[u8],
    state: &mut [u16],
    count: u32,
    station: u16,
    code: u16,
    argument: u16,
    area: &mut [u8],
) -> Answer
    ensures result_value { said result ≡ (offered file.now state.old count station code argument area.old).answer }
    ensures state_after { state.new ≡ (offered file.now state.old count station code argument area.old).state }
    ensures area_after { area.new ≡ (offered file.now state.old count station code argument area.old).area }
{
    if count == limits::MOST_COUNT {
        let full = Refusal {
            reason: Reason::CountFull,
            value: count,
        };
        return withhold(file, state, code, argument, full);
    }
    if area.len() < limits::TELEGRAM_LENGTH as usize {
        let short = Refusal {
            reason: Reason::AreaShort,
            value: limits::TELEGRAM_LENGTH as u32,
        };
        return withhold(file, state, code, argument, short);
    }
    diagram_step::step(file, state, code, argument)?;
    telegrams::write_telegram(area, count + 1, station, code, argument);
    Ok(count + 1)
}

// The refusal of an offer that 27 or 10 stands against: the move's own, or that one. The move is tried on a copy of the state, a shorter one
// where no diagram without triggers has more words; a longer state than any diagram has is refused by every file, so that it needs none.
fn withhold(file: &[u8], state: &mut [u16], code: u16, argument: u16, refusal: Refusal) -> Answer
    ensures result_value { said result ≡ withheld (number refusal.reason) refusal.value (step_diagram file.now code argument state.old) }
    ensures state_unchanged { state.new ≡ state.old }
{
    let size = state.len();
    if MOST_WORDS < size {
        return diagram_step::step(file, state, code, argument);
    }
    if size <= PLAIN_WORDS {
        try_step::<{ PLAIN_WORDS }>(file, state, code, argument)?;
    } else {
        try_step::<{ MOST_WORDS }>(file, state, code, argument)?;
    }
    Err(refusal)
}

// What a step of the state is answered, tried on a copy of it in `N` words.
fn try_step<const N: usize>(file: &[u8], state: &[u16], code: u16, argument: u16) -> Answer
    requires { (length state.now ≤ N) × (N < 65536) }
    ensures { said result ≡ returning_zero (step_diagram file.now code argument state.now) }
{
    let mut words = [0u16; N];
    let copy = &mut words[..state.len()];
    copy.copy_from_slice(state);
    diagram_step::step(file, copy, code, argument)
}
