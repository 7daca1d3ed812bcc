// The follower's end of the bus: bytes that came over it are judged, and the telegram that is due is taken.
#![tactic(auto)]

ghost use Rattle.std.specs.Prelude.{◌≡◌};
ghost use Rattle.effbd.specs.Answers.{said};
ghost use Rattle.effbd.specs.BusEnds.{taken};
ghost use Rattle.bus_follower.specs.Telegrams.{judged};

use effbd::{Answer, Reason, Refusal};

// Whether bytes are the telegram that is due after `count` of them: accepted with its number, or 30 to 33.
fn judge(bytes: &[u8], count: u32, station: u16) -> Answer
    ensures { said result ≡ judged count station bytes.now }
{
    if !telegrams::is_telegram(bytes) {
        return Err(Refusal {
            reason: Reason::NoTelegram,
            value: 0,
        });
    }
    let from = words::word(bytes, telegrams::STATION);
    if from != station {
        return Err(Refusal {
            reason: Reason::OtherStation,
            value: from as u32,
        });
    }
    let number = words::long(bytes, telegrams::NUMBER);
    if number <= count {
        return Err(Refusal {
            reason: Reason::NumberPast,
            value: count,
        });
    }
    if number - count > 1 {
        return Err(Refusal {
            reason: Reason::NumberAhead,
            value: count,
        });
    }
    Ok(number)
}

// The follower's call: bytes that came over the bus. Accepted with the new count, the state stepped.
pub fn take(net: &[u8], state: &mut [u16], count: u32, station: u16, telegram: &[u8]) -> Answer
    ensures result_value { said result ≡ (taken net.now state.old count station telegram.now).answer }
    ensures state_after { state.new ≡ (taken net.now state.old count station telegram.now).state }
{
    let next = judge(telegram, count, station)?;
    let code = words::word(telegram, telegrams::CODE);
    let argument = words::word(telegram, telegrams::ARGUMENT);
    net_step::step(net, state, code, argument)?;
    Ok(next)
}
