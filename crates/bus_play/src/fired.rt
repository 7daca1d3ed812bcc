// Which transition of the annex the step in a call fires, asked before the call is made.
ghost use Rattle.std.specs.Prelude.{◌≡◌};
ghost use Rattle.effbd.specs.Answers.{said};
ghost use Rattle.calls.specs.CallList.{call_of};
ghost use Rattle.call_lines.specs.Lines.{offer_fires, hand_fires, call_fires};

use calls::{Ends, Line};
use effbd::{Answer, Reason, Refusal, moves};

// What is told where there is no step.
const NO_STEP: Refusal = Refusal {
    reason: Reason::CodeOff,
    value: 0,
};

// Of an offer the leader's state tells it, for a FUNCTION.
fn by_offer(file: &[u8], leader: &[u16], code: u16, argument: u16) -> Answer
    ensures { said result ≡ offer_fires file.now leader.now code argument }
{
    if code == moves::STEP {
        return diagram_step::transition(file, leader, argument);
    }
    Err(NO_STEP)
}

// Of a telegram the follower's state tells it, for every row.
fn by_telegram(net: &[u8], follower: &[u16], bytes: &[u8]) -> Answer
    ensures { said result ≡ hand_fires net.now follower.now bytes.now }
{
    if words::word(bytes, telegrams::CODE) == moves::STEP {
        return net_fires::transition(net, follower, words::word(bytes, telegrams::ARGUMENT));
    }
    Err(NO_STEP)
}

// Of either call, as its record says.
pub(crate) fn by_call(line: &Line, ends: &Ends, call: &[u8]) -> Answer
    ensures { said result ≡ call_fires line.now.file.now line.now.net.now ends.now.leader.now ends.now.follower.now (call_of call.now) }
{
    if words::word(call, 2) == calls::OFFER {
        return by_offer(
            line.file,
            ends.leader,
            words::word(call, 4),
            words::word(call, 6),
        );
    }
    by_telegram(line.net, ends.follower, words::tail(call, 4))
}
