// Calls on both ends of the bus, given as bytes: one record a call; one call made, or a list of them, by the real leader and follower.
#![tactic(auto)]

ghost use Rattle.std.specs.Prelude.{◌≡◌, cond};
ghost use Rattle.effbd.specs.Answers.{said, afterwards};
ghost use Rattle.effbd.specs.Records.{length_at};
ghost use Rattle.calls.specs.CallList.{least_of, is_call};
ghost use Rattle.calls.specs.LiveEnds.{CallMade, CallsMade};

use effbd::Answer;

// The kinds of calls: numbers, since they are words of a list's bytes, of which `call_of` reads any.
pub const OFFER: u16 = 1;

pub const HAND: u16 = 2;

// How many moves the leader sent and the follower took.
#[derive(Clone, Copy)]
pub struct Counts {
    pub sent: u32,
    pub taken: u32,
}

// What both ends were given once: the leader's file, the follower's net, the station of both.
#[derive(Clone, Copy)]
pub struct Line<'a> {
    pub file: &'a [u8],
    pub net: &'a [u8],
    pub station: u16,
}

// What calls change: the states of both ends, and their counts.
#[derive(Drop)]
pub struct Ends<'a> {
    pub leader: &'a mut [u16],
    pub follower: &'a mut [u16],
    pub counts: Counts,
}

// The value of an answer: a refusal leaves what was there before.
fn value_after(answer: Answer, before: u32) -> u32
    ensures { result ≡ afterwards before (said answer) }
{
    answer.unwrap_or(before)
}

// The bytes that a call of a kind has at least: its head, and of an offer its code and argument.
fn least_length(kind: u16) -> Option<usize>
    ensures { result ≡ least_of kind }
{
    match kind {
        OFFER => Some(8),
        HAND => Some(4),
        _ => None,
    }
}

// The length of the call at the start of `rest`; none where the list ends there.
pub fn call_length(rest: &[u8]) -> Option<usize>
    ensures { result ≡ cond (is_call rest.now) (Some (length_at rest.now)) None }
{
    if rest.len() < 4 {
        return None;
    }
    let size = words::word(rest, 0) as usize;
    if rest.len() < size {
        return None;
    }
    if size < least_length(words::word(rest, 2))? {
        return None;
    }
    Some(size)
}

// Makes the call that the bytes of a record say: an offer writes its telegram into the record's own area.
pub fn make_call(line: &Line, ends: &mut Ends, call: &mut [u8]) -> Answer
    ensures { CallMade line.now ends.old call.old ends.new call.new (said result) }
{
    if words::word(call, 2) == OFFER {
        let code = words::word(call, 4);
        let argument = words::word(call, 6);
        let sent = ends.counts.sent;
        // A record that is cut short lends what it has.
        let start = call.len().min(8);
        let answer = bus_leader::offer(
            line.file,
            ends.leader,
            sent,
            line.station,
            code,
            argument,
            &mut call[start..],
        );
        ends.counts.sent = value_after(answer, sent);
        return answer;
    }
    let taken = ends.counts.taken;
    let answer = bus_follower::take(
        line.net,
        ends.follower,
        taken,
        line.station,
        words::tail(call, 4),
    );
    ends.counts.taken = value_after(answer, taken);
    answer
}

// Makes the calls of a list in turn, until no whole call is left.
pub fn make_calls(line: &Line, ends: &mut Ends, calls: &mut [u8])
    ensures { CallsMade line.now ends.old calls.old ends.new calls.new }
{
    let mut at: usize = 0;
    // At most as many calls as bytes.
    for _made in 0..calls.len() {
        let Some(size) = call_length(&calls[at..]) else {
            return;
        };
        // The answer stands in the counts.
        let _ = make_call(line, ends, &mut calls[at..at + size]);
        at += size;
    }
}
