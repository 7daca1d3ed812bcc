// The reader of net files: the head, the places, the transitions with their arcs, each record checked against what is due.
// Every function lends the rest of the file, starting at a record's end, on to the next; the constant table of kinds is laid out once and lent on.
#![tactic(auto)]

ghost use Rattle.std.specs.Prelude.{◌≡◌, cond, ◌+◌, ◌≤◌, ◌<◌, ◌≢◌, eqb, length, unwrap_or, IfSome};
ghost use Rattle.effbd.specs.Answers.{said, fault};
ghost use Rattle.effbd.specs.Records.{word, length_of};
ghost use Rattle.effbd.specs.Firing.{words_of};
ghost use Rattle.effbd.specs.Nets.{take_arc, arc_fine, above as above_of, transition_fine, net_head_fault, read_net};
ghost use Rattle.net_file.specs.Contents.{head_fine};
ghost use Rattle.net_file.specs.Due.{start as start_of, arc_of, timed, own_length, size_by, place_fault, head_size, place_size, arc_next, arc_size, transition_size, fault_in, behind_arc, behind_transition, ended as ended_by, verdict, places_verdict, answering, Lent, head_end, places_end};

use effbd::limits::{LABEL_LIMIT, MOST_PLACES, MOST_TRANSITIONS};
use effbd::{Answer, Reason, Refusal};
use kinds::{CLEAR, GIVE, Kinds, NET_HEAD, PLACE, TAKE, TRANSITION};

// What is due next behind the places: so many transitions; arcs from kind `kind` on, those of that kind with places from `from` on;
// the label that stood last.
#[derive(Clone, Copy)]
pub struct Due {
    pub transitions: u16,
    pub kind: u16,
    pub from: u32,
    pub label: u16,
}

// The length that the kind of the record at the start gives.
fn own_length(entries: &Kinds, rest: &[u8]) -> u16
    ensures { result ≡ own_length rest.now }
{
    entries.base_length(words::word(rest, 2))
}

// The length that a kind gives, where the record at the start has it and stands whole.
#[tactic(auto, unfolding(crate::specs::Due::size_by))]
fn size_by(entries: &Kinds, kind: u16, rest: &[u8]) -> Option<u16>
    requires { 0 < length_of kind }
    ensures length { unwrap_or result 0 ≡ size_by kind rest.now }
    ensures some { IfSome result (λ size. size ≢ 0) }
{
    let size = entries.base_length(kind);
    (words::word(rest, 0) == size && size as usize <= rest.len()).then_some(size)
}

// Are the places 1 or more, and both numbers within a net's limits?
#[tactic(auto, unfolding(crate::specs::Contents::head_fine))]
fn head_fine(places: u16, transitions: u16) -> bool
    ensures { result ≡ head_fine places transitions }
{
    1 <= places && (places <= MOST_PLACES && transitions <= MOST_TRANSITIONS)
}

// The fault of the head.
fn head_fault(entries: &Kinds, net: &[u8]) -> Option<Reason>
    ensures { fault result ≡ net_head_fault net.now }
{
    let due = words::word(net, 2) == NET_HEAD;
    let right = words::word(net, 0) == own_length(entries, net);
    let fine = head_fine(words::word(net, 4), words::word(net, 6));
    words::record_reason(net, due, right, fine, Reason::HeadValueOff)
}

// The fault of the place at the start.
fn place_fault(entries: &Kinds, rest: &[u8]) -> Option<Reason>
    ensures { fault result ≡ place_fault rest.now }
{
    let due = words::word(rest, 2) == PLACE;
    let right = words::word(rest, 0) == own_length(entries, rest);
    words::record_reason(rest, due, right, true, Reason::FieldOff)
}

// The length of the place at the start, where it has nothing off.
#[tactic(auto, using(crate::proofs::Places::six), unfolding(crate::specs::Due::place_size))]
fn place_size(entries: &Kinds, rest: &[u8]) -> Option<u16>
    ensures length { unwrap_or result 0 ≡ place_size rest.now }
    ensures some { IfSome result (λ size. size ≢ 0) }
{
    let kind = words::word(rest, 2);
    if kind != PLACE {
        return None;
    }
    size_by(entries, kind, rest)
}

// Behind the places; before the first transition no arc is due.
#[tactic(auto, unfolding(crate::specs::Due::start))]
fn start(transitions: u16) -> Due
    ensures { result ≡ start_of transitions }
{
    Due {
        transitions,
        kind: GIVE + 1,
        from: 0,
        label: 0,
    }
}

// The lowest place that an arc of kind `kind` may have.
fn lowest(due: Due, kind: u16) -> u32
    ensures { result ≡ cond (eqb kind due.kind) due.from 0 }
{
    if kind == due.kind { due.from } else { 0 }
}

// Places below `count` and rising, ranges in order, weights 1 or more.
#[tactic(auto, unfolding(effbd::specs::Nets::arc_fine))]
fn arc_fine(count: u16, due: Due, kind: u16, first: u16, second: u16) -> bool
    ensures { result ≡ arc_fine count due.kind due.from (arc_of kind first second) }
{
    if (first as u32) < lowest(due, kind) {
        return false;
    }
    if kind == CLEAR {
        return first <= second && second < count;
    }
    first < count && 1 <= second
}

// Labels below their limit and never falling, earliest at most latest.
#[tactic(auto, unfolding(effbd::specs::Nets::transition_fine))]
fn transition_fine(before: u16, label: u16, earliest: u16, latest: u16) -> bool
    ensures { result ≡ transition_fine before (timed label earliest latest) }
{
    before <= label && (label < LABEL_LIMIT && earliest <= latest)
}

// Does an arc stand next that is due?
#[tactic(auto, unfolding(crate::specs::Due::arc_next, effbd::specs::Nets::arc_due))]
fn arc_next(kind: u16, rest: &[u8]) -> bool
    ensures { result ≡ arc_next kind rest.now }
{
    let found = words::word(rest, 2);
    4 <= rest.len() && (kind <= found && found <= GIVE)
}

// A field of a record that stands whole: no byte is asked whether it is there. Crate row_records has the same, and says why.
fn field(rest: &[u8], at: usize) -> u16
    requires { at + 2 ≤ length rest.now }
    ensures { result ≡ word rest.now at }
{
    rest[at] as u16 + 256 * (rest[at + 1] as u16)
}

// The length of the arc at the start, where it is due and has nothing off. Nearly every record has nothing off: it is passed
// without asking in which order things could be.
#[tactic(auto, unfolding(crate::specs::Due::arc_size))]
fn arc_size(entries: &Kinds, count: u16, due: Due, rest: &[u8]) -> Option<u16>
    requires { take_arc ≤ due.kind }
    ensures length { unwrap_or result 0 ≡ arc_size count due rest.now }
    ensures some { IfSome result (λ size. size ≢ 0) }
{
    if !arc_next(due.kind, rest) {
        return None;
    }
    let kind = words::word(rest, 2);
    let size = size_by(entries, kind, rest)?;
    arc_fine(count, due, kind, field(rest, 4), field(rest, 6)).then_some(size)
}

// The same of a transition.
#[tactic(auto, unfolding(crate::specs::Due::transition_size))]
fn transition_size(entries: &Kinds, due: Due, rest: &[u8]) -> Option<u16>
    ensures length { unwrap_or result 0 ≡ transition_size due rest.now }
    ensures some { IfSome result (λ size. size ≢ 0) }
{
    let kind = words::word(rest, 2);
    if kind != TRANSITION || due.transitions == 0 {
        return None;
    }
    let size = size_by(entries, kind, rest)?;
    transition_fine(due.label, field(rest, 4), field(rest, 6), field(rest, 8)).then_some(size)
}

// The same of the head.
#[tactic(auto, using(crate::proofs::Places::eight), unfolding(crate::specs::Due::head_size))]
fn head_size(entries: &Kinds, net: &[u8]) -> Option<u16>
    ensures length { unwrap_or result 0 ≡ head_size net.now }
    ensures some { IfSome result (λ size. size ≢ 0) }
{
    let kind = words::word(net, 2);
    if kind != NET_HEAD {
        return None;
    }
    let size = size_by(entries, kind, net)?;
    head_fine(field(net, 4), field(net, 6)).then_some(size)
}

// The fault of the arc or transition at the start.
#[tactic(auto, unfolding(crate::specs::Due::fault_in))]
fn fault_in(entries: &Kinds, count: u16, due: Due, rest: &[u8]) -> Option<Reason>
    ensures { fault result ≡ fault_in count due rest.now }
{
    let kind = words::word(rest, 2);
    let right = words::word(rest, 0) == own_length(entries, rest);
    let first = words::word(rest, 4);
    let second = words::word(rest, 6);
    if arc_next(due.kind, rest) {
        let fine = arc_fine(count, due, kind, first, second);
        return words::record_reason(rest, true, right, fine, Reason::FieldOff);
    }
    if due.transitions == 0 {
        return Some(Reason::BytesAfterLast);
    }
    let fine = transition_fine(due.label, first, second, words::word(rest, 8));
    words::record_reason(rest, kind == TRANSITION, right, fine, Reason::FieldOff)
}

// The lowest place that one more arc of the same kind may have.
#[tactic(auto, unfolding(effbd::specs::Nets::above))]
fn above(kind: u16, first: u16, second: u16) -> u32
    ensures { result ≡ above_of (arc_of kind first second) }
{
    let last = if kind == CLEAR { second } else { first };
    last as u32 + 1
}

// What is due behind the arc at the start, which stands whole.
#[tactic(auto, unfolding(crate::specs::Due::behind_arc))]
fn behind_arc(due: Due, rest: &[u8]) -> Due
    requires { 8 ≤ length rest.now }
    ensures { result ≡ behind_arc due rest.now }
{
    let kind = field(rest, 2);
    Due {
        kind,
        from: above(kind, field(rest, 4), field(rest, 6)),
        ..due
    }
}

// What is due behind the transition at the start, which stands whole.
#[tactic(auto, unfolding(crate::specs::Due::behind_transition))]
fn behind_transition(due: Due, rest: &[u8]) -> Due
    requires { 8 ≤ length rest.now }
    ensures { result ≡ behind_transition due rest.now }
{
    Due {
        transitions: due.transitions.saturating_sub(1),
        kind: TAKE,
        from: 0,
        label: field(rest, 4),
    }
}

// Has all come that must come, and is no byte left?
#[tactic(auto, unfolding(crate::specs::Due::ended))]
fn ended(due: Due, rest: &[u8]) -> bool
    ensures { result ≡ ended_by due rest.now }
{
    due.transitions == 0 && rest.is_empty()
}

// The transitions with their arcs, which are all that is left of a file of `total` bytes.
fn read_transitions(
    entries: &Kinds,
    total: usize,
    count: u16,
    transitions: u16,
    behind: &[u8],
) -> Answer
    requires { Lent total count transitions places_end behind.now }
    ensures { said result ≡ answering (count + transitions) (verdict count total (start_of transitions) behind.now) }
{
    let mut due = start(transitions);
    let mut rest = behind;
    while !ended(due, rest) {
        if let Some(size) = arc_size(entries, count, due, rest) {
            due = behind_arc(due, rest);
            rest = words::tail(rest, size as usize);
        } else {
            let Some(size) = transition_size(entries, due, rest) else {
                return Err(Refusal {
                    reason: fault_in(entries, count, due, rest).unwrap(),
                    value: (total - rest.len()) as u32,
                });
            };
            due = behind_transition(due, rest);
            rest = words::tail(rest, size as usize);
        }
    }
    Ok(count as u32 + transitions as u32)
}

// The places, then what follows them.
fn read_places(entries: &Kinds, total: usize, count: u16, transitions: u16, behind: &[u8]) -> Answer
    requires { Lent total count transitions head_end behind.now }
    ensures { said result ≡ answering (count + transitions) (places_verdict count total transitions count behind.now) }
{
    let mut rest = behind;
    for place in 0..count {
        let Some(size) = place_size(entries, rest) else {
            return Err(Refusal {
                reason: place_fault(entries, rest).unwrap(),
                value: (total - rest.len()) as u32,
            });
        };
        rest = words::tail(rest, size as usize);
    }
    read_transitions(entries, total, count, transitions, rest)
}

// Reads a net file: accepted with the number of words of its state, or refused (1 to 6) with the record's offset.
pub fn read(net: &[u8]) -> Answer
    ensures { said result ≡ words_of (read_net net.now) }
{
    let entries = Kinds::new();
    let Some(size) = head_size(&entries, net) else {
        return Err(Refusal {
            reason: head_fault(&entries, net).unwrap(),
            value: 0,
        });
    };
    let places = words::word(net, 4);
    let transitions = words::word(net, 6);
    let rest = words::tail(net, size as usize);
    read_places(&entries, net.len(), places, transitions, rest)
}
