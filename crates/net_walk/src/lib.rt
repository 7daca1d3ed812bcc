// Walks over the arcs and transitions of a net file, on its bytes. Nothing is asked of the file: what its bytes say, accepted
// or not, is defined in net_file's specs/Contents.antt.
#![tactic(auto)]

ghost use Rattle.std.specs.Prelude.{◌≡◌, ◌+◌, ◌-◌, ◌<◌, unwrap_or, IfSome};
ghost use Rattle.effbd.specs.Answers.{said};
ghost use Rattle.effbd.specs.Nets.{arc_at};
ghost use Rattle.net_file.specs.Contents.{arc_here, arcs_in, past_arcs, transition_in, after_transition, transitions_in, part_at};
ghost use Rattle.net_walk.specs.Walked.{take_here, covered, zeros, changed, changed_if, applied, too_much, sums as sums_of, stands as stands_in, lowest as lowest_in};

use effbd::{Answer, Reason, Refusal};
use kinds::{CLEAR, GIVE, TAKE};

// The lengths that the table of kinds gives the records of a net. A walk over a file that was read asks no table: its promises are
// about these lengths, so that none could be another.
pub const HEAD_LENGTH: usize = 8;

pub const PLACE_LENGTH: usize = 6;

pub const TRANSITION_LENGTH: usize = 10;

pub const ARC_LENGTH: usize = 8;

// Does an arc stand at the start?
#[tactic(auto, unfolding(net_file::specs::Contents::arc_here, effbd::specs::Nets::arc_due))]
fn arc_here(rest: &[u8]) -> bool
    ensures { result ≡ arc_here rest.now }
{
    let kind = words::word(rest, 2);
    ARC_LENGTH <= rest.len() && (TAKE <= kind && kind <= GIVE)
}

// Does a take?
#[tactic(auto, unfolding(crate::specs::Walked::take_here))]
fn take_here(rest: &[u8]) -> bool
    ensures { result ≡ take_here rest.now }
{
    ARC_LENGTH <= rest.len() && words::word(rest, 2) == TAKE
}

// Walks over arcs are loops over tails, no iterators: each record is read from the tail behind the one before (a form that the documents ask for).
// Do the marks cover the takes of these arcs?
pub fn covers(marks: &[u16], arcs: &[u8]) -> bool
    ensures { result ≡ covered (arcs_in arcs.now) marks.now }
{
    let mut rest = arcs;
    while take_here(rest) {
        if words::get(marks, words::word(rest, 4) as usize) < words::word(rest, 6) {
            return false;
        }
        rest = words::tail(rest, ARC_LENGTH);
    }
    true
}

// What follows these arcs.
pub fn past<'a>(arcs: &'a [u8]) -> &'a [u8]
    ensures { result.now ≡ past_arcs arcs.now }
{
    let mut rest = arcs;
    while arc_here(rest) {
        rest = words::tail(rest, ARC_LENGTH);
    }
    rest
}

// Places first to last become 0.
fn zero(marks: &mut [u16], first: u16, last: u16)
    ensures { marks.new ≡ zeros (last + 1 - first) first marks.old }
{
    for place in first as usize..last as usize + 1 {
        words::put(marks, place, 0);
    }
}

// One arc's takes, clears or gives: a match on the kind that the arc has in the file. A mark stops at 0 and at 65,535, where a covered take and a sum that fits never come.
#[tactic(auto, unfolding(crate::specs::Walked::changed))]
fn change(marks: &mut [u16], kind: u16, first: u16, second: u16)
    ensures { marks.new ≡ changed kind first second marks.old }
{
    let place = first as usize;
    let mark = words::get(marks, place);
    match kind {
        TAKE => words::put(marks, place, mark.saturating_sub(second)),
        CLEAR => zero(marks, first, second),
        _ => words::put(marks, place, mark.saturating_add(second)),
    }
}

// The arc at the start of `rest`, if it is of this kind.
#[tactic(auto, unfolding(crate::specs::Walked::changed_if))]
fn change_if(marks: &mut [u16], kind: u16, rest: &[u8])
    ensures { marks.new ≡ changed_if kind (arc_at rest.now) marks.old }
{
    if words::word(rest, 2) == kind {
        change(marks, kind, words::word(rest, 4), words::word(rest, 6));
    }
}

// The arcs of one kind: takes, clears or gives.
pub fn apply(marks: &mut [u16], kind: u16, arcs: &[u8])
    ensures { marks.new ≡ applied kind (arcs_in arcs.now) marks.old }
{
    let mut rest = arcs;
    while arc_here(rest) {
        change_if(marks, kind, rest);
        rest = words::tail(rest, ARC_LENGTH);
    }
}

// Is the arc at the start a give whose sum passes 65,535?
#[tactic(auto, unfolding(crate::specs::Walked::too_much))]
fn too_much(marks: &[u16], rest: &[u8]) -> bool
    ensures { result ≡ too_much (arc_at rest.now) marks.now }
{
    let mark = words::get(marks, words::word(rest, 4) as usize);
    words::word(rest, 2) == GIVE && mark.checked_add(words::word(rest, 6)).is_none()
}

// Do the sums of marks and gives fit? Refused (25) with the first place at which one does not.
pub fn sums_fit(marks: &[u16], arcs: &[u8]) -> Answer
    ensures { said result ≡ sums_of (arcs_in arcs.now) marks.now }
{
    let mut rest = arcs;
    while arc_here(rest) {
        if too_much(marks, rest) {
            return Err(Refusal {
                reason: Reason::SumTooLarge,
                value: words::word(rest, 4) as u32,
            });
        }
        rest = words::tail(rest, ARC_LENGTH);
    }
    Ok(0)
}

// What follows the transition at the start of `rest`.
#[tactic(auto, unfolding(net_file::specs::Contents::after_transition))]
pub fn after<'a>(rest: &'a [u8]) -> &'a [u8]
    ensures { result.now ≡ after_transition rest.now }
{
    past(words::tail(rest, TRANSITION_LENGTH))
}

// Where transition number `j` begins.
pub fn part_at<'a>(transitions: &'a [u8], j: u16) -> &'a [u8]
    ensures { result.now ≡ part_at j transitions.now }
{
    let mut rest = transitions;
    for i in 0..j {
        rest = after(rest);
    }
    rest
}

// Is the transition at the start of `rest` labelled so and enabled?
#[tactic(auto, unfolding(crate::specs::Walked::stands, net_file::specs::Contents::transition_in))]
fn stands(marks: &[u16], rest: &[u8], label: u16) -> bool
    ensures { result ≡ stands_in (transition_in rest.now) marks.now label }
{
    words::word(rest, 4) == label && covers(marks, words::tail(rest, TRANSITION_LENGTH))
}

// The lowest-numbered enabled transition labelled so among `count`.
pub fn lowest(marks: &[u16], transitions: &[u8], count: u16, label: u16) -> Option<u16>
    ensures number { unwrap_or result count ≡ lowest_in (transitions_in count transitions.now) marks.now label }
    ensures some { IfSome result (λ j. j < count) }
{
    let mut rest = transitions;
    for j in 0..count {
        if stands(marks, rest, label) {
            return Some(j);
        }
        rest = after(rest);
    }
    None
}
