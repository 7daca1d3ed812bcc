// The stepper of nets, on any net file: a state is its marks, then the clocks of its transitions.
// A move is decided first and written last: what is turned away has written nothing.
#![tactic(auto)]

ghost use Rattle.std.specs.Prelude.{◌≡◌, ◌++◌, ◌+◌, ◌<◌, length, take, drop};
ghost use Rattle.effbd.specs.Answers.{said, afterwards, returning_zero};
ghost use Rattle.effbd.specs.Nets.{give_arc, most_places};
ghost use Rattle.effbd.specs.Firing.{step_net};
ghost use Rattle.net_file.specs.Contents.{arcs_in, transition_in, transitions_in};
ghost use Rattle.net_walk.specs.Walked.{applied};
ghost use Rattle.net_step.specs.Stepping.{kept_clock, grown_clock, renewed_clock, clocks_by, holds_wait, wait_held, fired_words, stepped_words, waited_words, moved_words, Answered, Sized};

use effbd::limits::{MOST_PLACES, PLAIN_PLACES};
use effbd::moves::{STEP, WAIT};
use effbd::{Answer, Reason, Refusal};
use kinds::{CLEAR, GIVE, TAKE};
use net_walk::{HEAD_LENGTH, PLACE_LENGTH, TRANSITION_LENGTH};

// A net without copies has no more places, and its steps zero no more marks.
const SMALL_PLACES: usize = PLAIN_PLACES as usize;

// No net has more.
const LARGE_PLACES: usize = MOST_PLACES as usize;

// Where the transitions of a net file begin, and how many they are.
#[derive(Clone, Copy)]
struct Net<'a> {
    transitions: &'a [u8],
    count: u16,
}

// How clocks are renewed: transition number j fired, or so many ticks passed.
// An enum, no closure: `renewed_clock` in specs/Stepping.antt states both cases, and a closure's contract would state them once more.
#[derive(Clone, Copy)]
pub enum Renewal {
    Fired(u16),
    Waited(u16),
}

// The clock of transition number x after number j fired: kept if it is enabled after takes and clears, which `marks` are.
#[tactic(auto, unfolding(crate::specs::Stepping::kept_clock, net_file::specs::Contents::transition_in))]
fn kept(j: u16, marks: &[u16], x: u16, rest: &[u8], running: u16) -> u16
    ensures { result ≡ kept_clock j marks.now x (transition_in rest.now) running }
{
    // A clock that stands at 0 stays there, enabled or not.
    if x != j && running != 0 && net_walk::covers(marks, words::tail(rest, TRANSITION_LENGTH)) {
        running
    } else {
        0
    }
}

// The clock after a wait that nobody holds: an enabled transition's grows.
#[tactic(auto, unfolding(crate::specs::Stepping::grown_clock, net_file::specs::Contents::transition_in))]
fn grown(ticks: u16, marks: &[u16], rest: &[u8], clock: u16) -> u16
    ensures { result ≡ grown_clock ticks marks.now (transition_in rest.now) clock }
{
    let enabled = net_walk::covers(marks, words::tail(rest, TRANSITION_LENGTH));
    let sum = clock as u32 + ticks as u32;
    if enabled && sum <= words::word(rest, 8) as u32 {
        sum as u16
    } else {
        clock
    }
}

// The new clock of transition number x, which `rest` begins with.
#[tactic(auto, unfolding(crate::specs::Stepping::renewed_clock))]
fn renewed(how: Renewal, marks: &[u16], x: u16, rest: &[u8], clock: u16) -> u16
    ensures { result ≡ renewed_clock how marks.now x (transition_in rest.now) clock }
{
    match how {
        Renewal::Fired(j) => kept(j, marks, x, rest, clock),
        Renewal::Waited(ticks) => grown(ticks, marks, rest, clock),
    }
}

// The new clocks of the net's transitions.
fn renew(net: &Net, clocks: &mut [u16], how: Renewal, marks: &[u16])
    requires { length clocks.old ≡ net.now.count }
    ensures { clocks.new ≡ clocks_by (renewed_clock how marks.now) 0 (transitions_in net.now.count net.now.transitions.now) clocks.old }
{
    let mut rest = net.transitions;
    for (x, clock) in clocks.iter_mut().enumerate() {
        *clock = renewed(how, marks, x as u16, rest, *clock);
        rest = net_walk::after(rest);
    }
}

// Does the transition at the start of `rest` hold the wait, its clock passing its latest?
#[tactic(auto, unfolding(crate::specs::Stepping::holds_wait, net_file::specs::Contents::transition_in))]
fn holds(ticks: u16, marks: &[u16], rest: &[u8], clock: u16) -> bool
    ensures { result ≡ holds_wait ticks marks.now (transition_in rest.now) clock }
{
    net_walk::covers(marks, words::tail(rest, TRANSITION_LENGTH))
        && (words::word(rest, 8) as u32) < clock as u32 + ticks as u32
}

// Does one of the net's transitions hold the wait?
fn held(net: &Net, clocks: &[u16], ticks: u16, marks: &[u16]) -> bool
    ensures { result ≡ wait_held ticks marks.now 0 (transitions_in net.now.count net.now.transitions.now) clocks.now }
{
    let mut rest = net.transitions;
    for x in 0..net.count {
        if holds(ticks, marks, rest, words::get(clocks, x as usize)) {
            return true;
        }
        rest = net_walk::after(rest);
    }
    false
}

// Transition number j fires, its takes and clears are done in `marks`, and all sums fit: the new clocks, the gives, the marks.
fn finish(net: &Net, marks: &mut [u16], state: &mut [u16], j: u16, arcs: &[u8])
    requires { length state.old ≡ length marks.old + net.now.count }
    ensures { state.new ≡ applied give_arc (arcs_in arcs.now) marks.old ++ clocks_by (kept_clock j marks.old) 0 (transitions_in net.now.count net.now.transitions.now) (drop (length marks.old) state.old) }
{
    let places = marks.len();
    renew(net, &mut state[places..], Renewal::Fired(j), marks);
    net_walk::apply(marks, GIVE, arcs);
    words::copy(state, marks);
}

// Transition number j, which `part` begins with, fires if its clock and the sums allow it.
fn fire(net: &Net, marks: &mut [u16], state: &mut [u16], j: u16, part: &[u8]) -> Answer
    requires { length state.old ≡ length marks.old + net.now.count }
    ensures { Answered result state.old state.new (fired_words (transitions_in net.now.count net.now.transitions.now) j (transition_in part.now) marks.old (drop (length marks.old) state.old)) }
{
    let clock = words::get(state, marks.len() + j as usize);
    let earliest = words::word(part, 6);
    if clock < earliest {
        return Err(Refusal {
            reason: Reason::TicksLacking,
            value: (earliest - clock) as u32,
        });
    }
    let arcs = words::tail(part, TRANSITION_LENGTH);
    net_walk::apply(marks, TAKE, arcs);
    net_walk::apply(marks, CLEAR, arcs);
    net_walk::sums_fit(marks, arcs)?;
    finish(net, marks, state, j, arcs);
    Ok(0)
}

// Fires the lowest-numbered enabled transition labelled so.
fn step_label(net: &Net, marks: &mut [u16], state: &mut [u16], label: u16) -> Answer
    requires { length state.old ≡ length marks.old + net.now.count }
    ensures { Answered result state.old state.new (stepped_words (transitions_in net.now.count net.now.transitions.now) label marks.old (drop (length marks.old) state.old)) }
{
    let j = net_walk::lowest(marks, net.transitions, net.count, label).ok_or(Refusal {
        reason: Reason::NotStanding,
        value: label as u32,
    })?;
    let part = net_walk::part_at(net.transitions, j);
    fire(net, marks, state, j, part)
}

// Lets so many ticks pass, if no transition holds them.
fn wait_ticks(net: &Net, marks: &[u16], state: &mut [u16], ticks: u16) -> Answer
    requires { (length state.old ≡ length marks.now + net.now.count) × (marks.now ≡ take (length marks.now) state.old) }
    ensures { Answered result state.old state.new (waited_words (transitions_in net.now.count net.now.transitions.now) ticks marks.now (drop (length marks.now) state.old)) }
{
    if ticks == 0 {
        return Err(Refusal {
            reason: Reason::CodeOff,
            value: 0,
        });
    }
    let places = marks.len();
    if held(net, &state[places..], ticks, marks) {
        return Err(Refusal {
            reason: Reason::WaitHeld,
            value: 0,
        });
    }
    renew(net, &mut state[places..], Renewal::Waited(ticks), marks);
    Ok(0)
}

// A move of a net with as many places as there are `marks`, which are filled from the state here.
fn move_by(net: &Net, marks: &mut [u16], state: &mut [u16], code: u16, argument: u16) -> Answer
    requires { length state.old ≡ length marks.old + net.now.count }
    ensures { Answered result state.old state.new (moved_words (transitions_in net.now.count net.now.transitions.now) code argument (take (length marks.old) state.old) (drop (length marks.old) state.old)) }
{
    let places = marks.len();
    words::copy(marks, &state[..places]);
    match code {
        STEP => step_label(net, marks, state, argument),
        WAIT => wait_ticks(net, marks, state, argument),
        _ => Err(Refusal {
            reason: Reason::CodeOff,
            value: 0,
        }),
    }
}

// A move of a net of up to so many places. "The firing is worked out on a copy of up to 208 marks": a zeroed array, filled from the state.
fn move_on<const PLACES: usize>(
    net: &Net,
    places: usize,
    state: &mut [u16],
    code: u16,
    argument: u16,
) -> Answer
    requires { Sized PLACES places net.now.count state.old × (PLACES < 65536) }
    ensures { Answered result state.old state.new (moved_words (transitions_in net.now.count net.now.transitions.now) code argument (take places state.old) (drop places state.old)) }
{
    let mut marks = [0u16; PLACES];
    move_by(net, &mut marks[..places], state, code, argument)
}

// A move of any net; a small one does not pay for the marks of a large one.
fn move_sized(net: &Net, places: usize, state: &mut [u16], code: u16, argument: u16) -> Answer
    requires { Sized most_places places net.now.count state.old }
    ensures { Answered result state.old state.new (moved_words (transitions_in net.now.count net.now.transitions.now) code argument (take places state.old) (drop places state.old)) }
{
    if places <= SMALL_PLACES {
        return move_on::<SMALL_PLACES>(net, places, state, code, argument);
    }
    move_on::<LARGE_PLACES>(net, places, state, code, argument)
}

// Steps a label (code 1) or waits ticks (code 2); refused by the file's own numbers, 20, 21, 22, 24, 25 or 26.
pub fn step(net: &[u8], state: &mut [u16], code: u16, argument: u16) -> Answer
    ensures result_value { said result ≡ returning_zero (step_net net.now code argument state.old) }
    ensures state_after { state.new ≡ afterwards state.old (step_net net.now code argument state.old) }
{
    let size = net_file::read(net)?;
    if state.len() != size as usize {
        return Err(Refusal {
            reason: Reason::StateOff,
            value: 0,
        });
    }
    let places = words::word(net, 4) as usize;
    let behind = Net {
        transitions: words::tail(net, HEAD_LENGTH + PLACE_LENGTH * places),
        count: words::word(net, 6),
    };
    move_sized(&behind, places, state, code, argument)
}
