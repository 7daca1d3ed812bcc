// The transitions that turn and leave loops and leave boxes: those of an IT open, of an LE and of an EXIT, from a diagram's table (crate diagram_table).
// Nothing is asked of a caller: any words are a table.
#![tactic(auto)]

ghost use Rattle.std.specs.Prelude.{◌≡◌, ◌+◌};
ghost use Rattle.net_records.specs.Writing.{Wrote, span};
ghost use Rattle.net_clears.specs.Clearing.{restore as restore_records};
ghost use Rattle.net_loops.specs.LoopTransitions.{early as early_of, late as late_of, it_turn, kill_turn, it_over, it_open_records, leave as leave_records, exit_turn, loop_exit_records, box_exit_records};

use diagram_table::{CLOSE, FIRST, LOOP, OUTLET, OWNER, SCENARIO_LAST};
use kinds::{CLEAR, GIVE, TAKE};
use net_records::Writer;

// Gives stand by rising places: the weight of the give to `to` before the gives to the places behind `place`, and after them.
#[tactic(auto, unfolding(crate::specs::LoopTransitions::early))]
fn early(to: usize, place: usize) -> u16
    ensures { result ≡ early_of to place }
{
    (to <= place) as u16
}

#[tactic(auto, unfolding(crate::specs::LoopTransitions::late))]
fn late(to: usize, place: usize) -> u16
    ensures { result ≡ late_of to place }
{
    (to > place) as u16
}

// One transition of an IT open: beside P and the entry it takes from one of Q and R and gives to the other.
fn it_turn(row: u16, from: usize, into: usize, weight: u16, to: usize, net: &mut Writer)
    ensures { Wrote net.old net.new (it_turn row from into weight to) }
{
    let ready = 3 * row as usize;
    net.transition(row as usize, 0, 0);
    net.arc(TAKE, ready, 1);
    net.arc(TAKE, from, weight);
    net.arc(GIVE, to, early(to, ready));
    net.arc(GIVE, into, weight);
    net.arc(GIVE, to, late(to, ready));
}

// A transition that ends a branch that kills, in the AND that row `opened` opens: an IT open takes its count from Q, an LE nothing.
fn kill_turn(table: &[u16], row: u16, weight: u16, opened: u16, net: &mut Writer)
    ensures { Wrote net.old net.new (kill_turn table.now row weight opened) }
{
    net.transition(row as usize, 0, 0);
    net.arc(TAKE, 3 * row as usize, 1);
    net.arc(TAKE, 3 * row as usize + 1, weight);
    net_clears::kill(table, opened, net);
}

// The second transition of an IT open, its turns being over: `changed` is the row that entering the row after its close changes.
#[tactic(auto, unfolding(crate::specs::LoopTransitions::it_over))]
fn it_over(table: &[u16], row: u16, changed: u32, net: &mut Writer)
    ensures { Wrote net.old net.new (it_over table.now row changed) }
{
    let count = diagram_table::cell(table, FIRST, row as u32);
    if diagram_table::kills(table, changed) {
        let opened = diagram_table::cell(table, OWNER, changed);
        kill_turn(table, row, count, opened, net);
    } else {
        let ready = 3 * row as usize;
        it_turn(row, ready + 1, ready + 2, count, 3 * changed as usize, net);
    }
}

pub fn it_open(table: &[u16], row: u16, net: &mut Writer)
    ensures { Wrote net.old net.new (it_open_records table.now row) }
{
    let ready = 3 * row as usize;
    let inside = net_entries::entry(table, row as u32 + 1);
    it_turn(row, ready + 2, ready + 1, 1, inside, net);
    let closed = diagram_table::cell(table, CLOSE, row as u32);
    let changed = diagram_table::entered_row(table, closed as u32 + 1);
    it_over(table, row, changed, net);
}

fn restores(table: &[u16], opened: u16, closed: u16, net: &mut Writer)
    ensures { Wrote net.old net.new (span (restore_records table.now) opened (closed + 1)) }
{
    for row in opened as u32..closed as u32 + 1 {
        net_clears::restore(table, row, net);
    }
}

// An LE or EXIT that leaves the rows `opened` to `closed`.
fn leave(table: &[u16], row: u16, opened: u16, closed: u16, to: usize, net: &mut Writer)
    ensures { Wrote net.old net.new (leave_records table.now row opened closed to) }
{
    let first = 3 * opened as usize;
    net.transition(row as usize, 0, 0);
    net.arc(TAKE, 3 * row as usize, 1);
    net.pair(CLEAR, first, 3 * closed as usize + 2);
    net.arc(GIVE, to, early(to, first));
    restores(table, opened, closed, net);
    net.arc(GIVE, to, late(to, first));
}

// An LE of the loop that row `opened` opens: `changed` is the row that entering the row after the loop changes.
#[tactic(auto, unfolding(crate::specs::LoopTransitions::exit_turn))]
fn exit_turn(table: &[u16], row: u16, opened: u16, closed: u16, changed: u32, net: &mut Writer)
    ensures { Wrote net.old net.new (exit_turn table.now row opened closed changed) }
{
    if diagram_table::kills(table, changed) {
        let around = diagram_table::cell(table, OWNER, changed);
        kill_turn(table, row, 0, around, net);
    } else {
        leave(table, row, opened, closed, 3 * changed as usize, net);
    }
}

#[tactic(auto, unfolding(crate::specs::LoopTransitions::loop_exit_records))]
pub fn loop_exit(table: &[u16], row: u16, net: &mut Writer)
    ensures { Wrote net.old net.new (loop_exit_records table.now row) }
{
    let opened = diagram_table::cell(table, LOOP, row as u32);
    let closed = diagram_table::cell(table, CLOSE, opened as u32);
    let changed = diagram_table::entered_row(table, closed as u32 + 1);
    exit_turn(table, row, opened, closed, changed, net);
}

// An EXIT enters the row after its outlet's BRANCH, which is one of a box: no branch that kills ends there.
#[tactic(auto, unfolding(crate::specs::LoopTransitions::box_exit_records))]
pub fn box_exit(table: &[u16], row: u16, net: &mut Writer)
    ensures { Wrote net.old net.new (box_exit_records table.now row) }
{
    let branch = diagram_table::cell(table, OUTLET, row as u32);
    let opened = diagram_table::cell(table, OWNER, branch as u32);
    let closed = diagram_table::cell(table, SCENARIO_LAST, row as u32);
    let to = net_entries::entry(table, branch as u32 + 1);
    leave(table, row, opened, closed, to, net);
}
