// What a transition writes of rows that it clears, from a diagram's table (crate diagram_table): R of an IT open again; a kill, which is one
// clear range and one walk of gives. Nothing is asked of a caller: any words are a table.
#![tactic(auto)]

ghost use Rattle.std.specs.Prelude.{◌≡◌, ◌+◌, ◌-◌};
ghost use Rattle.net_records.specs.Writing.{Wrote, span};
ghost use Rattle.net_clears.specs.Clearing.{restore as restore_records, revive as revive_records, kill as kill_records};

use diagram_table::{CLOSE, FIRST};
use kinds::{CLEAR, GIVE};
use net_records::Writer;

// R of an IT open among rows that are cleared is its count again.
#[tactic(auto, unfolding(crate::specs::Clearing::restore))]
pub fn restore(table: &[u16], row: u32, net: &mut Writer)
    ensures { Wrote net.old net.new (restore_records table.now row) }
{
    if diagram_table::kind(table, row) == kinds::IT_OPEN {
        let count = diagram_table::cell(table, FIRST, row);
        net.arc(GIVE, 3 * row as usize + 2, count);
    }
}

// What a kill gives at a row of the AND that row `opened` opens: its BRANCH rows are done, an IT open has its R again.
#[tactic(auto, unfolding(crate::specs::Clearing::revive))]
fn revive(table: &[u16], opened: u32, row: u32, net: &mut Writer)
    ensures { Wrote net.old net.new (revive_records table.now opened row) }
{
    if diagram_table::is_branch(table, opened, row) {
        net.arc(GIVE, 3 * row as usize, 1);
    } else {
        restore(table, row, net);
    }
}

fn revives(table: &[u16], opened: u16, closed: u16, net: &mut Writer)
    ensures { Wrote net.old net.new (span (revive_records table.now opened) (opened + 1) closed) }
{
    for row in opened as u32 + 1..closed as u32 {
        revive(table, opened as u32, row, net);
    }
}

// A kill in the AND that row `opened` opens: all places of the rows in it are one range, so an LE's own range and an ending IT's own R are
// in it, and no R is given twice.
pub fn kill(table: &[u16], opened: u16, net: &mut Writer)
    ensures { Wrote net.old net.new (kill_records table.now opened) }
{
    let closed = diagram_table::cell(table, CLOSE, opened as u32);
    let last = closed.saturating_sub(1);
    net.pair(CLEAR, 3 * (opened as usize + 1), 3 * last as usize + 2);
    revives(table, opened, closed, net);
}
