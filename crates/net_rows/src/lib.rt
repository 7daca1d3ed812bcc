// The transitions of a diagram's rows, from its table (crate diagram_table). Nothing is asked of a caller: any words are a table.
#![tactic(auto)]

ghost use Rattle.std.specs.Prelude.{◌<◌, ◌≡◌};
ghost use Rattle.net_records.specs.Writing.{Wrote, runs};
ghost use Rattle.net_rows.specs.Rows.{token as token_records, branch_place, branch_arc, behind_in, branch_arcs, and_open_records, and_close_records, branch_token, or_close_records, onward as onward_records, back as back_records, row_records, most_row_bytes};

use diagram_table::{CLOSE, OWNER};
use kinds::{GIVE, TAKE};
use net_records::Writer;

// One token from a place to a place.
fn token(row: u16, from: usize, to: usize, net: &mut Writer)
    ensures { Wrote net.old net.new (token_records row from to) }
{
    net.transition(row as usize, 0, 0);
    net.arc(TAKE, from, 1);
    net.arc(GIVE, to, 1);
}

// P of a BRANCH row, which an AND close takes from, or the entry behind it, which an AND open gives to.
#[tactic(auto, unfolding(crate::specs::Rows::branch_place))]
fn branch_place(table: &[u16], kind: u16, row: u16) -> usize
    ensures { result ≡ branch_place table.now kind row }
{
    if kind == TAKE {
        return 3 * row as usize;
    }
    net_entries::entry(table, row as u32 + 1)
}

#[tactic(auto, unfolding(crate::specs::Rows::branch_arc))]
fn branch_arc(table: &[u16], opened: u16, kind: u16, row: u16, net: &mut Writer)
    ensures { Wrote net.old net.new (branch_arc table.now opened kind row) }
{
    if diagram_table::is_branch(table, opened as u32, row as u32) {
        let place = branch_place(table, kind, row);
        net.arc(kind, place, 1);
    }
}

// The row behind a row, or behind the construct that it opens where that closes before `closed`.
#[tactic(auto, unfolding(crate::specs::Rows::behind_in))]
fn behind(table: &[u16], row: u16, closed: u16) -> u16
    requires { row < closed }
    ensures { result ≡ behind_in table.now row closed }
{
    let inner = diagram_table::cell(table, CLOSE, row as u32);
    if row < inner && inner < closed {
        return inner + 1;
    }
    row + 1
}

// The arcs of an AND's BRANCH rows, which stand before its close and in none of the constructs between.
fn branch_arcs(table: &[u16], opened: u16, kind: u16, net: &mut Writer)
    ensures { Wrote net.old net.new (branch_arcs table.now opened kind) }
{
    let closed = diagram_table::cell(table, CLOSE, opened as u32);
    let mut row = opened;
    // No range: the row behind a construct may be far behind its first.
    while row < closed {
        branch_arc(table, opened, kind, row, net);
        row = behind(table, row, closed);
    }
}

fn and_open(table: &[u16], row: u16, net: &mut Writer)
    ensures { Wrote net.old net.new (and_open_records table.now row) }
{
    net.transition(row as usize, 0, 0);
    net.arc(TAKE, 3 * row as usize, 1);
    branch_arcs(table, row, GIVE, net);
}

fn and_close(table: &[u16], row: u16, net: &mut Writer)
    ensures { Wrote net.old net.new (and_close_records table.now row) }
{
    let opened = diagram_table::cell(table, OWNER, row as u32);
    net.transition(row as usize, 0, 0);
    branch_arcs(table, opened, TAKE, net);
    net_entries::enter(table, row as u32 + 1, net);
}

// A BRANCH has a transition only where its construct is an OR.
#[tactic(auto, unfolding(crate::specs::Rows::branch_token, crate::specs::Rows::or_token))]
fn branch(table: &[u16], row: u16, net: &mut Writer)
    ensures { Wrote net.old net.new (branch_token table.now row) }
{
    let opened = diagram_table::cell(table, OWNER, row as u32);
    if diagram_table::kind(table, opened as u32) == kinds::OR_OPEN {
        let to = net_entries::entry(table, row as u32 + 1);
        token(row, 3 * opened as usize, to, net);
    }
}

// OR close, and the open and close of a box: on to the next row.
fn or_close(table: &[u16], row: u16, net: &mut Writer)
    ensures { Wrote net.old net.new (or_close_records table.now row) }
{
    net.transition(row as usize, 0, 0);
    net.arc(TAKE, 3 * row as usize, 1);
    net_entries::enter(table, row as u32 + 1, net);
}

// LP open: on to the next row, which stands in the loop, so that no branch ends.
#[tactic(auto, unfolding(crate::specs::Rows::onward))]
fn onward(table: &[u16], row: u16, net: &mut Writer)
    ensures { Wrote net.old net.new (onward_records table.now row) }
{
    let to = net_entries::entry(table, row as u32 + 1);
    token(row, 3 * row as usize, to, net);
}

// IT close and LP close: back to the open row.
#[tactic(auto, unfolding(crate::specs::Rows::back))]
fn back(table: &[u16], row: u16, net: &mut Writer)
    ensures { Wrote net.old net.new (back_records table.now row) }
{
    let opened = diagram_table::cell(table, OWNER, row as u32);
    token(row, 3 * row as usize, 3 * opened as usize, net);
}

// The transitions of a row, by a match: no closures, since each kind has a pattern of its own; OR open and END have none. Table, file and number of rows, and no `Plant`: its rows are 32 bits, and no row could be
// told behind the last of them (nothing may be required of a caller).
#[tactic(auto, unfolding(crate::specs::Rows::row_records, crate::specs::Rows::row_as))]
fn row_transitions(table: &[u16], file: &[u8], rows: u16, row: u16, net: &mut Writer)
    ensures { Wrote net.old net.new (row_records table.now file.now rows row) }
{
    match diagram_table::kind(table, row as u32) {
        kinds::FUNCTION => net_uses::function(table, file, rows, row, net),
        kinds::AND_OPEN => and_open(table, row, net),
        kinds::BRANCH => branch(table, row, net),
        kinds::AND_CLOSE => and_close(table, row, net),
        kinds::OR_CLOSE | kinds::BOX_OPEN | kinds::BOX_CLOSE => or_close(table, row, net),
        kinds::IT_OPEN => net_loops::it_open(table, row, net),
        kinds::IT_CLOSE | kinds::LP_CLOSE => back(table, row, net),
        kinds::LP_OPEN => onward(table, row, net),
        kinds::LOOP_EXIT => net_loops::loop_exit(table, row, net),
        kinds::BOX_EXIT => net_loops::box_exit(table, row, net),
        _ => {}
    }
}

pub fn transitions(table: &[u16], file: &[u8], rows: u16, net: &mut Writer)
    ensures { Wrote net.old net.new (runs (row_records table.now file.now rows) rows) }
{
    for row in 0..rows {
        row_transitions(table, file, rows, row, net);
    }
}

// How many bytes the records of a row have at most: by the rows that it reaches, and a FUNCTION by the items and counts besides.
#[tactic(auto, unfolding(crate::specs::Rows::most_row_bytes))]
pub fn most_bytes(rows: u16, items: u16, counts: u32) -> usize
    ensures { (result ≡ most_row_bytes rows items counts) × (result < 68719476736) }
{
    let working = 52 + 16 * items as usize + 8 * counts as usize;
    8 * rows as usize + working.max(100)
}
