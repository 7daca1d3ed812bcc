// The rows' places of a net with their fresh marks; the counts' are crate net_counts', the head is crate net_head's.
#![tactic(auto)]

ghost use Rattle.std.specs.Prelude.{◌≡◌};
ghost use Rattle.diagram_table.specs.Cells.{entered_in};
ghost use Rattle.net_records.specs.Writing.{Wrote, runs};
ghost use Rattle.net_marks.specs.Marks.{first_mark, remaining as remaining_of, row_marks};

use diagram_table::FIRST;
use net_records::Writer;

// P of the row that entering row 0 changes has a token.
#[tactic(auto, unfolding(crate::specs::Marks::first_mark))]
fn first_mark(first: u32, row: u16) -> u16
    ensures { result ≡ first_mark first row }
{
    (row as u32 == first) as u16
}

// R of an IT open has its count.
#[tactic(auto, unfolding(crate::specs::Marks::remaining))]
fn remaining(table: &[u16], row: u16) -> u16
    ensures { result ≡ remaining_of table.now row }
{
    if diagram_table::kind(table, row as u32) == kinds::IT_OPEN {
        return diagram_table::cell(table, FIRST, row as u32);
    }
    0
}

fn row_marks(table: &[u16], first: u32, row: u16, net: &mut Writer)
    ensures { Wrote net.old net.new (row_marks table.now first row) }
{
    net.mark(first_mark(first, row));
    net.mark(0);
    net.mark(remaining(table, row));
}

pub fn of_rows(table: &[u16], rows: u16, net: &mut Writer)
    ensures { Wrote net.old net.new (runs (row_marks table.now (entered_in table.now 0)) rows) }
{
    let first = diagram_table::entered_row(table, 0);
    for row in 0..rows {
        row_marks(table, first, row, net);
    }
}
