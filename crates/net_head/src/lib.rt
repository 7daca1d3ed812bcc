// A net's head: how many places and how many transitions there are.
// Table, rows and items go side by side, no plant: both numbers have 16 bits here (crate net_rows says why).
#![tactic(auto)]

ghost use Rattle.std.specs.Prelude.{◌+◌, ◌*◌};
ghost use Rattle.diagram_table.specs.Cells.{counts_in};
ghost use Rattle.net_records.specs.Writing.{Wrote};
ghost use Rattle.net_records.specs.Records.{pair};
ghost use Rattle.net_numbers.specs.Numbers.{first_number_in};
ghost use Rattle.net_head.specs.Head.{net_head};

use net_records::Writer;

pub fn head(table: &[u16], rows: u16, items: u16, net: &mut Writer)
    ensures { Wrote net.old net.new (pair net_head (3 * rows + counts_in table.now items) (first_number_in table.now rows)) }
{
    let counts = table_counts::count_total(table, items);
    let transitions = net_numbers::first_number(table, rows);
    let places = 3 * rows as usize + counts as usize;
    net.pair(kinds::NET_HEAD, places, transitions);
}
