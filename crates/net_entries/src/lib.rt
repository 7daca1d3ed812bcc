// What a transition writes of entering a row, from a diagram's table (crate diagram_table): a give; where that ends a branch that kills, that
// kill (crate net_clears). Nothing is asked of a caller: any words are a table.
#![tactic(auto)]

ghost use Rattle.std.specs.Prelude.{◌≡◌};
ghost use Rattle.net_records.specs.Writing.{Wrote};
ghost use Rattle.net_entries.specs.Entering.{entry as entry_of, entering as entering_records};

use diagram_table::OWNER;
use kinds::GIVE;
use net_records::Writer;

// P of the row that entering a row changes where no branch kills.
#[tactic(auto, unfolding(crate::specs::Entering::entry))]
pub fn entry(table: &[u16], row: u32) -> usize
    ensures { result ≡ entry_of table.now row }
{
    3 * diagram_table::entered_row(table, row) as usize
}

// Entering a row.
#[tactic(auto, unfolding(crate::specs::Entering::entering))]
pub fn enter(table: &[u16], row: u32, net: &mut Writer)
    ensures { Wrote net.old net.new (entering_records table.now row) }
{
    let changed = diagram_table::entered_row(table, row);
    if diagram_table::kills(table, changed) {
        let opened = diagram_table::cell(table, OWNER, changed);
        net_clears::kill(table, opened, net);
    } else {
        net.arc(GIVE, 3 * changed as usize, 1);
    }
}
