// A diagram as its file says it: the constants of document 01, its table, and the words of its fresh state.
#![tactic(auto)]

ghost use Rattle.std.specs.Prelude.{◌≡◌};
ghost use Rattle.diagram.specs.FreshWords.{fresh_put, Freshened};

use diagram_table::CELLS;
use effbd::limits::{MOST_ITEMS, MOST_ROWS, PLAIN_PLACES};

// A diagram: how many rows and items it has, and the table of its rows and items. Crate diagram_table has the table's layout.
#[derive(Clone, Copy)]
pub struct Diagram {
    pub rows: u16,
    pub items: u16,
    pub table: [u16; CELLS],
}

impl Diagram {
    pub const EDITION: u16 = 1;

    pub const ROWS: u16 = MOST_ROWS;

    pub const ITEMS: u16 = MOST_ITEMS;

    // The words of the fresh state but for the copies of triggers, which follow them (crate fresh_copies), and 0 behind them.
    pub fn fresh(self) -> [u16; PLAIN_PLACES as usize]
        ensures { Freshened self.rows self.items self.table result }
    {
        let mut state = [0u16; PLAIN_PLACES as usize];
        put_fresh(&mut state, self.rows, self.items, &self.table);
        state
    }
}

// Row 0 is ready, the counts are the initial ones; a trigger's shared count is 0.
#[tactic(auto, unfolding(crate::specs::FreshWords::fresh_put))]
fn put_fresh(state: &mut [u16], rows: u16, items: u16, table: &[u16])
    ensures { state.new ≡ fresh_put rows items table.now state.old }
{
    words::put(state, 0, 1);
    let first = 3 * rows as usize;
    for item in 0..items as u32 {
        words::put(
            state,
            first + item as usize,
            table_counts::shared_count(table, item),
        );
    }
}
