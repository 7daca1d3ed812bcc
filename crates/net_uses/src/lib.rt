// The transitions of a FUNCTION, from a diagram's table (crate diagram_table) and the uses in its file's bytes. Nothing is asked of a caller:
// any words are a table.
#![tactic(auto)]

ghost use Rattle.std.specs.Prelude.{◌<◌, ◌≡◌, length};
ghost use Rattle.std.specs.Int.{from_bool};
ghost use Rattle.effbd.specs.Nets.{take_arc, give_arc};
ghost use Rattle.diagram_table.specs.Cells.{uses_of};
ghost use Rattle.net_records.specs.Writing.{Wrote};
ghost use Rattle.net_uses.specs.FunctionTransitions.{weight_at, equal_arcs, copy_arcs, use_arc, pass_arcs, trigger_arcs, plain_arcs, arcs_of, function_start, function_end, function_of, function_records};

use diagram_table::{FIRST, SECOND, SOME_TRIGGER, TRIGGER, USE_SIZE};
use kinds::{GIVE, TAKE};
use net_records::Writer;

// A use is its item, its take and its give: the byte where the weight of its arc of a kind stands.
#[tactic(auto, unfolding(crate::specs::FunctionTransitions::weight_at))]
fn weight_at(kind: u16) -> usize
    ensures { result ≡ weight_at kind }
{
    if kind == TAKE {
        return 2;
    }
    4
}

// Arcs of one weight to `number` places, from place `first` on.
fn equal_arcs(kind: u16, first: usize, number: u32, weight: u16, net: &mut Writer)
    requires { first < 8589934592 }
    ensures { Wrote net.old net.new (equal_arcs kind first number weight) }
{
    for i in 0..number {
        net.arc(kind, first + i as usize, weight);
    }
}

// The row of a FUNCTION in a table of so many rows, and its uses as the very bytes of the lent file.
#[derive(Clone, Copy)]
struct FunctionRow<'a> {
    table: &'a [u16],
    rows: u16,
    row: u16,
    uses: &'a [u8],
}

impl<'a> FunctionRow<'a> {
    // Use `index`, which names trigger `item`: arcs to the copies that it changes. One that weighs nothing goes through none of them.
    fn copy_arcs(&self, kind: u16, index: u32, item: u16, weight: u16, net: &mut Writer)
        ensures { Wrote net.old net.new (copy_arcs self.now.table.now self.now.rows kind self.now.row index item weight) }
    {
        if weight == 0 {
            return;
        }
        let giving = kind == GIVE;
        let row = self.row as u32;
        let first = table_counts::run_first(self.table, giving, row, index, item as u32);
        let number = table_counts::run_length(self.table, giving, item as u32);
        let place = 3 * self.rows as usize + first as usize;
        equal_arcs(kind, place, number, weight, net);
    }

    // Use `index`, which names `item`, in a pass over the uses: the arc of a plain item, or those of a trigger's copies.
    fn use_arc(&self, kind: u16, copies: bool, index: u32, item: u16, weight: u16, net: &mut Writer)
        ensures { Wrote net.old net.new (use_arc self.now.table.now self.now.rows kind self.now.row (from_bool copies) index item weight) }
    {
        if diagram_table::cell(self.table, TRIGGER, item as u32) != copies as u16 {
            return;
        }
        if copies {
            self.copy_arcs(kind, index, item, weight, net);
        } else {
            net.arc(kind, 3 * self.rows as usize + item as usize, weight);
        }
    }

    // A pass over the uses. How many they are is a word of the table, so that `index` fits.
    fn pass_arcs(&self, kind: u16, copies: bool, net: &mut Writer)
        requires { length self.now.uses.now < 393216 }
        ensures { Wrote net.old net.new (pass_arcs self.now.table.now self.now.rows kind self.now.row (from_bool copies) 0 (uses_of self.now.uses.now)) }
    {
        let field = weight_at(kind);
        for (index, part) in self.uses.chunks_exact(USE_SIZE).enumerate() {
            let item = words::word(part, 0);
            let weight = words::word(part, field);
            self.use_arc(kind, copies, index as u32, item, weight, net);
        }
    }

    // The arcs where there are triggers. Places rise, and the copies of triggers stand behind all items: they have a pass of their own.
    fn trigger_arcs(&self, kind: u16, net: &mut Writer)
        requires { length self.now.uses.now < 393216 }
        ensures { Wrote net.old net.new (trigger_arcs self.now.table.now self.now.rows kind self.now.row (uses_of self.now.uses.now)) }
    {
        self.pass_arcs(kind, false, net);
        self.pass_arcs(kind, true, net);
    }

    // The arcs where there are none: no item is looked up.
    fn plain_arcs(&self, kind: u16, net: &mut Writer)
        ensures { Wrote net.old net.new (plain_arcs self.now.rows kind (uses_of self.now.uses.now)) }
    {
        let counts = 3 * self.rows as usize;
        let field = weight_at(kind);
        for part in self.uses.chunks_exact(USE_SIZE) {
            let item = words::word(part, 0) as usize;
            let weight = words::word(part, field);
            net.arc(kind, counts + item, weight);
        }
    }

    // Whether there are triggers is known where a function is compiled, so that the plain loop is compiled into its place and the passes are not.
    #[tactic(auto, unfolding(crate::specs::FunctionTransitions::arcs_of))]
    fn arcs<const TRIGGERS: bool>(&self, kind: u16, net: &mut Writer)
        requires { length self.now.uses.now < 393216 }
        ensures { Wrote net.old net.new (arcs_of TRIGGERS self.now.table.now self.now.rows kind self.now.row (uses_of self.now.uses.now)) }
    {
        if TRIGGERS {
            self.trigger_arcs(kind, net);
        } else {
            self.plain_arcs(kind, net);
        }
    }

    fn start<const TRIGGERS: bool>(&self, net: &mut Writer)
        requires { length self.now.uses.now < 393216 }
        ensures { Wrote net.old net.new (function_start self.now.row (arcs_of TRIGGERS self.now.table.now self.now.rows take_arc self.now.row (uses_of self.now.uses.now))) }
    {
        let ready = 3 * self.row as usize;
        net.transition(self.row as usize, 0, 0);
        net.arc(TAKE, ready, 1);
        self.arcs::<TRIGGERS>(TAKE, net);
        net.arc(GIVE, ready + 1, 1);
    }

    fn end<const TRIGGERS: bool>(&self, net: &mut Writer)
        requires { length self.now.uses.now < 393216 }
        ensures { Wrote net.old net.new (function_end self.now.table.now self.now.row (arcs_of TRIGGERS self.now.table.now self.now.rows give_arc self.now.row (uses_of self.now.uses.now))) }
    {
        let earliest = diagram_table::cell(self.table, FIRST, self.row as u32);
        let latest = diagram_table::cell(self.table, SECOND, self.row as u32);
        net.transition(self.row as usize, earliest, latest);
        net.arc(TAKE, 3 * self.row as usize + 1, 1);
        net_entries::enter(self.table, self.row as u32 + 1, net);
        self.arcs::<TRIGGERS>(GIVE, net);
    }

    // Both transitions.
    fn transitions<const TRIGGERS: bool>(&self, net: &mut Writer)
        requires { length self.now.uses.now < 393216 }
        ensures { Wrote net.old net.new (function_of self.now.table.now self.now.row (arcs_of TRIGGERS self.now.table.now self.now.rows take_arc self.now.row (uses_of self.now.uses.now)) (arcs_of TRIGGERS self.now.table.now self.now.rows give_arc self.now.row (uses_of self.now.uses.now))) }
    {
        self.start::<TRIGGERS>(net);
        self.end::<TRIGGERS>(net);
    }
}

// The uses are handed back as the very bytes of the lent file, and lent on. No `Plant`, as in `net_rows::transitions`.
pub fn function(table: &[u16], file: &[u8], rows: u16, row: u16, net: &mut Writer)
    ensures { Wrote net.old net.new (function_records table.now file.now rows row) }
{
    let uses = diagram_table::uses(file, table, row as u32);
    let function = FunctionRow {
        table,
        rows,
        row,
        uses,
    };
    if diagram_table::cell(table, SOME_TRIGGER, 0) == 0 {
        function.transitions::<false>(net);
    } else {
        function.transitions::<true>(net);
    }
}
