// Outlets and EXITs: refusal 49, and two cells of each EXIT, asked where the nesting is right and the table has the structure of its rows.
// Nothing is asked of a caller: past the table's end a cell is 0, and a table of another length stays as it is.
#![tactic(auto)]

ghost use Rattle.std.specs.Prelude.{◌≡◌, ◌≤◌, length};
ghost use Rattle.effbd.specs.Diagrams.{most_rows};
ghost use Rattle.diagram_table.specs.Cells.{cell_total};
ghost use Rattle.outlets.specs.Outlets.{has_box, branches_below, in_scenario_of, is_exit_of, names_in, exits_for, matched_at, matched_in, outlet_of, OwnBox, BoxTurn, BoxesPut, Matched, OutletTurn, OutletsPut, OutletsRead};

use diagram_table::{CELLS, FIRST, OUTLET, OWNER, SCENARIO_LAST};
use effbd::limits::MOST_ROWS;
use effbd::{Reason, Refusal};

// A box, by the row that opens it, in a table of so many rows; the column of the outlets has each EXIT's box so far.
#[derive(Clone, Copy)]
struct OpenBox<'a> {
    pub table: &'a [u16],
    pub rows: u16,
    pub opened: u16,
}

// Does some row open a box? Plants without one need no look at outlets.
pub fn has_box(table: &[u16], rows: u16) -> bool
    ensures { result ≡ has_box table.now rows }
{
    0 < nesting::count_kind(table, rows, kinds::BOX_OPEN)
}

// How many BRANCH rows the construct that row `owner` opens has before row `end`.
fn branches_below(table: &[u16], owner: u16, end: u32) -> u32
    ensures { result ≡ branches_below table.now owner end }
{
    // A `for`, no filter that is counted: the compiler then knows that each row is one of the table's, and reading boxes takes 0.7 of the time.
    let mut count: u32 = 0;
    for row in 0..end {
        if diagram_table::is_branch(table, owner as u32, row) {
            count += 1;
        }
    }
    count
}

// Is row `row`, around which row `owner` opens a construct, in the scenario of that?
#[tactic(auto, unfolding(crate::specs::Outlets::in_scenario_of))]
fn in_scenario(table: &[u16], owner: u16, row: u32) -> bool
    ensures { result ≡ in_scenario_of table.now owner row }
{
    diagram_table::kind(table, owner as u32) == kinds::BOX_OPEN
        && branches_below(table, owner, row) == 0
}

// "EXIT belongs to the innermost box whose scenario it is in": owner by owner outward.
fn own_box(table: &[u16], row: u32) -> u16
    ensures { OwnBox table.now row result }
{
    let mut owner = diagram_table::cell(table, OWNER, row);
    // No `for`: from owner to owner, as far as it takes.
    while !in_scenario(table, owner, row) {
        let around = diagram_table::cell(table, OWNER, owner as u32);
        if owner <= around {
            return owner;
        }
        owner = around;
    }
    owner
}

// An EXIT gets its box, for the time being, into the column of the outlets; of another row nothing changes.
fn put_box(table: &mut [u16], row: u32)
    ensures { BoxTurn table.old row table.new }
{
    if diagram_table::kind(table, row) == kinds::BOX_EXIT {
        let own = own_box(table, row);
        words::put(table, OUTLET as usize + row as usize, own);
    }
}

// So does each.
fn put_boxes(table: &mut [u16], rows: u16)
    requires { (length table.old ≡ cell_total) × (rows ≤ most_rows) }
    ensures { BoxesPut rows table.old rows table.new }
{
    for row in 0..rows as u32 {
        put_box(table, row);
    }
}

impl<'a> OpenBox<'a> {
    // Is row `row` an EXIT of it?
    #[tactic(auto, unfolding(crate::specs::Outlets::is_exit_of))]
    fn is_exit(&self, row: u32) -> bool
        ensures { result ≡ is_exit_of self.now.table.now self.now.opened row }
    {
        diagram_table::kind(self.table, row) == kinds::BOX_EXIT
            && diagram_table::cell(self.table, OUTLET, row) == self.opened
    }

    // Does row `row`, as an EXIT of it, name this outlet?
    #[tactic(auto, unfolding(crate::specs::Outlets::names_in))]
    fn names(&self, row: u32, number: u32) -> bool
        ensures { result ≡ names_in self.now.table.now self.now.opened number row }
    {
        self.is_exit(row) && diagram_table::cell(self.table, FIRST, row) as u32 == number
    }

    // How many of its EXITs name this outlet.
    fn exits_for(&self, number: u32) -> u32
        ensures { result ≡ exits_for self.now.table.now self.now.rows self.now.opened number }
    {
        // A `for`, as in `branches_below`.
        let mut count: u32 = 0;
        for row in 0..self.rows as u32 {
            if self.names(row, number) {
                count += 1;
            }
        }
        count
    }

    // Is row `row`, if it is an outlet of it, named by one EXIT, and if it is an EXIT of it, naming an outlet?
    fn matched_at(&self, row: u32) -> bool
        ensures { result ≡ matched_at self.now.table.now self.now.rows self.now.opened row }
    {
        if diagram_table::is_branch(self.table, self.opened as u32, row) {
            let number = branches_below(self.table, self.opened, row);
            return self.exits_for(number) == 1;
        }
        if self.is_exit(row) {
            let outlets = branches_below(self.table, self.opened, self.rows as u32);
            return (diagram_table::cell(self.table, FIRST, row) as u32) < outlets;
        }
        true
    }

    // Are its outlets and EXITs one to one?
    fn matched(&self) -> bool
        ensures { result ≡ matched_in self.now.table.now self.now.rows self.now.opened }
    {
        // A `for`, as in `branches_below`.
        for row in 0..self.rows as u32 {
            if !self.matched_at(row) {
                return false;
            }
        }
        true
    }

    // The BRANCH of this outlet; where it has none the number of rows, no Option: so `outlet_of` and the EXIT's cell say it.
    fn outlet(&self, number: u32) -> u16
        ensures { result ≡ outlet_of self.now.table.now self.now.rows self.now.opened number }
    {
        let mut seen: u32 = 0;
        for row in 0..self.rows {
            if diagram_table::is_branch(self.table, self.opened as u32, row as u32) {
                if seen == number {
                    return row;
                }
                seen += 1;
            }
        }
        self.rows
    }
}

// The lowest box whose outlets and EXITs are not one to one.
fn judge(table: &[u16], rows: u16) -> Result<(), Refusal>
    ensures { Matched table.now rows result }
{
    for opened in 0..rows {
        if diagram_table::kind(table, opened as u32) == kinds::BOX_OPEN {
            let open = OpenBox {
                table,
                rows,
                opened,
            };
            if !open.matched() {
                return Err(Refusal {
                    reason: Reason::OutletsUnmatched,
                    value: opened as u32,
                });
            }
        }
    }
    Ok(())
}

// An EXIT gets its outlet's BRANCH and the last row of the scenario that it leaves, which the first outlet follows.
fn put_outlet(table: &mut [u16], rows: u16, row: u32)
    ensures { OutletTurn table.old rows row table.new }
{
    if diagram_table::kind(table, row) == kinds::BOX_EXIT {
        let opened = diagram_table::cell(table, OUTLET, row);
        let number = diagram_table::cell(table, FIRST, row);
        let own = OpenBox {
            table: &*table,
            rows,
            opened,
        };
        let outlet = own.outlet(number as u32);
        let last = own.outlet(0).saturating_sub(1);
        words::put(table, OUTLET as usize + row as usize, outlet);
        words::put(table, SCENARIO_LAST as usize + row as usize, last);
    }
}

// So does each.
fn put_outlets(table: &mut [u16], rows: u16)
    requires { (length table.old ≡ cell_total) × (rows ≤ most_rows) }
    ensures { OutletsPut rows table.old rows table.new }
{
    for row in 0..rows as u32 {
        put_outlet(table, rows, row);
    }
}

// Judges the outlets of all rows' boxes and, where each has one EXIT, puts those EXITs' cells.
pub fn read_outlets(table: &mut [u16], rows: u16) -> Result<(), Refusal>
    ensures { OutletsRead rows table.old table.new result }
{
    if table.len() != CELLS || MOST_ROWS < rows {
        return Ok(());
    }
    put_boxes(table, rows);
    judge(table, rows)?;
    put_outlets(table, rows);
    Ok(())
}
