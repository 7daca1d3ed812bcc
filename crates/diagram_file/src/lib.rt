// Diagram files: read, accepted or refused, and held as one flat table.
#![tactic(auto)]

ghost use Rattle.std.specs.Prelude.{◌≡◌, length};
ghost use Rattle.effbd.specs.Answers.{said, refusal_number, refusal_value};
ghost use Rattle.effbd.specs.Nesting.{uses_part, part_in};
ghost use Rattle.effbd.specs.States.{state_length};
ghost use Rattle.diagram_file.specs.Tables.{Judged, Filled, DiagramOf, Parsed, PartIs};
ghost use Rattle.diagram_table.specs.Cells.{cell_total};

use diagram::Diagram;
use diagram_table::{CELLS, Part, SOME_TRIGGER};
use effbd::{Answer, Refusal};

// Judges a file: its records, their nesting, then the rules behind it; a zeroed table is left with the records' columns, and where a row opens a
// box with the structure of its rows.
fn judge(file: &[u8], table: &mut [u16]) -> Result<(), Refusal>
    requires { length table.old ≡ cell_total }
    ensures { Judged file.now table.new (refusal_number (said result)) (refusal_value (said result)) }
{
    if let Err(fault) = diagram_records::read_records(file, table) {
        return Err(Refusal {
            reason: fault.reason,
            value: fault.at as u32,
        });
    }
    let rows = words::word(file, 6);
    nesting::read_nesting(table, rows)?;
    diagram_rules::read_rules(table, rows)
}

// Fills a zeroed table from a file: the columns of its records, and where nothing is refused the structure of its rows.
fn fill(file: &[u8], table: &mut [u16]) -> Result<(), Refusal>
    requires { length table.old ≡ cell_total }
    ensures { Filled file.now table.new (refusal_number (said result)) (refusal_value (said result)) }
{
    judge(file, table)?;
    let rows = words::word(file, 6);
    if outlets::has_box(table, rows) {
        return Ok(());
    }
    diagram_structure::fill_structure(table, rows);
    Ok(())
}

// A file that is turned away: why, and what its head's words say of rows and items, whatever they are.
#[derive(Clone, Copy, Debug, PartialEq, Eq)]
pub struct Unread {
    pub why: Refusal,
    pub rows: u16,
    pub items: u16,
}

// Reads a diagram file.
pub fn parse(file: &[u8]) -> Result<Diagram, Unread>
    ensures { Parsed file.now result }
{
    match diagram_of(file) {
        Ok(diagram) => Ok(diagram),
        Err(why) => Err(Unread {
            why,
            rows: words::word(file, 6),
            items: words::word(file, 8),
        }),
    }
}

// The same for a call that, of a refused file, asks for the refusal alone.
pub fn diagram_of(file: &[u8]) -> Result<Diagram, Refusal>
    ensures { DiagramOf file.now result }
{
    let mut table = [0u16; CELLS];
    fill(file, &mut table)?;
    Ok(Diagram {
        rows: words::word(file, 6),
        items: words::word(file, 8),
        table,
    })
}

// As `read`, over a zeroed table.
fn read_into(file: &[u8], table: &mut [u16]) -> Answer
    requires { length table.old ≡ cell_total }
    ensures { said result ≡ state_length file.now }
{
    judge(file, table)?;
    let rows = words::word(file, 6);
    let items = words::word(file, 8);
    let plain = 3 * rows as u32 + items as u32;
    if diagram_table::cell(table, SOME_TRIGGER, 0) == 0 {
        return Ok(plain);
    }
    let copies = copies::copy_total(table, rows, items, file);
    Ok(plain + copies as u32)
}

// Accepts a diagram file with the number of words of its state, or turns it away. The verdict asks for no structure but a box's.
pub fn read(file: &[u8]) -> Answer
    ensures { said result ≡ state_length file.now }
{
    let mut table = [0u16; CELLS];
    read_into(file, &mut table)
}

// Where the uses of a FUNCTION row lie in the file; for a refused file or another row an empty part at the file's start.
pub fn uses_part(file: &[u8], row: u16) -> Part
    ensures { PartIs file.now (uses_part file.now row) result }
{
    match diagram_of(file) {
        Ok(diagram) if row < diagram.rows => {
            diagram_table::uses_part(&diagram.table, row as u32)
        }
        _ => Part { start: 0, size: 0 },
    }
}

// The uses of a FUNCTION row, as the very bytes of the file: the part that `uses_part` says.
pub fn uses<'a>(file: &'a [u8], row: u16) -> &'a [u8]
    ensures { result.now ≡ part_in file.now (uses_part file.now row) }
{
    let part = uses_part(file, row);
    let start = part.start;
    let end = start + part.size;
    &file[start..end]
}
