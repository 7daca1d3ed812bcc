// The copies of a diagram's triggers: a count of its own for each row that takes one. Counts them, numbers them behind the items in a table that is
// wide enough for the rank of every use.
// Nothing is asked of a caller: past the end a cell is 0, a store changes nothing.
#![tactic(auto)]

ghost use Rattle.std.specs.Prelude.{◌≡◌, ◌+◌, ◌*◌, take};
ghost use Rattle.diagram_table.specs.Cells.{rank_cell, uses_of};
ghost use Rattle.copies.specs.Counting.{receives_in, use_counted, uses_counted, row_counted, rows_counted, copies_numbered, copies_counted};
ghost use Rattle.copies.specs.Promised.{Widened, CopyTotal};

use diagram_table::{
    COPIES, COUNTED, FIRST_COPY, RANK, RECEIVERS, SOME_TRIGGER, TRIGGER, USE_SIZE, WIDE,
};
use effbd::limits::MOST_ITEMS;

// A FUNCTION that takes `much` of an item receives it, where it is a trigger and `much` is not 0.
#[tactic(auto, unfolding(crate::specs::Counting::receives_in))]
fn receives(table: &[u16], item: u32, much: u16) -> bool
    ensures { result ≡ receives_in table.now item much }
{
    diagram_table::cell(table, TRIGGER, item) != 0 && much != 0
}

// A use, which takes `much` of an item: its rank, in cell `at`, and perhaps one receiver more.
#[tactic(auto, unfolding(crate::specs::Counting::use_counted))]
fn count_use(table: &mut [u16], at: usize, item: u32, much: u16)
    ensures { table.new ≡ use_counted at item much table.old }
{
    let above = diagram_table::cell(table, RECEIVERS, item);
    let one_more = receives(table, item, much);
    words::put(table, at, above);
    if one_more {
        words::put(
            table,
            RECEIVERS as usize + item as usize,
            words::added(above, 1),
        );
    }
}

// The uses of a row, in their order.
fn count_uses(table: &mut [u16], uses: &[u8], row: u32)
    ensures { table.new ≡ uses_counted (rank_cell row 0) (uses_of uses.now) table.old }
{
    let first = RANK as usize + MOST_ITEMS as usize * row as usize;
    for (index, one) in uses.chunks_exact(USE_SIZE).enumerate() {
        let item = words::word(one, 0) as u32;
        let much = words::word(one, 2);
        count_use(table, first + index, item, much);
    }
}

#[tactic(auto, unfolding(crate::specs::Counting::row_counted))]
fn count_row(table: &mut [u16], file: &[u8], row: u32)
    ensures { table.new ≡ row_counted file.now row table.old }
{
    if diagram_table::kind(table, row) != kinds::FUNCTION {
        return;
    }
    let uses = diagram_table::uses(file, table, row);
    count_uses(table, uses, row);
}

// All rows, in their order: a rank counts the receivers above.
fn count_rows(table: &mut [u16], file: &[u8], rows: u16)
    ensures { table.new ≡ rows_counted file.now rows table.old }
{
    for row in 0..rows as u32 {
        count_row(table, file, row);
    }
}

// Copies follow the items, "by item and then row".
fn number_copies(table: &mut [u16], items: u16)
    ensures { table.new ≡ copies_numbered items items 0 0 table.old }
{
    let mut copies: u16 = 0;
    for item in 0..items as u32 {
        let receivers = diagram_table::cell(table, RECEIVERS, item);
        words::put(
            table,
            FIRST_COPY as usize + item as usize,
            words::added(items, copies),
        );
        copies = words::added(copies, receivers);
    }
    words::put(table, COPIES as usize, copies);
}

// Fills a zeroed table: another one's records, and what follows from them of copies; ranks as far as it has cells for them.
// Table, rows, items and file, and no Plant: a Diagram's rows and items are numbers of 16 bits, and copies are numbered in such.
#[tactic(auto, unfolding(crate::specs::Counting::copies_counted))]
fn count_copies(wide: &mut [u16], table: &[u16], rows: u16, items: u16, file: &[u8])
    ensures { wide.new ≡ copies_counted file.now rows items table.now wide.old }
{
    words::copy(wide, words::front(table, SOME_TRIGGER as usize));
    words::put(wide, SOME_TRIGGER as usize, 1);
    count_rows(wide, file, rows);
    number_copies(wide, items);
}

// Widens the table of a file with triggers by all that is asked of their copies, into a zeroed table of the caller's: handed back as a value it
// would be copied.
pub fn widen(wide: &mut [u16; WIDE], table: &[u16], rows: u16, items: u16, file: &[u8])
    ensures { Widened file.now rows items table.now wide.old wide.new }
{
    count_copies(wide, table, rows, items, file);
}

// How many copies there are; the table needs no structure of rows.
pub fn copy_total(table: &[u16], rows: u16, items: u16, file: &[u8]) -> u16
    ensures { CopyTotal file.now rows items table.now result }
{
    let mut cells = [0u16; COUNTED];
    count_copies(&mut cells, table, rows, items, file);
    diagram_table::cell(&cells, COPIES, 0)
}
