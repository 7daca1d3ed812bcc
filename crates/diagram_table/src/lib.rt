// A diagram's table: its layout, and what its cells, as crate diagram_file fills them, say of a row's uses, of a construct's
// BRANCH rows and of entering a row; what they say of counts is crate table_counts'.
// Nothing is asked of a caller: past the table's end a cell is 0.
#![tactic(auto)]

ghost use Rattle.std.specs.Prelude.{◌≡◌, ◌+◌, ◌<◌, get_or};
ghost use Rattle.diagram_table.specs.Cells.{kind_in, uses_part_in, uses_bytes, is_branch, kills_in, entered_in};

use effbd::limits::{MOST_ITEMS, MOST_ROWS};

mod branches;

pub use branches::Branches;

// A column has a cell for each row; where each column starts, behind the kinds.
pub const COLUMN: u32 = MOST_ROWS as u32;

pub const FIRST: u32 = COLUMN;

pub const SECOND: u32 = 2 * COLUMN;

pub const USES_START: u32 = 3 * COLUMN;

pub const USES_NUMBER: u32 = 4 * COLUMN;

pub const OWNER: u32 = 5 * COLUMN;

pub const BRANCH_ENDED: u32 = 6 * COLUMN;

pub const CLOSE: u32 = 7 * COLUMN;

pub const LOOP: u32 = 8 * COLUMN;

// Two of these columns say something else of an EXIT: its outlet's BRANCH, and the last row of the scenario that it leaves.
pub const OUTLET: u32 = LOOP;

pub const SCENARIO_LAST: u32 = SECOND;

// Behind the columns the items' initial counts; 1 for each item that is a trigger; whether some item is one.
pub const COUNT: u32 = 9 * COLUMN;

pub const TRIGGER: u32 = COUNT + MOST_ITEMS as u32;

pub const SOME_TRIGGER: u32 = COUNT + 2 * MOST_ITEMS as u32;

// How many cells a table has that says nothing of copies: a plant without triggers pays for no more.
pub const CELLS: usize = SOME_TRIGGER as usize + 1;

// Where there are triggers, behind all these how many rows receive each item, the number of its first copy, and the number of copies.
pub const RECEIVERS: u32 = CELLS as u32;

pub const FIRST_COPY: u32 = RECEIVERS + MOST_ITEMS as u32;

pub const COPIES: u32 = FIRST_COPY + MOST_ITEMS as u32;

pub const COUNTED: usize = COPIES as usize + 1;

// Then a cell for each use of each row: how many rows above it receive the item.
pub const RANK: u32 = COUNTED as u32;

pub const WIDE: usize = COUNTED + MOST_ROWS as usize * MOST_ITEMS as usize;

// The bytes of a use: item, take, give.
pub const USE_SIZE: usize = 6;

// Where a part of a file starts, and its size.
#[derive(Clone, Copy)]
pub struct Part {
    pub start: usize,
    pub size: usize,
}

// A diagram's table beside the file that it was read from, and how many rows and items it has: what every move is told by. Any words and bytes
// are one.
#[derive(Clone, Copy)]
pub struct Plant<'a> {
    pub table: &'a [u16],
    pub file: &'a [u8],
    pub rows: u32,
    pub items: u32,
}

impl<'a> Plant<'a> {
    pub fn kind(&self, row: u32) -> u16
        ensures { result ≡ kind_in self.now.table.now row }
    {
        kind(self.table, row)
    }

    pub fn cell(&self, column: u32, row: u32) -> u16
        ensures { result ≡ get_or self.now.table.now (column + row) 0 }
    {
        cell(self.table, column, row)
    }

    // The uses of a row, as the very bytes of the file.
    pub fn uses(&self, row: u32) -> &'a [u8]
        ensures { result.now ≡ uses_bytes self.now.table.now self.now.file.now row }
    {
        uses(self.file, self.table, row)
    }
}

// The kind of a row.
pub fn kind(table: &[u16], row: u32) -> u16
    ensures { result ≡ kind_in table.now row }
{
    words::get(table, row as usize)
}

// Another column of a row.
pub fn cell(table: &[u16], column: u32, row: u32) -> u16
    ensures { result ≡ get_or table.now (column + row) 0 }
{
    words::get(table, column as usize + row as usize)
}

// Where the uses of a row lie in the file; of a row without uses an empty part.
pub fn uses_part(table: &[u16], row: u32) -> Part
    ensures start_value { (result.start ≡ (uses_part_in table.now row).start) × (result.size ≡ (uses_part_in table.now row).size) }
    ensures start_bound { (result.start < 65536) × (result.size < 393216) }
{
    Part {
        start: cell(table, USES_START, row) as usize,
        size: USE_SIZE * cell(table, USES_NUMBER, row) as usize,
    }
}

// The uses of a row, as the very bytes of the file; where the file does not have them all, an empty part at its start.
pub fn uses<'a, 'b>(file: &'a [u8], table: &'b [u16], row: u32) -> &'a [u8]
    ensures { result.now ≡ uses_bytes table.now file.now row }
{
    let part = uses_part(table, row);
    let start = part.start;
    let end = start + part.size;
    if end <= file.len() {
        return &file[start..end];
    }
    &file[0..0]
}

// Row `row` is a BRANCH of the construct that row `owner` opens.
pub fn is_branch(table: &[u16], owner: u32, row: u32) -> bool
    ensures { result ≡ is_branch table.now owner row }
{
    if kind(table, row) != kinds::BRANCH {
        return false;
    }
    cell(table, OWNER, row) as u32 == owner
}

// Row `row` is a BRANCH that kills.
pub fn kills(table: &[u16], row: u32) -> bool
    ensures { result ≡ kills_in table.now row }
{
    if kind(table, row) != kinds::BRANCH {
        return false;
    }
    cell(table, FIRST, row) == 1
}

// The row that entering a row changes where no branch kills; where one does, that branch's BRANCH.
pub fn entered_row(table: &[u16], row: u32) -> u32
    ensures { result ≡ entered_in table.now row }
{
    let own_kind = kind(table, row);
    if own_kind == kinds::BRANCH {
        let owner = cell(table, OWNER, row) as u32;
        if kind(table, owner) == kinds::AND_OPEN {
            return cell(table, BRANCH_ENDED, row) as u32;
        }
        return cell(table, CLOSE, owner) as u32;
    }
    if own_kind == kinds::AND_CLOSE {
        return cell(table, BRANCH_ENDED, row) as u32;
    }
    row
}
