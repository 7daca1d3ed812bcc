// The structure of an accepted diagram's rows, in one pass over the table: each row's from the row before it.
#![tactic(auto)]

ghost use Rattle.std.specs.Prelude.{◌≡◌, ◌+◌, ◌-◌, ◌≤◌, ◌<◌, length};
ghost use Rattle.effbd.specs.Diagrams.{most_rows};
ghost use Rattle.effbd.specs.Moves.{most_word};
ghost use Rattle.diagram_table.specs.Cells.{cell_total};
ghost use Rattle.diagram_structure.specs.Structure.{put_structure, AroundAt, looping_in, followed, structured, structure_filled};

use diagram_table::{BRANCH_ENDED, CELLS, CLOSE, LOOP, OWNER};
use effbd::limits::MOST_ROWS;
use nesting::Part;

// What a row stands in: the innermost construct's open row and latest BRANCH, and the innermost LP.
#[derive(Clone, Copy)]
struct Around {
    pub owner: u16,
    pub latest: u16,
    pub looping: u16,
}

// What a row stands in, as the table says it; `row` may be any number, as an owner in the table may.
fn around_of(table: &[u16], row: usize) -> Around
    requires { row ≤ most_word }
    ensures { AroundAt table.now row result }
{
    Around {
        owner: words::get(table, OWNER as usize + row),
        latest: words::get(table, BRANCH_ENDED as usize + row),
        looping: words::get(table, LOOP as usize + row),
    }
}

// What a row stands in, and that it has no close: the number of rows stands for none.
// A slice whose length is required: `<&mut [u16; CELLS]>::try_from` does not say what the lent words are afterwards.
#[tactic(auto, unfolding(crate::specs::Structure::put_structure, diagram_table::specs::CellStores::put_all))]
fn put_structure(table: &mut [u16], rows: u16, row: usize, around: Around)
    requires { (row < most_rows) × (length table.old ≡ cell_total) }
    ensures { table.new ≡ put_structure rows row around.owner around.latest around.looping table.old }
{
    table[OWNER as usize + row] = around.owner;
    table[BRANCH_ENDED as usize + row] = around.latest;
    table[CLOSE as usize + row] = rows;
    table[LOOP as usize + row] = around.looping;
}

// The innermost LP in a construct that a row of this kind opens, `looping` being the one around it.
fn looping_in(kind: u16, row: u16, looping: u16) -> u16
    ensures { result ≡ looping_in kind row looping }
{
    if kind == kinds::LP_OPEN { row } else { looping }
}

// The structure of the row after `row`; where `row` is a close, it is that of its owner.
fn follow(table: &mut [u16], rows: u16, row: u16)
    requires { (row + 1 < most_rows) × (length table.old ≡ cell_total) }
    ensures { table.new ≡ followed rows row table.old }
{
    let at = row as usize;
    let kind = table[at];
    let around = around_of(table, at);
    let next = match nesting::part_of(kind) {
        Part::Opens => Around {
            owner: row,
            latest: row + 1,
            looping: looping_in(kind, row, around.looping),
        },
        Part::Turns => Around {
            latest: row,
            ..around
        },
        Part::Closes => {
            let own = around.owner as usize;
            let opened = around_of(table, own);
            words::put(table, CLOSE as usize + own, row);
            opened
        }
        Part::Stays => around,
    };
    put_structure(table, rows, at + 1, next);
}

// The structure of all rows, of which there are some and not too many.
fn fill_rows(table: &mut [u16], rows: u16)
    requires { ((1 ≤ rows) × (rows ≤ most_rows)) × (length table.old ≡ cell_total) }
    ensures { table.new ≡ structured rows (rows - 1) (put_structure rows 0 0 0 0 table.old) }
{
    let nothing = Around {
        owner: 0,
        latest: 0,
        looping: 0,
    };
    put_structure(table, rows, 0, nothing);
    for row in 0..rows - 1 {
        follow(table, rows, row);
    }
}

// The structure of all rows of a diagram's table; where it is no table's length or number of rows, nothing changes.
#[tactic(auto, unfolding(crate::specs::Structure::structure_filled))]
pub fn fill_structure(table: &mut [u16], rows: u16)
    ensures { table.new ≡ structure_filled rows table.old }
{
    if table.len() == CELLS && 0 < rows && rows <= MOST_ROWS {
        fill_rows(table, rows);
    }
}
