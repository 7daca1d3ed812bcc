// The BRANCH rows of an AND, one after another from the last one back.
ghost use Rattle.std.specs.Prelude.{◌≡◌, ◌+◌};
ghost use Rattle.std.specs.Iterator.{YieldsFirst, item_count};
ghost use Rattle.diagram_table.specs.Branches.{branch_rows, branches_left};

use crate::{BRANCH_ENDED, cell};

// The walk stands at a BRANCH row, which it has given or not: each has the one before it for the branch that it ends, the first itself.
#[derive(Drop)]
pub struct Branches<'a> {
    table: &'a [u16],
    row: u32,
    given: bool,
}

impl<'a> Branches<'a> {
    // The BRANCH rows of an AND, the last of which is `last`.
    pub fn back_from(table: &'a [u16], last: u32) -> Branches<'a>
        ensures { branches_left result ≡ branch_rows table.now (last + 1) last }
    {
        Branches {
            table,
            row: last,
            given: false,
        }
    }
}

impl<'a> Iterator for Branches<'a> {
    type Item = u32;

    ghost next_gives = { YieldsFirst branches_left };

    ghost remaining = { item_count branches_left };

    fn next(&mut self) -> Option<u32> {
        if !self.given {
            self.given = true;
            return Some(self.row);
        }
        let before = cell(self.table, BRANCH_ENDED, self.row) as u32;
        if self.row <= before {
            return None;
        }
        self.row = before;
        Some(before)
    }
}
