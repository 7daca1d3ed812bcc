// Loops that spend no time: refusal 45, asked where the nesting is right. One pass over the rows, the last row first. Of the LPs around a row
// the inner ones close first; so those with no FUNCTION of α at least 1 from that row to their close are the innermost, and how many they
// are says which they are.
#![tactic(auto)]

ghost use Rattle.std.specs.Prelude.{◌≡◌, ◌+◌, ◌≤◌, ◌<◌, length, get_or};
ghost use Rattle.effbd.specs.Moves.{most_word};
ghost use Rattle.nesting.specs.Runs.{first_in};
ghost use Rattle.loop_times.specs.Loops.{looked, BehindClose, LoopsRead};

use effbd::limits::MOST_ROWS;
use effbd::{Reason, Refusal};

// What the rows from one on have shown: how many of the LPs around that row have spent no time so far, and the lowest LP from there on that spends
// none, if there is one.
#[derive(Clone, Copy)]
pub(crate) struct Seen {
    pub timeless: u16,
    pub lowest: Option<u16>,
}

// Looks at the row before: an LP close is that of one LP more, a FUNCTION of α at least 1 is in all of them, an LP open leaves the innermost, which is
// told where it has spent no time.
#[tactic(auto, unfolding(crate::specs::Loops::looked))]
fn look(table: &[u16], row: u16, seen: Seen) -> Seen
    requires { (row < length table.now) × (seen.timeless + 1 ≤ most_word) }
    ensures { result ≡ looked (get_or table.now row 0) (first_in table.now row) row seen }
{
    match table[row as usize] {
        kinds::FUNCTION if words::get(table, MOST_ROWS as usize + row as usize) != 0 => Seen {
            timeless: 0,
            ..seen
        },
        kinds::LP_CLOSE => Seen {
            timeless: seen.timeless + 1,
            ..seen
        },
        kinds::LP_OPEN if seen.timeless != 0 => Seen {
            timeless: seen.timeless - 1,
            lowest: Some(row),
        },
        _ => seen,
    }
}

// The row behind the last LP close below `row`, 0 for none: where no LP is left to look at, the rows between need no look.
fn behind_close(table: &[u16], row: u16) -> u16
    requires { row ≤ length table.now }
    ensures { BehindClose table.now row result }
{
    for at in (0..row).rev() {
        if table[at as usize] == kinds::LP_CLOSE {
            return at + 1;
        }
    }
    0
}

// The pass over all rows.
fn judge(table: &[u16], rows: u16) -> Result<(), Refusal>
    requires { rows ≤ length table.now }
    ensures { LoopsRead table.now rows result }
{
    let mut seen = Seen {
        timeless: 0,
        lowest: None,
    };
    let mut row = behind_close(table, rows);
    // No `for`: rows that need no look are left out.
    while 0 < row {
        row -= 1;
        seen = look(table, row, seen);
        if seen.timeless == 0 {
            row = behind_close(table, row);
        }
    }
    match seen.lowest {
        Some(first) => Err(Refusal {
            reason: Reason::LoopSpendsNoTime,
            value: first as u32,
        }),
        None => Ok(()),
    }
}

// Judges the loops of all rows; their kinds are the table's first words, their first fields start at word 64. Plants without a loop need no pass, and no
// diagram has more rows than the table has words.
pub fn read_loops(table: &[u16], rows: u16) -> Result<(), Refusal>
    ensures { LoopsRead table.now rows result }
{
    if table.len() < rows as usize {
        return Ok(());
    }
    if nesting::count_kind(table, rows, kinds::LP_OPEN) == 0 {
        return Ok(());
    }
    judge(table, rows)
}
