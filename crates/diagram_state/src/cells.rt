// What stands in the words of a diagram's state; past their end 0.
ghost use Rattle.std.specs.Prelude.{◌≡◌, ◌+◌, ◌*◌, ◌≤◌, ◌<◌, length, get_or, eqb, unwrap_or, IfSome};
ghost use Rattle.effbd.specs.States.{activity_at, turns_at, clock_at};
ghost use Rattle.diagram_moves.specs.Decisions.{count_place, next_busy};
ghost use Rattle.diagram_moves.specs.Decisions.{standing as stands_in};
ghost use Rattle.diagram_moves.specs.BusyRows.{Idle, four_sum};

// Indices: a row's activity, turns and clock are words of one lent state (no slice of structs over lent words).

// The activity of a row.
pub fn activity(state: &[u16], row: u32) -> u16
    ensures { result ≡ get_or state.now (activity_at row) 0 }
{
    words::get(state, 3 * row as usize)
}

// The turns of a row.
pub fn turns(state: &[u16], row: u32) -> u16
    ensures { result ≡ get_or state.now (turns_at row) 0 }
{
    words::get(state, 3 * row as usize + 1)
}

// The clock of a row.
pub fn clock(state: &[u16], row: u32) -> u16
    ensures { result ≡ get_or state.now (clock_at row) 0 }
{
    words::get(state, 3 * row as usize + 2)
}

// A count: number `index` from count `first` on.
pub fn count(state: &[u16], rows: u32, first: u32, index: u32) -> u16
    ensures { result ≡ get_or state.now (count_place rows (first + index)) 0 }
{
    words::get(state, 3 * rows as usize + (first as usize + index as usize))
}

// How many counts stand, of so many from count `first` on: all of them, but for a state that is too short.
pub fn standing(state: &[u16], rows: u32, first: u32, count: u32) -> u32
    ensures { result ≡ stands_in rows first count state.now }
{
    let from = 3 * rows as usize + first as usize;
    let left = state.len().saturating_sub(from);
    left.min(count as usize) as u32
}

// The word at `at`, where it is known to stand.
fn known(state: &[u16], at: usize) -> u16
    requires { at < length state.now }
    ensures { result ≡ get_or state.now at 0 }
{
    state[at]
}

// Four rows are idle: one test for all of them.
fn four_idle(state: &[u16], row: u32) -> bool
    requires { 3 * row + 12 ≤ length state.now }
    ensures { result ≡ eqb (four_sum state.now row) 0 }
{
    let at = 3 * row as usize;
    let two = known(state, at) as u32 + known(state, at + 3) as u32;
    two + known(state, at + 6) as u32 + known(state, at + 9) as u32 == 0
}

// Passes idle rows four at a time: most rows of a plant are idle. By hand: the row that it came to is its answer, which a `for` does not leave.
fn skip_idle(state: &[u16], from: u32, rows: u32) -> u32
    ensures { Idle state.now from result }
{
    let mut row = from;
    if 3 * rows as usize <= state.len() {
        while row as usize + 4 <= rows as usize {
            if !four_idle(state, row) {
                return row;
            }
            row += 4;
        }
    }
    row
}

// The first row from row `from` on that is not idle, if there is one. A loop: with `find` a wait took up to 1.2 times as long.
pub fn next_busy(state: &[u16], from: u32, rows: u32) -> Option<u32>
    ensures value { unwrap_or result rows ≡ next_busy state.now from rows }
    ensures below { IfSome result (λ row. row < rows) }
{
    let first = skip_idle(state, from, rows);
    for row in first..rows {
        if activity(state, row) != 0 {
            return Some(row);
        }
    }
    None
}
