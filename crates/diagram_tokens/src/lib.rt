// What a move changes in the tokens on a diagram's rows: entering, killing, passing on, the branches of an AND, leaving the rows of a loop or of
// a box's scenario. Crate table_move says which of it a move does; a row's activity is set by crate diagram_activities. Every function is total:
// past the end a cell or word is 0, a store changes nothing.
#![tactic(auto)]

ghost use Rattle.std.specs.Prelude.{◌≡◌};
ghost use Rattle.diagram_moves.specs.Changes.{words_cleared, rows_killed, entered, token_passed, branches_entered, rows_left};

use diagram_table::{BRANCH_ENDED, Branches, CLOSE, OWNER};

// The words from `first` on, up to but not including `end`, as far as the state has them: one look at its length serves all.
fn clear_words(state: &mut [u16], first: usize, end: usize)
    ensures { state.new ≡ words_cleared first end state.old }
{
    let to = state.len().min(end);
    let from = to.min(first);
    state[from..to].fill(0);
}

// A branch of the AND that row `owner` opens kills: the rows strictly inside are cleared, then all its BRANCH rows are done.
fn kill_rows(table: &[u16], state: &mut [u16], owner: u16)
    ensures { state.new ≡ rows_killed table.now owner state.old }
{
    let close = diagram_table::cell(table, CLOSE, owner as u32);
    let last = diagram_table::cell(table, BRANCH_ENDED, close as u32);
    clear_words(state, 3 * (owner as usize + 1), 3 * close as usize);
    diagram_activities::set_branches(table, state, last as u32, 3);
}

pub fn enter(table: &[u16], state: &mut [u16], row: u32)
    ensures { state.new ≡ entered table.now row state.old }
{
    let changed = diagram_table::entered_row(table, row);
    if diagram_table::kills(table, changed) {
        let owner = diagram_table::cell(table, OWNER, row);
        kill_rows(table, state, owner);
    } else if diagram_table::kind(table, changed) == kinds::BRANCH {
        diagram_activities::set_row(state, changed, 3);
    } else {
        diagram_activities::set_row(state, changed, 1);
    }
}

// Row `from` goes idle, row `to` is entered.
pub fn pass_token(table: &[u16], state: &mut [u16], from: u32, to: u32)
    ensures { state.new ≡ token_passed table.now from to state.old }
{
    diagram_activities::set_row(state, from, 0);
    enter(table, state, to);
}

// All branches of an AND are entered, `last` being its last BRANCH row.
pub fn enter_branches(table: &[u16], state: &mut [u16], last: u16)
    ensures { state.new ≡ branches_entered table.now last state.old }
{
    for row in Branches::back_from(table, last as u32) {
        enter(table, state, row + 1);
    }
}

// The rows from `first` to `last` are left for row `to`: they get activity, turns and clock 0, it is entered.
pub fn leave_rows(table: &[u16], state: &mut [u16], first: u16, last: u16, to: u32)
    ensures { state.new ≡ rows_left table.now first last to state.old }
{
    clear_words(state, 3 * first as usize, 3 * (last as usize + 1));
    enter(table, state, to);
}
