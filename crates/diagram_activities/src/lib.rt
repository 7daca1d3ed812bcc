// What a move writes of activities: that of one row, that of all BRANCH rows of an AND. Every function is total: past the end a cell is 0, a
// store changes nothing.
#![tactic(auto)]

ghost use Rattle.std.specs.Prelude.{◌≡◌};
ghost use Rattle.diagram_moves.specs.Changes.{row_set, branches_set};

use diagram_table::BRANCH_ENDED;

// Activity of a row, clock 0.
pub fn set_row(state: &mut [u16], row: u32, activity: u16)
    ensures { state.new ≡ row_set row activity state.old }
{
    words::put(state, 3 * row as usize, activity);
    words::put(state, 3 * row as usize + 2, 0);
}

// All BRANCH rows of an AND, the last of which is `last`, get an activity: each has the one before it for the branch that it ends, the first
// itself. By hand: over `diagram_table::Branches` a kill took up to 1.3 times as long.
pub fn set_branches(table: &[u16], state: &mut [u16], last: u32, activity: u16)
    ensures { state.new ≡ branches_set table.now activity last state.old }
{
    let mut row = last;
    set_row(state, row, activity);
    let mut before = diagram_table::cell(table, BRANCH_ENDED, row) as u32;
    while before < row {
        row = before;
        set_row(state, row, activity);
        before = diagram_table::cell(table, BRANCH_ENDED, row) as u32;
    }
}
