// A move on a diagram's table: decided, then written; the stores of each kind of row.
#![tactic(auto)]

ghost use Rattle.std.specs.Prelude.{◌≡◌, true, false, ◌+◌};
ghost use Rattle.effbd.specs.Answers.{said, returning_zero, afterwards};
ghost use Rattle.diagram_table.specs.Cells.{branch_in, close_in};
ghost use Rattle.diagram_moves.specs.Changes.{row_set, entered, branches_set, branches_entered, it_open_change, loop_exit_change, box_exit_change, function_change, row_change, move_change, table_move};

use diagram_state::cells;
use diagram_table::{BRANCH_ENDED, CLOSE, FIRST, LOOP, OUTLET, OWNER, Plant, SCENARIO_LAST};
use effbd::{Answer, moves};

// An IT open: one turn more, or the turns are over and the row after its close is entered.
#[tactic(auto, unfolding(diagram_moves::specs::Changes::it_open_change))]
fn turn_iteration(table: &[u16], state: &mut [u16], row: u16)
    ensures { state.new ≡ it_open_change table.now row state.old }
{
    let turns = cells::turns(state, row as u32);
    let count = diagram_table::cell(table, FIRST, row as u32);
    if turns < count {
        words::put(state, 3 * row as usize + 1, turns + 1);
        diagram_tokens::pass_token(table, state, row as u32, row as u32 + 1);
    } else {
        let close = diagram_table::cell(table, CLOSE, row as u32);
        words::put(state, 3 * row as usize + 1, 0);
        diagram_tokens::pass_token(table, state, row as u32, close as u32 + 1);
    }
}

// An LE leaves its loop for the row after it.
#[tactic(auto, unfolding(diagram_moves::specs::Changes::loop_exit_change))]
fn exit_loop(table: &[u16], state: &mut [u16], row: u32)
    ensures { state.new ≡ loop_exit_change table.now row state.old }
{
    let first = diagram_table::cell(table, LOOP, row);
    let last = diagram_table::cell(table, CLOSE, first as u32);
    diagram_tokens::leave_rows(table, state, first, last, last as u32 + 1);
}

// An EXIT leaves its box's scenario for the row after its outlet's BRANCH; that BRANCH belongs to the box.
#[tactic(auto, unfolding(diagram_moves::specs::Changes::box_exit_change))]
fn exit_box(table: &[u16], state: &mut [u16], row: u32)
    ensures { state.new ≡ box_exit_change table.now row state.old }
{
    let outlet = diagram_table::cell(table, OUTLET, row);
    let first = diagram_table::cell(table, OWNER, outlet as u32);
    let last = diagram_table::cell(table, SCENARIO_LAST, row);
    diagram_tokens::leave_rows(table, state, first, last, outlet as u32 + 1);
}

// A FUNCTION starts or ends.
#[tactic(auto, unfolding(diagram_moves::specs::Changes::function_change))]
fn step_function(plant: &Plant, state: &mut [u16], row: u16)
    ensures { state.new ≡ function_change plant.now.table.now plant.now.rows plant.now.file.now row state.old }
{
    if cells::activity(state, row as u32) == 1 {
        diagram_counts::change_counts(plant, state, row as u32, false);
        diagram_activities::set_row(state, row as u32, 2);
    } else {
        diagram_counts::change_counts(plant, state, row as u32, true);
        diagram_tokens::pass_token(plant.table, state, row as u32, row as u32 + 1);
    }
}

fn open_branches(table: &[u16], state: &mut [u16], row: u16)
    ensures { state.new ≡ branches_entered table.now (branch_in table.now (close_in table.now row)) (row_set row 0 state.old) }
{
    let close = diagram_table::cell(table, CLOSE, row as u32);
    let last = diagram_table::cell(table, BRANCH_ENDED, close as u32);
    diagram_activities::set_row(state, row as u32, 0);
    diagram_tokens::enter_branches(table, state, last);
}

fn close_branches(table: &[u16], state: &mut [u16], row: u16)
    ensures { state.new ≡ entered table.now (row + 1) (branches_set table.now 0 (branch_in table.now row) state.old) }
{
    let last = diagram_table::cell(table, BRANCH_ENDED, row as u32);
    diagram_activities::set_branches(table, state, last as u32, 0);
    diagram_tokens::enter(table, state, row as u32 + 1);
}

// The stores of a row's step, by its kind: a match, no closures, since each kind writes by another function of other arguments; of a kind that
// is not named here the token goes on to the next row.
#[tactic(auto, unfolding(diagram_moves::specs::Changes::row_change))]
fn step_row(plant: &Plant, state: &mut [u16], row: u16)
    ensures { state.new ≡ row_change plant.now.table.now plant.now.rows plant.now.file.now row state.old }
{
    let at = row as u32;
    let table = plant.table;
    let owner = plant.cell(OWNER, at) as u32;
    match plant.kind(at) {
        kinds::FUNCTION => step_function(plant, state, row),
        kinds::AND_OPEN => open_branches(table, state, row),
        kinds::BRANCH => diagram_tokens::pass_token(table, state, owner, at + 1),
        kinds::AND_CLOSE => close_branches(table, state, row),
        kinds::IT_OPEN => turn_iteration(table, state, row),
        kinds::IT_CLOSE | kinds::LP_CLOSE => diagram_tokens::pass_token(table, state, at, owner),
        kinds::LOOP_EXIT => exit_loop(table, state, at),
        kinds::BOX_EXIT => exit_box(table, state, at),
        _ => diagram_tokens::pass_token(table, state, at, at + 1),
    }
}

// Writes a move that crate diagram_decide accepted.
#[tactic(auto, unfolding(diagram_moves::specs::Changes::move_change))]
fn write(plant: &Plant, state: &mut [u16], code: u16, argument: u16)
    ensures { state.new ≡ move_change plant.now.table.now plant.now.rows plant.now.file.now code argument state.old }
{
    if code == moves::STEP {
        step_row(plant, state, argument);
    } else {
        diagram_counts::pass_ticks(state, plant.rows, argument);
    }
}

// A move on a diagram's table, without a check of the state, as a log makes it: decided, then written; a refusal leaves the state as it was.
// Of the table that crate diagram_file makes of an accepted file, and a state that passes 20, this is document 02's move of a log (theorem
// `log-move-is` of crate diagram_moves). The code and its argument come first, in registers: the step's way forks on them.
#[tactic(auto, unfolding(diagram_moves::specs::Changes::table_move))]
pub fn make_move(code: u16, argument: u16, plant: &Plant, state: &mut [u16]) -> Answer
    ensures result_value { said result ≡ returning_zero (table_move plant.now.table.now plant.now.rows plant.now.items plant.now.file.now state.old code argument) }
    ensures state_after { state.new ≡ afterwards state.old (table_move plant.now.table.now plant.now.rows plant.now.items plant.now.file.now state.old code argument) }
{
    diagram_decide::decide(plant, state, code, argument)?;
    write(plant, state, code, argument);
    Ok(0)
}
