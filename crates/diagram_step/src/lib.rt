// The diagram's stepper: the file is read once, the state checked, then the move made, or told which transition of the net it fires.
#![tactic(auto)]

ghost use Rattle.std.specs.Prelude.{◌≡◌, ◌&&◌, ltb, eqb, length};
ghost use Rattle.effbd.specs.Answers.{said, returning_zero, afterwards};
ghost use Rattle.effbd.specs.Moves.{step_diagram, fresh_diagram};
ghost use Rattle.diagram_table.specs.Cells.{some_trigger_in, kind_in};
ghost use Rattle.diagram_table.specs.Held.{HoldsFile};
ghost use Rattle.diagram_moves.specs.Changes.{fresh_placed};
ghost use Rattle.effbd.specs.Transitions.{transition_diagram};
ghost use Rattle.diagram_step.specs.Numbers.{function_number_in, Checked};

use diagram::Diagram;
use diagram_state::cells;
use diagram_table::{Plant, SOME_TRIGGER, WIDE};
use effbd::{Answer, Reason, Refusal};

// These words are no state of the file's diagram.
const STATE_OFF: Refusal = Refusal {
    reason: Reason::StateOff,
    value: 0,
};

// The check of the state, then the move, where there are no triggers.
fn step_plain(diagram: &Diagram, file: &[u8], state: &mut [u16], code: u16, argument: u16) -> Answer
    requires holds { HoldsFile file.now diagram.now.rows diagram.now.items diagram.now.table }
    requires plain { some_trigger_in diagram.now.table ≡ 0 }
    ensures result_value { said result ≡ returning_zero (step_diagram file.now code argument state.old) }
    ensures state_after { state.new ≡ afterwards state.old (step_diagram file.now code argument state.old) }
{
    let plant = Plant {
        table: &diagram.table,
        file,
        rows: diagram.rows as u32,
        items: diagram.items as u32,
    };
    if diagram_check::rows_allowed(&plant, plant.items, state) {
        return table_move::make_move(code, argument, &plant, state);
    }
    Err(STATE_OFF)
}

// The same where there are some: on a wider table, with their copies. Not in `step` itself, where each call would zero that table.
fn step_with_copies(
    diagram: &Diagram,
    file: &[u8],
    state: &mut [u16],
    code: u16,
    argument: u16,
) -> Answer
    requires { HoldsFile file.now diagram.now.rows diagram.now.items diagram.now.table }
    ensures result_value { said result ≡ returning_zero (step_diagram file.now code argument state.old) }
    ensures state_after { state.new ≡ afterwards state.old (step_diagram file.now code argument state.old) }
{
    let mut table = [0u16; WIDE];
    copies::widen(
        &mut table,
        &diagram.table,
        diagram.rows,
        diagram.items,
        file,
    );
    let plant = Plant {
        table: &table,
        file,
        rows: diagram.rows as u32,
        items: diagram.items as u32,
    };
    let counts = table_counts::count_total(&table, diagram.items);
    if diagram_check::state_allowed(&plant, counts, state) {
        return table_move::make_move(code, argument, &plant, state);
    }
    Err(STATE_OFF)
}

// A move of a diagram: code 1 steps the row `argument`, code 2 waits `argument` ticks. Only a plant with triggers needs its table widened.
pub fn step(file: &[u8], state: &mut [u16], code: u16, argument: u16) -> Answer
    ensures result_value { said result ≡ returning_zero (step_diagram file.now code argument state.old) }
    ensures state_after { state.new ≡ afterwards state.old (step_diagram file.now code argument state.old) }
{
    let diagram = diagram_file::diagram_of(file)?;
    if diagram_table::cell(&diagram.table, SOME_TRIGGER, 0) != 0 {
        return step_with_copies(&diagram, file, state, code, argument);
    }
    step_plain(&diagram, file, state, code, argument)
}

// Are these words a state of the file's diagram? Of a plant with triggers it must be known how many copies they have, no more.
fn is_state(diagram: &Diagram, file: &[u8], state: &[u16]) -> bool
    requires { HoldsFile file.now diagram.now.rows diagram.now.items diagram.now.table }
    ensures { Checked file.now state.now result }
{
    let plant = Plant {
        table: &diagram.table,
        file,
        rows: diagram.rows as u32,
        items: diagram.items as u32,
    };
    if plant.cell(SOME_TRIGGER, 0) == 0 {
        return diagram_check::rows_allowed(&plant, plant.items, state);
    }
    let copies = copies::copy_total(&diagram.table, diagram.rows, diagram.items, file);
    diagram_check::state_allowed(&plant, plant.items + copies as u32, state)
}

// A FUNCTION that is not idle: its step fires a transition.
fn is_busy(diagram: &Diagram, row: u16, activity: u16) -> bool
    ensures { result ≡ (ltb row diagram.now.rows && (eqb (kind_in diagram.now.table row) 16 && ltb 0 activity)) }
{
    row < diagram.rows
        && diagram_table::kind(&diagram.table, row as u32) == kinds::FUNCTION
        && activity > 0
}

// The first one's number plus activity less 1: no branch chooses between a FUNCTION's start and its end.
#[tactic(auto, unfolding(crate::specs::Numbers::function_number_in))]
fn function_number(diagram: &Diagram, state: &[u16], row: u16) -> Answer
    ensures { said result ≡ function_number_in diagram.now.table diagram.now.rows state.now row }
{
    let activity = cells::activity(state, row as u32);
    if !is_busy(diagram, row, activity) {
        return Err(Refusal {
            reason: Reason::NotStanding,
            value: row as u32,
        });
    }
    let first = net_numbers::first_number(&diagram.table, row);
    Ok((first + activity as usize - 1) as u32)
}

// Which transition of the net the step of a ready or running FUNCTION fires: the number behind `t` in the annex. Whether the step would be accepted
// is not asked; where it is, at a state reached by moves, the net fires just this one at the image (theorem `which-fires` of crate liveness).
pub fn transition(file: &[u8], state: &[u16], row: u16) -> Answer
    ensures { said result ≡ transition_diagram file.now row state.now }
{
    let diagram = diagram_file::diagram_of(file)?;
    if is_state(&diagram, file, state) {
        return function_number(&diagram, state, row);
    }
    Err(STATE_OFF)
}

// A fresh state in the place of `state`, if that has just so many words.
fn put_fresh(state: &mut [u16], fresh: &[u16]) -> Answer
    ensures result_value { said result ≡ returning_zero (fresh_placed (length fresh.now) fresh.now state.old) }
    ensures state_after { state.new ≡ afterwards state.old (fresh_placed (length fresh.now) fresh.now state.old) }
{
    if state.len() != fresh.len() {
        return Err(STATE_OFF);
    }
    words::copy(state, fresh);
    Ok(0)
}

// The fresh state of a plant with triggers, whose table is widened, in the place of `state`.
fn fresh_with_copies(diagram: Diagram, file: &[u8], state: &mut [u16]) -> Answer
    requires { HoldsFile file.now diagram.rows diagram.items diagram.table }
    ensures result_value { said result ≡ returning_zero (fresh_diagram file.now state.old) }
    ensures state_after { state.new ≡ afterwards state.old (fresh_diagram file.now state.old) }
{
    let rows = diagram.rows;
    let items = diagram.items;
    let mut table = [0u16; WIDE];
    copies::widen(&mut table, &diagram.table, rows, items, file);
    let size = 3 * rows as usize + table_counts::count_total(&table, items) as usize;
    let plain = diagram.fresh();
    let fresh = fresh_copies::fresh_state(&plain, &table, rows, items);
    put_fresh(state, &fresh[..size])
}

// The fresh state of a diagram, in the place of `state`.
pub fn fresh(file: &[u8], state: &mut [u16]) -> Answer
    ensures result_value { said result ≡ returning_zero (fresh_diagram file.now state.old) }
    ensures state_after { state.new ≡ afterwards state.old (fresh_diagram file.now state.old) }
{
    let diagram = diagram_file::diagram_of(file)?;
    if diagram_table::cell(&diagram.table, SOME_TRIGGER, 0) != 0 {
        return fresh_with_copies(diagram, file, state);
    }
    let size = 3 * diagram.rows as usize + diagram.items as usize;
    put_fresh(state, &diagram.fresh()[..size])
}
