// What a step is told: 22 to 25.
ghost use Rattle.std.specs.Prelude.{◌≡◌, cond, ltb};
ghost use Rattle.effbd.specs.Answers.{said, refused};
ghost use Rattle.diagram_moves.specs.Decisions.{branches_done, ready_verdict, start_verdict, end_verdict, function_verdict, branch_verdict, close_verdict, row_verdict};

use diagram_state::cells;
use diagram_table::{BRANCH_ENDED, Branches, FIRST, OWNER, Plant};
use effbd::{Answer, Reason, Refusal};

// All BRANCH rows of an AND are done, the last of which is `last`. A loop: with `all` a held wait took 1.7 times as long.
pub(crate) fn all_done(table: &[u16], state: &[u16], last: u32) -> bool
    ensures { result ≡ branches_done table.now state.now last }
{
    for row in Branches::back_from(table, last) {
        if cells::activity(state, row) != 3 {
            return false;
        }
    }
    true
}

// No step of row `row` stands.
fn not_standing(row: u32) -> Answer
    ensures { said result ≡ refused 22 row }
{
    Err(Refusal {
        reason: Reason::NotStanding,
        value: row,
    })
}

// The step of row `row` stands if row `at` is ready.
#[tactic(auto, unfolding(diagram_moves::specs::Decisions::ready_verdict))]
fn ready(state: &[u16], at: u32, row: u32) -> Answer
    ensures { said result ≡ ready_verdict state.now at row }
{
    if cells::activity(state, at) == 1 {
        return Ok(0);
    }
    not_standing(row)
}

// A FUNCTION that is ready: 23 with the lowest item that is short.
#[tactic(auto, unfolding(diagram_moves::specs::Decisions::start_verdict))]
fn start(plant: &Plant, state: &[u16], row: u32) -> Answer
    ensures { said result ≡ start_verdict plant.now.table.now plant.now.rows plant.now.items plant.now.file.now state.now row }
{
    let item = diagram_uses::blocked_item(plant, state, row, false);
    if item < plant.items {
        return Err(Refusal {
            reason: Reason::ItemShort,
            value: item,
        });
    }
    Ok(0)
}

// A FUNCTION that runs: 24 with the ticks lacking, then 25 with the lowest item whose sum is above 65,535.
#[tactic(auto, unfolding(diagram_moves::specs::Decisions::end_verdict))]
fn finish(plant: &Plant, state: &[u16], row: u32) -> Answer
    ensures { said result ≡ end_verdict plant.now.table.now plant.now.rows plant.now.items plant.now.file.now state.now row }
{
    let alpha = plant.cell(FIRST, row);
    let clock = cells::clock(state, row);
    if clock < alpha {
        return Err(Refusal {
            reason: Reason::TicksLacking,
            value: (alpha - clock) as u32,
        });
    }
    let item = diagram_uses::blocked_item(plant, state, row, true);
    if item < plant.items {
        return Err(Refusal {
            reason: Reason::SumTooLarge,
            value: item,
        });
    }
    Ok(0)
}

#[tactic(auto, unfolding(diagram_moves::specs::Decisions::function_verdict))]
fn function(plant: &Plant, state: &[u16], row: u32) -> Answer
    ensures { said result ≡ function_verdict plant.now.table.now plant.now.rows plant.now.items plant.now.file.now state.now row }
{
    match cells::activity(state, row) {
        1 => start(plant, state, row),
        2 => finish(plant, state, row),
        _ => not_standing(row),
    }
}

// A BRANCH of an OR steps if its open is ready; a BRANCH of an AND or of a box never steps.
#[tactic(auto, unfolding(diagram_moves::specs::Decisions::branch_verdict))]
fn branch(table: &[u16], state: &[u16], row: u32) -> Answer
    ensures { said result ≡ branch_verdict table.now state.now row }
{
    let owner = diagram_table::cell(table, OWNER, row) as u32;
    if diagram_table::kind(table, owner) == kinds::OR_OPEN {
        return ready(state, owner, row);
    }
    not_standing(row)
}

#[tactic(auto, unfolding(diagram_moves::specs::Decisions::close_verdict))]
fn and_close(table: &[u16], state: &[u16], row: u32) -> Answer
    ensures { said result ≡ close_verdict table.now state.now row }
{
    let last = diagram_table::cell(table, BRANCH_ENDED, row) as u32;
    if all_done(table, state, last) {
        return Ok(0);
    }
    not_standing(row)
}

// The step of a row of the diagram, by its kind: a match, no closures, since each kind's question is another function of other arguments.
#[tactic(auto, unfolding(diagram_moves::specs::Decisions::row_verdict))]
fn row_step(plant: &Plant, state: &[u16], row: u32) -> Answer
    ensures { said result ≡ row_verdict plant.now.table.now plant.now.rows plant.now.items plant.now.file.now state.now row }
{
    match plant.kind(row) {
        kinds::FUNCTION => function(plant, state, row),
        kinds::BRANCH => branch(plant.table, state, row),
        kinds::AND_CLOSE => and_close(plant.table, state, row),
        kinds::OR_OPEN | kinds::END => not_standing(row),
        _ => ready(state, row, row),
    }
}

// The step of a row, where the diagram has it.
pub(crate) fn step(plant: &Plant, state: &[u16], row: u32) -> Answer
    ensures { said result ≡ cond (ltb row plant.now.rows) (row_verdict plant.now.table.now plant.now.rows plant.now.items plant.now.file.now state.now row) (refused 22 row) }
{
    if row < plant.rows {
        return row_step(plant, state, row);
    }
    not_standing(row)
}
