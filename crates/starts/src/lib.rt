// Starts of a FUNCTION row in a log: the log is walked once, and a window over the last hour goes with it. Refusals 40 to 42.
#![tactic(auto)]

ghost use Rattle.std.specs.Prelude.{◌≡◌, true};
ghost use Rattle.effbd.specs.Answers.{said, fault};
ghost use Rattle.effbd.specs.Records.{are_bytes};
ghost use Rattle.effbd.specs.Starts.{log_starts};
ghost use Rattle.starts.specs.Faults.{not_function, starts_fault};
ghost use Rattle.starts.specs.Counting.{no_window, Turning, Turned, Counting, FreshPlant};
ghost use Rattle.diagram_table.specs.Held.{HoldsFile};

use diagram::Diagram;
use diagram_state::cells;
use diagram_table::{Plant, SOME_TRIGGER, WIDE};
use effbd::{Answer, Reason, Refusal, moves};
use logs::Setpoint;
use spans::{GAP_BYTES, Window};

mod spans;

// 41: the row is no FUNCTION, or there is no such row.
#[tactic(auto, unfolding(crate::specs::Faults::not_function))]
fn not_function(plant: &Plant, row: u16) -> Option<Reason>
    ensures { fault result ≡ not_function plant.now.table.now plant.now.rows row }
{
    if plant.rows <= row as u32 || plant.kind(row as u32) != kinds::FUNCTION {
        return Some(Reason::NotFunction);
    }
    None
}

// 40, then 41.
#[tactic(auto, unfolding(crate::specs::Faults::starts_fault))]
fn fault(plant: &Plant, log: &[u8], row: u16) -> Option<Reason>
    ensures { fault result ≡ starts_fault plant.now.table.now plant.now.rows log.now row }
{
    logs::fault(log).or(not_function(plant, row))
}

// The window after an accepted move: a wait lets time pass, a step of the row after which it runs is a start.
fn count_move(setpoint: Setpoint, row: u16, state: &[u16], gaps: &mut [u8], window: &mut Window)
    requires { Turning row setpoint.code setpoint.argument state.now gaps.old window.old }
    ensures { Turned row setpoint.code setpoint.argument state.now gaps.old gaps.new window.old window.new }
{
    if setpoint.code == moves::WAIT {
        window.wait(setpoint.argument);
        return;
    }
    if setpoint.argument == row && cells::activity(state, row as u32) == 2 {
        window.count_start(gaps);
    }
}

// Makes all moves of a log from the fresh state, with a window of no starts: the most in an hour, or 42.
fn count_starts(
    plant: &Plant,
    log: &[u8],
    row: u16,
    state: &mut [u16],
    gaps: &mut [u8],
    at: &mut u32,
) -> Answer
    requires bytes { are_bytes plant.now.file.now ≡ true }
    requires fresh { Counting plant.now.file.now log.now plant.now.rows plant.now.items plant.now.table.now row 0 state.old gaps.old no_window }
    ensures result_value { said result ≡ (log_starts plant.now.file.now log.now row at.old).answer }
    ensures at_after { at.new ≡ (log_starts plant.now.file.now log.now row at.old).at }
{
    let count = logs::move_count(log) as u32;
    let mut window = Window::default();
    for index in 0..count {
        let setpoint = logs::setpoint_at(log, index);
        logs::make_move(setpoint, index, plant, state)?;
        count_move(setpoint, row, state, gaps, &mut window);
    }
    *at = window.at;
    Ok(window.most)
}

// As `log_starts`, on the table and the fresh state of an accepted file.
fn starts_on(plant: &Plant, log: &[u8], row: u16, state: &mut [u16], at: &mut u32) -> Answer
    requires bytes { are_bytes plant.now.file.now ≡ true }
    requires fresh { FreshPlant plant.now.file.now plant.now.rows plant.now.items plant.now.table.now state.old }
    ensures result_value { said result ≡ (log_starts plant.now.file.now log.now row at.old).answer }
    ensures at_after { at.new ≡ (log_starts plant.now.file.now log.now row at.old).at }
{
    if let Some(reason) = fault(plant, log, row) {
        return Err(Refusal { reason, value: 0 });
    }
    let mut gaps = [0u8; GAP_BYTES];
    count_starts(plant, log, row, state, &mut gaps, at)
}

// The same with the copies of triggers: a wider table, a longer state.
fn starts_with_copies(diagram: Diagram, file: &[u8], log: &[u8], row: u16, at: &mut u32) -> Answer
    requires { HoldsFile file.now diagram.rows diagram.items diagram.table }
    ensures result_value { said result ≡ (log_starts file.now log.now row at.old).answer }
    ensures at_after { at.new ≡ (log_starts file.now log.now row at.old).at }
{
    let rows = diagram.rows;
    let items = diagram.items;
    let mut table = [0u16; WIDE];
    copies::widen(&mut table, &diagram.table, rows, items, file);
    let plain = diagram.fresh();
    let mut state = fresh_copies::fresh_state(&plain, &table, rows, items);
    let size = 3 * rows as usize + table_counts::count_total(&table, items) as usize;
    let plant = Plant {
        table: &table,
        file,
        rows: rows as u32,
        items: items as u32,
    };
    starts_on(&plant, log, row, &mut state[..size], at)
}

// The most starts of a FUNCTION row in any hour of a log, and in `at` the earliest start that such an hour begins with; 0 and 0 where there is none.
pub fn log_starts(file: &[u8], log: &[u8], row: u16, at: &mut u32) -> Answer
    ensures result_value { said result ≡ (log_starts file.now log.now row at.old).answer }
    ensures at_after { at.new ≡ (log_starts file.now log.now row at.old).at }
{
    let diagram = diagram_file::diagram_of(file)?;
    if diagram_table::cell(&diagram.table, SOME_TRIGGER, 0) != 0 {
        return starts_with_copies(diagram, file, log, row, at);
    }
    let mut state = diagram.fresh();
    let size = 3 * diagram.rows as usize + diagram.items as usize;
    let plant = Plant {
        table: &diagram.table,
        file,
        rows: diagram.rows as u32,
        items: diagram.items as u32,
    };
    starts_on(&plant, log, row, &mut state[..size], at)
}
