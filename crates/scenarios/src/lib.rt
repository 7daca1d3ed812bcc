// Scenarios that fall through: refusal 50, asked where the walk is clean and the table has the structure of its rows. `falls_into` judges a run by its last
// construct, `branches_fall` an AND or OR by the runs that are its branches; they call each other, and the rows before fall. Each construct around a row looks at
// it once at most: rows times depth in all.
// Nothing is asked of a caller: past the table's end a cell is 0.
#![tactic(auto)]

ghost use Rattle.std.specs.Prelude.{◌≡◌, ◌≤◌};
ghost use Rattle.effbd.specs.Moves.{most_word};
ghost use Rattle.scenarios.specs.Scenarios.{leaves_in, left_in, ends_in, killer_in, with_branch, FallsRead, BranchesRead, OutletRead, ScenarioRead, ScenariosRead};

use diagram_table::{BRANCH_ENDED, FIRST, LOOP, OWNER};
use effbd::{Reason, Refusal};
use nesting::Part;

// How the branches of an AND or OR fall through: all of them, some of them, some that kills.
#[derive(Clone, Copy)]
pub(crate) struct Branches {
    pub all: bool,
    pub some: bool,
    pub killing: bool,
}

// Is row `row` an LE that leaves the loop of the LP `first`?
#[tactic(auto, unfolding(crate::specs::Scenarios::leaves_in))]
fn leaves(table: &[u16], first: u32, row: u32) -> bool
    ensures { result ≡ leaves_in table.now first row }
{
    diagram_table::kind(table, row) == kinds::LOOP_EXIT
        && diagram_table::cell(table, LOOP, row) as u32 == first
}

// Does some LE leave the loop from LP `first` to its close, row `last`?
fn loop_left(table: &[u16], first: u32, last: u32) -> bool
    ensures { result ≡ left_in table.now first last }
{
    (first..last).any(|row| leaves(table, first, row))
}

// Is row `row` a BRANCH or close of the construct that row `owner` opens?
#[tactic(auto, unfolding(crate::specs::Scenarios::ends_in))]
fn ends_branch(table: &[u16], owner: u32, row: u32) -> bool
    ensures { result ≡ ends_in table.now owner row }
{
    diagram_table::cell(table, OWNER, row) as u32 == owner
        && matches!(
            nesting::part_of(diagram_table::kind(table, row)),
            Part::Turns | Part::Closes
        )
}

// Does the branch kill that row `row`, a BRANCH or close, ends?
#[tactic(auto, unfolding(crate::specs::Scenarios::killer_in))]
fn ends_killer(table: &[u16], row: u32) -> bool
    ensures { result ≡ killer_in table.now row }
{
    let branch = diagram_table::cell(table, BRANCH_ENDED, row) as u32;
    diagram_table::cell(table, FIRST, branch) == 1
}

// One branch more, which falls through or does not, and kills or does not.
fn with_branch(falls: bool, killing: bool, fall: Branches) -> Branches
    ensures { result ≡ with_branch falls killing fall }
{
    if falls {
        Branches {
            some: true,
            killing: killing || fall.killing,
            ..fall
        }
    } else {
        Branches { all: false, ..fall }
    }
}

// The branches of the construct that row `close` closes. The row behind its open ends none.
#[cycle(branches_fall_falls_into)]
fn branches_fall(table: &[u16], close: u32) -> Branches
    requires { close ≤ most_word }
    ensures { BranchesRead table.now close result }
{
    let owner = diagram_table::cell(table, OWNER, close) as u32;
    let mut fall = Branches {
        all: true,
        some: false,
        killing: false,
    };
    for row in owner + 2..close + 1 {
        if ends_branch(table, owner, row) {
            let falls = falls_into(table, row);
            let killing = ends_killer(table, row);
            fall = with_branch(falls, killing, fall);
        }
    }
    fall
}

// Does the run before row `row` fall through? An empty one does.
#[cycle(branches_fall_falls_into)]
fn falls_into(table: &[u16], row: u32) -> bool
    requires { row ≤ most_word }
    ensures { FallsRead table.now row result }
{
    if row == 0 {
        return true;
    }
    let last = row - 1;
    match diagram_table::kind(table, last) {
        kinds::LOOP_EXIT | kinds::BOX_EXIT => false,
        kinds::LP_CLOSE => {
            let first = diagram_table::cell(table, OWNER, last) as u32;
            loop_left(table, first, last)
        }
        kinds::OR_CLOSE => branches_fall(table, last).some,
        kinds::AND_CLOSE => {
            let fall = branches_fall(table, last);
            fall.all || fall.killing
        }
        _ => true,
    }
}

// The first BRANCH of the box that row `opened` opens, behind its scenario; where it has none the number of rows, which ends the run then.
fn first_outlet(table: &[u16], rows: u32, opened: u32) -> u32
    ensures { OutletRead table.now rows opened result }
{
    (opened..rows)
        .find(|row| diagram_table::is_branch(table, opened, *row))
        .unwrap_or(rows)
}

// Does row `row` open a box whose scenario falls through?
fn scenario_falls(table: &[u16], rows: u32, row: u32) -> bool
    requires { rows ≤ most_word }
    ensures { ScenarioRead table.now rows row result }
{
    diagram_table::kind(table, row) == kinds::BOX_OPEN
        && falls_into(table, first_outlet(table, rows, row))
}

// Judges the scenarios of all rows of a diagram's table whose walk is clean.
pub fn read_scenarios(table: &[u16], rows: u16) -> Result<(), Refusal>
    ensures { ScenariosRead table.now rows result }
{
    let count = rows as u32;
    for row in 0..count {
        if scenario_falls(table, count, row) {
            return Err(Refusal {
                reason: Reason::ScenarioFallsThrough,
                value: row,
            });
        }
    }
    Ok(())
}
