// The nesting of a diagram's rows: refusals 7 to 9, 44 and 48. `read_run` reads a run of rows by its constructs, `read_construct` a construct by the
// runs inside it; they call each other, and the call stack is the stack of what is open. The rows left and the depth left fall together.
// Nothing is asked of a caller: past the table's end a kind is 0, which no row has.
#![tactic(auto)]

ghost use Rattle.std.specs.Prelude.{◌≡◌, ◌+◌, ◌≤◌, ◌<◌, ◌==◌, take, count_by};
ghost use Rattle.effbd.specs.Answers.{accepted, unless, said, fault};
ghost use Rattle.nesting.specs.Runs.{part_of, kind_in, top_in, first_in, is_and_or, is_branching, run_ends, exit_fits, box_exit_fits, scenario_in, loops_in, inside_in, closes_in, stay_fault, last_fault, killer_fault, branch_fault, open_fault, RunRead, ConstructRead, NestingRead};

use effbd::limits::{MOST_OPEN, MOST_ROWS};
use effbd::{Reason, Refusal};

// What a row does to the constructs that are open: adds one, turns the innermost to its next branch, takes it off, or nothing.
#[derive(Clone, Copy)]
pub enum Part {
    Opens,
    Turns,
    Closes,
    Stays,
}

// What is open: how many constructs, the innermost one's open row and number of BRANCH rows so far, whether an LP is among those of the own
// scenario, and whether some box's scenario is.
#[derive(Clone, Copy)]
pub struct Open {
    pub depth: usize,
    pub opened: u16,
    pub branches: usize,
    pub looped: bool,
    pub boxed: bool,
}

// How a run ended that has no row at fault: with all rows judged, at a BRANCH of the construct that it stands in, or at its close.
#[derive(Clone, Copy)]
pub enum RunEnd {
    Judged,
    Turned(u16),
    Closed(u16),
}

// The rows to judge: their kinds are the table's first words, their first fields start at word 64.
#[derive(Clone, Copy)]
struct Rows<'a> {
    pub table: &'a [u16],
    pub count: u16,
}

// What a row of this kind does.
#[tactic(auto, unfolding(crate::specs::Runs::part_of))]
pub fn part_of(kind: u16) -> Part
    ensures { result ≡ part_of kind }
{
    match kind {
        kinds::AND_OPEN => Part::Opens,
        kinds::BRANCH => Part::Turns,
        kinds::AND_CLOSE => Part::Closes,
        kinds::OR_OPEN => Part::Opens,
        kinds::OR_CLOSE => Part::Closes,
        kinds::IT_OPEN => Part::Opens,
        kinds::IT_CLOSE => Part::Closes,
        kinds::LP_OPEN => Part::Opens,
        kinds::LP_CLOSE => Part::Closes,
        kinds::BOX_OPEN => Part::Opens,
        kinds::BOX_CLOSE => Part::Closes,
        _ => Part::Stays,
    }
}

// How many of the first rows are of this kind. No look depends on the one before, so that the compiler can make several at once: the count is as wide
// as a kind.
pub fn count_kind(table: &[u16], rows: u16, kind: u16) -> u16
    ensures { result ≡ count_by (λ k. k == kind) (take rows table.now) }
{
    let mut count: u16 = 0;
    for each in words::front(table, rows as usize) {
        if *each == kind {
            count += 1;
        }
    }
    count
}

#[tactic(auto, unfolding(crate::specs::Runs::is_and_or))]
fn is_and_or(kind: u16) -> bool
    ensures { result ≡ is_and_or kind }
{
    matches!(kind, kinds::AND_OPEN | kinds::OR_OPEN)
}

// A construct that has BRANCH rows.
#[tactic(auto, unfolding(crate::specs::Runs::is_and_or, crate::specs::Runs::is_branching))]
fn is_branching(kind: u16) -> bool
    ensures { result ≡ is_branching kind }
{
    is_and_or(kind) || kind == kinds::BOX_OPEN
}

// Does a row of kind `next` end a run in the construct `top`: a BRANCH, or its close?
#[tactic(auto, unfolding(crate::specs::Runs::run_ends))]
fn run_ends(next: u16, top: u16) -> bool
    ensures { result ≡ run_ends next top }
{
    match next {
        kinds::BRANCH => true,
        kinds::AND_CLOSE => top == kinds::AND_OPEN,
        kinds::OR_CLOSE => top == kinds::OR_OPEN,
        kinds::BOX_CLOSE => top == kinds::BOX_OPEN,
        _ => false,
    }
}

// May an LE stand here? `next` is the kind of the row after.
#[tactic(auto, unfolding(crate::specs::Runs::exit_fits))]
fn exit_fits(next: u16, top: u16, looped: bool) -> bool
    ensures { result ≡ exit_fits next top looped }
{
    is_and_or(top) && looped && run_ends(next, top)
}

// May an EXIT stand here?
#[tactic(auto, unfolding(crate::specs::Runs::box_exit_fits))]
fn box_exit_fits(next: u16, top: u16, boxed: bool) -> bool
    ensures { result ≡ box_exit_fits next top boxed }
{
    boxed && !matches!(top, kinds::IT_OPEN | kinds::LP_OPEN) && run_ends(next, top)
}

// Does a construct of this kind, behind so many of its BRANCH rows, have its scenario? A box does before the first.
#[tactic(auto, unfolding(crate::specs::Runs::scenario_in))]
fn in_scenario(kind: u16, branches: usize) -> bool
    ensures { result ≡ scenario_in kind branches }
{
    kind == kinds::BOX_OPEN && branches == 0
}

// Is an LP open in a construct of this kind? `looped`: one is open around it; in a scenario those around it do not count.
#[tactic(auto, unfolding(crate::specs::Runs::loops_in))]
fn loops(kind: u16, scenario: bool, looped: bool) -> bool
    ensures { result ≡ loops_in kind scenario looped }
{
    !scenario && (kind == kinds::LP_OPEN || looped)
}

// What is open in the construct that row `opened`, of this kind, opens, behind so many of its BRANCH rows.
#[tactic(auto, unfolding(crate::specs::Runs::inside_in))]
fn inside(kind: u16, opened: u16, branches: usize, around: Open) -> Open
    requires { around.depth < 12 }
    ensures { result ≡ inside_in kind opened branches around }
{
    let scenario = in_scenario(kind, branches);
    Open {
        depth: around.depth + 1,
        opened,
        branches,
        looped: loops(kind, scenario, around.looped),
        boxed: scenario || around.boxed,
    }
}

// Is a row of this kind the innermost construct's own close? `two`: that has two BRANCH rows or more, as an AND, OR or box must.
#[tactic(auto, unfolding(crate::specs::Runs::closes_in))]
fn closes(kind: u16, top: u16, two: bool) -> bool
    ensures { result ≡ closes_in kind top two }
{
    match kind {
        kinds::AND_CLOSE => top == kinds::AND_OPEN && two,
        kinds::OR_CLOSE => top == kinds::OR_OPEN && two,
        kinds::IT_CLOSE => top == kinds::IT_OPEN,
        kinds::LP_CLOSE => top == kinds::LP_OPEN,
        kinds::BOX_CLOSE => top == kinds::BOX_OPEN && two,
        _ => false,
    }
}

// The fault of a row that stays and is not the last: 8 for an LE that may not stand here, 48 for an EXIT, 7 for an END.
#[tactic(auto, unfolding(crate::specs::Runs::stay_fault))]
fn stay_fault(kind: u16, next: u16, top: u16, looped: bool, boxed: bool) -> Option<Reason>
    ensures { fault result ≡ stay_fault kind next top looped boxed }
{
    match kind {
        kinds::LOOP_EXIT if !exit_fits(next, top, looped) => Some(Reason::LoopExitMisplaced),
        kinds::BOX_EXIT if !box_exit_fits(next, top, boxed) => Some(Reason::BoxExitMisplaced),
        kinds::END => Some(Reason::NestingBroken),
        _ => None,
    }
}

// The fault of the last row, which has to be an END with nothing open.
#[tactic(auto, unfolding(crate::specs::Runs::last_fault))]
fn last_fault(kind: u16, top: u16) -> Option<Reason>
    ensures { fault result ≡ last_fault kind top }
{
    if kind == kinds::END && top == 0 {
        return None;
    }
    Some(Reason::NestingBroken)
}

// The fault of a BRANCH that kills and is not the last row: it stands in an AND only, and the next row, of kind `next`, does not end its branch.
#[tactic(auto, unfolding(crate::specs::Runs::killer_fault))]
fn killer_fault(next: u16, top: u16) -> Option<Reason>
    ensures { fault result ≡ killer_fault next top }
{
    if top != kinds::AND_OPEN {
        return Some(Reason::NestingBroken);
    }
    if matches!(next, kinds::BRANCH | kinds::AND_CLOSE) {
        return Some(Reason::KillingBranchEmpty);
    }
    None
}

// Row `row` passes, or is turned away for its fault.
fn passes(row: u16, off: Option<Reason>) -> Result<(), Refusal>
    ensures { said result ≡ unless (fault off) row (accepted tt) }
{
    match off {
        Some(reason) => Err(Refusal {
            reason,
            value: row as u32,
        }),
        None => Ok(()),
    }
}

impl<'a> Rows<'a> {
    // The kind of a row; behind the last row an END.
    #[tactic(auto, unfolding(crate::specs::Runs::kind_in))]
    fn kind(&self, row: u16) -> u16
        ensures { result ≡ kind_in self.now.table.now self.now.count row }
    {
        if row < self.count {
            return words::get(self.table, row as usize);
        }
        kinds::END
    }

    // The kind of the innermost open construct's open row, 0 where nothing is open: a number that no kind has, as `top_in` has it.
    #[tactic(auto, unfolding(crate::specs::Runs::top_in))]
    fn top(&self, around: Open) -> u16
        ensures { result ≡ top_in self.now.table.now self.now.count around }
    {
        if around.depth == 0 {
            return 0;
        }
        self.kind(around.opened)
    }

    // The fault of a BRANCH that is not the last row. Whether it kills is its first field; of one that does not, no other cell is looked at.
    #[tactic(auto, unfolding(crate::specs::Runs::branch_fault))]
    fn branch_fault(&self, row: u16, top: u16) -> Option<Reason>
        requires { row < self.now.count }
        ensures { fault result ≡ branch_fault (first_in self.now.table.now row) (kind_in self.now.table.now self.now.count (row + 1)) top }
    {
        if words::get(self.table, MOST_ROWS as usize + row as usize) == 1 {
            return killer_fault(self.kind(row + 1), top);
        }
        if is_branching(top) {
            return None;
        }
        Some(Reason::NestingBroken)
    }

    // The fault of the row behind an AND open or OR open, whose kind is `top`: "AND open and OR open are followed by BRANCH at once", which is not
    // the last row.
    #[tactic(auto, unfolding(crate::specs::Runs::open_fault))]
    fn open_fault(&self, row: u16, top: u16) -> Option<Reason>
        requires { row < self.now.count }
        ensures { fault result ≡ open_fault self.now.table.now self.now.count row top }
    {
        if self.kind(row) != kinds::BRANCH || self.count <= row + 1 {
            return Some(Reason::NestingBroken);
        }
        self.branch_fault(row, top)
    }

    // Reads rows from `from` on, up to the BRANCH or close of the construct that they stand in. No row of a run stands right behind an AND open
    // or OR open, and the last row is judged behind the loop: so each row is looked at once, by its part.
    #[cycle(read_construct_read_run)]
    fn read_run(&self, from: u16, around: Open) -> Result<RunEnd, Refusal>
        requires from_lt_rows { from < self.now.count }
        requires depth_bound { around.depth ≤ 12 }
        ensures { RunRead self.now.table.now self.now.count from around result }
    {
        let top = self.top(around);
        let two = 2 <= around.branches;
        let last = self.count - 1;
        let mut row = from;
        // No `for`: behind a construct the run goes on at the row after its close.
        while row < last {
            let kind = self.kind(row);
            match part_of(kind) {
                Part::Opens => {
                    if MOST_OPEN <= around.depth {
                        return Err(Refusal {
                            reason: Reason::TooManyOpen,
                            value: row as u32,
                        });
                    }
                    let Some(close) = self.read_construct(row, around)? else {
                        return Ok(RunEnd::Judged);
                    };
                    row = close + 1;
                }
                Part::Turns => {
                    passes(row, self.branch_fault(row, top))?;
                    return Ok(RunEnd::Turned(row));
                }
                Part::Closes => {
                    if closes(kind, top, two) {
                        return Ok(RunEnd::Closed(row));
                    }
                    return Err(Refusal {
                        reason: Reason::NestingBroken,
                        value: row as u32,
                    });
                }
                Part::Stays => {
                    let next = self.kind(row + 1);
                    passes(
                        row,
                        stay_fault(kind, next, top, around.looped, around.boxed),
                    )?;
                    row += 1;
                }
            }
        }
        passes(row, last_fault(self.kind(row), top))?;
        Ok(RunEnd::Judged)
    }

    // Reads the construct that row `opened` opens, up to its close; `around` is what is open around it. No close: all rows were judged.
    #[cycle(read_construct_read_run)]
    fn read_construct(&self, opened: u16, around: Open) -> Result<Option<u16>, Refusal>
        requires opened_bound { opened + 1 < self.now.count }
        requires depth_bound { around.depth < 12 }
        ensures { ConstructRead self.now.table.now self.now.count opened around result }
    {
        let kind = self.kind(opened);
        let mut branches: usize = 0;
        let mut from = opened + 1;
        if is_and_or(kind) {
            passes(from, self.open_fault(from, kind))?;
            branches = 1;
            from += 1;
        }
        // No iterator: where the next run begins only the run before says.
        loop {
            let within = inside(kind, opened, branches, around);
            match self.read_run(from, within)? {
                RunEnd::Judged => {
                    return Ok(None);
                }
                RunEnd::Turned(branch) => {
                    branches += 1;
                    from = branch + 1;
                }
                RunEnd::Closed(close) => {
                    return Ok(Some(close));
                }
            }
        }
    }
}

// Judges the nesting of all rows; their kinds are the table's first words, their first fields start at word 64. Of no rows none is at fault.
pub fn read_nesting(table: &[u16], rows: u16) -> Result<(), Refusal>
    ensures { NestingRead table.now rows result }
{
    if rows == 0 {
        return Ok(());
    }
    let nothing = Open {
        depth: 0,
        opened: 0,
        branches: 0,
        looped: false,
        boxed: false,
    };
    let all = Rows { table, count: rows };
    match all.read_run(0, nothing)? {
        RunEnd::Judged => Ok(()),
        RunEnd::Turned(row) | RunEnd::Closed(row) => Err(Refusal {
            reason: Reason::NestingBroken,
            value: row as u32,
        }),
    }
}
