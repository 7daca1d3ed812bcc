// The uses of a FUNCTION in the file's bytes: what stops its takes or its gives.
#![tactic(auto)]

ghost use Rattle.std.specs.Prelude.{◌≡◌, true, cond, ◌+◌, ◌<◌, length, get_or, length as long};
ghost use Rattle.effbd.specs.Records.{word};
ghost use Rattle.diagram_table.specs.Cells.{uses_of, uses_in};
ghost use Rattle.diagram_moves.specs.Decisions.{count_place, most_of, use_blocked, blocked_item};
ghost use Rattle.diagram_moves.specs.Decisions.{exceeds as exceeding};

use diagram_state::cells;
use diagram_table::{Plant, USE_SIZE, USES_NUMBER};
use effbd::limits::MOST_WORD;

// The take or the give of the first of some uses.
pub fn amount(uses: &[u8], giving: bool) -> u16
    ensures { result ≡ cond giving (word uses.now 4) (word uses.now 2) }
{
    if giving {
        words::word(uses, 4)
    } else {
        words::word(uses, 2)
    }
}

// A take is more than the count, or a give makes it pass 65,535.
#[tactic(auto, unfolding(diagram_moves::specs::Decisions::exceeds))]
fn exceeds(giving: bool, count: u16, amount: u16) -> bool
    ensures { result ≡ exceeding giving count amount }
{
    if giving {
        MOST_WORD - amount < count
    } else {
        count < amount
    }
}

// A count that is known to stand: beside `cells::count`, which asks, so that a run of counts is asked once.
fn known_count(state: &[u16], rows: u32, first: u32, index: u32) -> u16
    requires { count_place rows (first + index) < long state.now }
    ensures { result ≡ get_or state.now (count_place rows (first + index)) 0 }
{
    state[3 * rows as usize + (first as usize + index as usize)]
}

// The largest count of a run: one look at the state's length serves all that stand, the others are 0.
fn most_in(state: &[u16], rows: u32, first: u32, length: u32) -> u16
    ensures { result ≡ most_of rows first state.now length }
{
    let standing = cells::standing(state, rows, first, length);
    let mut most: u16 = 0;
    for index in 0..standing {
        most = most.max(known_count(state, rows, first, index));
    }
    most
}

// Use `index` of a row is stopped. An amount of 0 never is: a row that only takes a trigger does not look at all its copies when it ends. Only
// a give of a trigger has more counts than one, or none: it is stopped by some of them exactly if the largest stops it. Table and rows by
// themselves, and below uses by tails: with a plant by reference, or by chunks, the end of a FUNCTION took up to 1.4 times as long.
fn use_blocked(
    table: &[u16],
    rows: u32,
    state: &[u16],
    row: u32,
    index: u32,
    item: u32,
    giving: bool,
    amount: u16,
) -> bool
    ensures { result ≡ use_blocked table.now giving rows state.now row index item amount }
{
    if amount == 0 {
        return false;
    }
    let first = table_counts::run_first(table, giving, row, index, item);
    let length = table_counts::run_length(table, giving, item);
    if length == 1 {
        return exceeds(giving, cells::count(state, rows, first, 0), amount);
    }
    let most = most_in(state, rows, first, length);
    exceeds(true, most, amount)
}

// The item of the first of a row's uses that is stopped, or the number of items. "lowest": uses name rising items.
fn blocked_in(
    uses: &[u8],
    table: &[u16],
    rows: u32,
    items: u32,
    state: &[u16],
    row: u32,
    giving: bool,
) -> u32
    requires { length uses.now < 393216 }
    ensures { result ≡ blocked_item table.now giving rows items state.now row 0 (uses_of uses.now) }
{
    let mut rest = uses;
    let mut index = 0;
    while USE_SIZE <= rest.len() {
        let item = words::word(rest, 0) as u32;
        let amount = amount(rest, giving);
        if use_blocked(table, rows, state, row, index, item, giving, amount) {
            return item;
        }
        rest = words::tail(rest, USE_SIZE);
        index += 1;
    }
    items
}

// The same for the uses of a row, as the very bytes of the file. No Option: where none is stopped, what a step and a wait are told asks for the
// number of items (`blocked_item` of crate diagram_moves).
pub fn blocked_item(plant: &Plant, state: &[u16], row: u32, giving: bool) -> u32
    ensures { result ≡ blocked_item plant.now.table.now giving plant.now.rows plant.now.items state.now row 0 (uses_in plant.now.table.now plant.now.file.now row) }
{
    let number = plant.cell(USES_NUMBER, row) as usize;
    let uses = words::front(plant.uses(row), USE_SIZE * number);
    blocked_in(
        uses,
        plant.table,
        plant.rows,
        plant.items,
        state,
        row,
        giving,
    )
}
