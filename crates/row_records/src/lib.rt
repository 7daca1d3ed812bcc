// Reads the row records of a diagram file by its tails, into one flat table: refusals 1 to 3, 5, 6 and 43. `entries` is the constant table of kinds
// (crate kinds), laid out once and lent on: each record's length and fields are looked up in it by the record's own kind.
#![tactic(auto)]

ghost use Rattle.std.specs.Prelude.{◌≡◌, ◌+◌, ◌-◌, ◌*◌, ◌/◌, ◌≤◌, ◌<◌, length};
ghost use Rattle.effbd.specs.Answers.{fault};
ghost use Rattle.effbd.specs.Records.{word};
ghost use Rattle.effbd.specs.Diagrams.{most_rows, most_items, uses_at, uses_fine, row_fault};
ghost use Rattle.diagram_table.specs.Cells.{cell_total};
ghost use Rattle.row_records.specs.Fields.{field_of, use_fine, function_right, function_fine, function_fault, turn_limit_fine, is_row};
ghost use Rattle.row_records.specs.Rows.{put_row, fill_row, use_fits, triggers_fit, trigger_fault, reached, end_reached, RowsRead, SomeRowsRead, Refined, rows_laid, rows_fit, RowsInto};

use diagram_table::{
    CELLS, FIRST, SECOND, SOME_TRIGGER, TRIGGER, USE_SIZE, USES_NUMBER, USES_START,
};
use effbd::Reason;
use effbd::limits::{MOST_ITEMS, MOST_ROWS};
use kinds::Kinds;

// The last byte at which rows can begin: behind a head and as many items as there can be.
const ROWS_FROM: usize = 106;

// The record at fault: why, and where it begins. No Refusal: `read` may be told any byte to begin at, and tells it again.
#[derive(Clone, Copy)]
pub struct Fault {
    pub reason: Reason,
    pub at: usize,
}

#[tactic(auto, unfolding(crate::specs::Fields::use_fine))]
fn use_fine(items: u16, from: u32, item: u16, take: u16, give: u16) -> bool
    ensures { result ≡ use_fine items from item take give }
{
    from <= item as u32 && (item < items && 0 < take as u32 + give as u32)
}

// The 16 bits at `at`, where both bytes are known to stand. Crate net_file has the same: what both used would be public, and no public function
// asks its caller for anything.
fn known_word(bytes: &[u8], at: usize) -> u16
    requires { at + 2 ≤ length bytes.now }
    ensures { result ≡ word bytes.now at }
{
    bytes[at] as u16 + 256 * (bytes[at + 1] as u16)
}

// The uses at the start of `uses`, all of which stand there: items rising and below `items`, none that neither takes nor gives.
fn uses_fine(uses: &[u8], count: u16, items: u16) -> bool
    requires { 6 * count ≤ length uses.now }
    ensures { result ≡ uses_fine items 0 (uses_at count uses.now) }
{
    let mut rest = uses;
    let mut from: u32 = 0;
    for _ in 0..count {
        let item = known_word(rest, 0);
        if !use_fine(items, from, item, known_word(rest, 2), known_word(rest, 4)) {
            return false;
        }
        from = item as u32 + 1;
        rest = words::tail(rest, USE_SIZE);
    }
    true
}

// The number of uses that the length of a FUNCTION's record leaves room for, behind the length that its kind gives.
fn use_count(size: u16, base: u16) -> u16
    ensures { result ≡ (size - base) / 6 }
{
    size.saturating_sub(base) / USE_SIZE as u16
}

#[tactic(auto, unfolding(crate::specs::Fields::is_row))]
fn is_row(kind: u16) -> bool
    ensures { result ≡ is_row kind }
{
    kinds::FUNCTION <= kind && kind <= kinds::BOX_EXIT
}

#[tactic(auto, unfolding(crate::specs::Fields::function_right))]
fn function_right(size: u16, base: u16, items: u16) -> bool
    ensures { result ≡ function_right size base items }
{
    base <= size
        && ((size - base) % USE_SIZE as u16 == 0 && (size - base) / USE_SIZE as u16 <= items)
}

#[tactic(auto, unfolding(crate::specs::Fields::turn_limit_fine))]
fn turn_limit_fine(count: u16) -> bool
    ensures { result ≡ turn_limit_fine count }
{
    2 <= count && count <= 255
}

// The fields of a FUNCTION that stands whole in the file; its uses begin behind its fields, at byte `behind`.
fn function_fine(bytes: &[u8], base: u16, behind: u16, items: u16) -> bool
    requires { (word bytes.now 0 ≤ length bytes.now) × (behind ≤ base) }
    ensures { result ≡ function_fine base behind items bytes.now }
{
    if words::word(bytes, 6) < words::word(bytes, 4) {
        return false;
    }
    uses_fine(
        words::tail(bytes, behind as usize),
        use_count(words::word(bytes, 0), base),
        items,
    )
}

// The fault of a FUNCTION; where it is cut short nothing is asked of its fields.
fn function_fault(bytes: &[u8], base: u16, behind: u16, items: u16) -> Option<Reason>
    requires { behind ≤ base }
    ensures { fault result ≡ function_fault base behind items bytes.now }
{
    let size = words::word(bytes, 0);
    let right = function_right(size, base, items);
    if bytes.len() < size as usize {
        return words::record_reason(bytes, true, right, true, Reason::FieldOff);
    }
    let fine = function_fine(bytes, base, behind, items);
    words::record_reason(bytes, true, right, fine, Reason::FieldOff)
}

// One look at the length serves what follows, and one at the kind finds all that is asked of a row.
fn row_fault(bytes: &[u8], entries: &Kinds, items: u16) -> Option<Reason>
    ensures { fault result ≡ row_fault items bytes.now }
{
    if bytes.len() < 4 {
        return Some(Reason::CutShort);
    }
    let kind = words::word(bytes, 2);
    let size = words::word(bytes, 0);
    let base = entries.base_length(kind);
    match kind {
        kinds::FUNCTION => {
            let behind = entries.behind_fields(kind);
            function_fault(bytes, base, behind, items)
        }
        kinds::IT_OPEN => {
            let fine = turn_limit_fine(words::word(bytes, 4));
            words::record_reason(bytes, true, size == base, fine, Reason::FieldOff)
        }
        _ => {
            let due = is_row(kind);
            words::record_reason(bytes, due, size == base, true, Reason::FieldOff)
        }
    }
}

// A take or a give of a trigger is at most 1.
#[tactic(auto, unfolding(crate::specs::Rows::use_fits))]
fn use_fits(table: &[u16], item: u16, take: u16, give: u16) -> bool
    ensures { result ≡ use_fits table.now (record { item = item; take = take; give = give }) }
{
    diagram_table::cell(table, TRIGGER, item as u32) == 0 || take <= 1 && give <= 1
}

// The uses at the start of `uses`, as the table's items have it.
fn triggers_fit(uses: &[u8], count: u16, table: &[u16]) -> bool
    ensures { result ≡ triggers_fit table.now (uses_at count uses.now) }
{
    let mut rest = uses;
    for _ in 0..count {
        if !use_fits(
            table,
            words::word(rest, 0),
            words::word(rest, 2),
            words::word(rest, 4),
        ) {
            return false;
        }
        rest = words::tail(rest, USE_SIZE);
    }
    true
}

// 43 of a row's record: only a FUNCTION has uses.
fn trigger_fault(bytes: &[u8], entries: &Kinds, table: &[u16]) -> Option<Reason>
    ensures { fault result ≡ trigger_fault table.now bytes.now }
{
    let kind = words::word(bytes, 2);
    if kind != kinds::FUNCTION {
        return None;
    }
    let number = use_count(words::word(bytes, 0), entries.base_length(kind));
    let behind = entries.behind_fields(kind);
    if triggers_fit(words::tail(bytes, behind as usize), number, table) {
        return None;
    }
    Some(Reason::TriggerOff)
}

// The table is a slice, and its length a fact: `read` promises for a table of any length, and asks for it once (`rows_fit`).
fn put_row(
    table: &mut [u16],
    row: usize,
    kind: u16,
    first: u16,
    second: u16,
    offset: u16,
    number: u16,
)
    requires { (row < most_rows) × (length table.old ≡ cell_total) }
    ensures { table.new ≡ put_row row kind first second offset number table.old }
{
    table[row] = kind;
    table[FIRST as usize + row] = first;
    table[SECOND as usize + row] = second;
    table[USES_START as usize + row] = offset;
    table[USES_NUMBER as usize + row] = number;
}

// Field `number` of a record whose kind has `fields`, counted from 1; 0 where it has no such field.
#[tactic(auto, unfolding(crate::specs::Fields::field_of))]
fn field(bytes: &[u8], fields: u16, number: u16) -> u16
    ensures { result ≡ field_of fields number bytes.now }
{
    if number <= fields {
        return words::word(bytes, 2 + 2 * number as usize);
    }
    0
}

// The columns of a row whose record begins `bytes`, at byte `at` of the file: its fields (α and β of a FUNCTION, the count of an IT open), and of
// a FUNCTION where its uses begin and how many they are. A BRANCH that kills is a BRANCH whose first field is 1, so that whoever asks for a BRANCH
// finds it.
fn fill_row(table: &mut [u16], row: usize, bytes: &[u8], entries: &Kinds, at: usize)
    requires row_lt_most_rows { (row < most_rows) × (at < 60000) }
    requires table_len { length table.old ≡ cell_total }
    ensures { table.new ≡ fill_row row at bytes.now table.old }
{
    let kind = words::word(bytes, 2);
    let fields = entries.field_count(kind);
    let first = field(bytes, fields, 1);
    let second = field(bytes, fields, 2);
    if kind == kinds::FUNCTION {
        let number = use_count(words::word(bytes, 0), entries.base_length(kind));
        let offset = at + entries.behind_fields(kind) as usize;
        put_row(table, row, kind, first, second, offset as u16, number);
    } else if kind == kinds::KILLING_BRANCH {
        put_row(table, row, kinds::BRANCH, 1, second, 0, 0);
    } else {
        put_row(table, row, kind, first, second, 0, 0);
    }
}

// Behind the last record no byte is left, or 6.
fn behind_last(rest: &[u8], at: usize) -> Result<usize, Fault>
    ensures { reached result ≡ end_reached (length rest.now) at }
{
    if rest.is_empty() {
        return Ok(at);
    }
    Err(Fault {
        reason: Reason::BytesAfterLast,
        at,
    })
}

// Where reading stopped, whatever for.
fn stop(reading: Result<usize, Fault>) -> usize
    ensures { result ≡ (reached reading).at }
{
    match reading {
        Ok(at) => at,
        Err(fault) => fault.at,
    }
}

// The row records that are due: `count` of them begin `lines`, the rest of a file with so many items from its byte `from` on.
#[derive(Clone, Copy)]
struct Rows<'a> {
    entries: &'a Kinds,
    lines: &'a [u8],
    from: usize,
    count: usize,
    items: u16,
    ghost few: { ((from ≤ 106) × (count ≤ most_rows)) × (items ≤ most_items) },
}

impl<'a> Rows<'a> {
    // Reads them, their columns into the table. Answers where it stopped.
    fn read(&self, table: &mut [u16]) -> Result<usize, Fault>
        requires { length table.old ≡ cell_total }
        ensures rows_read { RowsRead (row_fault self.now.items) self.now.from self.now.lines.now self.now.count table.old table.new (reached result) }
        ensures table_after { table.new ≡ rows_laid self.now.items 0 self.now.from self.now.count self.now.lines.now table.old }
    {
        let mut rest = self.lines;
        let mut at = self.from;
        for row in 0..self.count {
            if let Some(reason) = row_fault(rest, self.entries, self.items) {
                return Err(Fault { reason, at });
            }
            fill_row(table, row, rest, self.entries, at);
            let size = words::word(rest, 0) as usize;
            rest = words::tail(rest, size);
            at += size;
        }
        behind_last(rest, at)
    }

    // Goes through those that were read once more, for 43: the first one that has it stands before whatever stopped the reading. A pass of its
    // own, which only plants with triggers pay for.
    fn refine(&self, table: &[u16], reading: Result<usize, Fault>) -> Result<usize, Fault>
        requires { SomeRowsRead self.now.items self.now.from self.now.lines.now self.now.count table.now (reached reading) }
        ensures { Refined self.now.items self.now.from self.now.lines.now self.now.count table.now (reached reading) (reached result) }
    {
        if diagram_table::cell(table, SOME_TRIGGER, 0) == 0 {
            return reading;
        }
        let stopped = stop(reading);
        let mut rest = self.lines;
        let mut at = self.from;
        for _ in 0..self.count {
            if stopped <= at {
                return reading;
            }
            if let Some(reason) = trigger_fault(rest, self.entries, table) {
                return Err(Fault { reason, at });
            }
            let size = words::word(rest, 0) as usize;
            rest = words::tail(rest, size);
            at += size;
        }
        reading
    }
}

// Rows can be read: they begin where rows can, there are no more of them, and of items, than there can be, and the table has its length.
#[tactic(auto, unfolding(crate::specs::Rows::rows_fit))]
fn rows_fit(from: usize, count: usize, items: u16, long: usize) -> bool
    ensures { result ≡ rows_fit from count items long }
{
    from <= ROWS_FROM && (count <= MOST_ROWS as usize && (items <= MOST_ITEMS && long == CELLS))
}

// Reads `count` row records of a file with so many items, their columns into the table, which has the items' cells; `lines`, the rest of the file,
// begins at byte `from`. Answers where reading stopped. What rows cannot be read from or into is left as it is, and told as a table that is off,
// which is no refusal of the papers.
pub fn read(
    lines: &[u8],
    from: usize,
    count: usize,
    items: u16,
    table: &mut [u16],
) -> Result<usize, Fault>
    ensures { RowsInto items from lines.now count table.old table.new (reached result) }
{
    if !rows_fit(from, count, items, table.len()) {
        return Err(Fault {
            reason: Reason::TableOff,
            at: from,
        });
    }
    let entries = Kinds::new();
    let rows = Rows {
        entries: &entries,
        lines,
        from,
        count,
        items,
    };
    let reading = rows.read(table);
    rows.refine(table, reading)
}
