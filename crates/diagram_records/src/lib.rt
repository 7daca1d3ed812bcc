// Reads a diagram file's head and items by its tails, into one flat table, and has the rows read behind them (crate row_records): refusals 1 to 6
// and 43. `entries` is the constant table of kinds (crate kinds), laid out once and lent on: each record's length is looked up in it by the
// record's own kind.
#![tactic(auto)]

ghost use Rattle.std.specs.Prelude.{◌≡◌, ◌≤◌, ◌<◌, length};
ghost use Rattle.effbd.specs.Answers.{fault};
ghost use Rattle.effbd.specs.Diagrams.{most_rows, most_items, head_fault, item_fault};
ghost use Rattle.diagram_table.specs.Cells.{cell_total};
ghost use Rattle.row_records.specs.Rows.{reached};
ghost use Rattle.diagram_records.specs.Fields.{head_fine, is_item};
ghost use Rattle.diagram_records.specs.Reading.{put_item, ItemsRead, items_laid, ReadInto};

use diagram::Diagram;
use diagram_table::{CELLS, COUNT, SOME_TRIGGER, TRIGGER};
use effbd::Reason;
use kinds::Kinds;
use row_records::Fault;

#[tactic(auto, unfolding(crate::specs::Fields::is_item))]
fn is_item(kind: u16) -> bool
    ensures { result ≡ is_item kind }
{
    matches!(kind, kinds::ITEM | kinds::TRIGGER)
}

fn item_fault(bytes: &[u8], entries: &Kinds) -> Option<Reason>
    ensures { fault result ≡ item_fault bytes.now }
{
    if bytes.len() < 4 {
        return Some(Reason::CutShort);
    }
    let kind = words::word(bytes, 2);
    let right = words::word(bytes, 0) == entries.base_length(kind);
    words::record_reason(bytes, is_item(kind), right, true, Reason::FieldOff)
}

#[tactic(auto, unfolding(crate::specs::Fields::head_fine))]
fn head_fine(edition: u16, rows: u16, items: u16) -> bool
    ensures { result ≡ head_fine edition rows items }
{
    edition == Diagram::EDITION && (1 <= rows && (rows <= Diagram::ROWS && items <= Diagram::ITEMS))
}

fn head_fault(bytes: &[u8], entries: &Kinds) -> Option<Reason>
    ensures { fault result ≡ head_fault bytes.now }
{
    let kind = words::word(bytes, 2);
    let right = words::word(bytes, 0) == entries.base_length(kind);
    let fine = head_fine(
        words::word(bytes, 4),
        words::word(bytes, 6),
        words::word(bytes, 8),
    );
    words::record_reason(
        bytes,
        kind == kinds::HEAD,
        right,
        fine,
        Reason::HeadValueOff,
    )
}

// The cells of an item; of a trigger also that there is one.
#[tactic(auto, unfolding(crate::specs::Reading::put_item))]
fn put_item(table: &mut [u16], item: usize, count: u16, trigger: bool)
    requires { item < most_items }
    ensures { table.new ≡ put_item item count trigger table.old }
{
    words::put(table, COUNT as usize + item, count);
    if trigger {
        words::put(table, TRIGGER as usize + item, 1);
        words::put(table, SOME_TRIGGER as usize, 1);
    } else {
        words::put(table, TRIGGER as usize + item, 0);
    }
}

// Reads `items` item records, their cells into the table, and has the rows read from the rest; `lines`, the rest of the file behind the
// head, begins at byte `from`.
fn read_items(
    lines: &[u8],
    from: usize,
    entries: &Kinds,
    rows: usize,
    items: u16,
    table: &mut [u16],
) -> Result<usize, Fault>
    requires from_bound { ((from ≤ 10) × (rows ≤ most_rows)) × (items ≤ most_items) }
    requires table_len { length table.old ≡ cell_total }
    ensures items_read { ItemsRead from lines.now items rows table.new (reached result) }
    ensures table_after { table.new ≡ items_laid rows items 0 from items lines.now table.old }
{
    let mut rest = lines;
    let mut at = from;
    for item in 0..items as usize {
        if let Some(reason) = item_fault(rest, entries) {
            return Err(Fault { reason, at });
        }
        put_item(
            table,
            item,
            words::word(rest, 4),
            words::word(rest, 2) == kinds::TRIGGER,
        );
        let size = words::word(rest, 0) as usize;
        rest = words::tail(rest, size);
        at += size;
    }
    row_records::read(rest, at, rows, items, table)
}

// Reads a diagram file's head, and from the rest its items and rows, into the table of a diagram: it has the cells of all records before the
// first that is at fault. Answers where reading stopped. What is no table's length is left as it is, and told as a table that is off, which is no
// refusal of the papers.
pub fn read_records(file: &[u8], table: &mut [u16]) -> Result<usize, Fault>
    ensures { ReadInto file.now table.old table.new (reached result) }
{
    if table.len() != CELLS {
        return Err(Fault {
            reason: Reason::TableOff,
            at: 0,
        });
    }
    let entries = Kinds::new();
    if let Some(reason) = head_fault(file, &entries) {
        return Err(Fault { reason, at: 0 });
    }
    let rows = words::word(file, 6) as usize;
    let items = words::word(file, 8);
    let size = words::word(file, 0) as usize;
    read_items(words::tail(file, size), size, &entries, rows, items, table)
}
