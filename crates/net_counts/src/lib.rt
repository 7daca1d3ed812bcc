// The counts' places of a net with their fresh marks: the items, and behind these the copies of triggers.
#![tactic(auto)]

ghost use Rattle.net_records.specs.Writing.{Wrote, runs};
ghost use Rattle.net_counts.specs.Marks.{item_mark, equal_marks, copy_marks, copies_marks, count_marks};

use diagram_table::{COUNT, RECEIVERS, SOME_TRIGGER, TRIGGER};
use net_records::Writer;

// The places of the items; that of a trigger remains empty.
fn of_items(table: &[u16], items: u16, net: &mut Writer)
    ensures { Wrote net.old net.new (runs (item_mark table.now) items) }
{
    for item in 0..items {
        net.mark(table_counts::shared_count(table, item as u32));
    }
}

// So many places of one mark.
fn equal_marks(number: u16, weight: u16, net: &mut Writer)
    ensures { Wrote net.old net.new (equal_marks number weight) }
{
    for _copy in 0..number {
        net.mark(weight);
    }
}

// Each copy of a trigger has its initial count.
#[tactic(auto, unfolding(crate::specs::Marks::copy_marks))]
fn copy_marks(table: &[u16], item: u16, net: &mut Writer)
    ensures { Wrote net.old net.new (copy_marks table.now item) }
{
    if diagram_table::cell(table, TRIGGER, item as u32) == 0 {
        return;
    }
    let number = diagram_table::cell(table, RECEIVERS, item as u32);
    let weight = diagram_table::cell(table, COUNT, item as u32);
    equal_marks(number, weight, net);
}

// The copies of all triggers, where there are any.
fn of_copies(table: &[u16], items: u16, net: &mut Writer)
    ensures { Wrote net.old net.new (copies_marks table.now items) }
{
    if diagram_table::cell(table, SOME_TRIGGER, 0) == 0 {
        return;
    }
    for item in 0..items {
        copy_marks(table, item, net);
    }
}

// All counts: the items, then the copies.
pub fn of_counts(table: &[u16], items: u16, net: &mut Writer)
    ensures { Wrote net.old net.new (count_marks table.now items) }
{
    of_items(table, items, net);
    of_copies(table, items, net);
}
