// The net of a diagram, written into a lent area.
#![tactic(auto)]

ghost use Rattle.std.specs.Prelude.{◌≡◌, ◌≤◌, true, length};
ghost use Rattle.effbd.specs.Answers.{said};
ghost use Rattle.effbd.specs.Records.{are_bytes};
ghost use Rattle.effbd.specs.Patterns.{translated};
ghost use Rattle.diagram_table.specs.Cells.{counts_in};
ghost use Rattle.diagram_table.specs.Held.{HoldsPlant};
ghost use Rattle.net_records.specs.Writing.{flat, Wrote};
ghost use Rattle.translate.specs.NetRecords.{net_records, longest_net};

use diagram_table::{SOME_TRIGGER, WIDE};
use effbd::{Answer, Reason, Refusal};
use net_records::Writer;

// An accepted file beside the table that holds its diagram; its rows and items as the file counts them, in 16 bits (no `Plant`).
// That the table holds the diagram is asked by the writers: the fact carries the diagram itself, and a struct holds only propositions.
#[derive(Drop)]
struct Source<'a> {
    table: &'a [u16],
    file: &'a [u8],
    rows: u16,
    items: u16,
    ghost bytes: { are_bytes file.now ≡ true },
}

impl<'a> Source<'a> {
    // The whole net: its head, the marks of its places, the transitions.
    fn put_net(&self, net: &mut Writer)
        ensures { Wrote net.old net.new (net_records self.now.table.now self.now.file.now self.now.rows self.now.items) }
    {
        net_head::head(self.table, self.rows, self.items, net);
        net_marks::of_rows(self.table, self.rows, net);
        net_counts::of_counts(self.table, self.items, net);
        net_rows::transitions(self.table, self.file, self.rows, net);
    }

    // No net of so many rows, items and counts is longer (`never-longer`).
    fn longest(&self) -> usize
        ensures { result ≡ longest_net self.now.rows self.now.items (counts_in self.now.table.now self.now.items) }
    {
        let rows = self.rows as usize;
        let counts = table_counts::count_total(self.table, self.items);
        let row = net_rows::most_bytes(self.rows, self.items, counts);
        8 + 6 * (3 * rows + counts as usize) + rows * row
    }

    // In an area that has room for it.
    fn write_whole(&self, area: &mut [u8]) -> Answer
        requires holds_plant { HoldsPlant self.now.file.now self.now.rows self.now.items self.now.table.now }
        requires in_bounds { length (flat (net_records self.now.table.now self.now.file.now self.now.rows self.now.items)) ≤ length area.old }
        ensures result_value { said result ≡ (translated self.now.file.now area.old).answer }
        ensures area_after { area.new ≡ (translated self.now.file.now area.old).area }
    {
        let mut net = Writer { area, at: 0 };
        self.put_net(&mut net);
        Ok(net.at as u32)
    }

    // The same in an area of any length: the net is measured first, by writing it into an empty part of the area.
    fn write_measured(&self, area: &mut [u8]) -> Answer
        requires { HoldsPlant self.now.file.now self.now.rows self.now.items self.now.table.now }
        ensures result_value { said result ≡ (translated self.now.file.now area.old).answer }
        ensures area_after { area.new ≡ (translated self.now.file.now area.old).area }
    {
        let room = area.len();
        let mut net = Writer {
            area: &mut area[..0],
            at: 0,
        };
        self.put_net(&mut net);
        let needed = net.at;
        if room < needed {
            return Err(Refusal {
                reason: Reason::AreaShort,
                value: needed as u32,
            });
        }
        self.write_whole(area)
    }

    // The net is known to have at most so many bytes: an area with room for these needs no measuring.
    fn write(&self, most: usize, area: &mut [u8]) -> Answer
        requires holds_plant { HoldsPlant self.now.file.now self.now.rows self.now.items self.now.table.now }
        requires len_bound { length (flat (net_records self.now.table.now self.now.file.now self.now.rows self.now.items)) ≤ most }
        ensures result_value { said result ≡ (translated self.now.file.now area.old).answer }
        ensures area_after { area.new ≡ (translated self.now.file.now area.old).area }
    {
        if area.len() < most {
            return self.write_measured(area);
        }
        self.write_whole(area)
    }
}

// No net of a plant without triggers is longer (`plain-shorter`): its bound needs no computing.
const LONGEST_PLAIN: usize = 61928;

// The net of a diagram file, written into the first bytes of the area: answers its length. A refused file's refusal, and `AreaShort` with
// the bytes needed where the area is too short; then nothing is altered.
pub fn translate(file: &[u8], area: &mut [u8]) -> Answer
    ensures result_value { said result ≡ (translated file.now area.old).answer }
    ensures area_after { area.new ≡ (translated file.now area.old).area }
{
    let diagram = diagram_file::diagram_of(file)?;
    let rows = diagram.rows;
    let items = diagram.items;
    if diagram_table::cell(&diagram.table, SOME_TRIGGER, 0) == 0 {
        let plain = Source {
            table: &diagram.table,
            file,
            rows,
            items,
        };
        return plain.write(LONGEST_PLAIN, area);
    }
    let mut table = [0u16; WIDE];
    copies::widen(&mut table, &diagram.table, rows, items, file);
    let copied = Source {
        table: &table,
        file,
        rows,
        items,
    };
    copied.write(copied.longest(), area)
}
