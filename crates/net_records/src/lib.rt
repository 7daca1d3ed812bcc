// The records of a net, each written into the rest of the area after the one before.
// Nothing is asked of the area: past its end a store changes nothing, so that a writer also measures.
#![tactic(auto)]

ghost use Rattle.std.specs.Prelude.{◌≡◌, [], ◌∷◌, ◌*◌, ◌≤◌, length};
ghost use Rattle.std.proofs.lemmas.List.Edits.{sets};
ghost use Rattle.net_records.specs.Writing.{encode, past as past_of, Wrote};
ghost use Rattle.net_records.specs.Records.{transition as transition_record, pair as pair_record, arc as arc_record, mark as mark_record};

use kinds::{PLACE, TRANSITION};

// Far above the length of every net.
const OFFSET_LIMIT: usize = 1000000000;

// The offset n bytes on.
#[tactic(auto, unfolding(crate::specs::Writing::past))]
fn past(at: usize, n: usize) -> usize
    requires { n ≤ 10 }
    ensures { result ≡ past_of at n }
{
    if at <= OFFSET_LIMIT {
        return at + n;
    }
    at
}

// A record's words at the start of an area that has room for them: no byte is asked whether it fits.
#[tactic(auto, using(crate::proofs::Stores::word_more), unfolding(crate::specs::Writing::encode))]
fn put_whole(area: &mut [u8], fields: &[u16])
    requires { (length fields.now ≤ 5) × (2 * length fields.now ≤ length area.old) }
    ensures { area.new ≡ sets area.old 0 (encode fields.now) }
{
    for (i, field) in fields.iter().enumerate() {
        area[2 * i] = (*field % 256) as u8;
        area[2 * i + 1] = (*field / 256) as u8;
    }
}

// The same where the area may end before the record does.
#[tactic(auto, using(crate::proofs::Stores::word_more), unfolding(crate::specs::Writing::encode))]
fn put_cut(area: &mut [u8], fields: &[u16])
    requires { length fields.now ≤ 5 }
    ensures { area.new ≡ sets area.old 0 (encode fields.now) }
{
    for (i, field) in fields.iter().enumerate() {
        words::put_word(area, 2 * i, *field);
    }
}

// A record's words at the start of an area; one look at its length serves them all.
fn put_record(area: &mut [u8], fields: &[u16])
    requires { length fields.now ≤ 5 }
    ensures { area.new ≡ sets area.old 0 (encode fields.now) }
{
    if 2 * fields.len() <= area.len() {
        put_whole(area, fields);
    } else {
        put_cut(area, fields);
    }
}

// An area, and the offset in it where the next record is due.
#[derive(Drop)]
pub struct Writer<'a> {
    pub area: &'a mut [u8],
    pub at: usize,
}

// The writers take places, labels and numbers of transitions as their callers work them out, in usize, from any table. A record holds
// 16 bits of each, and what is above is cut: of the net of an accepted diagram nothing, since its places and transitions keep a
// head's limits and its labels are its rows (`net-well-formed`, crate agreement).
impl<'a> Writer<'a> {
    // "Each record is written into the rest of the area after the one before."
    fn add(&mut self, fields: &[u16])
        requires { length fields.now ≤ 5 }
        ensures { Wrote self.old self.new (fields.now ∷ []) }
    {
        let at = self.at;
        if at <= self.area.len() {
            put_record(&mut self.area[at..], fields);
        }
        self.at = past(at, 2 * fields.len());
    }

    // A record of two numbers, both cut: the head (places, transitions), a clear (first, last place).
    #[tactic(auto, unfolding(crate::specs::Records::pair))]
    pub fn pair(&mut self, kind: u16, first: usize, second: usize)
        ensures { Wrote self.old self.new (pair_record kind first second) }
    {
        let fields = [8, kind, (first % 65536) as u16, (second % 65536) as u16];
        self.add(&fields);
    }

    // A take or a give, its place cut; "zero weights left out".
    #[tactic(auto, unfolding(crate::specs::Records::arc))]
    pub fn arc(&mut self, kind: u16, place: usize, weight: u16)
        ensures { Wrote self.old self.new (arc_record kind place weight) }
    {
        if weight == 0 {
            return;
        }
        let fields = [8, kind, (place % 65536) as u16, weight];
        self.add(&fields);
    }

    // A transition without its arcs, its label cut.
    #[tactic(auto, unfolding(crate::specs::Records::transition))]
    pub fn transition(&mut self, label: usize, earliest: u16, latest: u16)
        ensures { Wrote self.old self.new (transition_record label earliest latest) }
    {
        let fields = [10, TRANSITION, (label % 65536) as u16, earliest, latest];
        self.add(&fields);
    }

    // A place with its mark.
    #[tactic(auto, unfolding(crate::specs::Records::mark))]
    pub fn mark(&mut self, weight: u16)
        ensures { Wrote self.old self.new (mark_record weight) }
    {
        let fields = [6, PLACE, weight];
        self.add(&fields);
    }
}
