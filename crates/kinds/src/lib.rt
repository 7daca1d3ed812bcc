// The kinds of records: their names, and the constant table from kind to base length and field count, diagram and net kinds together.
#![tactic(auto)]

ghost use Rattle.std.specs.Prelude.{◌≡◌, ◌+◌, ◌*◌, ◌<◌, get_or};
ghost use Rattle.effbd.specs.Records.{KindBytes, length_of, fields_of};

// The kinds by their names: records of a diagram file, of a net file, the arcs of a transition.
// Numbers, not an enum: they are words of lent files and tables, and `base_length` here, `part_of` of crate nesting and `arc` and `pair` of the
// crates that read and write nets promise for any number.
pub const HEAD: u16 = 1;

pub const ITEM: u16 = 2;

pub const TRIGGER: u16 = 3;

pub const FUNCTION: u16 = 16;

pub const AND_OPEN: u16 = 17;

pub const BRANCH: u16 = 18;

pub const AND_CLOSE: u16 = 19;

pub const OR_OPEN: u16 = 20;

pub const OR_CLOSE: u16 = 21;

pub const IT_OPEN: u16 = 22;

pub const IT_CLOSE: u16 = 23;

pub const LP_OPEN: u16 = 24;

pub const LP_CLOSE: u16 = 25;

pub const LOOP_EXIT: u16 = 26;

pub const END: u16 = 27;

pub const KILLING_BRANCH: u16 = 28;

pub const BOX_OPEN: u16 = 29;

pub const BOX_CLOSE: u16 = 30;

pub const BOX_EXIT: u16 = 31;

pub const NET_HEAD: u16 = 32;

pub const PLACE: u16 = 33;

pub const TRANSITION: u16 = 34;

pub const TAKE: u16 = 35;

pub const CLEAR: u16 = 36;

pub const GIVE: u16 = 37;

// Of kind k the length of its records stands at 2k (a FUNCTION has 6 bytes more for each of its uses), the number of 16-bit fields in that
// length at 2k + 1; 0 where no kind has the number.
const TABLE: [u8; 76] = [
    0, 0, 10, // length of HEAD
    3, // fields of HEAD
    6, // length of ITEM
    1, // fields of ITEM
    6, // length of TRIGGER
    1, // fields of TRIGGER
    0, 0, 0, 0, 0, 0, 0, 0, 0, 0, 0, 0, 0, 0, 0, 0, 0, 0, 0, 0, 0, 0, 0, 0, 8, // length of FUNCTION
    2, // fields of FUNCTION
    4, // length of AND_OPEN
    0, // fields of AND_OPEN
    4, // length of BRANCH
    0, // fields of BRANCH
    4, // length of AND_CLOSE
    0, // fields of AND_CLOSE
    4, // length of OR_OPEN
    0, // fields of OR_OPEN
    4, // length of OR_CLOSE
    0, // fields of OR_CLOSE
    6, // length of IT_OPEN
    1, // fields of IT_OPEN
    4, // length of IT_CLOSE
    0, // fields of IT_CLOSE
    4, // length of LP_OPEN
    0, // fields of LP_OPEN
    4, // length of LP_CLOSE
    0, // fields of LP_CLOSE
    4, // length of LOOP_EXIT
    0, // fields of LOOP_EXIT
    4, // length of END
    0, // fields of END
    4, // length of KILLING_BRANCH
    0, // fields of KILLING_BRANCH
    4, // length of BOX_OPEN
    0, // fields of BOX_OPEN
    4, // length of BOX_CLOSE
    0, // fields of BOX_CLOSE
    6, // length of BOX_EXIT
    1, // fields of BOX_EXIT
    8, // length of NET_HEAD
    2, // fields of NET_HEAD
    6, // length of PLACE
    1, // fields of PLACE
    10, // length of TRANSITION
    3, // fields of TRANSITION
    8, // length of TAKE
    2, // fields of TAKE
    8, // length of CLEAR
    2, // fields of CLEAR
    8, // length of GIVE
    2, // fields of GIVE
];

// The table, for a reader to lay out once and lend on: where a constant is read at a place known only then, the compiler lays it out anew.
pub fn table() -> [u8; 76]
    ensures { KindBytes result }
{
    TABLE
}

// The length that a kind gives.
pub fn base_length(table: &[u8], kind: u16) -> u16
    ensures { result ≡ get_or table.now (2 * kind) 0 }
{
    words::byte(table, 2 * kind as usize)
}

// How many fields a kind has.
pub fn field_count(table: &[u8], kind: u16) -> u16
    ensures { (result ≡ get_or table.now (2 * kind + 1) 0) × (result < 256) }
{
    words::byte(table, 2 * kind as usize + 1)
}

// Where the fields of a record end, behind its length and its kind: a FUNCTION's uses begin there.
pub fn behind_fields(table: &[u8], kind: u16) -> u16
    ensures { (result ≡ 4 + 2 * get_or table.now (2 * kind + 1) 0) × (result < 516) }
{
    4 + 2 * field_count(table, kind)
}

// The table as one value, known to be the table of kinds: laid out once and lent on by a reader, whose every record asks it.
#[derive(Drop)]
pub struct Kinds {
    bytes: [u8; 76],
    ghost right: { KindBytes bytes },
}

impl Kinds {
    pub fn new() -> Kinds
        ensures { KindBytes result.bytes }
    {
        Kinds { bytes: table() }
    }

    pub fn base_length(&self, kind: u16) -> u16
        ensures { result ≡ length_of kind }
    {
        base_length(&self.bytes, kind)
    }

    pub fn field_count(&self, kind: u16) -> u16
        ensures { (result ≡ fields_of kind) × (result < 256) }
    {
        field_count(&self.bytes, kind)
    }

    pub fn behind_fields(&self, kind: u16) -> u16
        ensures { (result ≡ 4 + 2 * fields_of kind) × (result < 516) }
    {
        behind_fields(&self.bytes, kind)
    }
}
