// The limits of documents 01 and 02 by name.

// The rows and items of a diagram; they are constants of its type too, in crate diagram.
pub const MOST_ROWS: u16 = 64;

pub const MOST_ITEMS: u16 = 16;

// The places of a net; no state of a diagram has more words.
pub const MOST_PLACES: u16 = 1216;

// The places of a diagram's net, and the words of its state, before the copies of triggers: three for each row, one for each item.
pub const PLAIN_PLACES: u16 = 208;

pub const MOST_TRANSITIONS: u16 = 128;

// Labels of a net's transitions are below it.
pub const LABEL_LIMIT: u16 = 64;

// The largest count, mark, clock.
pub const MOST_WORD: u16 = 65535;

// Constructs open together.
pub const MOST_OPEN: usize = 12;

// The bytes of a telegram, and the largest number that one can have.
pub const TELEGRAM_LENGTH: u16 = 14;

pub const MOST_COUNT: u32 = 4294967295;

// The bytes of a telegram of the old edition.
pub const OLD_TELEGRAM_LENGTH: u16 = 8;

// The moves of a log, and the bytes of each: a setpoint.
pub const MOST_MOVES: usize = 65535;

pub const SETPOINT_LENGTH: usize = 4;
