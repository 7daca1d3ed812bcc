// Telegrams of the new and the old edition, in and out of bytes: what both bus ends and the conversion between editions share.
#![tactic(auto)]

ghost use Rattle.std.specs.Prelude.{◌≡◌};
ghost use Rattle.effbd.specs.BusEnds.{telegram as telegram_of, is_telegram};
ghost use Rattle.effbd.specs.Editions.{old_telegram, is_old_telegram};
ghost use Rattle.words.specs.Stores.{copied};
ghost use Rattle.telegrams.specs.Forms.{has_form};

use effbd::limits;

// The kinds: numbers, since they are words of a telegram's bytes.
const TELEGRAM: u16 = 48;

const OLD_TELEGRAM: u16 = 47;

// Where the fields of a telegram stand: the number has 32 bits, the others 16.
pub const NUMBER: usize = 4;

pub const STATION: usize = 8;

pub const CODE: usize = 10;

pub const ARGUMENT: usize = 12;

// The same of an old one, which has a setpoint alone.
pub const OLD_CODE: usize = 4;

pub const OLD_ARGUMENT: usize = 6;

// Whether size, length and kind of a telegram are these.
fn has_form(bytes: &[u8], length: u16, kind: u16) -> bool
    ensures { result ≡ has_form length kind bytes.now }
{
    bytes.len() == length as usize
        && words::word(bytes, 0) == length
        && words::word(bytes, 2) == kind
}

// Whether bytes are a telegram: else 30.
pub fn is_telegram(bytes: &[u8]) -> bool
    ensures { result ≡ is_telegram bytes.now }
{
    has_form(bytes, limits::TELEGRAM_LENGTH, TELEGRAM)
}

// Whether bytes are a telegram of the old edition.
pub fn is_old_telegram(bytes: &[u8]) -> bool
    ensures { result ≡ is_old_telegram bytes.now }
{
    has_form(bytes, limits::OLD_TELEGRAM_LENGTH, OLD_TELEGRAM)
}

// Writes a telegram into the first bytes of an area that has room for it, and nothing into another.
// The writers of both editions stay two: their fields are six and four, and shared would be only the length and the kind.
pub fn write_telegram(area: &mut [u8], number: u32, station: u16, code: u16, argument: u16)
    ensures { area.new ≡ copied (telegram_of number station code argument) area.old }
{
    if area.len() < limits::TELEGRAM_LENGTH as usize {
        return;
    }
    words::put_word(area, 0, limits::TELEGRAM_LENGTH);
    words::put_word(area, 2, TELEGRAM);
    words::put_long(area, NUMBER, number);
    words::put_word(area, STATION, station);
    words::put_word(area, CODE, code);
    words::put_word(area, ARGUMENT, argument);
}

// The same of the old edition.
pub fn write_old_telegram(area: &mut [u8], code: u16, argument: u16)
    ensures { area.new ≡ copied (old_telegram code argument) area.old }
{
    if area.len() < limits::OLD_TELEGRAM_LENGTH as usize {
        return;
    }
    words::put_word(area, 0, limits::OLD_TELEGRAM_LENGTH);
    words::put_word(area, 2, OLD_TELEGRAM);
    words::put_word(area, OLD_CODE, code);
    words::put_word(area, OLD_ARGUMENT, argument);
}
