// Numbers of 16 and 32 bits, little-endian, in and out of bytes, and in and out of the words of a state.
// Nothing is asked of a caller: past the end a byte or word is 0, a tail is empty, a store changes nothing.
#![tactic(auto)]

ghost use Rattle.std.specs.Prelude.{◌≡◌, ◌+◌, ◌*◌, ◌<◌, take, drop, get_or, set};
ghost use Rattle.effbd.specs.Answers.{number, fault};
ghost use Rattle.effbd.specs.Records.{word as word_in, fault_at};
ghost use Rattle.words.specs.Stores.{long_in, word_put, long_put, copied};
ghost use Rattle.words.specs.Sums.{added as sum_of};

use effbd::Reason;

// The byte at `at`.
pub fn byte(bytes: &[u8], at: usize) -> u16
    ensures { (result ≡ get_or bytes.now at 0) × (result < 256) }
{
    if at < bytes.len() {
        return bytes[at] as u16;
    }
    0
}

// The 16 bits at `at`; one look at the length serves both bytes.
pub fn word(bytes: &[u8], at: usize) -> u16
    ensures { result ≡ word_in bytes.now at }
{
    if bytes.len() < 2 {
        return byte(bytes, at);
    }
    if bytes.len() - 2 < at {
        return byte(bytes, at);
    }
    bytes[at] as u16 + 256 * (bytes[at + 1] as u16)
}

// The 32 bits at `at`.
pub fn long(bytes: &[u8], at: usize) -> u32
    ensures { result ≡ long_in bytes.now at }
{
    if at < bytes.len() {
        return word(bytes, at) as u32 + 65536 * (word(bytes, at + 2) as u32);
    }
    0
}

// The first `n` bytes or words, or all that there are.
pub fn front<'a, T>(list: &'a [T], n: usize) -> &'a [T]
    ensures { result.now ≡ take n list.now }
{
    if n <= list.len() {
        return &list[..n];
    }
    list
}

// What follows the first `n` bytes.
pub fn tail<'a>(bytes: &'a [u8], n: usize) -> &'a [u8]
    ensures { result.now ≡ drop n bytes.now }
{
    if n <= bytes.len() {
        return &bytes[n..];
    }
    &bytes[0..0]
}

// The order of refusals at a record: its kind is due, its length is right for its kind, its fields are fine (else `off`).
pub fn record_reason(
    bytes: &[u8],
    due: bool,
    right: bool,
    fine: bool,
    off: Reason,
) -> Option<Reason>
    ensures { fault result ≡ fault_at bytes.now due right fine (number off) }
{
    if bytes.len() < 4 {
        return Some(Reason::CutShort);
    }
    if !due {
        return Some(Reason::KindNotDue);
    }
    if !right {
        return Some(Reason::LengthWrong);
    }
    if bytes.len() < word(bytes, 0) as usize {
        return Some(Reason::CutShort);
    }
    if !fine {
        return Some(off);
    }
    None
}

// The same as a number, 0 where nothing is off, with any number for fields that are off.
pub fn record_fault(bytes: &[u8], due: bool, right: bool, fine: bool, number: u16) -> u16
    ensures { result ≡ fault_at bytes.now due right fine number }
{
    match record_reason(bytes, due, right, true, Reason::FieldOff) {
        Some(reason) => reason.number(),
        None if fine => 0,
        None => number,
    }
}

// Stores a byte at `at`. Area and place go side by side, no writer as for a net or a text: nothing is stored behind it.
pub fn put_byte(area: &mut [u8], at: usize, value: u8)
    ensures { area.new ≡ set area.old at value }
{
    if at < area.len() {
        area[at] = value;
    }
}

// Stores 16 bits at `at`.
pub fn put_word(area: &mut [u8], at: usize, value: u16)
    ensures { area.new ≡ word_put area.old at value }
{
    if at < area.len() {
        put_byte(area, at, (value % 256) as u8);
        put_byte(area, at + 1, (value / 256) as u8);
    }
}

// Stores 32 bits at `at`.
pub fn put_long(area: &mut [u8], at: usize, value: u32)
    ensures { area.new ≡ long_put area.old at value }
{
    if at < area.len() {
        put_word(area, at, (value % 65536) as u16);
        put_word(area, at + 2, (value / 65536) as u16);
    }
}

// The word at `at` of a state or a table.
pub fn get(state: &[u16], at: usize) -> u16
    ensures { result ≡ get_or state.now at 0 }
{
    if at < state.len() {
        return state[at];
    }
    0
}

// Stores a word at `at` of a state or a table.
pub fn put(state: &mut [u16], at: usize, value: u16)
    ensures { state.new ≡ set state.old at value }
{
    if at < state.len() {
        state[at] = value;
    }
}

// Copies the words of a state to the front of another list, where it has room for all of them.
pub fn copy(to: &mut [u16], from: &[u16])
    ensures { to.new ≡ copied from.now to.old }
{
    if to.len() < from.len() {
        return;
    }
    // Word by word, no `copy_from_slice`: that calls memmove, which no program in C had to bring for the library so far.
    for i in 0..from.len() {
        to[i] = from[i];
    }
}

// A sum, which stops at 65,535.
pub fn added(number: u16, more: u16) -> u16
    ensures { result ≡ sum_of number more }
{
    number.saturating_add(more)
}
