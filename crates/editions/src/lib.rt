// Runs of telegrams, one after another, converted between the old and the new edition: a run is checked first, so that a refusal has
// written nothing. Each telegram is read from the rest of the run and written into the rest of the area.
#![tactic(auto)]

ghost use Rattle.std.specs.Prelude.{◌≡◌, ◌*◌, ◌/◌, ℕ, List, true, length, take};
ghost use Rattle.words.specs.Stores.{copied};
ghost use Rattle.effbd.specs.Answers.{said, fault, is_accepted};
ghost use Rattle.effbd.specs.Editions.{old_fault, new_fault, new_of, old_of, stopping, telegrams_up, telegrams_down};
ghost use Rattle.editions.specs.Checks.{checked};
ghost use Rattle.editions.specs.Conversions.{converted, laid, Sizes, Telegrams, old-sizes, new-sizes, old-telegrams, new-telegrams};

use effbd::{Answer, Reason, Refusal, limits};

const OLD: usize = limits::OLD_TELEGRAM_LENGTH as usize;

const NEW: usize = limits::TELEGRAM_LENGTH as usize;

// A number as a value of 32 bits: the largest that they hold where it is above.
fn stopped(n: usize) -> u32
    ensures { result ≡ stopping n }
{
    u32::try_from(n).unwrap_or(limits::MOST_COUNT)
}

// One way of the conversion: the bytes of a telegram and of what it becomes.
trait Conversion {
    ghost SIZE: { ℕ };

    ghost OUT: { ℕ };

    ghost off: { Self → ℕ → List ℕ → ℕ };

    ghost made: { Self → ℕ → List ℕ → List ℕ };

    const SIZE: usize;

    const OUT: usize;

    // What is off at a telegram that is to have this number.
    fn fault(&self, telegram: &[u8], number: usize) -> Option<Reason>
        ensures { fault result ≡ off self.now number telegram.now };

    // Writes what the telegram at the front of `rest` becomes.
    fn write(&self, rest: &[u8], number: u32, area: &mut [u8])
        ensures { area.new ≡ copied (made self.now number (take SIZE rest.now)) area.old };

    ghost sizes: { Sizes SIZE OUT };

    ghost telegrams: { (s : Self) → Telegrams SIZE OUT (off s) (made s) };
}

// To the new edition, with this station and numbers.
#[derive(Clone, Copy)]
struct Upward {
    station: u16,
}

// To the old one, which has neither: all telegrams have this station.
#[derive(Clone, Copy)]
struct Downward {
    station: u16,
}

impl Conversion for Upward {
    ghost SIZE = { 8 };

    ghost OUT = { 14 };

    ghost off = { λ s n t. old_fault n t };

    ghost made = { λ s n t. new_of s.station n t };

    const SIZE: usize = OLD;

    const OUT: usize = NEW;

    ghost sizes = { old-sizes };

    ghost telegrams = { λ s. old-telegrams s.station };

    #[tactic(auto, unfolding(effbd::specs::Editions::old_fault))]
    fn fault(&self, telegram: &[u8], number: usize) -> Option<Reason> {
        if !telegrams::is_old_telegram(telegram) {
            return Some(Reason::NoTelegram);
        }
        if (limits::MOST_COUNT as usize) < number {
            return Some(Reason::NumberNotNext);
        }
        None
    }

    fn write(&self, rest: &[u8], number: u32, area: &mut [u8]) {
        let code = words::word(rest, telegrams::OLD_CODE);
        let argument = words::word(rest, telegrams::OLD_ARGUMENT);
        telegrams::write_telegram(area, number, self.station, code, argument);
    }
}

impl Conversion for Downward {
    ghost SIZE = { 14 };

    ghost OUT = { 8 };

    ghost off = { λ s n t. new_fault s.station n t };

    ghost made = { λ s n t. old_of n t };

    const SIZE: usize = NEW;

    const OUT: usize = OLD;

    ghost sizes = { new-sizes };

    ghost telegrams = { λ s. new-telegrams s.station };

    #[tactic(auto, unfolding(effbd::specs::Editions::new_fault))]
    fn fault(&self, telegram: &[u8], number: usize) -> Option<Reason> {
        if !telegrams::is_telegram(telegram) {
            return Some(Reason::NoTelegram);
        }
        if words::long(telegram, telegrams::NUMBER) as usize != number {
            return Some(Reason::NumberNotNext);
        }
        if words::word(telegram, telegrams::STATION) != self.station {
            return Some(Reason::StationDiffers);
        }
        None
    }

    fn write(&self, rest: &[u8], _number: u32, area: &mut [u8]) {
        let code = words::word(rest, telegrams::CODE);
        let argument = words::word(rest, telegrams::ARGUMENT);
        telegrams::write_old_telegram(area, code, argument);
    }
}

// Whether a run can be converted: accepted with 0, or what is off at the first telegram that is.
fn check<C: Conversion>(way: &C, run: &[u8], first: u32) -> Answer
    ensures { said result ≡ checked (converted C.SIZE (C.off way.now) (C.made way.now) first run.now) }
{
    let size = C::SIZE;
    // Tails and an index, no chunks: each telegram is read from the rest of the run and written into the rest of the area (the documents' form).
    let mut rest = run;
    let mut index: usize = 0;
    while !rest.is_empty() {
        if let Some(reason) = way.fault(words::front(rest, size), first as usize + index) {
            return Err(Refusal {
                reason,
                value: stopped(index),
            });
        }
        rest = words::tail(rest, size);
        index += 1;
    }
    Ok(0)
}

// Writes what a run is converted to, where nothing is off and the area has room.
fn write<C: Conversion>(way: &C, run: &[u8], first: u32, area: &mut [u8])
    requires { is_accepted (laid area.old (converted C.SIZE (C.off way.now) (C.made way.now) first run.now)).answer ≡ true }
    ensures { area.new ≡ (laid area.old (converted C.SIZE (C.off way.now) (C.made way.now) first run.now)).area }
{
    let (size, out) = (C::SIZE, C::OUT);
    let mut rest = run;
    let mut index: usize = 0;
    let mut at: usize = 0;
    while size <= rest.len() {
        let number = (first as usize + index) as u32;
        way.write(rest, number, &mut area[at..]);
        rest = words::tail(rest, size);
        index += 1;
        at += out;
    }
}

// The bytes that a run becomes: as many telegrams, of the other edition.
fn room<C: Conversion>(run: &[u8]) -> usize
    ensures { result ≡ length run.now / C.SIZE * C.OUT }
{
    run.len() / C::SIZE * C::OUT
}

// Converts a run whose first telegram is to have this number: accepted with the bytes written.
fn convert<C: Conversion>(way: &C, run: &[u8], first: u32, area: &mut [u8]) -> Answer
    ensures answer { said result ≡ (laid area.old (converted C.SIZE (C.off way.now) (C.made way.now) first run.now)).answer }
    ensures area { area.new ≡ (laid area.old (converted C.SIZE (C.off way.now) (C.made way.now) first run.now)).area }
{
    check(way, run, first)?;
    let size = room::<C>(run);
    if area.len() < size {
        return Err(Refusal {
            reason: Reason::AreaShort,
            value: stopped(size),
        });
    }
    write(way, run, first, area);
    Ok(stopped(size))
}

// A run of old telegrams as telegrams of this station, numbered from the first number on: accepted with the bytes written.
pub fn telegrams_up(old: &[u8], station: u16, first: u32, area: &mut [u8]) -> Answer
    ensures result_value { said result ≡ (telegrams_up old.now station first area.old).answer }
    ensures area_after { area.new ≡ (telegrams_up old.now station first area.old).area }
{
    convert(&Upward { station }, old, first, area)
}

// A run of telegrams as old ones; the station and the first number give the run back: accepted with the bytes written.
pub fn telegrams_down(run: &[u8], area: &mut [u8], station: &mut u16, first: &mut u32) -> Answer
    ensures result_value { said result ≡ (telegrams_down run.now area.old station.old first.old).answer }
    ensures area_after { area.new ≡ (telegrams_down run.now area.old station.old first.old).area }
    ensures station_after { station.new ≡ (telegrams_down run.now area.old station.old first.old).station }
    ensures first_after { first.new ≡ (telegrams_down run.now area.old station.old first.old).first }
{
    let due = words::word(run, telegrams::STATION);
    let number = words::long(run, telegrams::NUMBER);
    let size = convert(&Downward { station: due }, run, number, area)?;
    *station = due;
    *first = number;
    Ok(size)
}
