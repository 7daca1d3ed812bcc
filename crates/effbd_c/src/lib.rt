// The functions that C and Rust programs call. A list is a pointer and its number of elements; an answer is number * 2^32 + value,
// number 0 where accepted. Each hands its arguments on as they are: what it answers and leaves is what the called function promises.
#![tactic(auto)]

ghost use Rattle.std.specs.Prelude.{◌≡◌, length};
ghost use Rattle.effbd.specs.Answers.{returning_zero, afterwards, packed};
ghost use Rattle.effbd.specs.Moves.{step_diagram, fresh_diagram};
ghost use Rattle.effbd.specs.Firing.{step_net, fresh_net, words_of};
ghost use Rattle.effbd.specs.Patterns.{translated};
ghost use Rattle.effbd.specs.Transitions.{transition_diagram};
ghost use Rattle.effbd.specs.Annex.{annex_in, over};
ghost use Rattle.effbd.specs.BusEnds.{offered, taken};
ghost use Rattle.effbd.specs.States.{state_length};
ghost use Rattle.effbd.specs.Nesting.{uses_part, packed_part};
ghost use Rattle.effbd.specs.Nets.{read_net};
ghost use Rattle.effbd.specs.Starts.{log_starts};
ghost use Rattle.effbd.specs.Editions.{telegrams_up, telegrams_down};

// A diagram file: accepted with the number of words of its state.
#[unsafe(no_mangle)]
pub extern "C" fn effbd_read(file: &[u8]) -> u64
    ensures { result ≡ packed (state_length file.now) }
{
    answers::pack_answer(diagram_file::read(file))
}

// Where the uses of a FUNCTION row lie in a diagram file: start * 2^32 + size; for a refused file or another row 0.
#[unsafe(no_mangle)]
pub extern "C" fn effbd_uses(file: &[u8], row: u16) -> u64
    ensures { result ≡ packed_part (uses_part file.now row) }
{
    let part = diagram_file::uses_part(file, row);
    answers::pack_part(part.start as u32, part.size as u32)
}

// The fresh state of a diagram.
#[unsafe(no_mangle)]
pub extern "C" fn effbd_fresh(file: &[u8], state: &mut [u16]) -> u64
    ensures value { result ≡ packed (returning_zero (fresh_diagram file.now state.old)) }
    ensures state_after { state.new ≡ afterwards state.old (fresh_diagram file.now state.old) }
{
    answers::pack_answer(diagram_step::fresh(file, state))
}

// A step or wait of a diagram.
#[unsafe(no_mangle)]
pub extern "C" fn effbd_step(file: &[u8], state: &mut [u16], code: u16, argument: u16) -> u64
    ensures value { result ≡ packed (returning_zero (step_diagram file.now code argument state.old)) }
    ensures state_after { state.new ≡ afterwards state.old (step_diagram file.now code argument state.old) }
{
    answers::pack_answer(diagram_step::step(file, state, code, argument))
}

// The transition of the net that a ready or running FUNCTION's step fires.
#[unsafe(no_mangle)]
pub extern "C" fn effbd_transition(file: &[u8], state: &[u16], row: u16) -> u64
    ensures { result ≡ packed (transition_diagram file.now row state.now) }
{
    answers::pack_answer(diagram_step::transition(file, state, row))
}

// The net of a diagram.
#[unsafe(no_mangle)]
pub extern "C" fn effbd_translate(file: &[u8], area: &mut [u8]) -> u64
    ensures value { result ≡ packed (translated file.now area.old).answer }
    ensures area_after { area.new ≡ (translated file.now area.old).area }
{
    answers::pack_answer(translate::translate(file, area))
}

// The annex text of a diagram, whose net is written into `net`: the text's length, also where `text` ends before it does.
#[unsafe(no_mangle)]
pub extern "C" fn effbd_annex(file: &[u8], net: &mut [u8], text: &mut [u8]) -> u64
    ensures value { result ≡ length (annex_in (length net.old) file.now) }
    ensures text_after { text.new ≡ over text.old (annex_in (length net.old) file.now) }
    ensures net_after { net.new ≡ (translated file.now net.old).area }
{
    annex_text::annex(file, net, text) as u64
}

// A net file: accepted with the number of words of its state.
#[unsafe(no_mangle)]
pub extern "C" fn tpn_read(net: &[u8]) -> u64
    ensures { result ≡ packed (words_of (read_net net.now)) }
{
    answers::pack_answer(net_file::read(net))
}

// The fresh state of a net.
#[unsafe(no_mangle)]
pub extern "C" fn tpn_fresh(net: &[u8], state: &mut [u16]) -> u64
    ensures value { result ≡ packed (returning_zero (fresh_net net.now state.old)) }
    ensures state_after { state.new ≡ afterwards state.old (fresh_net net.now state.old) }
{
    answers::pack_answer(net_fresh::fresh(net, state))
}

// A step or wait of a net.
#[unsafe(no_mangle)]
pub extern "C" fn tpn_step(net: &[u8], state: &mut [u16], code: u16, argument: u16) -> u64
    ensures value { result ≡ packed (returning_zero (step_net net.now code argument state.old)) }
    ensures state_after { state.new ≡ afterwards state.old (step_net net.now code argument state.old) }
{
    answers::pack_answer(net_step::step(net, state, code, argument))
}

// The leader's call.
#[unsafe(no_mangle)]
pub extern "C" fn leader_offer(
    file: &[u8],
    state: &mut [u16],
    count: u32,
    station: u16,
    code: u16,
    argument: u16,
    area: &mut [u8],
) -> u64
    ensures value { result ≡ packed (offered file.now state.old count station code argument area.old).answer }
    ensures state_after { state.new ≡ (offered file.now state.old count station code argument area.old).state }
    ensures area_after { area.new ≡ (offered file.now state.old count station code argument area.old).area }
{
    answers::pack_answer(bus_leader::offer(file, state, count, station, code, argument, area))
}

// The follower's call.
#[unsafe(no_mangle)]
pub extern "C" fn follower_take(
    net: &[u8],
    state: &mut [u16],
    count: u32,
    station: u16,
    telegram: &[u8],
) -> u64
    ensures value { result ≡ packed (taken net.now state.old count station telegram.now).answer }
    ensures state_after { state.new ≡ (taken net.now state.old count station telegram.now).state }
{
    answers::pack_answer(bus_follower::take(net, state, count, station, telegram))
}

// The most starts of a FUNCTION row in any hour of a log.
#[unsafe(no_mangle)]
pub extern "C" fn log_starts(file: &[u8], log: &[u8], row: u16, at: &mut u32) -> u64
    ensures value { result ≡ packed (log_starts file.now log.now row at.old).answer }
    ensures at_after { at.new ≡ (log_starts file.now log.now row at.old).at }
{
    answers::pack_answer(starts::log_starts(file, log, row, at))
}

// A run of old telegrams as telegrams of this edition.
#[unsafe(no_mangle)]
pub extern "C" fn telegrams_up(old: &[u8], station: u16, first: u32, area: &mut [u8]) -> u64
    ensures value { result ≡ packed (telegrams_up old.now station first area.old).answer }
    ensures area_after { area.new ≡ (telegrams_up old.now station first area.old).area }
{
    answers::pack_answer(editions::telegrams_up(old, station, first, area))
}

// A run of telegrams as old ones, with the station and the first number that give it back.
#[unsafe(no_mangle)]
pub extern "C" fn telegrams_down(
    run: &[u8],
    area: &mut [u8],
    station: &mut u16,
    first: &mut u32,
) -> u64
    ensures value { result ≡ packed (telegrams_down run.now area.old station.old first.old).answer }
    ensures area_after { area.new ≡ (telegrams_down run.now area.old station.old first.old).area }
    ensures station_after { station.new ≡ (telegrams_down run.now area.old station.old first.old).station }
    ensures first_after { first.new ≡ (telegrams_down run.now area.old station.old first.old).first }
{
    answers::pack_answer(editions::telegrams_down(run, area, station, first))
}
