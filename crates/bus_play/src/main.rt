// Plays a list of calls on a diagram and its net, call by call, and prints what each call was answered, which transition of the annex its step
// fires, and both ends after it; at the end which telegrams were lost. The first argument names the diagram's file, the second the list's: records as crate calls has them.
#![tactic(auto)]

mod fired;
mod lines;

ghost use Rattle.std.specs.Prelude.{◌≡◌, ◌≤◌, [], ◌∷◌, ◌++◌, IfOk, length};
ghost use Rattle.effbd.specs.Answers.{said};
ghost use Rattle.effbd.specs.Moves.{most_word};
ghost use Rattle.ends.specs.ReadyEnds.{leader_room, follower_room};
ghost use Rattle.calls.specs.CallList.{call_of};
ghost use Rattle.calls.specs.LiveEnds.{live, live_answer, live_after, CallMade, SameLent};
ghost use Rattle.text.specs.Laid.{Laid};
ghost use Rattle.call_lines.specs.Lines.{call_fires, spaces, gap, ends_text, line_text};

use calls::{Counts, Ends, Line};
use effbd::{Answer, Refusal};
use ends::StateSizes;
use std::env::FillError;
use std::io::Read;
use std::rt::{Env, Files};
use std::{fs, io};
use text::Text;

// What is read and printed stands in buffers of a fixed size, with how much of each is used beside it: there is no heap.

// The station of both ends.
const STATION: u16 = 7;

// Both ends in their column.
fn put_ends(text: &mut Text, ends: &Ends)
    ensures { Laid text.old text.new (spaces (gap text.old.at 70) ++ ends_text (live ends.now) ++ (10 ∷ [])) }
{
    let leader: &[u16] = ends.leader;
    let follower: &[u16] = ends.follower;
    call_lines::put_ends_column(text, ends.counts, leader, follower);
}

// Makes one call and lays its line.
fn play_call(text: &mut Text, line: &Line, ends: &mut Ends, call: &mut [u8]) -> Answer
    requires at_start { text.old.at ≡ 0 }
    requires call_len_bound { length call.old ≤ most_word }
    ensures made { CallMade line.now ends.old call.old ends.new call.new (said result) }
    ensures laid { Laid text.old text.new (line_text (call_of call.old) (live_answer line.now.file.now line.now.net.now line.now.station (live ends.old) (call_of call.old)) (call_fires line.now.file.now line.now.net.now ends.old.leader.now ends.old.follower.now (call_of call.old)) (live_after line.now.file.now line.now.net.now line.now.station (live ends.old) (call_of call.old))) }
{
    lines::put_call(text, call);
    let fires = fired::by_call(line, ends, call);
    let answer = calls::make_call(line, ends, call);
    call_lines::put_call_answer(text, answer, fires);
    put_ends(text, ends);
    answer
}

// Makes one call and prints its line.
fn show_call(rt: &impl Print, line: &Line, ends: &mut Ends, call: &mut [u8]) -> io::Result<()>
    requires leader_len_bound { length ends.old.leader.now ≤ leader_room }
    requires follower_len_bound { length ends.old.follower.now ≤ follower_room }
    requires call_len_bound { length call.old ≤ most_word }
    ensures same { SameLent ends.old ends.new }
    ensures leader_kept { length ends.new.leader.now ≡ length ends.old.leader.now }
    ensures follower_kept { length ends.new.follower.now ≡ length ends.old.follower.now }
{
    let mut bytes = [0u8; 32768];
    let mut text = Text {
        bytes: &mut bytes,
        at: 0,
    };
    // The line has the answer.
    let _ = play_call(&mut text, line, ends, call);
    let size = text.at;
    rt.write_all(&text.bytes[..size])
}

// Reads the next record of a list, as far as the list goes; how many bytes were read.
fn read_record(list: &mut impl Read, call: &mut [u8]) -> io::Result<usize>
    requires { most_word ≤ length call.old }
    ensures { IfOk result (λ n. n ≤ most_word) }
{
    let head = reading::read_full(list, &mut call[0..4])?;
    if head < 4 {
        return Ok(head);
    }
    let size = words::word(call, 0) as usize;
    if size < 4 {
        return Ok(head);
    }
    let body = reading::read_full(list, &mut call[4..size])?;
    Ok(4 + body)
}

// Makes the calls of a list in turn, until no whole call is left; how many bytes at its end are no call.
fn show_calls(
    rt: &impl Print,
    list: &mut impl Read,
    line: &Line,
    ends: &mut Ends,
    call: &mut [u8],
) -> io::Result<usize>
    requires leader_len_bound { length ends.old.leader.now ≤ leader_room }
    requires follower_len_bound { length ends.old.follower.now ≤ follower_room }
    requires most_word_in_bounds { most_word ≤ length call.old }
    ensures { SameLent ends.old ends.new }
{
    // A proved loop has to end, and nothing says that a file does: a number of calls that no list reaches.
    for _ in 0..u64::MAX {
        let read = read_record(list, call)?;
        let Some(size) = calls::call_length(&call[..read]) else {
            return Ok(read);
        };
        show_call(rt, line, ends, &mut call[..size])?;
    }
    Ok(0)
}

// Prints what is played.
fn show_head(rt: &impl Print, bytes: usize, station: u16, states: StateSizes) -> io::Result<()>
    requires { bytes ≤ 8192 }
{
    let mut head = [0u8; 128];
    let mut text = Text {
        bytes: &mut head,
        at: 0,
    };
    call_lines::put_head(
        &mut text,
        bytes as u32,
        station,
        states.leader,
        states.follower,
    );
    let size = text.at;
    rt.write_all(&text.bytes[..size])
}

// Prints a file's refusal, in the way of the annex.
fn show_refusal(rt: &impl Print, refusal: Refusal) -> io::Result<()> {
    let mut line = [0u8; 32];
    let mut text = Text {
        bytes: &mut line,
        at: 0,
    };
    text.put_line(b"refused", refusal.reason.number() as u32, refusal.value);
    let size = text.at;
    rt.write_all(&text.bytes[..size])
}

// Prints how the list ended.
fn show_end(rt: &impl Print, counts: Counts, left_over: usize) -> io::Result<()> {
    if left_over > 0 {
        rt.write_all(b"here stands no whole call\n")?;
    }
    let mut line = [0u8; 128];
    let mut text = Text {
        bytes: &mut line,
        at: 0,
    };
    call_lines::put_closing(&mut text, counts);
    let size = text.at;
    rt.write_all(&text.bytes[..size])
}

// Plays a list on a diagram's file, and prints it.
fn show_list(rt: &impl Print, list: &mut impl Read, file: &[u8], station: u16) -> io::Result<()>
    requires { length file.now ≤ 8192 }
{
    let mut net = [0u8; ends::NET_BYTES];
    let mut leader = [0u16; ends::LEADER_WORDS];
    let mut follower = [0u16; ends::FOLLOWER_WORDS];
    let ready = match ends::ready(file, &mut net, &mut leader, &mut follower) {
        Ok(ready) => ready,
        Err(refusal) => return show_refusal(rt, refusal),
    };
    let states = ready.states;
    show_head(rt, file.len(), station, states)?;
    let line = Line {
        file,
        net: &net[..ready.net as usize],
        station,
    };
    let mut ends = Ends {
        leader: &mut leader[..states.leader as usize],
        follower: &mut follower[..states.follower as usize],
        counts: Counts { sent: 0, taken: 0 },
    };
    let mut call = [0u8; 65536];
    let left_over = show_calls(rt, list, &line, &mut ends, &mut call)?;
    show_end(rt, ends.counts, left_over)
}

// Opens the file that an argument names; where that fails, nothing, and standard error says why.
fn open_named<R: Env + Files + Eprint>(rt: &R, i: usize) -> io::Result<Option<R::File>> {
    let mut bytes = [0u8; 4096];
    let size = match rt.arg(i, &mut bytes) {
        Ok(size) => size,
        Err(error) => {
            let said = match error {
                FillError::NotPresent => "Invalid argument",
                FillError::TooLong => "File name too long",
            };
            eprintln!(rt; "bus_play DIAGRAM CALLS: {said}")?;
            return Ok(None);
        }
    };
    let path = match str::from_utf8(&bytes[..size]) {
        Ok(path) => path,
        Err(error) => {
            eprintln!(rt; "bus_play DIAGRAM CALLS: {error}")?;
            return Ok(None);
        }
    };
    match fs::open(rt, path) {
        Ok(file) => Ok(Some(file)),
        Err(error) => {
            eprintln!(rt; "{path}: {error}")?;
            Ok(None)
        }
    }
}

// The first 8,192 bytes of a file decide whether it is a diagram, which has at most 6,762.
fn main(rt: HostRuntime) -> io::Result<()> {
    let Some(mut diagram) = open_named(&rt, 1)? else {
        return Ok(());
    };
    let Some(mut list) = open_named(&rt, 2)? else {
        return Ok(());
    };
    let mut file = [0u8; 8192];
    let size = reading::read_full(&mut diagram, &mut file)?;
    show_list(&rt, &mut list, &file[..size], STATION)
}
