// The text of the annex, written into lent bytes.
#![tactic(auto)]

ghost use Rattle.std.specs.Prelude.{◌≡◌, ◌≤◌, length};
ghost use Rattle.effbd.specs.Answers.{said};
ghost use Rattle.effbd.specs.Annex.{annex_in, arc_letters as letters_of, over};
ghost use Rattle.effbd.specs.Patterns.{translated};
ghost use Rattle.text.specs.Laid.{Laid};
ghost use Rattle.annex_text.specs.Lines.{transition_line, arc_line, record_line, record_size, transitions_at, record_lines, mark_numbers, net_text, answer_text};

use effbd::Answer;
use text::Text;

// The word of an arc.
fn arc_letters(kind: u16) -> &'static [u8]
    ensures { result.now ≡ letters_of kind }
{
    match kind {
        kinds::TAKE => b"take",
        kinds::CLEAR => b"clear",
        _ => b"give",
    }
}

// The line of an arc.
#[tactic(auto, unfolding(crate::specs::Lines::arc_line))]
fn put_arc(text: &mut Text, bytes: &[u8])
    ensures { Laid text.old text.new (arc_line bytes.now) }
{
    let letters = arc_letters(words::word(bytes, 2));
    let first = words::word(bytes, 4) as u32;
    let second = words::word(bytes, 6) as u32;
    text.put_line(letters, first, second);
}

// The line of transition number j.
fn put_transition(text: &mut Text, j: u32, bytes: &[u8])
    ensures { Laid text.old text.new (transition_line j bytes.now) }
{
    text.put_named(b"t", j);
    text.put_named(b" label", words::word(bytes, 4) as u32);
    text.put_named(b" from", words::word(bytes, 6) as u32);
    text.put_named(b" to", words::word(bytes, 8) as u32);
    text.put(b'\n');
}

// The line of the transition or the arc at the start of `bytes`; the next transition is number j.
#[tactic(auto, unfolding(crate::specs::Lines::record_line))]
fn put_record(text: &mut Text, j: u32, bytes: &[u8])
    ensures { Laid text.old text.new (record_line j bytes.now) }
{
    if words::word(bytes, 2) == kinds::TRANSITION {
        put_transition(text, j, bytes);
    } else {
        put_arc(text, bytes);
    }
}

// The bytes of the record at the start of `bytes`.
#[tactic(auto, unfolding(crate::specs::Lines::record_size))]
fn record_size(bytes: &[u8]) -> usize
    ensures { result ≡ record_size bytes.now }
{
    if words::word(bytes, 2) == kinds::TRANSITION {
        return 10;
    }
    8
}

// How many transitions stand at the start of `bytes`, 1 or 0.
#[tactic(auto, unfolding(crate::specs::Lines::transitions_at))]
fn transitions_at(bytes: &[u8]) -> u32
    ensures { result ≡ transitions_at bytes.now }
{
    (words::word(bytes, 2) == kinds::TRANSITION) as u32
}

// The lines of the transitions and arcs; of so many bytes that the transitions' numbers fit 32 bits.
fn put_records(text: &mut Text, records: &[u8])
    requires { length records.now ≤ 4294967295 }
    ensures { Laid text.old text.new (record_lines (length records.now) 0 records.now) }
{
    let mut rest = records;
    let mut j: u32 = 0;
    // No `for`: a record's own kind says where the next one is, in the tail behind it.
    while 4 <= rest.len() {
        put_record(text, j, rest);
        j += transitions_at(rest);
        rest = words::tail(rest, record_size(rest));
    }
}

// The marks of `places` places.
fn put_marks(text: &mut Text, places: u16, bytes: &[u8])
    ensures { Laid text.old text.new (mark_numbers places bytes.now) }
{
    let mut rest = bytes;
    for place in 0..places {
        text.put_number(words::word(rest, 4) as u32);
        rest = words::tail(rest, 6);
    }
}

// The lines of a net file.
fn put_net(text: &mut Text, net: &[u8])
    requires { length net.now ≤ 4294967295 }
    ensures { Laid text.old text.new (net_text net.now) }
{
    let places = words::word(net, 4);
    text.put_line(b"net", places as u32, words::word(net, 6) as u32);
    text.put_letters(b"marks");
    put_marks(text, places, words::tail(net, 8));
    text.put(b'\n');
    put_records(text, words::tail(net, 8 + 6 * places as usize));
}

// What is printed of an answer: the lines of the net that it left in `net`, or the line of a refusal.
fn put_answer(text: &mut Text, net: &[u8], answer: Answer)
    ensures { Laid text.old text.new (answer_text (said answer) net.now) }
{
    match answer {
        Ok(size) => put_net(text, words::front(net, size as usize)),
        Err(refusal) => text.put_line(b"refused", refusal.reason.number() as u32, refusal.value),
    }
}

// Translates a diagram file into `net` and writes the annex text into `text`, as far as `text` reaches. The result is the text's length.
pub fn annex(file: &[u8], net: &mut [u8], text: &mut [u8]) -> usize
    ensures value { result ≡ length (annex_in (length net.old) file.now) }
    ensures text_after { text.new ≡ over text.old (annex_in (length net.old) file.now) }
    ensures net_after { net.new ≡ (translated file.now net.old).area }
{
    let answer = translate::translate(file, net);
    let mut printed = Text { bytes: text, at: 0 };
    put_answer(&mut printed, net, answer);
    printed.at
}
