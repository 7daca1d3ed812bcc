// What is called, laid into lent bytes.
ghost use Rattle.std.specs.Prelude.{◌≤◌, length};
ghost use Rattle.effbd.specs.Moves.{most_word};
ghost use Rattle.calls.specs.CallList.{call_of};
ghost use Rattle.text.specs.Laid.{Laid};
ghost use Rattle.call_lines.specs.Lines.{bytes_text, call_text};

use text::Text;

// Bytes that are handed over.
fn put_bytes(text: &mut Text, bytes: &[u8])
    requires { length bytes.now ≤ most_word }
    ensures { Laid text.old text.new (bytes_text bytes.now) }
{
    if telegrams::is_telegram(bytes) {
        text.put_named(b"hand telegram", words::long(bytes, telegrams::NUMBER));
        text.put_named(
            b" of station",
            words::word(bytes, telegrams::STATION) as u32,
        );
        return;
    }
    text.put_named(b"hand", bytes.len() as u32);
    text.put_letters(b" bytes");
}

// What is called.
pub(crate) fn put_call(text: &mut Text, call: &[u8])
    requires { length call.now ≤ most_word }
    ensures { Laid text.old text.new (call_text (call_of call.now)) }
{
    if words::word(call, 2) == calls::OFFER {
        call_lines::put_move(text, words::word(call, 4), words::word(call, 6));
        return;
    }
    put_bytes(text, words::tail(call, 4));
}
