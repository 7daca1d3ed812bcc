// Reads a diagram on standard input and prints its net, or the refusal: all that matters is in `annex_text`.
#![tactic(auto)]

use std::io;

// The first 8,192 bytes decide what is printed (`annex-prefix`), and no text is longer than 393,216 bytes (`annex-fits`).
// Buffers of a fixed size, and how much of each is used: there is no heap.
fn main(rt: HostRuntime) -> io::Result<()> {
    let mut file = [0u8; 8192];
    let read = reading::read_full(&mut rt.reader(), &mut file)?;
    let mut net = [0u8; 65536];
    let mut text = [0u8; 393216];
    let size = annex_text::annex(&file[..read], &mut net, &mut text);
    rt.write_all(&text[..size])
}
