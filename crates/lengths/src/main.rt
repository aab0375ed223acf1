// Reads one recording file from standard input, up to 16,384 bytes, and prints its length under each measure.
#![tactic(auto)]

use std::io::Write;

// An output that takes no more is no failure of the program.
fn main(rt: HostRuntime) {
    let mut input = [0u8; 16384];
    let n = inputs::read_full(&mut rt.stdin(), &mut input);
    let mut out = [0u8; 462];
    let end = lengths_text::put_lengths(&input[..n], &mut out);
    let _ = rt.stdout().write_all(&out[..end]);
}
