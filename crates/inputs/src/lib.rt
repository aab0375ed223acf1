// What is read into a buffer.
#![tactic(auto)]

ghost use Rattle.std.specs.Prelude.{◌≤◌, length};

use std::io::Read;

// Reads until buf is full, the input ends or a read fails, and answers how many bytes it put at the start of buf.
pub fn read_full<R: Read>(source: &mut R, buf: &mut [u8]) -> usize
    ensures { result ≤ length buf.new }
{
    let mut done = 0;
    while let Ok(n @ 1..) = source.read(&mut buf[done..]) {
        done += n;
    }
    done
}
