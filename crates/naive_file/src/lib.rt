// The file of a recording by the second implementation: bare loops over every pick and every pair of boards. It shares no code with `saving`.
#![tactic(auto)]

ghost use Rattle.std.specs.Prelude.{◌<◌};

use naive::Recording;

// A command of a link, with its byte.
#[derive(Clone, Copy)]
enum Command {
    Shuts = 0x53,
    Opens = 0x4F,
}

// Whether the command stands for the link from a to b before pick p: it opens there, or it shuts there. Before pick 0 no link is open.
fn is_due(recording: &Recording<'_>, p: usize, command: Command, a: usize, b: usize) -> bool
    requires { (p < 4096) × ((a < 32) × (b < 32)) }
{
    let was = 0 < p && recording.is_open(p - 1, a, b);
    let is = recording.is_open(p, a, b);
    match command {
        Command::Shuts => was && !is,
        Command::Opens => !was && is,
    }
}

// As many of a file's first bytes as there is room for, and how many it has so far.
#[derive(Drop)]
struct Output<'a> {
    bytes: &'a mut [u8],
    size: usize,
}

impl Output<'_> {
    fn put(&mut self, x: u8) {
        if self.size < self.bytes.len() {
            self.bytes[self.size] = x;
        }
        self.size = self.size.wrapping_add(1);
    }

    // All pairs, ascending by from and then to.
    fn put_links(&mut self, recording: &Recording<'_>, p: usize, command: Command)
        requires { p < 4096 }
    {
        for a in 0..recording.boards {
            for b in 0..recording.boards {
                if is_due(recording, p, command, a, b) {
                    self.put(command as u8);
                    self.put(a as u8);
                    self.put(b as u8);
                }
            }
        }
    }
}

// "42 and n, then for each pick the links that shut .., then those that open in the same order, then 50", and 45: as many of the file's first bytes as the
// output has room for. The answer is how many it has in all.
pub fn write(out: &mut [u8], recording: &Recording<'_>) -> usize {
    let mut file = Output {
        bytes: out,
        size: 0,
    };
    file.put(0x42);
    file.put(recording.boards as u8);
    for p in 0..recording.picks {
        file.put_links(recording, p, Command::Shuts);
        file.put_links(recording, p, Command::Opens);
        file.put(0x50);
    }
    file.put(0x45);
    file.size
}
