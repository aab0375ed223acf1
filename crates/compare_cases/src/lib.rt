// The recordings of cases: those that are handed in, and those that are drawn by a generator. What stands in lent words before a call.
#![tactic(auto)]

ghost use Rattle.std.specs.Prelude.{◌≡◌, ◌*◌, ◌≤◌, length};

use compare_tallies::Case;
use naive::Recording;

// ---- lent words

// Stands in every lent word before a call, so that a word that was written shows.
pub const MARK: u32 = 0xA5A5A5A5;

pub fn is_marked(words: &[u32]) -> bool {
    words.iter().all(|word| *word == MARK)
}

// Both links of two boards, pick after pick.
pub const LINKS: [u32; 2] = [2, 1];

pub fn fill_by_turns(words: &mut [u32], turns: [u32; 2]) {
    for (i, word) in words.iter_mut().enumerate() {
        *word = turns[i % 2];
    }
}

// ---- recordings of cases

// A case with its recording, whose words are those of its picks. It has some boards, and no more boards and picks than 01 allows.
#[derive(Clone, Copy)]
pub struct Recorded<'c, 'w> {
    pub case: Case<'c>,
    pub recording: Recording<'w>,
    ghost some_boards: { 1 ≤ recording.boards },
    ghost held: { length recording.words.now ≡ recording.picks * recording.boards },
}

impl<'c, 'w> Recorded<'c, 'w> {
    // None where the recording has no boards or is too large, or the words do not hold it.
    pub fn new(case: Case<'c>, boards: usize, picks: usize, words: &'w [u32]) -> Option<Self> {
        if boards < 1 {
            return None;
        }
        let size = picks.checked_mul(boards)?;
        let recording = Recording::new(words.get(..size)?, boards, picks)?;
        Some(Recorded { case, recording })
    }
}

// ---- generated recordings

// About how many of the links are open.
#[derive(Clone, Copy)]
pub enum Share {
    Half,
    Eighth,
    SevenEighths,
    ThirtySecond,
}

// Marsaglia's xorshift.
#[derive(Drop)]
pub struct Generator {
    state: u32,
}

impl Generator {
    // Its first state is Marsaglia's own.
    pub fn new() -> Self {
        Generator { state: 2463534242 }
    }

    fn draw(&mut self) -> u32 {
        let mut x = self.state;
        x ^= x << 13;
        x ^= x >> 17;
        x ^= x << 5;
        self.state = x;
        x
    }

    fn mixed(&mut self, share: Share) -> u32 {
        let x = self.draw();
        let y = self.draw();
        let z = self.draw();
        match share {
            Share::Half => x,
            Share::Eighth => x & y & z,
            Share::SevenEighths => x | y | z,
            Share::ThirtySecond => x & y & z & (x >> 11) & (y << 7),
        }
    }

    // Fills words with picks over n boards: the first n bits of a draw, but for the board's own.
    pub fn fill(&mut self, words: &mut [u32], n: usize, share: Share)
        requires { (1 ≤ n) × (n ≤ 32) }
    {
        for (i, word) in words.iter_mut().enumerate() {
            *word = (self.mixed(share) >> (32 - n)) & !(1u32 << (i % n));
        }
    }
}
