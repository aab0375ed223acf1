// Units. A pick number is never used as a board number, and compositions and tests are counted apart.
#![tactic(auto)]

ghost use Rattle.std.specs.Prelude.{◌≡◌};
ghost use Rattle.model.specs.Causes.{between};
ghost use Rattle.model.specs.Refusals.{number, HasNumber};

// A board's number, from 0 on.
#[derive(Clone, Copy, PartialEq, Eq)]
pub struct Board(pub usize);

// A pick's number, from 1 on; 0 stands for none.
#[derive(Clone, Copy, PartialEq, Eq)]
pub struct Pick(pub usize);

// How many compositions were made.
#[derive(Clone, Copy, PartialEq, Eq)]
pub struct Compositions(pub usize);

// How many tests were made.
#[derive(Clone, Copy, PartialEq, Eq)]
pub struct Tests(pub usize);

// The causes of 01, and of the requests after it, in the order of their numbers, 1 to 18; `number` in specs/Refusals.antt gives each its number.
#[derive(Clone, Copy, PartialEq, Eq)]
pub enum Refusal {
    // n not 2 to 32
    Boards = 1,
    // measure not 1 to 4
    Measure = 2,
    // pick limit, or picks lent whole, not 1 to 4,096
    Picks = 3,
    // lent area or output shorter than needed
    Room = 4,
    // forbidden bit in a pick or link list
    Forbidden = 5,
    // measure 2 pick by pick: link outside the list
    Unlisted = 6,
    // pick beyond the limit
    Full = 7,
    // no pick yet
    NoPick = 8,
    // no length exists
    NoLength = 9,
    // words not n (a pick or list), or not a multiple of n (whole)
    Shape = 10,
    // unknown command, first not 42, or 42 again
    Command = 11,
    // file stops before 45 or inside operands
    Stopped = 12,
    // link operands equal, or n or above
    Operands = 13,
    // opening an open link or shutting a shut one
    Unchanged = 14,
    // bytes after 45
    Trailing = 15,
    // place: n, measure or limit out of range, m above limit, b above m, s not 1 to b + 1, s above m when m is 1 or more,
    // a test marked as failed or as passed when m is 0, compositions above 4 × m or tests above 2 × m
    BadPlace = 16,
    // window length handed in 0 or above the number of picks
    WindowLength = 17,
    // output bytes fewer than the file has
    FileRoom = 18,
}

// The number of a cause.
impl From<Refusal> for u32 {
    ghost from_gives = { λ cause word. word ≡ number cause };

    fn from(cause: Refusal) -> u32 {
        cause as u32
    }
}

// A number that no cause has.
#[derive(Clone, Copy, PartialEq, Eq)]
pub struct NoCause;

// The cause of a number.
impl TryFrom<u32> for Refusal {
    type Error = NoCause;

    ghost try_from_gives = { HasNumber };

    fn try_from(word: u32) -> Result<Refusal, NoCause> {
        match word {
            1 => Ok(Refusal::Boards),
            2 => Ok(Refusal::Measure),
            3 => Ok(Refusal::Picks),
            4 => Ok(Refusal::Room),
            5 => Ok(Refusal::Forbidden),
            6 => Ok(Refusal::Unlisted),
            7 => Ok(Refusal::Full),
            8 => Ok(Refusal::NoPick),
            9 => Ok(Refusal::NoLength),
            10 => Ok(Refusal::Shape),
            11 => Ok(Refusal::Command),
            12 => Ok(Refusal::Stopped),
            13 => Ok(Refusal::Operands),
            14 => Ok(Refusal::Unchanged),
            15 => Ok(Refusal::Trailing),
            16 => Ok(Refusal::BadPlace),
            17 => Ok(Refusal::WindowLength),
            18 => Ok(Refusal::FileRoom),
            _ => Err(NoCause),
        }
    }
}

// Whether x is low to high: each range that a cause asks for is one call of it.
#[tactic(auto, unfolding(crate::specs::Causes::between))]
pub fn is_between(low: usize, x: usize, high: usize) -> bool
    ensures { result ≡ between low x high }
{
    low <= x && x <= high
}
