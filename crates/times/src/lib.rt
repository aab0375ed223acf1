// Tables of times between n boards, 2 to 32: n * n words of earliest arrivals, then n * n words of latest departures; 0 is none.
// A table is written row by row, so that a loop over a row needs no division, and no branch but selects that the compiler turns into vector
// code. Their composition is in `folds`.
#![tactic(auto)]

ghost use Rattle.std.specs.Prelude.{◌≡◌, ◌+◌, ◌*◌, ◌^◌, ◌<◌, ◌≤◌, length, drop, if◌then◌else◌, nat_eq};
ghost use Rattle.lists.specs.Tab.{tab};
ghost use Rattle.times.specs.Times.{cell, times_words, own_times, all_in_time, out_of_time};
ghost use Rattle.times.specs.Own.{board_bit, own_word};
ghost use Rattle.times.specs.Pairs.{no_later, pair_in_time, below_in_time, too_late, pair_out_of_time, below_out_of_time};

use model::{Board, Pick};

// The words of a table.
pub fn words(n: usize) -> usize
    requires { n ≤ 32 }
    ensures { result ≡ times_words n }
{
    let cells = n * n;
    cells + cells
}

// ---- own table

// The bit of each board.
fn board_bits() -> [u32; 32]
    ensures { result ≡ tab board_bit 32 }
{
    std::array::from_fn(|v| 1u32 << v)
}

// A row of a pick's own table, from the word of its board.
#[tactic(auto, using(crate::proofs::OwnRow::own_rows))]
fn own_row(row: &mut [u32], bits: &[u32], word: u32, pick: u32)
    requires { (bits.now ≡ tab board_bit 32) × (length row.old ≤ 32) }
    ensures { row.new ≡ tab (own_word pick word) (length row.old) }
{
    for (v, x) in row.iter_mut().enumerate() {
        *x = lists::keep(pick, word & bits[v] != 0);
    }
}

// Writes over out the own table of a pick, where joined marks the pairs joined within it: its number for each of them, in both halves.
#[tactic(auto, using(crate::proofs::OwnRow::own_turns), unfolding(crate::specs::Times::own_times))]
pub fn own(out: &mut [u32], joined: &[u32], pick: Pick)
    requires { (length joined.now ≤ 32) × (pick.0 < 2 ^ 32) × (times_words (length joined.now) ≡ length out.old) }
    ensures { out.new ≡ own_times (length joined.now) pick.0 joined.now }
{
    let n = joined.len();
    let p = pick.0 as u32;
    let bits = board_bits();
    for (u, word) in joined.iter().enumerate() {
        let at = u * n;
        own_row(&mut out[at..at + n], &bits, *word, p);
    }
    let (arrivals, departures) = out.split_at_mut(n * n);
    departures.copy_from_slice(arrivals);
}

// ---- test

// Whether x is a time, and y is `turn` or more after it. No time, 0, less 1 is the greatest word, so that one comparison asks both. The sum is one of
// 64 bits: it wraps for no x and no turn.
#[tactic(auto, using(crate::proofs::Pairs::no_later_is))]
fn no_later(x: u32, y: u32, turn: u32) -> bool
    ensures { result ≡ no_later turn x y }
{
    x.wrapping_sub(1) as usize + (turn as usize) < y as usize
}

// 1 where the departure is not `turn` or more after the arrival. The sum is one of 64 bits: it wraps for no words.
#[tactic(auto, unfolding(crate::specs::Pairs::too_late))]
fn too_late(arrival: u32, departure: u32, turn: u32) -> u32
    ensures { result ≡ too_late turn arrival departure }
{
    u32::from((departure as usize) < arrival as usize + (turn as usize))
}

// Both ways round where an arrival is none, else those that are late. All is at hand, so that these are selects.
fn unless_none(x: u32, y: u32, ways: u32) -> u32
    ensures { result ≡ (if nat_eq x 0 then 2 else (if nat_eq y 0 then 2 else ways)) }
{
    if x == 0 || y == 0 { 2 } else { ways }
}

// ---- what is read

// A half of a table: for each board a row of n words. More words may lie behind them, which are not read. Against a slice with n beside it, a pick of
// measure 4 costs up to 0.3 per cent more instructions: before a row is copied, the compiler then tests whether the two overlap.
#[derive(Clone, Copy)]
pub struct Half<'a> {
    pub words: &'a [u32],
    pub n: usize,
    ghost few: { n ≤ 32 },
    ghost room: { n * n ≤ length words.now },
}

impl<'a> Half<'a> {
    // The word of u, v.
    #[tactic(auto, using(crate::proofs::Rows::cell_lt))]
    pub fn at(&self, u: Board, v: Board) -> u32
        requires { (u.0 < self.now.n) × (v.0 < self.now.n) }
        ensures { result ≡ cell self.now.n self.now.words.now u.0 v.0 }
    {
        self.words[u.0 * self.n + v.0]
    }

    // The row of u. In line: left to the compiler it costs a pick of measure 4 another 0.3 per cent.
    #[tactic(auto, using(crate::proofs::Rows::row_reads))]
    #[inline(always)]
    pub fn row(&self, u: Board) -> &'a [u32]
        requires { u.0 < self.now.n }
        ensures words { result.now ≡ tab (cell self.now.n self.now.words.now u.0) self.now.n }
        ensures long { length result.now ≡ self.now.n }
    {
        let at = u.0 * self.n;
        &self.words[at..at + self.n]
    }
}

// Both halves. The turn-round is none of its own: a test is told it.
#[derive(Clone, Copy)]
pub struct Table<'a> {
    pub words: &'a [u32],
    pub n: usize,
    ghost few: { n ≤ 32 },
    ghost room: { times_words n ≤ length words.now },
}

impl<'a> Table<'a> {
    // The earliest arrivals.
    pub fn arrivals(&self) -> Half<'a>
        ensures { (result.n ≡ self.now.n) × (result.words.now ≡ self.now.words.now) }
    {
        Half {
            words: self.words,
            n: self.n,
        }
    }

    // The latest departures.
    pub fn departures(&self) -> Half<'a>
        ensures { (result.n ≡ self.now.n) × (result.words.now ≡ drop (self.now.n * self.now.n) self.now.words.now) }
    {
        Half {
            words: &self.words[self.n * self.n..],
            n: self.n,
        }
    }

    // Whether light goes from a to b and back within the table, and from b to a and back: the way back departs `turn` picks or more after the arrival.
    #[tactic(auto, using(crate::proofs::Pairs::pair_tests))]
    fn pair_in_time(&self, turn: u32, a: Board, b: Board) -> bool
        requires { (a.0 < self.now.n) × (b.0 < a.0) }
        ensures { result ≡ pair_in_time self.now.n turn self.now.words.now a.0 b.0 }
    {
        let arrivals = self.arrivals();
        let departures = self.departures();
        no_later(arrivals.at(a, b), departures.at(b, a), turn)
            && no_later(arrivals.at(b, a), departures.at(a, b), turn)
    }

    // Whether a board is in time with each board below it.
    fn row_in_time(&self, turn: u32, from: Board) -> bool
        requires { from.0 < self.now.n }
        ensures { result ≡ below_in_time self.now.n turn self.now.words.now from.0 }
    {
        let u = from.0;
        (0..u).all(|v| self.pair_in_time(turn, Board(u), Board(v)))
    }

    // Whether each pair of boards is in time, with `turn` picks to turn round in. A pair is looked at once, for both ways round.
    pub fn in_time(&self, turn: u32) -> bool
        ensures { result ≡ all_in_time self.now.n turn self.now.words.now }
    {
        (0..self.n).all(|u| self.row_in_time(turn, Board(u)))
    }

    // ---- how many are out of time

    // How many of the two ways round of a and b are out of time: from a to b and back, and from b to a and back.
    #[tactic(auto, using(crate::proofs::Pairs::pair_tests))]
    fn pair_out_of_time(&self, turn: u32, a: Board, b: Board) -> u32
        requires { (a.0 < self.now.n) × (b.0 < a.0) }
        ensures { result ≡ pair_out_of_time self.now.n turn self.now.words.now a.0 b.0 }
    {
        let arrivals = self.arrivals();
        let departures = self.departures();
        let x = arrivals.at(a, b);
        let y = arrivals.at(b, a);
        let ways = too_late(x, departures.at(b, a), turn) + too_late(y, departures.at(a, b), turn);
        unless_none(x, y, ways)
    }

    // The same, of a board with all boards below it. By board: a pair is looked at in both its rows.
    #[tactic(auto, using(crate::proofs::Pairs::below_turns))]
    fn row_out_of_time(&self, turn: u32, from: Board) -> u32
        requires { from.0 < self.now.n }
        ensures { result ≡ below_out_of_time self.now.n turn self.now.words.now from.0 from.0 }
    {
        let u = from.0;
        let mut ways = 0u32;
        for to in 0..u {
            ways += self.pair_out_of_time(turn, Board(u), Board(to));
        }
        ways
    }

    // How many ordered pairs of different boards are not in time, with `turn` picks to turn round in. By board, since a row has no pair of its own.
    #[tactic(auto, using(crate::proofs::Pairs::square_turns), unfolding(crate::specs::Times::out_of_time))]
    pub fn out_of_time(&self, turn: u32) -> u32
        ensures { result ≡ out_of_time self.now.n turn self.now.words.now }
    {
        let mut pairs = 0u32;
        for u in 0..self.n {
            pairs += self.row_out_of_time(turn, Board(u));
        }
        pairs
    }
}
