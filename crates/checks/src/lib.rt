// Checks of a pick or a footprint: forbidden bits, and links outside the footprint.
#![tactic(auto)]

ghost use Rattle.std.specs.Prelude.{◌≡◌, ◌*◌, ◌≤◌, length};
ghost use Rattle.lists.specs.Tab.{zeros, splice};
ghost use Rattle.checks.specs.Checks.{allowed, clean, listed, all_open};
ghost use Rattle.checks.specs.Lent.{clean_picks};

use links::LentPicks;
use model::Board;

// The allowed bits for each number of boards n, 0 to 32: those below n. Row a of n boards may hold them all but bit a. A table of constants is a
// rule of the project; elsewhere they are worked out (`links::low_bits`).
const ALLOWED: [u32; 33] = [
    0, 1, 3, 7, 15, 31, 63, 127, 255, 511, 1023, 2047, 4095, 8191, 16383, 32767, 65535, 131071,
    262143, 524287, 1048575, 2097151, 4194303, 8388607, 16777215, 33554431, 67108863, 134217727,
    268435455, 536870911, 1073741823, 2147483647, 4294967295,
];

// The allowed bits over n boards.
fn allowed_bits(n: usize) -> u32
    requires { n ≤ 32 }
    ensures { result ≡ allowed n }
{
    ALLOWED[n]
}

// Whether the words of a pick have no forbidden bit, of a board that there is not or their own: none outside the row of the pick with all links open. Such
// bits are gathered, so that the loop has no branch.
#[tactic(auto, using(crate::proofs::AllOpen::clean_turns), unfolding(crate::specs::Checks::clean))]
pub fn is_clean(words: &[u32]) -> bool
    requires { length words.now ≤ 32 }
    ensures { result ≡ clean (length words.now) words.now }
{
    let bits = allowed_bits(words.len());
    let mut bad = 0u32;
    for (u, row) in words.iter().enumerate() {
        bad |= *row & !links::cleared(bits, Board(u));
    }
    bad == 0
}

// Whether every link of a pick is in the footprint. The others are gathered: the loop of `is_clean` again, since one with the mask passed in would be
// longer than both.
#[tactic(auto, using(crate::proofs::Masks::listed_turns), unfolding(crate::specs::Checks::listed))]
pub fn is_listed(footprint: &[u32], words: &[u32]) -> bool
    requires { length words.now ≤ length footprint.now }
    ensures { result ≡ listed (length words.now) footprint.now words.now }
{
    let mut bad = 0u32;
    // By index, as `links::differing` says.
    for (u, row) in words.iter().enumerate() {
        bad |= *row & !footprint[u];
    }
    bad == 0
}

// ---- many picks

// The pick with all links open, and zeros up to 32: each row has the allowed bits but for its own.
#[tactic(auto, using(std::proofs::lemmas::Grind::common_steps), unfolding(crate::specs::Checks::all_open, lists::specs::Tab::splice))]
fn all_open(n: usize) -> [u32; 32]
    requires { n ≤ 32 }
    ensures { result ≡ splice 0 n (all_open n) (zeros 32) }
{
    let row = allowed_bits(n);
    let mut rows = lists::zeroed();
    links::fill_rows(&mut rows[..n], row);
    rows
}

// Whether none of m picks, n words each, has a forbidden bit. Their union has a bit exactly where some pick has it, so it is asked of the union, once.
#[tactic(auto, using(crate::proofs::United::unions))]
pub fn are_clean_words(words: &[u32], n: usize, m: usize) -> bool
    requires { (n ≤ 32) × (m * n ≤ length words.now) }
    ensures { result ≡ clean_picks n words.now m }
{
    let rows = all_open(n);
    let mut any = lists::zeroed::<32>();
    links::unite_picks(&mut any[..n], words, n, 0, m);
    is_listed(&rows[..n], &any[..n])
}

// The same of picks that are lent.
pub fn are_clean(lent: &LentPicks<'_>) -> bool
    requires { lent.now.n ≤ 32 }
    ensures { result ≡ clean_picks lent.now.n lent.now.words.now lent.now.m }
{
    are_clean_words(lent.words, lent.n, lent.m)
}
