// Tables of links between n boards, 2 to 32: n words, bit v of word u for the pair u, v; and picks as they are lent. Words are taken as they are found.
#![tactic(auto)]

ghost use Rattle.std.specs.Prelude.{◌≡◌, ◌≢◌, false, ℕ, ◌-◌, ◌*◌, ◌^◌, ◌≤◌, ◌<◌, T, length, take};
ghost use Rattle.std.specs.Int.Bits.{bit_or};
ghost use Rattle.model.specs.Recording.{bit};
ghost use Rattle.lists.specs.Tab.{tab};
ghost use Rattle.links.specs.Tables.{without, mark_of, intersection, union, same, differing};
ghost use Rattle.links.specs.Picks.{united_picks};

use model::Board;
use std::slice::ChunksExact;

// Whether bit b of x is set.
#[tactic(auto, unfolding(model::specs::Recording::bit))]
pub fn linked(x: u32, b: Board) -> bool
    requires { b.0 < 32 }
    ensures { result ≡ bit x b.0 }
{
    let v = b.0;
    (x >> v) % 2 == 1
}

// x, with bit b clear.
#[tactic(auto, unfolding(crate::specs::Tables::without))]
pub fn cleared(x: u32, b: Board) -> u32
    requires { b.0 < 32 }
    ensures { result ≡ without x b.0 }
{
    let v = b.0;
    x & !(1u32 << v)
}

// x, with bit b set.
#[tactic(auto, using(lists::proofs::Many::one_bit))]
pub fn with_bit(x: u32, b: Board) -> u32
    requires { b.0 < 32 }
    ensures { result ≡ bit_or x (2 ^ b.0) }
{
    let v = b.0;
    x | (1u32 << v)
}

// Bit b, where x is not 0.
#[tactic(auto, using(lists::proofs::Many::one_bit), unfolding(crate::specs::Tables::mark_of))]
pub fn mark_of(x: u32, b: Board) -> u32
    requires { b.0 < 32 }
    ensures { result ≡ mark_of x b.0 }
{
    let v = b.0;
    lists::keep(1u32 << v, x != 0)
}

// The first board of a set that has one.
#[tactic(auto, using(crate::proofs::First::first_bit))]
pub fn board_in(set: u32) -> usize
    requires { set ≢ 0 }
    ensures { (result < 32) × T (bit set result) × ((b : ℕ) → b < result → bit set b ≡ false) }
{
    set.trailing_zeros() as usize
}

// The word of the bits below n.
#[tactic(auto, using(model::proofs::Ones::low_ones))]
pub fn low_bits(n: usize) -> u32
    requires { n ≤ 32 }
    ensures { result ≡ 2 ^ n - 1 }
{
    if n == 0 {
        return 0;
    }
    !0u32 >> (32 - n)
}

// Every row of out becomes the same boards, but for its own bit.
#[tactic(auto, using(lists::proofs::Tab::made_all))]
pub fn fill_rows(out: &mut [u32], boards: u32)
    requires { length out.old ≤ 32 }
    ensures { out.new ≡ tab (without boards) (length out.old) }
{
    for (u, row) in out.iter_mut().enumerate() {
        *row = cleared(boards, Board(u));
    }
}

// ---- picks as they are lent

// Picks that are lent whole: m of them, n words each, one behind the other.
#[derive(Clone, Copy)]
pub struct LentPicks<'a> {
    pub words: &'a [u32],
    pub n: usize,
    pub m: usize,
    ghost some: { 1 ≤ n },
    ghost room: { m * n ≤ length words.now },
}

impl<'a> LentPicks<'a> {
    ghost use Rattle.links.specs.Lent.{HasPicks};

    // As many as there are words for.
    pub fn new(words: &'a [u32], n: usize) -> Self
        requires { 1 ≤ n }
        ensures { HasPicks result n words.now }
    {
        LentPicks {
            words,
            n,
            m: words.len() / n,
        }
    }

    // The picks, one after the other.
    pub fn picks(&self) -> ChunksExact<'a, u32>
        ensures size { result.size ≡ self.now.n }
        ensures rest { result.rest.now ≡ take (self.now.m * self.now.n) self.now.words.now }
    {
        self.words[..self.m * self.n].chunks_exact(self.n)
    }

    // The links of each of the picks after the first `from` join those of out; how many unions were made is counted.
    pub fn unite_picks(&self, out: &mut [u32], from: usize) -> usize
        requires { self.now.n ≡ length out.old }
        ensures { (result ≡ self.now.m - from) × (out.new ≡ united_picks self.now.n out.old self.now.words.now from (self.now.m - from)) }
    {
        unite_picks(out, self.words, self.n, from, self.m)
    }
}

// The same of m picks, n words each. They may be picks without a word, which are lent by nobody.
#[tactic(auto, using(crate::proofs::Picks::unites), unfolding(crate::specs::Picks::united_picks))]
pub fn unite_picks(out: &mut [u32], words: &[u32], n: usize, from: usize, m: usize) -> usize
    requires { (n ≡ length out.old) × (m * n ≤ length words.now) }
    ensures { (result ≡ m - from) × (out.new ≡ united_picks n out.old words.now from (m - from)) }
{
    let mut made: usize = 0;
    // By number: `chunks_exact` wants the lesser of `from` and m to begin at, and costs as much.
    for k in from..m {
        let at = k * n;
        unite_into(out, &words[at..at + n]);
        made += 1;
    }
    made
}

// ---- compositions: each writes one table over the words of the earlier one

// The links of `right` join those of t.
#[tactic(auto, using(lists::proofs::Tab::made_all), unfolding(crate::specs::Tables::either_row, crate::specs::Tables::union))]
pub fn unite_into(t: &mut [u32], right: &[u32])
    requires { length t.old ≤ length right.now }
    ensures { t.new ≡ union (length t.old) t.old right.now }
{
    // By index: what is written through a `zip` over `iter_mut` is lost to the proof.
    for (u, row) in t.iter_mut().enumerate() {
        *row |= right[u];
    }
}

// Of the links of t, those stay that `right` has too. The loop of `unite_into` again: one with the operation passed in would be longer than both.
#[tactic(auto, using(lists::proofs::Tab::made_all), unfolding(crate::specs::Tables::both_row, crate::specs::Tables::intersection))]
pub fn intersect_into(t: &mut [u32], right: &[u32])
    requires { length t.old ≤ length right.now }
    ensures { t.new ≡ intersection (length t.old) t.old right.now }
{
    for (u, row) in t.iter_mut().enumerate() {
        *row &= right[u];
    }
}

// ---- tests

// Whether `left` begins with the words of `right`.
#[tactic(auto, using(crate::proofs::Begins::begins_same))]
pub fn is_same(left: &[u32], right: &[u32]) -> bool
    requires { length right.now ≤ length left.now }
    ensures { result ≡ same (length right.now) left.now right.now }
{
    right == &left[..right.len()]
}

// Whether the words of a list are those of the union of left and right. The union is not written; the bits that differ are gathered, so that the loop
// has no branch.
#[tactic(auto, using(crate::proofs::Gather::gathers), unfolding(crate::specs::Tables::same))]
pub fn is_union(list: &[u32], left: &[u32], right: &[u32]) -> bool
    requires { (length list.now ≤ length left.now) × (length list.now ≤ length right.now) }
    ensures { result ≡ same (length list.now) list.now (union (length list.now) left.now right.now) }
{
    let mut bad = 0u32;
    // By index: of a `zip` of three the check does not find which words it yields.
    for (u, row) in list.iter().enumerate() {
        bad |= (left[u] | right[u]) ^ *row;
    }
    bad == 0
}

// ---- unmet conditions

// How many links of the words of `left` are in only one of the two: the bits that differ, in whole words.
#[tactic(auto, using(crate::proofs::Unmet::differs_turns), unfolding(crate::specs::Tables::differing))]
pub fn differing(left: &[u32], right: &[u32]) -> u32
    requires { (length left.now ≤ 32) × (length left.now ≤ length right.now) }
    ensures { result ≡ differing (length left.now) left.now right.now }
{
    let mut k = 0u32;
    // By index: by `zip` here and in `checks::is_listed` a pick of measure 2 costs 42 instructions more, and one that is saved 12.
    for (u, row) in left.iter().enumerate() {
        k += (*row ^ right[u]).count_ones();
    }
    k
}
