// What the walk needs of each measure: the words of a table, a pick's own table, the composition, the test of a table.
// A measure is a number everywhere: 01 hands any number and refuses with 2 what is no measure, and an enum would ask more of whoever calls.
// Each function looks at it: with a type for each measure the archive would have four copies of the walk.
#![tactic(auto)]

ghost use Rattle.std.specs.Prelude.{◌≡◌, ◌≢◌, ◌^◌, ◌≤◌, ◌<◌, length};
ghost use Rattle.links.specs.Tables.{within};
ghost use Rattle.times.specs.Times.{times_words, own_times};
ghost use Rattle.measures.specs.Kit.{hops01, turn01, size_of, own_of, join_of, pass_of};

use model::Pick;
use times::Table;

// Composes right, the later table, onto t, the earlier: for the measures whose tables compose word by word, which are 1 and 2.
#[tactic(auto, unfolding(crate::specs::Kit::join_of))]
pub fn compose_words(t: &mut [u32], right: &[u32], measure: usize)
    requires { (measure ≢ 4) × (measure ≢ 3) × (length t.old ≤ length right.now) }
    ensures { t.new ≡ join_of measure (length t.old) t.old right.now }
{
    if measure == 2 {
        links::unite_into(t, right);
    } else {
        links::intersect_into(t, right);
    }
}

// A measure over n boards, as the walk needs it.
#[derive(Clone, Copy)]
pub struct Kit {
    pub measure: usize,
    pub n: usize,
    ghost few: { n ≤ 32 },
}

impl Kit {
    // The words of a table: 2 × 32 × 32 at most, under measure 4.
    #[tactic(auto, using(crate::proofs::Words::size_most), unfolding(crate::specs::Kit::size_of))]
    pub fn size(self) -> usize
        ensures words { result ≡ size_of self.measure self.n }
        ensures most { result ≤ 2048 }
    {
        if self.measure == 4 {
            times::words(self.n)
        } else {
            self.n
        }
    }

    // Composes right, the later table, onto t, the earlier, under any measure. In line: as a call it costs a composition of measure 2 some 30 instructions.
    #[tactic(auto, unfolding(crate::specs::Kit::size_of, crate::specs::Kit::join_of))]
    #[inline(always)]
    pub fn compose(self, t: &mut [u32], right: &[u32])
        requires { (size_of self.measure self.n ≡ length t.old) × (size_of self.measure self.n ≡ length right.now) }
        ensures { t.new ≡ join_of self.measure self.n t.old right.now }
    {
        match self.measure {
            4 => {
                let later = Table {
                    words: right,
                    n: self.n,
                };
                folds::compose_over(t, &later)
            }
            3 => joins::join_over(t, right),
            _ => compose_words(t, right, self.measure),
        }
    }

    // Writes over out the own table of a pick.
    #[tactic(auto, unfolding(crate::specs::Kit::size_of, crate::specs::Kit::own_of))]
    pub fn own(self, out: &mut [u32], words: &[u32], pick: Pick)
        requires { (pick.0 < 2 ^ 32) × (size_of self.measure self.n ≡ length out.old) × (self.n ≡ length words.now) }
        ensures { out.new ≡ own_of hops01 self.measure self.n pick.0 words.now }
    {
        match self.measure {
            4 => own_times(out, words, pick),
            3 => joins::close_over(out, words),
            _ => out.copy_from_slice(words),
        }
    }

    // Whether a table passes; the footprint is that of measure 2, the turn-round that of measure 4.
    #[tactic(auto, unfolding(crate::specs::Kit::size_of, crate::specs::Kit::pass_of))]
    pub fn passes(self, footprint: &[u32], t: &[u32], turn: u32) -> bool
        requires { (self.n ≤ length footprint.now) × (size_of self.measure self.n ≡ length t.now) }
        ensures { result ≡ pass_of turn self.measure self.n footprint.now t.now }
    {
        match self.measure {
            4 => {
                let times = Table {
                    words: t,
                    n: self.n,
                };
                times.in_time(turn)
            }
            3 => searches::is_full(t),
            2 => links::is_same(footprint, t),
            _ => searches::is_connected(t),
        }
    }
}

// The own table of measure 4: the pairs joined within the pick are worked out in a local table of links.
#[tactic(auto, using(crate::proofs::Words::lent_joined))]
fn own_times(out: &mut [u32], words: &[u32], pick: Pick)
    requires { (length words.now ≤ 32) × (pick.0 < 2 ^ 32) × (times_words (length words.now) ≡ length out.old) }
    ensures { out.new ≡ own_times (length words.now) pick.0 (within (length words.now) hops01 words.now) }
{
    let joined = joins::closed_words(words);
    times::own(out, &joined[..words.len()], pick);
}

// The picks that a round trip takes to turn round: the one place in code that says how many.
pub fn turn_round() -> u32
    ensures { result ≡ turn01 }
{
    0
}
