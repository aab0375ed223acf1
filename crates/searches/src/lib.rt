// Whether boards reach each other: the tests of measures 3 and 1 on a table of links between n boards, 2 to 32. Words are taken as they are found.
#![tactic(auto)]

ghost use Rattle.std.specs.Prelude.{◌≡◌, true, false, ◌≤◌, ◌<◌, length};
ghost use Rattle.model.specs.Journey.{most_links};
ghost use Rattle.links.specs.Tables.{within, full, connected, unmarked};
ghost use Rattle.searches.specs.Search.{collect, side_full};

use model::Board;

// Whether every ordered pair of different boards is marked: a row and its own bit have the bits of all boards.
#[tactic(auto, using(crate::proofs::Full::full_turns), unfolding(links::specs::Tables::full))]
pub fn is_full(t: &[u32]) -> bool
    requires { length t.now ≤ 32 }
    ensures { result ≡ full (length t.now) t.now }
{
    let all = links::low_bits(t.len());
    // By `all` over the numbers a pick of measure 3 costs 3 instructions more.
    for (u, row) in t.iter().enumerate() {
        if links::with_bit(*row, Board(u)) & all != all {
            return false;
        }
    }
    true
}

// How many ordered pairs of different boards are not marked: of each row the boards that it lacks, but for its own.
#[tactic(auto, using(crate::proofs::Full::unmarked_turns), unfolding(links::specs::Tables::unmarked))]
pub fn unmarked(t: &[u32]) -> u32
    requires { length t.now ≤ 32 }
    ensures { result ≡ unmarked (length t.now) t.now }
{
    let all = links::low_bits(t.len());
    let mut k = 0u32;
    for (u, row) in t.iter().enumerate() {
        k += (all & !links::with_bit(*row, Board(u))).count_ones();
    }
    k
}

// ---- searches from board 0, onward and backward

// Whether links lead from board 0 to every other. `rest` has the boards whose links were not followed yet; the search ends when it has all
// boards or has followed the links of all that it has.
#[tactic(auto, using(crate::proofs::Search::onward_turns))]
fn reaches_all(t: &[u32]) -> bool
    requires { length t.now ≤ 32 }
    ensures { result ≡ side_full false (length t.now) (within (length t.now) most_links t.now) }
{
    let all = links::low_bits(t.len());
    let mut s = 1u32;
    let mut rest = all;
    // No iterator: the set grows on the way.
    while s & rest != 0 {
        let w = links::board_in(s & rest);
        s |= t[w];
        if s & all == all {
            return true;
        }
        rest = links::cleared(rest, Board(w));
    }
    s & all == all
}

// The boards of seen, and those that a link leads from to one of them.
#[tactic(auto, using(std::proofs::lemmas::Grind::common_steps), unfolding(crate::specs::Search::collect))]
fn backward(t: &[u32], seen: u32) -> u32
    requires { length t.now ≤ 32 }
    ensures { result ≡ collect t.now seen (length t.now) }
{
    let mut s = seen;
    for (w, row) in t.iter().enumerate() {
        s |= links::mark_of(*row & seen, Board(w));
    }
    s
}

// Whether links lead from every other board to board 0. The search ends when it has all boards or a turn finds no more; 32 turns are enough.
#[tactic(auto, using(crate::proofs::Search::backward_turns))]
fn all_reach(t: &[u32]) -> bool
    requires { length t.now ≤ 32 }
    ensures { result ≡ side_full true (length t.now) (within (length t.now) most_links t.now) }
{
    let all = links::low_bits(t.len());
    let mut s = 1u32;
    for _turn in 0..32usize {
        if s & all == all {
            return true;
        }
        let next = backward(t, s);
        if next == s {
            return false;
        }
        s = next;
    }
    s & all == all
}

// Whether links of the table lead from every board to every other: to board 0, and from there on.
#[tactic(auto, using(crate::proofs::Search::full_first), unfolding(links::specs::Tables::connected))]
pub fn is_connected(t: &[u32]) -> bool
    requires { length t.now ≤ 32 }
    ensures { result ≡ connected (length t.now) t.now }
{
    reaches_all(t) && all_reach(t)
}
