// Runs the rows of `compare_rows` for the calls that are handed a place, and the limit of 4,096 picks. A refused pick must hand the
// place back as it was and leave every word of the area.
#![tactic(auto)]

use calls::Answer;
use compare_rows::{PICK_EDGES, PLACE_EDGES, PickEdge, put_own};
use compare_tallies::{Case, Group, Outcome, Tally};
use model::{Compositions, Refusal, Tests};
use place::{Counts, Place};
use std::io::Stdout;

// ---- the calls

// A copy of the area shows whether a word was changed.
fn run_pick(p: Place, area: &mut [u32], words: &[u32], kept: &mut [u32]) -> Outcome {
    if kept.len() < area.len() {
        return Outcome::NotRun;
    }
    let kept = &mut kept[..area.len()];
    kept.copy_from_slice(area);
    match calls::pick(p, area, words) {
        Ok(_) => Outcome::Refusal(None),
        Err(refused) => {
            Outcome::Refusal(Some(refused.cause)).left(refused.place == p && *kept == *area)
        }
    }
}

// The place comes back as it was, refused or not.
fn run_length(p: Place) -> Outcome {
    let measured = calls::length(p);
    let refusal = measured.answer.length.err();
    if measured.place == p {
        Outcome::Refusal(refusal)
    } else {
        Outcome::Changed(refusal)
    }
}

// The same words as pick after pick.
fn all_taken(p: Place, area: &mut [u32], words: &[u32], picks: usize) -> Place {
    let mut q = p;
    for _ in 0..picks {
        q = compare_walks::taken(q, area, words);
    }
    q
}

// ---- a pick

// Three boards in a ring, 0 to 1 to 2 to 0, and a word too many.
const RING: [u32; 4] = [2, 4, 1, 0];

// A pick of a place with some picks taken, in an area of exactly the words needed but for those that it lacks.
fn pick_edge(edge: &PickEdge, measure: usize, area: &mut [u32], kept: &mut [u32]) -> Outcome {
    let mut words = RING;
    let part = if measure == 4 { 18usize } else { 3 };
    let room = edge.limit.saturating_add(4).saturating_mul(part);
    if area.len() < room || room < edge.lacking || words.len() < edge.lent {
        return Outcome::NotRun;
    }
    let fresh = compare_walks::opened(3, measure, edge.limit, &words[..3], &mut area[..room]);
    let p = all_taken(fresh, &mut area[..room], &words[..3], edge.before);
    put_own(&mut words, edge.own);
    run_pick(
        p,
        &mut area[..room - edge.lacking],
        &words[..edge.lent],
        kept,
    )
}

pub fn compare_picks(tally: &mut Tally, measure: usize, area: &mut [u32], kept: &mut [u32]) {
    for edge in PICK_EDGES {
        let refusal = if measure == 2 {
            edge.refusal_listed
        } else {
            edge.refusal
        };
        tally.compare_row(pick_edge(edge, measure, area, kept), refusal);
    }
}

// ---- an altered place

// The needs of both places, and four more.
const ALTERED_ROOM: usize = 40;

// A pick of the ring, in an area of words that hold anything.
fn altered_pick(p: Place, lent: usize, area: &mut [u32], kept: &mut [u32]) -> Outcome {
    let ring = RING;
    if area.len() < ALTERED_ROOM || ring.len() < lent {
        return Outcome::NotRun;
    }
    let room = &mut area[..ALTERED_ROOM];
    room.fill(compare_cases::MARK);
    run_pick(p, room, &ring[..lent], kept)
}

// Two cases a row: what the pick call answers of an altered place, and what the length call.
pub fn compare_places(tally: &mut Tally, area: &mut [u32], kept: &mut [u32]) {
    for (i, edge) in PLACE_EDGES.iter().enumerate() {
        let p = edge.altered();
        let pick = altered_pick(p, edge.lent, area, kept);
        let length = run_length(p);
        tally.compare(
            Case::new(b"pick", i + 1, None),
            pick,
            Outcome::Refusal(edge.refusal_pick),
        );
        tally.compare(
            Case::new(b"length", i + 1, None),
            length,
            Outcome::Refusal(edge.refusal_length),
        );
    }
}

// ---- the limit

// A place that was just opened has no length yet, 8; after all its picks it has, and one pick more is refused, 7.
pub fn tally_limit(out: Stdout, area: &mut [u32], kept: &mut [u32]) -> Tally {
    let mut tally = Tally::new(out, Group::Limit);
    let both = [2u32, 1];
    let most = 4096;
    let fresh = compare_walks::opened(2, 3, most, &both, area);
    let full = all_taken(fresh, area, &both, most);
    tally.compare(
        Case::new(b"row", 1, Some(3)),
        run_length(fresh),
        Outcome::Refusal(Some(Refusal::NoPick)),
    );
    tally.compare(
        Case::new(b"row", 2, Some(3)),
        run_pick(full, area, &both, kept),
        Outcome::Refusal(Some(Refusal::Full)),
    );
    let wanted = Answer {
        length: Ok(1),
        counts: Counts {
            compositions: Compositions(0),
            tests: Tests(most),
        },
    };
    tally.compare(
        Case::new(b"full", 3, Some(3)).at_part(most),
        compare_walks::measured(full, most),
        Outcome::Length(wanted),
    );
    tally
}
