// The recording of a case, pick by pick: after each one the length and both counts, against the second implementation.
#![tactic(auto)]

use calls::Answer;
use compare_cases::Recorded;
use compare_tallies::{Outcome, Tally};
use model::{Compositions, Pick, Refusal, Tests};
use naive::Recording;
use naive_walk::{Numbers, Walk};
use place::{Counts, Place};

pub fn counts_of(x: Numbers) -> Counts {
    Counts {
        compositions: Compositions(x.compositions),
        tests: Tests(x.tests),
    }
}

// What the second implementation answers behind the picks of x: the length over all windows, with the counts of its walk on numbers. Where that walk
// has another length there is no one answer.
pub fn naive_answer(walk: &Walk<'_>, x: Numbers) -> Outcome {
    let length = walk.recording.length(walk.measure, x.m);
    if x.length(walk.measure) != length {
        return Outcome::NotRun;
    }
    Outcome::Length(Answer {
        length: length.ok_or(Refusal::NoLength),
        counts: counts_of(x),
    })
}

// The opened place, or the place of zeros, under which no pick is taken.
pub fn opened(n: usize, measure: usize, limit: usize, list: &[u32], area: &mut [u32]) -> Place {
    calls::open(n, measure, limit, list, area).unwrap_or_else(|refused| refused.place)
}

// The place behind a pick, whether or not it was taken.
pub fn taken(p: Place, area: &mut [u32], words: &[u32]) -> Place {
    calls::pick(p, area, words).unwrap_or_else(|refused| refused.place)
}

// The place of a recording under a measure, opened with its list.
fn opened_for(walk: &Walk<'_>, area: &mut [u32]) -> Place {
    let Recording { boards, picks, .. } = walk.recording;
    let mut list = [0u32; 32];
    for (u, word) in list[..boards].iter_mut().enumerate() {
        *word = walk.recording.list_word(u);
    }
    opened(boards, walk.measure, picks, &list[..boards], area)
}

// The answer of a place that has k picks; a place with another number of picks was refused one.
pub fn measured(p: Place, k: usize) -> Outcome {
    if p.window.taken != Pick(k) {
        return Outcome::NotRun;
    }
    Outcome::Length(calls::length(p).answer)
}

pub fn compare_picks(
    tally: &mut Tally,
    recorded: &Recorded<'_, '_>,
    measure: usize,
    area: &mut [u32],
) {
    let walk = Walk {
        recording: recorded.recording,
        measure,
    };
    let Recording {
        words,
        boards,
        picks,
        ..
    } = walk.recording;
    let mut place = opened_for(&walk, area);
    let mut x = Numbers::first(0);
    for (k, pick) in (1..=picks).zip(words.chunks(boards)) {
        place = taken(place, area, pick);
        x = walk.step(x);
        let wanted = naive_answer(&walk, x);
        tally.compare(recorded.case.at_part(k), measured(place, k), wanted);
    }
}
