// Generated recordings: one of 5 to 9 picks for each number of boards, 2 to 32, and each share of links.
#![tactic(auto)]

use compare_cases::{Generator, Recorded, Share};
use compare_tallies::{Case, Group, Kind, Outcome, Tally};
use std::io::Stdout;

// 31 numbers of boards times 4 shares.
const COUNT: usize = 124;

const SHARES: [Share; 4] = [
    Share::Half,
    Share::Eighth,
    Share::SevenEighths,
    Share::ThirtySecond,
];

// The words of the largest, 9 picks over 32 boards.
const WORDS: usize = 288;

pub fn tally(out: Stdout, kind: Kind, area: &mut [u32]) -> Tally {
    let mut tally = Tally::new(out, Group::Generated(kind));
    let mut generator = Generator::new();
    let mut words = [0u32; WORDS];
    for i in 0..COUNT {
        let boards = 2 + i % 31;
        let picks = 5 + i % 5;
        let case = Case::new(b"recording", i, kind.measure());
        generator.fill(&mut words, boards, SHARES[i % 4]);
        match Recorded::new(case, boards, picks, &words) {
            Some(recorded) => compare_runs::run(&mut tally, kind, &recorded, area),
            None => tally.compare(case, Outcome::NotRun, Outcome::Refusal(None)),
        }
    }
    tally
}
