// The cases that are files: each argument names one, as `compare_listed::parse_bytes` reads it.
#![tactic(auto)]

use calls::Answer;
use compare_cases::{MARK, Recorded, is_marked};
use compare_listed::ListedBytes;
use compare_tallies::{Case, Group, Outcome, Printed, Tally};
use model::Refusal;
use place::Counts;
use recording::Reading;
use std::env::FillError;
use std::fs::File;
use std::io::Stdout;
use std::rt::{Env, Files};

// The most picks of a file, as `lengths` has it.
const LIMIT: usize = 40;

// The recording of a file, into words, or how it could not be read. A refused file leaves every word. A name that is not UTF-8 is none of a file.
fn load<R: Files>(rt: &R, file: &[u8], words: &mut [u32]) -> Result<Reading, Outcome> {
    let path = str::from_utf8(file).or(Err(Outcome::NotRun))?;
    let Ok(mut source) = File::open(rt, path) else {
        return Err(Outcome::NotRun);
    };
    let mut bytes = [0u8; 4096];
    let n = inputs::read_full(&mut source, &mut bytes);
    words.fill(MARK);
    recording::read(&bytes[..n], LIMIT, words).map_err(|cause| Outcome::Refusal(Some(cause)).left(
        is_marked(words),
    ))
}

fn recorded<'c, 'w, R: Files>(
    rt: &R,
    case: Case<'c>,
    words: &'w mut [u32],
) -> Option<Recorded<'c, 'w>> {
    let read = load(rt, case.name, words).ok()?;
    Recorded::new(case, read.boards, read.picks, words)
}

// A recording against the second implementation; a recording against what is stated of it; how a file is read. What is no case of the group is passed over.
fn compare_listed<R: Files>(
    rt: &R,
    tally: &mut Tally,
    group: Group,
    number: usize,
    listed: ListedBytes<'_>,
    words: &mut [u32],
    area: &mut [u32],
) {
    match (group, listed) {
        (Group::ByHand(kind), ListedBytes::Read { file, refusal: 0 }) => {
            let case = Case::new(file, number, kind.measure());
            match recorded(rt, case, words) {
                Some(recorded) => compare_runs::run(tally, kind, &recorded, area),
                None => tally.compare(case, Outcome::NotRun, Outcome::Refusal(None)),
            }
        }
        (
            Group::Stated,
            ListedBytes::Stated {
                file,
                measure,
                answer,
            },
        ) => {
            let case = Case::new(file, number, Some(measure));
            // A recording that cannot be had is one over no boards.
            let got = match recorded(rt, case, words) {
                Some(recorded) => compare_runs::run_whole(&recorded.recording, measure, area),
                None => Answer::refused(Refusal::Boards),
            };
            tally.compare_stated(case, Outcome::Length(got), answer);
        }
        (Group::FilesRead, ListedBytes::Read { file, refusal }) => {
            let got = match load(rt, file, words) {
                Ok(_) => Outcome::Refusal(None),
                Err(outcome) => outcome,
            };
            let wanted = Printed {
                value: 0,
                refusal,
                counts: Counts::NONE,
            };
            tally.compare_stated(Case::new(file, number, None), got, wanted);
        }
        _ => {}
    }
}

// The number of a case is that of its argument. No heap is used, so the arguments are had one by one, and one that the buffer does not hold is no case.
pub fn tally<R: Env + Files>(
    rt: &R,
    out: Stdout,
    group: Group,
    words: &mut [u32],
    area: &mut [u32],
) -> Tally {
    let mut tally = Tally::new(out, group);
    let mut text = [0u8; 4096];
    for number in 1..usize::MAX {
        match rt.arg(number, &mut text) {
            Ok(n) => {
                if let Some(listed) = compare_listed::parse_bytes(&text[..n]) {
                    compare_listed(rt, &mut tally, group, number, listed, words, area);
                }
            }
            Err(FillError::TooLong) => {}
            Err(FillError::NotPresent) => break,
        }
    }
    tally
}
