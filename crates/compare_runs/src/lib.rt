// The recording of a case, run by the calls and compared with the second implementation.
#![tactic(auto)]

ghost use Rattle.std.specs.Prelude.{◌≤◌, ◌<◌, IfSome};

use calls::Answer;
use compare_cases::Recorded;
use compare_tallies::{Case, Kind, Outcome, Tally};
use decision::Decision;
use model::{Compositions, Refusal, Tests};
use naive::Recording;
use naive_walk::Walk;
use place::Counts;

// ---- lent whole

pub fn run_whole(recording: &Recording<'_>, measure: usize, area: &mut [u32]) -> Answer {
    calls::whole(recording.boards, measure, recording.words, area)
}

// What the second implementation answers of a whole run.
fn naive_whole(walk: &Walk<'_>) -> Outcome {
    if walk.recording.picks == 0 {
        return Outcome::Length(Answer::refused(Refusal::NoPick));
    }
    compare_walks::naive_answer(walk, walk.whole())
}

fn compare_whole(tally: &mut Tally, case: Case<'_>, walk: &Walk<'_>, area: &mut [u32]) {
    let got = run_whole(&walk.recording, walk.measure, area);
    tally.compare(case, Outcome::Length(got), naive_whole(walk));
}

// The counts within the bounds: 4(m - 1) compositions and 2m tests at most; under measures 3 and 4, 3(m - 1) and exactly m.
fn bounded(counts: Counts, measure: usize, m: usize) -> Counts
    requires { m ≤ 4096 }
{
    let compositions = counts.compositions.0;
    let (compositions, tests) = if measure < 3 {
        (
            compositions.min(4 * m.saturating_sub(1)),
            counts.tests.0.min(2 * m),
        )
    } else {
        (compositions.min(3 * m.saturating_sub(1)), m)
    };
    Counts {
        compositions: Compositions(compositions),
        tests: Tests(tests),
    }
}

fn compare_counts(tally: &mut Tally, case: Case<'_>, walk: &Walk<'_>, area: &mut [u32]) {
    let got = run_whole(&walk.recording, walk.measure, area);
    let wanted = match walk.recording.picks {
        0 => Answer::refused(Refusal::NoPick),
        m => Answer {
            counts: bounded(got.counts, walk.measure, m),
            ..got
        },
    };
    tally.compare(case, Outcome::Length(got), Outcome::Length(wanted));
}

// ---- a window length

// What the second implementation answers: yes or no over all windows, with the counts of its walk on numbers. Where that walk answers otherwise there is
// no one answer.
fn naive_decision(walk: &Walk<'_>, k: usize) -> Outcome
    requires { (1 ≤ k) × (k ≤ walk.now.recording.picks) }
{
    let yes = walk
        .recording
        .all_pass(walk.measure, walk.recording.picks, k);
    let x = walk.held(k);
    if x.failed == yes {
        return Outcome::NotRun;
    }
    Outcome::Decision(Ok(Decision {
        yes,
        counts: compare_walks::counts_of(x),
    }))
}

// Every window length from 1 to the number of picks: no recording here has more than 40.
fn compare_decisions(tally: &mut Tally, case: Case<'_>, walk: &Walk<'_>, area: &mut [u32]) {
    let Walk { recording, measure } = *walk;
    for k in 1..=recording.picks {
        let got = decision::decide(recording.boards, measure, recording.words, k, area);
        tally.compare(
            case.at_part(k),
            Outcome::Decision(got),
            naive_decision(walk, k),
        );
    }
}

// ---- the table of reach

// The first row that the two do not have alike.
fn row_apart(recording: &Recording<'_>, table: &[u32]) -> Option<usize>
    ensures { IfSome result (λ u. u < 32) }
{
    (0..recording.boards).find(|u| table.get(*u).copied() != Some(recording.reach_word(*u)))
}

// What the call wrote, against the second implementation, at the row that shows a difference if any does.
fn compare_rows(tally: &mut Tally, recorded: &Recorded<'_, '_>, table: &[u32]) {
    let recording = recorded.recording;
    let u = row_apart(&recording, table).unwrap_or(0);
    let got = table.get(u).map_or(0, |word| *word as usize);
    let wanted = recording.reach_word(u) as usize;
    tally.compare(
        recorded.case.at_part(u),
        Outcome::Number(Ok(got)),
        Outcome::Number(Ok(wanted)),
    );
}

fn compare_table(tally: &mut Tally, recorded: &Recorded<'_, '_>, out: &mut [u32]) {
    let recording = recorded.recording;
    let wanted = (recording.picks == 0).then_some(Refusal::NoPick);
    let refusal = reach::table(recording.boards, recording.words, out).err();
    if refusal.or(wanted).is_some() {
        tally.compare(
            recorded.case,
            Outcome::Refusal(refusal),
            Outcome::Refusal(wanted),
        );
    } else {
        compare_rows(tally, recorded, out);
    }
}

// ---- all of it

// The cases of one kind: one, or one for each pick, window length or step of saving.
pub fn run(tally: &mut Tally, kind: Kind, recorded: &Recorded<'_, '_>, area: &mut [u32]) {
    let case = recorded.case;
    let recording = recorded.recording;
    let walk = |measure| Walk { recording, measure };
    match kind {
        Kind::Whole(measure) => compare_whole(tally, case, &walk(measure), area),
        Kind::Picks(measure) => compare_walks::compare_picks(tally, recorded, measure, area),
        Kind::Counts(measure) => compare_counts(tally, case, &walk(measure), area),
        Kind::Decisions(measure) => compare_decisions(tally, case, &walk(measure), area),
        Kind::Tables => compare_table(tally, recorded, area),
        Kind::Saves => compare_saves::compare_saves(tally, recorded, area),
    }
}
