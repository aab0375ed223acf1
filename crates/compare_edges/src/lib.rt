// Runs the rows of `compare_rows`. Wherever a call refuses, every lent word must stay.
#![tactic(auto)]

use compare_cases::{LINKS, MARK, fill_by_turns, is_marked};
use compare_rows::{
    Edge, OPEN_EDGES, READ_EDGES, ReadEdge, RunSettings, TABLE_EDGES, WHOLE_EDGES, put_own,
};
use compare_tallies::{Call, Case, Group, Outcome, Tally};
use model::Refusal;
use place::{Place, Settings};
use std::io::Stdout;

// ---- rows

// What a call answers of a row: it is handed the settings, the words lent, which are others by turns but for the row's own, and an area.
fn run<S: Copy, F: Fn(S, &[u32], &mut [u32]) -> Outcome>(
    edge: &Edge<S>,
    others: [u32; 2],
    words: &mut [u32],
    area: &mut [u32],
    call: F,
) -> Outcome
    requires { F.IsAlwaysCallable call }
{
    if words.len() < edge.lent || area.len() < edge.room {
        return Outcome::NotRun;
    }
    fill_by_turns(words, others);
    put_own(words, edge.own);
    let room = &mut area[..edge.room];
    room.fill(MARK);
    let outcome = call(edge.settings, &words[..edge.lent], room);
    outcome.left(is_marked(room))
}

// ---- the calls: their counts, and yes or no, left out

fn whole(settings: RunSettings, words: &[u32], area: &mut [u32]) -> Outcome {
    let answer = calls::whole(settings.boards, settings.measure, words, area);
    Outcome::Refusal(answer.length.err())
}

fn table(boards: usize, words: &[u32], out: &mut [u32]) -> Outcome {
    Outcome::Refusal(reach::table(boards, words, out).err())
}

// A refused opening hands back the place of zeros and noes.
fn opening(settings: Settings, list: &[u32], area: &mut [u32]) -> Outcome {
    let Settings {
        boards,
        measure,
        limit,
    } = settings;
    match calls::open(boards, measure, limit, list, area) {
        Ok(_) => Outcome::Refusal(None),
        Err(refused) if refused.place == Place::NOWHERE => Outcome::Refusal(Some(refused.cause)),
        Err(refused) => Outcome::Changed(Some(refused.cause)),
    }
}

// Of a file with two boards and two picks. The output is filled and looked at as in `run`; with one function for both, the check takes more than the 40 s
// that a check may.
fn reading(edge: &ReadEdge, area: &mut [u32]) -> Outcome {
    let file = [0x42u8, 0x02, 0x50, 0x50, 0x45];
    if file.len() < edge.lent || area.len() < edge.room {
        return Outcome::NotRun;
    }
    let out = &mut area[..edge.room];
    out.fill(MARK);
    let outcome = Outcome::Refusal(recording::read(&file[..edge.lent], edge.limit, out).err());
    outcome.left(is_marked(out))
}

// 17 comes last: it is the refusal only where nothing else refuses. Without a length, 9, a decision is no.
fn decide_refusal(refusal: Option<Refusal>, k: usize, picks: usize) -> Option<Refusal> {
    match refusal {
        None | Some(Refusal::NoLength) => (k == 0 || picks < k).then_some(Refusal::WindowLength),
        _ => refusal,
    }
}

// Each row of a whole run is asked with five window lengths: 0, 1, the number of picks, one more, and the largest number.
fn compare_decisions(tally: &mut Tally, words: &mut [u32], area: &mut [u32]) {
    for edge in WHOLE_EDGES {
        let picks = edge.lent.checked_div(edge.settings.boards).unwrap_or(0);
        for k in [0, 1, picks, picks.wrapping_add(1), usize::MAX] {
            let got = run(edge, LINKS, words, area, |settings, words, area| {
                let decision = decision::decide(settings.boards, settings.measure, words, k, area);
                Outcome::Refusal(decision.err())
            });
            tally.compare_row(got, decide_refusal(edge.refusal, k, picks));
        }
    }
}

// ---- all tables

fn compare_edges<S: Copy, F: Fn(S, &[u32], &mut [u32]) -> Outcome>(
    tally: &mut Tally,
    edges: &[Edge<S>],
    others: [u32; 2],
    words: &mut [u32],
    area: &mut [u32],
    call: F,
)
    requires { F.IsAlwaysCallable call }
{
    for edge in edges {
        tally.compare_row(run(edge, others, words, area, &call), edge.refusal);
    }
}

pub fn tally(out: Stdout, call: Call, words: &mut [u32], area: &mut [u32]) -> Tally {
    let mut tally = Tally::new(out, Group::Edges(call));
    match call {
        Call::Whole => compare_edges(&mut tally, WHOLE_EDGES, LINKS, words, area, whole),
        Call::Decide => compare_decisions(&mut tally, words, area),
        Call::Table => compare_edges(&mut tally, TABLE_EDGES, LINKS, words, area, table),
        Call::Open => compare_edges(&mut tally, OPEN_EDGES, [0, 0], words, area, opening),
        Call::Read => for edge in READ_EDGES {
            tally.compare_row(reading(edge, area), edge.refusal);
        },
        Call::Pick(measure) => compare_walk_edges::compare_picks(&mut tally, measure, area, words),
        Call::Altered => compare_walk_edges::compare_places(&mut tally, area, words),
    }
    tally
}

// The table of reach of A, as 01 states it: words 2 and 1, where nothing refused it.
pub fn tally_of_a(out: Stdout, table: &mut [u32]) -> Tally {
    let mut tally = Tally::new(out, Group::TableOfA);
    let a = [2u32, 0, 0, 1, 2, 0, 0, 1];
    tally.compare_row(Outcome::Refusal(reach::table(2, &a, table).err()), None);
    for (u, wanted) in [2, 1].iter().enumerate() {
        let got = table.get(u).map_or(0, |word| *word as usize);
        tally.compare(
            Case::new(b"A", 1, None).at_part(u),
            Outcome::Number(Ok(got)),
            Outcome::Number(Ok(*wanted)),
        );
    }
    tally
}
