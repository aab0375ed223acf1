// Runs the edges of saving. A file must be that of the second implementation, with every byte behind it left; where the call refuses, every byte must stay.
#![tactic(auto)]

use compare_cases::{LINKS, fill_by_turns};
use compare_rows::{Edge, SAVE_EDGES, put_own};
use compare_saves::{marked, saved_as};
use compare_tallies::{Group, Outcome, Tally};
use naive::Recording;
use std::io::Stdout;

// Writes the file of a row that is not refused, and answers its size; nothing and None for any other.
fn put_wanted(edge: &Edge<usize>, words: &[u32], wanted: &mut [u8]) -> Option<usize> {
    if edge.refusal.is_some() {
        return None;
    }
    let boards = edge.settings;
    let picks = words.len().checked_div(boards)?;
    let recording = Recording::new(words, boards, picks)?;
    Some(naive_file::write(wanted, &recording))
}

// What the call answers, the size left out where it is the wanted one.
fn run(edge: &Edge<usize>, words: &mut [u32]) -> Outcome {
    if words.len() < edge.lent {
        return Outcome::NotRun;
    }
    fill_by_turns(words, LINKS);
    put_own(words, edge.own);
    let lent = &words[..edge.lent];
    let mut wanted = marked();
    let size = put_wanted(edge, lent, &mut wanted);
    let outcome = saved_as(edge.settings, lent, edge.room, &mut marked(), &wanted);
    match outcome {
        Outcome::Number(Ok(found)) if Some(found) == size => Outcome::Refusal(None),
        Outcome::Number(Err(cause)) => Outcome::Refusal(Some(cause)),
        _ => outcome,
    }
}

pub fn tally(out: Stdout, words: &mut [u32]) -> Tally {
    let mut tally = Tally::new(out, Group::SaveEdges);
    for edge in SAVE_EDGES {
        tally.compare_row(run(edge, words), edge.refusal);
    }
    tally
}
