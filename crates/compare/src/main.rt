// Runs the calls on many cases and compares them with the second implementation: a line for each group, with its cases and its
// mismatches, and before it a line for each mismatch. A case that is a file is named in `args` and stands in data/: a new one
// asks for no code and no proof.
#![tactic(auto)]

use compare_tallies::{Call, Group, Kind, Tally};
use std::io::Stdout;
use std::rt::{Env, Files};

// The area of ten picks over 32 boards under measure 4, 14 parts of 2,048 words; no case needs more.
const WORDS: usize = 28672;

// The lines of the output.
static GROUPS: &[Group] = &[
    Group::ByHand(Kind::Whole(1)),
    Group::ByHand(Kind::Whole(2)),
    Group::ByHand(Kind::Whole(3)),
    Group::ByHand(Kind::Whole(4)),
    Group::ByHand(Kind::Picks(1)),
    Group::ByHand(Kind::Picks(2)),
    Group::ByHand(Kind::Picks(3)),
    Group::ByHand(Kind::Picks(4)),
    Group::ByHand(Kind::Counts(1)),
    Group::ByHand(Kind::Counts(2)),
    Group::ByHand(Kind::Counts(3)),
    Group::ByHand(Kind::Counts(4)),
    Group::Stated,
    Group::ByHand(Kind::Tables),
    Group::FilesRead,
    Group::Generated(Kind::Whole(1)),
    Group::Generated(Kind::Whole(2)),
    Group::Generated(Kind::Whole(3)),
    Group::Generated(Kind::Whole(4)),
    Group::Generated(Kind::Picks(1)),
    Group::Generated(Kind::Picks(2)),
    Group::Generated(Kind::Picks(3)),
    Group::Generated(Kind::Picks(4)),
    Group::Generated(Kind::Counts(1)),
    Group::Generated(Kind::Counts(2)),
    Group::Generated(Kind::Counts(3)),
    Group::Generated(Kind::Counts(4)),
    Group::Generated(Kind::Tables),
    Group::ByHand(Kind::Decisions(1)),
    Group::ByHand(Kind::Decisions(2)),
    Group::ByHand(Kind::Decisions(3)),
    Group::ByHand(Kind::Decisions(4)),
    Group::Generated(Kind::Decisions(1)),
    Group::Generated(Kind::Decisions(2)),
    Group::Generated(Kind::Decisions(3)),
    Group::Generated(Kind::Decisions(4)),
    Group::Edges(Call::Decide),
    Group::ByHand(Kind::Saves),
    Group::Generated(Kind::Saves),
    Group::SaveEdges,
    Group::Edges(Call::Whole),
    Group::Edges(Call::Table),
    Group::TableOfA,
    Group::Edges(Call::Open),
    Group::Edges(Call::Read),
    Group::Edges(Call::Pick(1)),
    Group::Edges(Call::Pick(2)),
    Group::Edges(Call::Pick(3)),
    Group::Edges(Call::Pick(4)),
    Group::Edges(Call::Altered),
    Group::Limit,
];

fn tally<R: Env + Files>(
    rt: &R,
    out: Stdout,
    group: Group,
    words: &mut [u32],
    area: &mut [u32],
) -> Tally {
    match group {
        Group::Generated(kind) => compare_generated::tally(out, kind, area),
        Group::Edges(call) => compare_edges::tally(out, call, words, area),
        Group::TableOfA => compare_edges::tally_of_a(out, area),
        Group::Limit => compare_walk_edges::tally_limit(out, area, words),
        Group::SaveEdges => compare_save_edges::tally(out, words),
        Group::ByHand(_) | Group::Stated | Group::FilesRead => compare_files::tally(
            rt, out, group, words, area,
        ),
    }
}

// An output that takes no more is no failure of the program.
fn main(rt: HostRuntime) {
    let mut words = [0u32; WORDS];
    let mut area = [0u32; WORDS];
    let out = rt.stdout();
    let _ = println!(out; "group measure cases mismatches");
    for group in GROUPS {
        let _ = tally(&rt, out, *group, &mut words, &mut area).print();
    }
}
