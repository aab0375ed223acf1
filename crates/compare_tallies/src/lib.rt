// Groups of cases counted, and a line for each mismatch. Whatever a call answers is an outcome here, so that all are compared alike.
#![tactic(auto)]

use calls::Answer;
use decision::Decision;
use model::Refusal;
use place::Counts;
use std::io::{Stdout, Write};
use std::{fmt, io};

// ---- groups

// Kinds and calls are data, and not closures that run them: with a closure for each of them the check of `compare` took 130 s, and here a check takes 40 s at
// most, or its crate is parted.

// What of a recording is held against the second implementation, under a measure where there is one.
#[derive(Clone, Copy)]
pub enum Kind {
    Whole(usize),
    Picks(usize),
    Counts(usize),
    Decisions(usize),
    Tables,
    Saves,
}

// What a table of edges is for; picks are under a measure.
#[derive(Clone, Copy)]
pub enum Call {
    Whole,
    Decide,
    Table,
    Open,
    Read,
    Pick(usize),
    Altered,
}

// A group is a line of the output.
#[derive(Clone, Copy)]
pub enum Group {
    ByHand(Kind),
    Stated,
    FilesRead,
    Generated(Kind),
    TableOfA,
    Edges(Call),
    Limit,
    SaveEdges,
}

impl Kind {
    pub fn measure(self) -> Option<usize> {
        match self {
            Kind::Whole(measure)
            | Kind::Picks(measure)
            | Kind::Counts(measure)
            | Kind::Decisions(measure) => Some(measure),
            Kind::Tables | Kind::Saves => None,
        }
    }
}

impl Group {
    pub fn measure(self) -> Option<usize> {
        match self {
            Group::ByHand(kind) | Group::Generated(kind) => kind.measure(),
            Group::Edges(Call::Pick(measure)) => Some(measure),
            _ => None,
        }
    }
}

impl fmt::Display for Kind {
    fn fmt<W: fmt::Write>(&self, f: &mut fmt::Formatter<W>) -> fmt::Result {
        f.write_str(match self {
            Kind::Whole(_) => "whole",
            Kind::Picks(_) => "picks",
            Kind::Counts(_) => "counts",
            Kind::Decisions(_) => "decisions",
            Kind::Tables => "tables",
            Kind::Saves => "saves",
        })
    }
}

impl fmt::Display for Call {
    fn fmt<W: fmt::Write>(&self, f: &mut fmt::Formatter<W>) -> fmt::Result {
        f.write_str(match self {
            Call::Whole => "whole",
            Call::Decide => "decide",
            Call::Table => "table",
            Call::Open => "open",
            Call::Read => "read",
            Call::Pick(_) => "pick",
            Call::Altered => "place",
        })
    }
}

impl fmt::Display for Group {
    fn fmt<W: fmt::Write>(&self, f: &mut fmt::Formatter<W>) -> fmt::Result {
        match self {
            Group::ByHand(kind) => write!(f, "by-hand-{kind}"),
            Group::Stated => f.write_str("by-hand-stated"),
            Group::FilesRead => f.write_str("files-read"),
            Group::Generated(kind) => write!(f, "generated-{kind}"),
            Group::TableOfA => f.write_str("table-of-A"),
            Group::Edges(call) => write!(f, "edges-{call}"),
            Group::Limit => f.write_str("edges-limit"),
            Group::SaveEdges => f.write_str("edges-save"),
        }
    }
}

// ---- cases

// A case of a group: its file or what it is, its number from 1 on, its measure, and the pick, the row or the step that is looked at. The name of a file is
// any bytes.
#[derive(Clone, Copy)]
pub struct Case<'a> {
    pub name: &'a [u8],
    pub number: usize,
    pub measure: Option<usize>,
    pub part: Option<usize>,
}

impl<'a> Case<'a> {
    pub fn new(name: &'a [u8], number: usize, measure: Option<usize>) -> Self {
        Case {
            name,
            number,
            measure,
            part: None,
        }
    }

    pub fn at_part(self, part: usize) -> Self {
        Case {
            part: Some(part),
            ..self
        }
    }
}

// ---- outcomes

// Two that are compared are of one kind: what is wanted of a call is written in the kind of its answer.
#[derive(Clone, Copy, PartialEq, Eq)]
pub enum Outcome {
    // A length, with its counts.
    Length(Answer),
    // Yes or no, with its counts.
    Decision(Result<Decision, Refusal>),
    // A word of a table, or the size of a file.
    Number(Result<usize, Refusal>),
    // Whether it is refused, and nothing else.
    Refusal(Option<Refusal>),
    // Answered or refused, with a byte or a word other than it must be.
    Changed(Option<Refusal>),
    // No call answers this: the case could not be run, for want of a file, of room, or of one answer to hold it to.
    NotRun,
}

impl Outcome {
    fn refusal(self) -> Option<Refusal> {
        match self {
            Outcome::Length(answer) => answer.length.err(),
            Outcome::Decision(answer) => answer.err(),
            Outcome::Number(answer) => answer.err(),
            Outcome::Refusal(refusal) | Outcome::Changed(refusal) => refusal,
            Outcome::NotRun => None,
        }
    }

    // Of a call that must leave what was lent wherever it refuses. After an answer, and after 9, that is not asked.
    pub fn left(self, kept: bool) -> Outcome {
        match self.refusal() {
            Some(cause) if !kept && cause != Refusal::NoLength => Outcome::Changed(Some(cause)),
            _ => self,
        }
    }
}

// An outcome as it is printed, and as the list of cases states it: there its numbers may be any, and no call need answer them.
#[derive(Clone, Copy, PartialEq, Eq)]
pub struct Printed {
    // A length, a word of a table or the size of a file, 1 for yes and where something was changed; 0 where there is none.
    pub value: usize,
    // 0 where there is none, and 999 where the case was not run.
    pub refusal: usize,
    // 0 where none belong to it.
    pub counts: Counts,
}

impl From<Outcome> for Printed {
    fn from(outcome: Outcome) -> Self {
        let (value, counts) = match outcome {
            Outcome::Length(Answer { length, counts }) => (length.unwrap_or(0), counts),
            Outcome::Decision(Ok(Decision { yes, counts })) => (usize::from(yes), counts),
            Outcome::Number(answer) => (answer.unwrap_or(0), Counts::NONE),
            Outcome::Changed(_) => (1, Counts::NONE),
            Outcome::Decision(Err(_)) | Outcome::Refusal(_) | Outcome::NotRun => (0, Counts::NONE),
        };
        let refusal = match outcome {
            Outcome::NotRun => 999,
            _ => outcome
                .refusal()
                .map_or(0, |cause| u32::from(cause) as usize),
        };
        Printed {
            value,
            refusal,
            counts,
        }
    }
}

// ---- lines

// A number, or a dash where there is none. It is a dash for 0 too: a word with no bit, or the first row of a table.
#[derive(Clone, Copy)]
struct Cell(Option<usize>);

impl fmt::Display for Cell {
    fn fmt<W: fmt::Write>(&self, f: &mut fmt::Formatter<W>) -> fmt::Result {
        match self.0 {
            None | Some(0) => f.write_str("-"),
            Some(number) => write!(f, "{number}"),
        }
    }
}

// What of a case stands behind its name.
impl fmt::Display for Case<'_> {
    fn fmt<W: fmt::Write>(&self, f: &mut fmt::Formatter<W>) -> fmt::Result {
        let number = self.number;
        let measure = Cell(self.measure);
        let part = Cell(self.part);
        write!(f, "{number} {measure} {part}")
    }
}

impl fmt::Display for Printed {
    fn fmt<W: fmt::Write>(&self, f: &mut fmt::Formatter<W>) -> fmt::Result {
        let value = Cell(Some(self.value));
        let refusal = self.refusal;
        let compositions = self.counts.compositions.0;
        let tests = self.counts.tests.0;
        write!(f, "{value} {refusal} {compositions} {tests}")
    }
}

// The cases of a group so far, with where they are printed.
#[derive(Clone, Copy)]
pub struct Tally {
    out: Stdout,
    group: Group,
    cases: u32,
    mismatches: u32,
}

impl Tally {
    pub fn new(out: Stdout, group: Group) -> Self {
        Tally {
            out,
            group,
            cases: 0,
            mismatches: 0,
        }
    }

    // One case more, and its line where it is a mismatch.
    pub fn compare(&mut self, case: Case<'_>, got: Outcome, wanted: Outcome) {
        self.count(got == wanted);
        if got != wanted {
            self.print_mismatch(case, Printed::from(got), Printed::from(wanted));
        }
    }

    // The same, where what is wanted is stated as it is printed.
    pub fn compare_stated(&mut self, case: Case<'_>, got: Outcome, wanted: Printed) {
        let got = Printed::from(got);
        self.count(got == wanted);
        if got != wanted {
            self.print_mismatch(case, got, wanted);
        }
    }

    fn count(&mut self, same: bool) {
        self.cases = self.cases.wrapping_add(1);
        self.mismatches = self.mismatches.wrapping_add(u32::from(!same));
    }

    // A line that cannot be written is counted all the same.
    fn print_mismatch(&self, case: Case<'_>, got: Printed, wanted: Printed) {
        let mut out = self.out;
        let group = self.group;
        let _ = print!(out; "mismatch {group} ");
        let _ = out.write_all(case.name);
        let _ = println!(out; " {case} got {got} wanted {wanted}");
    }

    // The case of a row of a table: the rows are cases in their order.
    pub fn compare_row(&mut self, got: Outcome, wanted: Option<Refusal>) {
        let number = self.cases as usize + 1;
        let case = Case::new(b"row", number, self.group.measure());
        self.compare(case, got, Outcome::Refusal(wanted));
    }

    // The line of the group.
    pub fn print(&self) -> io::Result<()> {
        let out = self.out;
        let group = self.group;
        let measure = Cell(group.measure());
        let cases = self.cases;
        let mismatches = self.mismatches;
        println!(out; "{group} {measure} {cases} {mismatches}")
    }
}
