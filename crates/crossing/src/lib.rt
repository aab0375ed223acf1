// Places and answers as words of 32 bits, as C has them.
#![tactic(auto)]

ghost use Rattle.std.specs.Prelude.{◌≡◌, ◌<◌, ◌^◌};
ghost use Rattle.calls.specs.Answers.{handed_says, answer_says};
ghost use Rattle.decision.specs.Decisions.{decision_says};
ghost use Rattle.recording.specs.Answers.{reading_says};
ghost use Rattle.saving.specs.Answers.{saving_says};
ghost use Rattle.crossing.specs.Words.{flag, flags, place_of, words_of, handed_words, answer_words, decision_words, reading_words, saved_words};
ghost use Rattle.crossing.specs.Words.{Narrow, NarrowHanded, NarrowAnswer, NarrowDecision, NarrowReading, NarrowSaved};

use calls::{Answer, Refused};
use decision::Decision;
use model::{Compositions, Pick, Refusal, Tests};
use place::{Counts, Place, Settings, TestMarks, Window};
use recording::Reading;

// The place as ten words. A flag is 0 for no and 1 for yes.
#[repr(C)]
#[derive(Clone, Copy, PartialEq, Eq)]
pub struct PlaceWords {
    pub boards: u32,
    pub measure: u32,
    pub limit: u32,
    pub taken: u32,
    pub start: u32,
    pub boundary: u32,
    pub failed: u32,
    pub passed: u32,
    pub compositions: u32,
    pub tests: u32,
}

// What opening and a pick answer: refusal 0 is none.
#[repr(C)]
#[derive(Clone, Copy, PartialEq, Eq)]
pub struct HandedWords {
    pub refusal: u32,
    pub place: PlaceWords,
}

// What a whole run answers: length 0 is none.
#[repr(C)]
#[derive(Clone, Copy, PartialEq, Eq)]
pub struct AnswerWords {
    pub refusal: u32,
    pub length: u32,
    pub compositions: u32,
    pub tests: u32,
}

// What the length call answers, with the place as it was.
#[repr(C)]
#[derive(Clone, Copy, PartialEq, Eq)]
pub struct MeasuredWords {
    pub refusal: u32,
    pub length: u32,
    pub compositions: u32,
    pub tests: u32,
    pub place: PlaceWords,
}

// What a decision answers: yes is 1 where every window passes, else 0.
#[repr(C)]
#[derive(Clone, Copy, PartialEq, Eq)]
pub struct DecisionWords {
    pub refusal: u32,
    pub yes: u32,
    pub compositions: u32,
    pub tests: u32,
}

// What the reader answers: boards and picks 0 where the file is refused.
#[repr(C)]
#[derive(Clone, Copy, PartialEq, Eq)]
pub struct ReadingWords {
    pub refusal: u32,
    pub boards: u32,
    pub picks: u32,
}

// What the writer answers: length 0 where nothing was written.
#[repr(C)]
#[derive(Clone, Copy, PartialEq, Eq)]
pub struct SavedWords {
    pub refusal: u32,
    pub length: u32,
}

// ---- places and answers as words. What asks that its numbers fit is a function: `From` asks nothing, and `TryFrom` could fail.

// Whether a word is a flag.
fn is_flag(x: u32) -> bool
    ensures { result ≡ flag x }
{
    x <= 1
}

pub fn are_flags(p: PlaceWords) -> bool
    ensures { result ≡ flags p }
{
    is_flag(p.failed) && is_flag(p.passed)
}

pub fn narrow(x: usize) -> u32
    requires { x < 2 ^ 32 }
    ensures { result ≡ x }
{
    x as u32
}

impl From<PlaceWords> for Place {
    ghost from_gives = { λ words place. place ≡ place_of words };

    #[tactic(auto, unfolding(crate::specs::Words::place_of))]
    fn from(p: PlaceWords) -> Place {
        Place {
            settings: Settings {
                boards: p.boards as usize,
                measure: p.measure as usize,
                limit: p.limit as usize,
            },
            window: Window {
                taken: Pick(p.taken as usize),
                start: Pick(p.start as usize),
                boundary: Pick(p.boundary as usize),
            },
            marks: TestMarks {
                failed: p.failed == 1,
                passed: p.passed == 1,
            },
            counts: Counts {
                compositions: Compositions(p.compositions as usize),
                tests: Tests(p.tests as usize),
            },
        }
    }
}

#[tactic(auto, unfolding(crate::specs::Words::words_of))]
pub fn words_of(p: Place) -> PlaceWords
    requires { Narrow p }
    ensures { result ≡ words_of p }
{
    PlaceWords {
        boards: narrow(p.settings.boards),
        measure: narrow(p.settings.measure),
        limit: narrow(p.settings.limit),
        taken: narrow(p.window.taken.0),
        start: narrow(p.window.start.0),
        boundary: narrow(p.window.boundary.0),
        failed: u32::from(p.marks.failed),
        passed: u32::from(p.marks.passed),
        compositions: narrow(p.counts.compositions.0),
        tests: narrow(p.counts.tests.0),
    }
}

pub fn handed_words(h: Result<Place, Refused>) -> HandedWords
    requires { NarrowHanded (handed_says h) }
    ensures { result ≡ handed_words (handed_says h) }
{
    match h {
        Ok(p) => HandedWords {
            refusal: 0,
            place: words_of(p),
        },
        Err(r) => HandedWords {
            refusal: u32::from(r.cause),
            place: words_of(r.place),
        },
    }
}

pub fn answer_words(a: Answer) -> AnswerWords
    requires { NarrowAnswer (answer_says a) }
    ensures { result ≡ answer_words (answer_says a) }
{
    let (refusal, length) = match a.length {
        Ok(l) => (0, narrow(l)),
        Err(c) => (u32::from(c), 0),
    };
    AnswerWords {
        refusal,
        length,
        compositions: narrow(a.counts.compositions.0),
        tests: narrow(a.counts.tests.0),
    }
}

pub fn decision_words(d: Result<Decision, Refusal>) -> DecisionWords
    requires { NarrowDecision (decision_says d) }
    ensures { result ≡ decision_words (decision_says d) }
{
    match d {
        Ok(Decision { yes, counts }) => DecisionWords {
            refusal: 0,
            yes: u32::from(yes),
            compositions: narrow(counts.compositions.0),
            tests: narrow(counts.tests.0),
        },
        Err(c) => DecisionWords {
            refusal: u32::from(c),
            yes: 0,
            compositions: 0,
            tests: 0,
        },
    }
}

pub fn reading_words(r: Result<Reading, Refusal>) -> ReadingWords
    requires { NarrowReading (reading_says r) }
    ensures { result ≡ reading_words (reading_says r) }
{
    match r {
        Ok(Reading { boards, picks }) => ReadingWords {
            refusal: 0,
            boards: narrow(boards),
            picks: narrow(picks),
        },
        Err(c) => ReadingWords {
            refusal: u32::from(c),
            boards: 0,
            picks: 0,
        },
    }
}

pub fn saving_words(s: Result<usize, Refusal>) -> SavedWords
    requires { NarrowSaved (saving_says s) }
    ensures { result ≡ saved_words (saving_says s) }
{
    match s {
        Ok(k) => SavedWords {
            refusal: 0,
            length: narrow(k),
        },
        Err(cause) => SavedWords {
            refusal: u32::from(cause),
            length: 0,
        },
    }
}
