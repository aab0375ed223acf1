// The C boundary: each function hands one call to C and answers what that call answers, as words of 32 bits. None requires anything. `nookmallow_c`
// exports them.
#![tactic(auto)]

ghost use Rattle.std.specs.Prelude.{◌≡◌};
ghost use Rattle.calls.specs.Calls.{open_says, open_leaves, whole_says, whole_leaves};
ghost use Rattle.reach.specs.Tables.{table_verdict, table_leaves};
ghost use Rattle.decision.specs.Decisions.{decide_says, decide_leaves};
ghost use Rattle.recording.specs.Answers.{read_says, read_leaves};
ghost use Rattle.saving.specs.Answers.{save_says, save_leaves};
ghost use Rattle.crossing.specs.Words.{handed_words, answer_words, measured_words, decision_words, reading_words, saved_words};
ghost use Rattle.nookmallow.specs.Boundary.{pick_answers, pick_keeps, length_answers};

use calls::Answer;
use crossing::{
    AnswerWords, DecisionWords, HandedWords, MeasuredWords, PlaceWords, ReadingWords, SavedWords,
};
use model::Refusal;
use place::Place;

// The version of the format of the place and of the area.
pub fn nookmallow_version() -> u32
    ensures { result ≡ 1 }
{
    1
}

// Opens a walk over n boards.
#[tactic(auto, using(crate::proofs::Bounds::open_narrow))]
pub fn nookmallow_open(
    n: u32,
    measure: u32,
    limit: u32,
    footprint: &[u32],
    area: &mut [u32],
) -> HandedWords
    ensures { (result ≡ handed_words (open_says n measure limit footprint.now area.old)) × (area.new ≡ open_leaves n measure limit footprint.now area.old) }
{
    crossing::handed_words(calls::open(
        n as usize,
        measure as usize,
        limit as usize,
        footprint,
        area,
    ))
}

// Takes a pick.
#[tactic(auto, using(crate::proofs::Bounds::picked), unfolding(crate::specs::Boundary::pick_answers, crate::specs::Boundary::pick_keeps))]
pub fn nookmallow_pick(p: PlaceWords, area: &mut [u32], words: &[u32]) -> HandedWords
    ensures { (result ≡ pick_answers p area.old words.now) × (area.new ≡ pick_keeps p area.old words.now) }
{
    if !crossing::are_flags(p) {
        return HandedWords {
            refusal: u32::from(Refusal::BadPlace),
            place: p,
        };
    }
    let handed = calls::pick(Place::from(p), area, words);
    if let Err(r) = handed {
        // The caller's own words: made anew from the place, they cost every pick, refused or not, 13 or 14 instructions.
        return HandedWords {
            refusal: u32::from(r.cause),
            place: p,
        };
    }
    crossing::handed_words(handed)
}

#[tactic(auto, using(crate::proofs::Bounds::length_narrow), unfolding(crate::specs::Boundary::length_answers))]
fn length_words(p: PlaceWords) -> AnswerWords
    ensures { result ≡ answer_words (length_answers p) }
{
    if !crossing::are_flags(p) {
        return crossing::answer_words(Answer::refused(Refusal::BadPlace));
    }
    crossing::answer_words(calls::length(Place::from(p)).answer)
}

// The length of the picks so far, with the counts. The place is handed back as it was.
pub fn nookmallow_length(p: PlaceWords) -> MeasuredWords
    ensures { result ≡ measured_words (length_answers p) p }
{
    let a = length_words(p);
    MeasuredWords {
        refusal: a.refusal,
        length: a.length,
        compositions: a.compositions,
        tests: a.tests,
        place: p,
    }
}

// The length of a recording lent whole, n words a pick.
#[tactic(auto, using(crate::proofs::Bounds::whole_narrow))]
pub fn nookmallow_whole(n: u32, measure: u32, words: &[u32], area: &mut [u32]) -> AnswerWords
    ensures { (result ≡ answer_words (whole_says n measure words.now area.old)) × (area.new ≡ whole_leaves n measure words.now area.old) }
{
    crossing::answer_words(calls::whole(n as usize, measure as usize, words, area))
}

// Whether every window of k picks passes, of a recording lent whole.
#[tactic(auto, using(crate::proofs::Bounds::decide_narrow))]
pub fn nookmallow_decide(
    n: u32,
    measure: u32,
    words: &[u32],
    k: u32,
    area: &mut [u32],
) -> DecisionWords
    ensures { (result ≡ decision_words (decide_says n measure words.now k area.old))
        × (area.new ≡ decide_leaves n measure words.now k area.old) }
{
    let d = decision::decide(n as usize, measure as usize, words, k as usize, area);
    crossing::decision_words(d)
}

// The table of reach of a recording lent whole, into the first n words of out.
pub fn nookmallow_table(n: u32, words: &[u32], out: &mut [u32]) -> u32
    ensures { (result ≡ table_verdict n words.now out.old) × (out.new ≡ table_leaves n words.now out.old) }
{
    reach::table(n as usize, words, out)
        .err()
        .map_or(0, u32::from)
}

// Reads a recording file: n and the number of picks, and their words into out.
#[tactic(auto, using(crate::proofs::Bounds::read_narrow))]
pub fn nookmallow_read(bytes: &[u8], limit: u32, out: &mut [u32]) -> ReadingWords
    ensures { (result ≡ reading_words (read_says limit bytes.now out.old)) × (out.new ≡ read_leaves limit bytes.now out.old) }
{
    crossing::reading_words(recording::read(bytes, limit as usize, out))
}

// Writes the recording file of a recording lent whole, n words a pick, into the first bytes of out.
#[tactic(auto, using(crate::proofs::Bounds::save_narrow))]
pub fn nookmallow_save(n: u32, words: &[u32], out: &mut [u8]) -> SavedWords
    ensures { (result ≡ saved_words (save_says n words.now out.old))
        × (out.new ≡ save_leaves n words.now out.old) }
{
    crossing::saving_words(saving::save(n as usize, words, out))
}
