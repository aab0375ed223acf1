// The calls of `nookmallow` as C calls them: each export has the name and the clauses of the function that it calls, and does nothing else.
#![tactic(auto)]

ghost use Rattle.std.specs.Prelude.{◌≡◌};
ghost use Rattle.calls.specs.Calls.{open_says, open_leaves, whole_says, whole_leaves};
ghost use Rattle.reach.specs.Tables.{table_verdict, table_leaves};
ghost use Rattle.decision.specs.Decisions.{decide_says, decide_leaves};
ghost use Rattle.recording.specs.Answers.{read_says, read_leaves};
ghost use Rattle.saving.specs.Answers.{save_says, save_leaves};
ghost use Rattle.crossing.specs.Words.{handed_words, answer_words, measured_words, decision_words, reading_words, saved_words};
ghost use Rattle.nookmallow.specs.Boundary.{pick_answers, pick_keeps, length_answers};

use crossing::{
    AnswerWords, DecisionWords, HandedWords, MeasuredWords, PlaceWords, ReadingWords, SavedWords,
};

// The version of the format of the place and of the area.
#[unsafe(no_mangle)]
pub extern "C" fn nookmallow_version() -> u32
    ensures { result ≡ 1 }
{
    nookmallow::nookmallow_version()
}

// Opens a walk over n boards.
#[unsafe(no_mangle)]
pub extern "C" fn nookmallow_open(
    n: u32,
    measure: u32,
    limit: u32,
    footprint: &[u32],
    area: &mut [u32],
) -> HandedWords
    ensures { (result ≡ handed_words (open_says n measure limit footprint.now area.old)) × (area.new ≡ open_leaves n measure limit footprint.now area.old) }
{
    nookmallow::nookmallow_open(n, measure, limit, footprint, area)
}

// Takes a pick.
#[unsafe(no_mangle)]
pub extern "C" fn nookmallow_pick(p: PlaceWords, area: &mut [u32], words: &[u32]) -> HandedWords
    ensures { (result ≡ pick_answers p area.old words.now) × (area.new ≡ pick_keeps p area.old words.now) }
{
    nookmallow::nookmallow_pick(p, area, words)
}

// The length of the picks so far, with the counts. The place is handed back as it was.
#[unsafe(no_mangle)]
pub extern "C" fn nookmallow_length(p: PlaceWords) -> MeasuredWords
    ensures { result ≡ measured_words (length_answers p) p }
{
    nookmallow::nookmallow_length(p)
}

// The length of a recording lent whole, n words a pick.
#[unsafe(no_mangle)]
pub extern "C" fn nookmallow_whole(
    n: u32,
    measure: u32,
    words: &[u32],
    area: &mut [u32],
) -> AnswerWords
    ensures { (result ≡ answer_words (whole_says n measure words.now area.old)) × (area.new ≡ whole_leaves n measure words.now area.old) }
{
    nookmallow::nookmallow_whole(n, measure, words, area)
}

// Whether every window of k picks passes, of a recording lent whole.
#[unsafe(no_mangle)]
pub extern "C" fn nookmallow_decide(
    n: u32,
    measure: u32,
    words: &[u32],
    k: u32,
    area: &mut [u32],
) -> DecisionWords
    ensures { (result ≡ decision_words (decide_says n measure words.now k area.old))
        × (area.new ≡ decide_leaves n measure words.now k area.old) }
{
    nookmallow::nookmallow_decide(n, measure, words, k, area)
}

// The table of reach of a recording lent whole, into the first n words of out.
#[unsafe(no_mangle)]
pub extern "C" fn nookmallow_table(n: u32, words: &[u32], out: &mut [u32]) -> u32
    ensures { (result ≡ table_verdict n words.now out.old) × (out.new ≡ table_leaves n words.now out.old) }
{
    nookmallow::nookmallow_table(n, words, out)
}

// Reads a recording file: n and the number of picks, and their words into out.
#[unsafe(no_mangle)]
pub extern "C" fn nookmallow_read(bytes: &[u8], limit: u32, out: &mut [u32]) -> ReadingWords
    ensures { (result ≡ reading_words (read_says limit bytes.now out.old)) × (out.new ≡ read_leaves limit bytes.now out.old) }
{
    nookmallow::nookmallow_read(bytes, limit, out)
}

// Writes the recording file of a recording lent whole, n words a pick, into the first bytes of out.
#[unsafe(no_mangle)]
pub extern "C" fn nookmallow_save(n: u32, words: &[u32], out: &mut [u8]) -> SavedWords
    ensures { (result ≡ saved_words (save_says n words.now out.old))
        × (out.new ≡ save_leaves n words.now out.old) }
{
    nookmallow::nookmallow_save(n, words, out)
}
