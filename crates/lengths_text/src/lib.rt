// What `lengths` prints for a recording file: the lengths under each measure, as lines of text. `text_of` in specs/ says every byte.
#![tactic(auto)]

ghost use Rattle.std.specs.Prelude.{◌≡◌, ◌+◌, ◌*◌, ◌≤◌, length, take, drop};
ghost use Rattle.lists.specs.Tab.{zeros};
ghost use Rattle.calls.specs.Answers.{answer_says};
ghost use Rattle.columns.specs.Columns.{HasRoom, Appends};
ghost use Rattle.recording.specs.Answers.{read_says, read_leaves};
ghost use Rattle.lengths_text.specs.LengthsText.{row_of, line_of, lines_of, under_header, text_of};

use calls::Answer;
use columns::{Cell, Columns};
use measures::Kit;
use model::Refusal;
use recording::Reading;

// What a measure answers. The area must do for 40 picks, however many there are; without picks that is not asked.
#[tactic(auto, unfolding(crate::specs::LengthsText::row_of))]
fn answer_of(n: usize, picks: usize, words: &[u32], measure: usize) -> Answer
    requires { n ≤ 32 }
    ensures { answer_says result ≡ row_of n picks words.now measure }
{
    if picks == 0 {
        return Answer::refused(Refusal::NoPick);
    }
    if 5676 < 44 * area::width(Kit { measure, n }) {
        return Answer::refused(Refusal::Room);
    }
    let mut area = lists::zeroed::<5676>();
    calls::whole(n, measure, words, &mut area)
}

// Writes a measure's line.
#[tactic(auto, using(model::proofs::Refusals::number_some), unfolding(crate::specs::LengthsText::line_of))]
fn put_answer(out: &mut Columns, measure: usize, answer: Answer)
    requires { HasRoom out.old 105 }
    ensures put { Appends out.old out.new (line_of measure (answer_says answer)) }
    ensures few { out.new.at ≤ out.old.at + 105 }
{
    let (length, refusal) = match answer.length {
        Ok(k) => (Cell::Number(k), 0),
        Err(c) => (Cell::Dash, u32::from(c) as usize),
    };
    out.line(
        Cell::Number(measure),
        length,
        Cell::Number(refusal),
        Cell::Number(answer.counts.compositions.0),
        Cell::Number(answer.counts.tests.0),
    );
}

// Writes the lines of the four measures.
#[tactic(auto, using(crate::proofs::Lines::lines))]
fn put_measures(out: &mut Columns, n: usize, picks: usize, words: &[u32])
    requires boards { n ≤ 32 }
    requires room { HasRoom out.old 420 }
    ensures put { Appends out.old out.new (lines_of n picks words.now 4) }
    ensures few { out.new.at ≤ out.old.at + 420 }
{
    for measure in 1..5 {
        let answer = answer_of(n, picks, words, measure);
        put_answer(out, measure, answer);
    }
}

// Writes what stands under the header, at most 420 bytes.
#[tactic(auto, using(crate::proofs::Lines::readings))]
fn put_reading(out: &mut Columns, bytes: &[u8])
    requires { HasRoom out.old 420 }
    ensures put { Appends out.old out.new
        (under_header (read_says 40 bytes.now (zeros 1280)) (read_leaves 40 bytes.now (zeros 1280))) }
    ensures few { out.new.at ≤ out.old.at + 420 }
{
    let mut words = lists::zeroed::<1280>();
    match recording::read(bytes, 40, &mut words) {
        Ok(Reading { boards, picks }) => put_measures(out, boards, picks, &words[..picks * boards]),
        Err(c) => {
            let refusal = Cell::Number(u32::from(c) as usize);
            let none = Cell::Number(0);
            out.line(Cell::File, Cell::Dash, refusal, none, none);
        }
    }
}

// Writes the text of a file at the start of out, at most 462 bytes, and answers its length. What stands behind it stays.
pub fn put_lengths(bytes: &[u8], out: &mut [u8]) -> usize
    requires { 462 ≤ length out.old }
    ensures { (result ≤ length out.new) × (take result out.new ≡ text_of bytes.now)
        × (drop result out.new ≡ drop result out.old) }
{
    let mut out = Columns { buf: out, at: 0 };
    out.text(b"measure length refusal compositions tests\n");
    put_reading(&mut out, bytes);
    out.at
}
