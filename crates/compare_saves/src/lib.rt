// The recording of a case, saved as a file, against the file of the second implementation; then read back, and saved again.
#![tactic(auto)]

ghost use Rattle.std.specs.Prelude.{◌≡◌, length};

use compare_cases::{MARK, Recorded};
use compare_tallies::{Outcome, Tally};
use model::Refusal;
use naive::Recording;
use recording::Reading;

// ---- outputs of bytes

// Room for the file of every case: nine picks over 32 boards have at most 26,796 bytes, and no generated recording is larger.
const BYTES: usize = 32768;

// Stands in every byte before a call, so that a byte that was written shows. No file has such a byte.
const BYTE_MARK: u8 = 0xA5;

// An output that nothing was written to. The `ensures` is what lending it as a slice needs.
pub fn marked() -> [u8; BYTES]
    ensures { 32768 ≡ length result }
{
    [BYTE_MARK; BYTES]
}

// ---- the calls

// What the call answers that is lent the first bytes of the output. Afterwards all of its bytes must be the wanted ones, those behind too.
pub fn saved_as(n: usize, words: &[u32], room: usize, out: &mut [u8], wanted: &[u8]) -> Outcome {
    if out.len() < room {
        return Outcome::NotRun;
    }
    out.fill(BYTE_MARK);
    let saved = saving::save(n, words, &mut out[..room]);
    if *out == *wanted {
        Outcome::Number(saved)
    } else {
        Outcome::Changed(saved.err())
    }
}

// Reads a file, with the least limit that lets the picks through and the least room. It must be the recording that was saved: its boards, its picks, and
// every word.
fn read_back(recording: &Recording<'_>, file: &[u8], area: &mut [u32]) -> Outcome {
    let Recording {
        words,
        boards,
        picks,
        ..
    } = *recording;
    let limit = picks.max(1);
    let room = limit * boards;
    if area.len() < room {
        return Outcome::NotRun;
    }
    area.fill(MARK);
    match recording::read(file, limit, &mut area[..room]) {
        Ok(read) if read == Reading { boards, picks } && area.starts_with(words) => {
            Outcome::Refusal(None)
        }
        Ok(_) => Outcome::Changed(None),
        Err(cause) => Outcome::Refusal(Some(cause)),
    }
}

// By their steps: 1, into more room than needed; 2, into a byte less; 3, into exactly the room needed, so that the output ends with the file; 4, the file
// read back; 5, what was read saved again, which is the same file.
pub fn compare_saves(tally: &mut Tally, recorded: &Recorded<'_, '_>, area: &mut [u32]) {
    let case = recorded.case;
    let recording = recorded.recording;
    let n = recording.boards;
    let words = recording.words;
    let mut wanted = marked();
    let size = naive_file::write(&mut wanted, &recording);
    let written = Outcome::Number(Ok(size));
    let mut out = marked();
    let longer = saved_as(n, words, BYTES, &mut out, &wanted);
    tally.compare(case.at_part(1), longer, written);
    let short = saved_as(n, words, size.saturating_sub(1), &mut out, &marked());
    tally.compare(
        case.at_part(2),
        short,
        Outcome::Number(Err(Refusal::FileRoom)),
    );
    let exact = saved_as(n, words, size, &mut out, &wanted);
    tally.compare(case.at_part(3), exact, written);
    let read = match out.get(..size) {
        Some(file) => read_back(&recording, file, area),
        None => Outcome::NotRun,
    };
    tally.compare(case.at_part(4), read, Outcome::Refusal(None));
    let again = match area.get(..words.len()) {
        Some(found) => saved_as(n, found, size, &mut out, &wanted),
        None => Outcome::NotRun,
    };
    tally.compare(case.at_part(5), again, written);
}
