// A reader of recording files. A file is gone over twice, in the same way: once to check it all, and once, if nothing refuses it, to write its picks.
#![tactic(auto)]

ghost use Rattle.std.specs.Prelude.{◌≡◌, true, cond, [], ◌+◌, ◌*◌, ◌≤◌, ◌<◌, length};
ghost use Rattle.lists.specs.Tab.{splice};
ghost use Rattle.recording.specs.Format.{flipped, commands, recording_at, is_ended};
ghost use Rattle.recording.specs.Answers.{reading_says, part_says, GoneOver, read_says, read_leaves, read_at_says, read_at_leaves};

use commands::Item;
use model::{Board, Refusal};

// A recording: n and the number of picks.
#[derive(Clone, Copy, PartialEq, Eq)]
pub struct Reading {
    pub boards: usize,
    pub picks: usize,
}

// A recording that stands from a place on, and the place behind its 45.
#[derive(Clone, Copy, PartialEq, Eq)]
pub struct Part {
    pub reading: Reading,
    pub end: usize,
}

// ---- a recording gone over: checked, and written where that is asked

// Opens a shut link, shuts an open one.
#[tactic(auto, unfolding(crate::specs::Format::flipped))]
fn flip(links: &mut [u32], from: Board, to: Board)
    requires { (from.0 < length links.old) × (to.0 < 32) }
    ensures { links.new ≡ flipped links.old from.0 to.0 }
{
    links[from.0] ^= 1u32 << to.0;
}

// Writes the open links as the pick with that many before it; nothing where the file is only checked.
#[tactic(auto, unfolding(lists::specs::Tab::splice))]
fn put_pick(out: &mut [u32], before: usize, links: &[u32], writes: bool)
    requires { before * length links.now + length links.now ≤ length out.old }
    ensures { out.new ≡ cond writes (splice (before * length links.now) (length links.now) links.now out.old)
        out.old }
{
    if writes {
        let n = links.len();
        let at = before * n;
        out[at..at + n].copy_from_slice(links);
    }
}

// Goes over the commands after the first, up to the 45, and writes the picks where that is asked. A command that cannot be taken apart ends the
// reading with its number. `writes` is no closure: a clause would then say of each call in turn what it leaves of the output, which one `cond` says here.
fn go_over_commands(
    bytes: &[u8],
    start: usize,
    limit: usize,
    links: &mut [u32],
    out: &mut [u32],
    writes: bool,
) -> Result<Part, Refusal>
    requires { (length links.old ≤ 32) × (limit * length links.old ≤ length out.old)
        × (writes ≡ true → is_ended (commands bytes.now (length links.old) limit (length bytes.now) start [] links.old) ≡ true) }
    ensures { GoneOver writes (commands bytes.now (length links.old) limit (length bytes.now) start [] links.old)
        out.old result out.new }
{
    let mut at = start;
    let mut picks: usize = 0;
    // A `while`, since a turn goes on by one byte or by three, as no range or slice iterator does.
    while at < bytes.len() {
        match commands::next(bytes, at, limit, picks, links)? {
            Item::Link(from, to, _) => {
                flip(links, from, to);
                at += 3;
            }
            Item::Pick => {
                put_pick(out, picks, links, writes);
                picks += 1;
                at += 1;
            }
            Item::End => {
                let boards = links.len();
                return Ok(Part {
                    reading: Reading { boards, picks },
                    end: at + 1,
                });
            }
        }
    }
    Err(Refusal::Stopped)
}

// Goes over the recording that starts at a place, up to its 45. It may write only a recording that was found whole before.
#[tactic(auto, unfolding(crate::specs::Format::recording_at))]
fn go_over(
    bytes: &[u8],
    start: usize,
    limit: usize,
    out: &mut [u32],
    writes: bool,
) -> Result<Part, Refusal>
    requires { writes ≡ true → is_ended (recording_at limit (length out.old) bytes.now start) ≡ true }
    ensures { GoneOver writes (recording_at limit (length out.old) bytes.now start) out.old result out.new }
{
    let n = commands::head_at(bytes, start, limit, out.len())?;
    let mut links = lists::zeroed::<32>();
    go_over_commands(bytes, start + 2, limit, &mut links[..n], out, writes)
}

// ---- the calls

// Reads the recording that starts at a place, and says where it ends; bytes may follow its 45.
#[tactic(auto, unfolding(crate::specs::Answers::read_at_says, crate::specs::Answers::read_at_leaves))]
pub fn read_at(bytes: &[u8], start: usize, limit: usize, out: &mut [u32]) -> Result<Part, Refusal>
    ensures { (part_says result ≡ read_at_says limit bytes.now start out.old)
        × (out.new ≡ read_at_leaves limit bytes.now start out.old) }
{
    go_over(bytes, start, limit, out, false)?;
    go_over(bytes, start, limit, out, true)
}

// Reads a file: n and the number of picks, with the words of pick p from output word (p - 1) * n on; or why not, and no word changed.
#[tactic(auto, unfolding(crate::specs::Format::read_file, crate::specs::Answers::read_says, crate::specs::Answers::read_leaves))]
pub fn read(bytes: &[u8], limit: usize, out: &mut [u32]) -> Result<Reading, Refusal>
    ensures { (reading_says result ≡ read_says limit bytes.now out.old)
        × (out.new ≡ read_leaves limit bytes.now out.old) }
{
    if go_over(bytes, 0, limit, out, false)?.end < bytes.len() {
        return Err(Refusal::Trailing);
    }
    Ok(go_over(bytes, 0, limit, out, true)?.reading)
}
