// A writer of recording files: the file of a lent sequence. Its size is worked out before the first byte is written.
#![tactic(auto)]

ghost use Rattle.std.specs.Prelude.{◌≡◌, [], ◌∷◌, ℕ, ◌+◌, ◌≤◌, ◌<◌, length, slice_set};
ghost use Rattle.model.specs.Recording.{Clean};
ghost use Rattle.lists.specs.Tab.{splice};
ghost use Rattle.links.specs.Picks.{lent_pick};
ghost use Rattle.recording.specs.Grammar.{code, sets};
ghost use Rattle.saving.specs.Puts.{Changed};
ghost use Rattle.saving.specs.Answers.{saving_says, save_says, save_leaves};

use links::LentPicks;
use model::{Board, Refusal};

// The links before the first pick: none is open. A static, since a constant array is written out at each call.
static SHUT: [u32; 32] = [0; 32];

// ---- the output

// The command byte of a link that opens, or shuts. Here and below that is part of what a command says, as its boards are.
fn code_of(opens: bool) -> u8
    ensures { result ≡ code opens }
{
    if opens { 0x4F } else { 0x53 }
}

// The bytes of the output, and the place of the next.
#[derive(Drop)]
struct Output<'a> {
    bytes: &'a mut [u8],
    at: usize,
}

impl Output<'_> {
    ghost use Rattle.saving.specs.Changes.{Appends};

    // A byte more.
    fn put(&mut self, byte: u8)
        requires { self.old.at < length self.old.bytes.now }
        ensures there { self.new.bytes.ghost_name ≡ self.old.bytes.ghost_name }
        ensures made { self.new.bytes.now ≡ slice_set self.old.bytes.now self.old.at byte }
        ensures next { self.new.at ≡ self.old.at + 1 }
    {
        self.bytes[self.at] = byte;
        self.at += 1;
    }

    // The command of a link.
    fn put_link(&mut self, opens: bool, from: Board, to: Board)
        requires { (from.0 < 32) × (to.0 < 32) × (self.old.at + 3 ≤ length self.old.bytes.now) }
        ensures { Appends self.old self.new (sets opens from.0 to.0 ∷ []) }
    {
        self.put(code_of(opens));
        self.put(from.0 as u8);
        self.put(to.0 as u8);
    }
}

// ---- one pick

// Of two words of links, one before and one after, those that open, or those that shut.
fn changed(opens: bool, was: u32, is: u32) -> u32
    ensures { Changed opens was is result }
{
    let differing = was ^ is;
    if opens {
        is & differing
    } else {
        was & differing
    }
}

// The links of a pick, and those of the pick before it: as many words, without a forbidden bit.
#[derive(Clone, Copy)]
struct Change<'a> {
    was: &'a [u32],
    is: &'a [u32],
    ghost few: { length was.now ≤ 32 },
    ghost was_clean: { Clean (length was.now) was.now },
    ghost is_clean: { Clean (length was.now) is.now },
}

impl Change<'_> {
    ghost use Rattle.saving.specs.Changes.{row_of, table_of, changes_of, pick_of, size_of, HasRoom, Appends};

    // The bytes of the pick: three for each link that is not as it was, and its 50.
    #[tactic(auto, using(crate::proofs::Size::pick_size, crate::proofs::Size::few_links))]
    fn size(&self) -> usize
        ensures { (result ≡ size_of (pick_of self.now)) × (result ≤ 3073) }
    {
        3 * links::differing(self.was, self.is) as usize + 1
    }

    // The commands of the links of one board, ascending by to: a turn for each link that opens, or shuts.
    fn write_row(&self, out: &mut Output, opens: bool, a: usize)
        requires board { a < length self.now.was.now }
        requires room { HasRoom out.old (row_of opens self.now a) }
        ensures { Appends out.old out.new (row_of opens self.now a) }
    {
        let mut rest = changed(opens, self.was[a], self.is[a]);
        // The library has no iterator over set bits, and one of our own would be longer than this loop.
        while rest != 0 {
            let b = links::board_in(rest);
            out.put_link(opens, Board(a), Board(b));
            rest = links::cleared(rest, Board(b));
        }
    }

    // The commands of all links that open, or of all that shut, ascending by from and then to.
    fn write_table(&self, out: &mut Output, opens: bool)
        requires { HasRoom out.old (table_of opens self.now) }
        ensures { Appends out.old out.new (table_of opens self.now) }
    {
        // By number: a `zip` of the two tables costs a pick up to 199 instructions more.
        for a in 0..self.was.len() {
            self.write_row(out, opens, a);
        }
    }

    // The links that shut, then those that open. Where no link changes, one pass over the words tells.
    fn write_changes(&self, out: &mut Output)
        requires { HasRoom out.old (changes_of self.now) }
        ensures { Appends out.old out.new (changes_of self.now) }
    {
        if !links::is_same(self.was, self.is) {
            self.write_table(out, false);
            self.write_table(out, true);
        }
    }

    // The changes, and the 50 of the pick.
    fn write(&self, out: &mut Output)
        requires { HasRoom out.old (pick_of self.now) }
        ensures { Appends out.old out.new (pick_of self.now) }
    {
        self.write_changes(out);
        out.put(0x50);
    }
}

// ---- the file

// The file of picks that are lent, none of them with a forbidden bit.
#[derive(Clone, Copy)]
struct File<'a> {
    lent: LentPicks<'a>,
    ghost boards: { (2 ≤ lent.n) × (lent.n ≤ 32) },
    ghost few: { lent.m ≤ 4096 },
    ghost clean: { (k : ℕ) → k < lent.m → Clean lent.n (lent_pick lent.n lent.words.now k) },
}

impl File<'_> {
    ghost use Rattle.saving.specs.Changes.{file_of};

    // How many bytes the file has.
    fn size(&self) -> usize
        ensures { result ≡ length (file_of self.now) }
    {
        let mut was = &SHUT[..self.lent.n];
        let mut size: usize = 3;
        for pick in self.lent.picks() {
            let change = Change { was, is: pick };
            size += change.size();
            was = pick;
        }
        size
    }

    // Writes the file over the front of the output.
    fn write(&self, out: &mut [u8])
        requires { length (file_of self.now) ≤ length out.old }
        ensures { out.new ≡ splice 0 (length (file_of self.now)) (file_of self.now) out.old }
    {
        let mut out = Output { bytes: out, at: 0 };
        out.put(0x42);
        out.put(self.lent.n as u8);
        let mut was = &SHUT[..self.lent.n];
        for pick in self.lent.picks() {
            let change = Change { was, is: pick };
            change.write(&mut out);
            was = pick;
        }
        out.put(0x45);
    }
}

// ---- the call

// Writes the file of a lent sequence, n words a pick, and answers how many bytes it has; or says why not, and no byte changed.
#[tactic(auto, using(model::proofs::Causes::between_says), unfolding(crate::specs::Answers::save_says, crate::specs::Answers::save_leaves, crate::specs::Answers::lent_file))]
pub fn save(n: usize, words: &[u32], out: &mut [u8]) -> Result<usize, Refusal>
    ensures { (saving_says result ≡ save_says n words.now out.old)
        × (out.new ≡ save_leaves n words.now out.old) }
{
    if !model::is_between(2, n, 32) {
        return Err(Refusal::Boards);
    }
    if words.len() % n != 0 {
        return Err(Refusal::Shape);
    }
    let lent = LentPicks::new(words, n);
    if 4096 < lent.m {
        return Err(Refusal::Picks);
    }
    if !checks::are_clean(&lent) {
        return Err(Refusal::Forbidden);
    }
    let file = File { lent };
    let size = file.size();
    if out.len() < size {
        return Err(Refusal::FileRoom);
    }
    file.write(out);
    Ok(size)
}
