// The commands of a recording file: each is taken apart, and checked against n, the limit, the picks so far and the open links.
#![tactic(auto)]

ghost use Rattle.std.specs.Prelude.{◌≡◌, ◌≤◌, ◌<◌, length, get_or};
ghost use Rattle.model.specs.Recording.{link};
ghost use Rattle.commands.specs.Commands.{arity_of, misplaced, command_of, command_at};
ghost use Rattle.commands.specs.Causes.{no_link, unchanged, head_at, next as next_of};

use model::{Board, Refusal};

// What may stand after the 42 and its n. A link opens (true) or shuts (false).
#[derive(Clone, Copy, PartialEq, Eq)]
pub enum Item {
    Link(Board, Board, bool),
    Pick,
    End,
}

// A command taken apart.
#[derive(Clone, Copy, PartialEq, Eq)]
pub enum Command {
    Boards(usize),
    Later(Item),
}

// ---- a command taken apart

// A command byte and how many operand bytes follow it.
#[derive(Clone, Copy, PartialEq, Eq)]
pub struct Shape {
    pub byte: u8,
    pub operands: u8,
}

const COMMANDS: [Shape; 5] = [
    Shape {
        byte: 0x42,
        operands: 1,
    },
    Shape {
        byte: 0x4F,
        operands: 2,
    },
    Shape {
        byte: 0x53,
        operands: 2,
    },
    Shape {
        byte: 0x50,
        operands: 0,
    },
    Shape {
        byte: 0x45,
        operands: 0,
    },
];

// The operand count of a command byte, by the table.
#[tactic(auto, unfolding(crate::specs::Commands::arity_of))]
fn operands_of(byte: u8) -> Option<u8>
    ensures { result ≡ arity_of byte }
{
    COMMANDS
        .iter()
        .find(|shape| shape.byte == byte)
        .map(|shape| shape.operands)
}

// Whether a 42 stands elsewhere than first, or another byte stands first.
fn is_misplaced(byte: u8, first: bool) -> bool
    ensures { result ≡ misplaced first byte }
{
    (byte == 0x42) != first
}

// A known command byte with its operands.
#[tactic(auto, unfolding(crate::specs::Commands::command_of))]
fn command_of(byte: u8, x: usize, y: usize) -> Command
    ensures { result ≡ command_of byte x y }
{
    match byte {
        0x42 => Command::Boards(x),
        0x4F => Command::Later(Item::Link(Board(x), Board(y), true)),
        0x53 => Command::Later(Item::Link(Board(x), Board(y), false)),
        0x50 => Command::Later(Item::Pick),
        _ => Command::Later(Item::End),
    }
}

// The byte at a place, or 0 past the end.
fn byte_at(bytes: &[u8], at: usize) -> usize
    ensures { result ≡ get_or bytes.now at 0 }
{
    bytes.get(at).map_or(0, |byte| usize::from(*byte))
}

// The command at a place of the file. Where it stands is a fact about it that its bytes do not tell: `first` chooses no step.
#[tactic(auto, unfolding(crate::specs::Commands::command_at, model::specs::Causes::first_or))]
fn command_at(bytes: &[u8], at: usize, first: bool) -> Result<Command, Refusal>
    ensures { result ≡ command_at first bytes.now at }
{
    let Some(&byte) = bytes.get(at) else {
        return Err(Refusal::Stopped);
    };
    if is_misplaced(byte, first) {
        return Err(Refusal::Command);
    }
    let Some(operands) = operands_of(byte) else {
        return Err(Refusal::Command);
    };
    if bytes.len() < at + 1 + operands as usize {
        return Err(Refusal::Stopped);
    }
    Ok(command_of(byte, byte_at(bytes, at + 1), byte_at(bytes, at + 2)))
}

// ---- the causes that go beyond the command itself

// The n of the first command, with the checks of the call and of n; `room` is how many words the output has.
#[tactic(auto, using(crate::proofs::Fitted::head_then, model::proofs::Causes::between_says), unfolding(model::specs::Causes::first_or))]
pub fn head_at(bytes: &[u8], start: usize, limit: usize, room: usize) -> Result<usize, Refusal>
    ensures { result ≡ head_at limit room bytes.now start }
{
    if !model::is_between(1, limit, 4096) {
        return Err(Refusal::Picks);
    }
    let Command::Boards(n) = command_at(bytes, start, true)? else {
        return Err(Refusal::Command);
    };
    if !model::is_between(2, n, 32) {
        return Err(Refusal::Boards);
    }
    if room < limit * n {
        return Err(Refusal::Room);
    }
    Ok(n)
}

// Whether link operands are equal, or n or above.
fn no_link(from: Board, to: Board, n: usize) -> bool
    ensures { result ≡ no_link n from.0 to.0 }
{
    from == to || n <= from.0 || n <= to.0
}

// Whether a command opens an open link or shuts a shut one.
#[tactic(auto, unfolding(model::specs::Recording::link))]
fn is_unchanged(links: &[u32], from: Board, to: Board, opens: bool) -> bool
    requires { (from.0 < length links.now) × (to.0 < 32) }
    ensures { result ≡ unchanged opens (link links.now from.0 to.0) }
{
    links::linked(links[from.0], to) == opens
}

// A later command, checked against n, the limit, the picks so far and the open links, which are n words.
#[tactic(auto, using(crate::proofs::Fitted::next_then), unfolding(model::specs::Causes::first_or))]
pub fn next(
    bytes: &[u8],
    at: usize,
    limit: usize,
    picks: usize,
    links: &[u32],
) -> Result<Item, Refusal>
    requires { length links.now ≤ 32 }
    ensures { result ≡ next_of bytes.now (length links.now) limit at picks links.now }
{
    let Command::Later(item) = command_at(bytes, at, false)? else {
        return Err(Refusal::Command);
    };
    match item {
        Item::Link(from, to, _) if no_link(from, to, links.len()) => Err(Refusal::Operands),
        Item::Link(from, to, opens) if is_unchanged(links, from, to, opens) => {
            Err(Refusal::Unchanged)
        }
        Item::Pick if limit <= picks => Err(Refusal::Full),
        _ => Ok(item),
    }
}
