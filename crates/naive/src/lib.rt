// A second implementation, by the bare definitions over all windows. It shares no code with the walk, and is slow.
// A measure stays a number, 1 to 4: 01 hands numbers, and cause 2 refuses others, so none of them comes here.
#![tactic(auto)]

ghost use Rattle.std.specs.Prelude.{◌≡◌, ◌≤◌, ◌<◌, IfSome};

// ---- boards

// A board by its number, and so its bit in a set. Callers hand bare numbers.
#[derive(Clone, Copy, PartialEq, Eq)]
struct Board {
    index: usize,
    ghost low: { index < 32 },
}

impl Board {
    fn new(index: usize) -> Board
        requires { index < 32 }
    {
        Board { index }
    }
}

// ---- sets of boards: bit u for board u

fn has(set: u32, board: Board) -> bool {
    (set >> board.index) % 2 == 1
}

fn only(board: Board) -> u32 {
    1u32 << board.index
}

// ---- recordings

// n words a pick, one for each board. Picks are counted from 0.
#[derive(Clone, Copy)]
pub struct Recording<'a> {
    pub words: &'a [u32],
    pub boards: usize,
    pub picks: usize,
    ghost few_boards: { boards ≤ 32 },
    ghost few_picks: { picks ≤ 4096 },
}

// The picks start to end - 1 of a recording.
#[derive(Clone, Copy)]
pub struct Window<'a> {
    recording: Recording<'a>,
    start: usize,
    end: usize,
    ghost within: { end ≤ 4096 },
}

impl<'a> Recording<'a> {
    // None where it has more boards or picks than 01 allows.
    pub fn new(words: &'a [u32], boards: usize, picks: usize) -> Option<Recording<'a>>
        ensures { IfSome result (λ x. (x.words.now ≡ words.now) × ((x.boards ≡ boards) × (x.picks ≡ picks))) }
    {
        if 32 < boards || 4096 < picks {
            return None;
        }
        Some(Recording {
            words,
            boards,
            picks,
        })
    }

    pub fn window(&self, start: usize, end: usize) -> Window<'a>
        requires { end ≤ 4096 }
    {
        Window {
            recording: *self,
            start,
            end,
        }
    }
}

impl Recording<'_> {
    // Board u's word of pick p; 0 where the recording has none.
    fn word(&self, p: usize, board: Board) -> u32
        requires { p < 4096 }
    {
        self.words
            .get(p * self.boards + board.index)
            .copied()
            .unwrap_or(0)
    }

    // Whether the link from a to b is open at pick p.
    pub fn is_open(&self, p: usize, a: usize, b: usize) -> bool
        requires { (p < 4096) × ((a < 32) × (b < 32)) }
    {
        has(self.word(p, Board::new(a)), Board::new(b))
    }

    fn has_all(&self, set: u32) -> bool {
        (0..self.boards).map(Board::new).all(|u| has(set, u))
    }

    // The boards that rows lead to from a set, with the set: rounds until nothing changes. No path needs more than n links, so n are enough.
    fn led_to<F: Fn(Board) -> u32>(&self, from: u32, row: F) -> u32
        requires { F.IsAlwaysCallable row }
    {
        let mut set = from;
        for _ in 0..self.boards {
            let before = set;
            for u in (0..self.boards).map(Board::new) {
                if has(set, u) {
                    set |= row(u);
                }
            }
            if set == before {
                break;
            }
        }
        set
    }
}

impl Window<'_> {
    // ---- measure 1

    // The boards that u is linked to at every pick of the window.
    fn common(&self, u: Board) -> u32 {
        (self.start..self.end).fold(u32::MAX, |row, p| row & self.recording.word(p, u))
    }

    // The boards that common links lead to from x, and x itself.
    fn joined(&self, x: Board) -> u32 {
        self.recording.led_to(only(x), |u| self.common(u))
    }

    // ---- measure 2

    // The boards that u is linked to at some pick of the window.
    fn united(&self, u: Board) -> u32 {
        (self.start..self.end).fold(0, |row, p| row | self.recording.word(p, u))
    }

    // ---- measure 3

    // The boards that journeys of the window lead to from x, and x itself: at each pick over any number of its links.
    fn reached(&self, x: Board) -> u32 {
        (self.start..self.end).fold(only(x), |set, p| {
            self.recording.led_to(set, |u| self.recording.word(p, u))
        })
    }

    // ---- measure 4

    // The pick of the earliest arrival from x at y.
    fn arrival(&self, x: Board, y: Board) -> Option<usize> {
        (self.start..self.end).find(|p| has(
            self.recording.window(self.start, *p + 1).reached(x),
            y,
        ))
    }

    // The last pick from which on a journey leads from y to x.
    fn departure(&self, y: Board, x: Board) -> Option<usize> {
        (self.start..self.end)
            .rev()
            .find(|d| has(self.recording.window(*d, self.end).reached(y), x))
    }

    // Both journeys exist, and the one from x has arrived at y at or before the last departure from y.
    fn is_round_trip(&self, x: Board, y: Board) -> bool {
        match (self.arrival(x, y), self.departure(y, x)) {
            (Some(there), Some(back)) => there <= back,
            _ => false,
        }
    }

    fn are_round_trips(&self, x: Board) -> bool {
        (0..self.recording.boards)
            .map(Board::new)
            .all(|y| x == y || self.is_round_trip(x, y))
    }

    // ---- all measures

    // What a measure asks of the window at board x: its common links lead from x to every board; its union has the same links from x as that of all picks;
    // there is a journey from x to every other board; there is a round trip.
    fn serves(&self, measure: usize, x: Board) -> bool {
        match measure {
            1 => self.recording.has_all(self.joined(x)),
            2 => self.united(x) == self.recording.list_word(x.index),
            3 => self.recording.has_all(self.reached(x)),
            _ => self.are_round_trips(x),
        }
    }

    // Whether the window passes under a measure.
    pub fn passes(&self, measure: usize) -> bool {
        (0..self.recording.boards)
            .map(Board::new)
            .all(|x| self.serves(measure, x))
    }

    // ---- request A3 of 02: how much is missing

    // Whether the window does for the pair x, y what the measure asks: its common links lead from x to y; a link is in its union just where it is in the
    // list; it has a journey; it has a round trip. A board and itself are no pair, and nothing is asked.
    fn is_met(&self, measure: usize, x: Board, y: Board) -> bool {
        if x == y {
            return true;
        }
        match measure {
            1 => has(self.joined(x), y),
            2 => has(self.united(x), y) == has(self.recording.list_word(x.index), y),
            3 => has(self.reached(x), y),
            _ => self.is_round_trip(x, y),
        }
    }

    // The pairs from x whose condition is not met.
    fn unmet_from(&self, measure: usize, x: Board) -> u32
        ensures { result ≤ 32 }
    {
        (0..self.recording.boards)
            .map(Board::new)
            .filter(|y| !self.is_met(measure, x, *y))
            .count() as u32
    }

    // The number of unmet conditions of the window, over all ordered pairs of boards.
    pub fn unmet(&self, measure: usize) -> u32 {
        (0..self.recording.boards)
            .map(|u| self.unmet_from(measure, Board::new(u)))
            .sum()
    }
}

impl Recording<'_> {
    // ---- lengths

    // Whether every window of l of the first k picks passes. Of all picks, it is the decision for the window length l.
    pub fn all_pass(&self, measure: usize, k: usize, l: usize) -> bool
        requires { (k ≤ 4096) × (l ≤ k) }
    {
        (0..=k - l).all(|a| self.window(a, a + l).passes(measure))
    }

    // The length of the first k picks, where one exists. All picks make the link list of measure 2.
    pub fn length(&self, measure: usize, k: usize) -> Option<usize>
        requires { k ≤ 4096 }
    {
        let mut lengths = 1..=k;
        let is_length = |l: &usize| self.all_pass(measure, k, *l);
        match measure {
            1 => lengths.rev().find(is_length),
            _ => lengths.find(is_length),
        }
    }

    // ---- words

    // Board u's word of the link list of all picks.
    pub fn list_word(&self, u: usize) -> u32
        requires { u < 32 }
    {
        self.window(0, self.picks).united(Board::new(u))
    }

    // Board u's word of the table of reach of all picks: its own bit is clear.
    pub fn reach_word(&self, u: usize) -> u32
        requires { u < 32 }
    {
        let board = Board::new(u);
        self.window(0, self.picks).reached(board) & !only(board)
    }
}
