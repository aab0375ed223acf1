// Tables of edges: inputs of the calls, each with the refusal of it, where there is one. Where two causes meet in a row, the refusal is the first of them
// in 01's order. A row more is a line more.
#![tactic(auto)]

use model::Refusal::{
    BadPlace, Boards, FileRoom, Forbidden, Full, Measure, NoLength, NoPick, Picks, Room, Shape,
    Stopped, Unlisted,
};
use model::{Compositions, Pick, Refusal, Tests};
use place::{Counts, Place, Settings, TestMarks, Window};

// What a call that is lent words is handed, and the refusal of it. Its settings are those that the call has, and no others.
#[derive(Clone, Copy)]
pub struct Edge<S> {
    pub settings: S,
    // how many words are lent
    pub lent: usize,
    // one of them that is not as the others of the table, by its index, and what it is
    pub own: Option<(usize, u32)>,
    // the words of the area or of the output, or the bytes of the output
    pub room: usize,
    pub refusal: Option<Refusal>,
}

// Puts a row's own word among the words lent.
pub fn put_own(words: &mut [u32], own: Option<(usize, u32)>) {
    if let Some((at, word)) = own {
        if let Some(lent) = words.get_mut(at) {
            *lent = word;
        }
    }
}

// A table: a line that names the columns, then each row in a line. The first column may be a group of columns.
macro_rules! rows {
    ($row:ident $fields:tt; $($values:tt,)*) => { [$(row!($row $fields $values),)*] };
}

macro_rules! row {
    ($row:ident { $($field:ident),* } ($($value:expr),*)) => {
        $row { $($field: $value),* }
    };
    ($row:ident { $first:ident: $group:ident $columns:tt, $($field:ident),* } ($values:tt, $($value:expr),*)) => {
        $row { $first: row!($group $columns $values), $($field: $value),* }
    };
}

// ---- a whole run

// Its settings: there is no limit.
#[derive(Clone, Copy)]
pub struct RunSettings {
    pub boards: usize,
    pub measure: usize,
}

// The words lent are 2 and 1 by turns, both links of two boards, but for the row's own.
pub static WHOLE_EDGES: &[Edge<RunSettings>] = &rows![
    Edge { settings: RunSettings { boards, measure }, lent, own, room, refusal };
    // an area exact to the word, and one word less
    ((2, 3), 2, None, 10, None),
    ((2, 3), 2, None, 9, Some(Room)),
    ((2, 4), 2, None, 40, None),
    ((2, 4), 2, None, 39, Some(Room)),
    ((32, 3), 32, None, 160, Some(NoLength)),
    ((32, 3), 32, None, 159, Some(Room)),
    ((32, 4), 32, None, 10240, Some(NoLength)),
    ((32, 4), 32, None, 10239, Some(Room)),
    ((2, 3), 8192, None, 8200, None),
    ((2, 3), 8192, None, 8199, Some(Room)),
    // boards, measures, picks
    ((1, 3), 1, None, 20000, Some(Boards)),
    ((33, 3), 33, None, 20000, Some(Boards)),
    ((2, 0), 2, None, 40, Some(Measure)),
    ((2, 5), 2, None, 40, Some(Measure)),
    ((2, 3), 8194, None, 8202, Some(Picks)),
    ((2, 3), 1, None, 40, Some(Shape)),
    ((2, 3), 3, None, 40, Some(Shape)),
    ((2, 3), 0, None, 40, Some(NoPick)),
    // a board's own bit
    ((2, 1), 2, Some((0, 1)), 10, Some(Forbidden)),
    ((2, 2), 2, Some((0, 3)), 10, Some(Forbidden)),
    ((2, 3), 8192, Some((8191, 2)), 8200, Some(Forbidden)),
    ((2, 4), 2, Some((1, 3)), 40, Some(Forbidden)),
    ((32, 3), 32, Some((31, 2147483648)), 160, Some(Forbidden)),
    // a bit of a board n or above
    ((2, 1), 2, Some((0, 4)), 10, Some(Forbidden)),
    ((2, 2), 2, Some((1, 5)), 10, Some(Forbidden)),
    ((2, 3), 2, Some((0, 6)), 10, Some(Forbidden)),
    ((2, 4), 2, Some((0, 2147483650)), 40, Some(Forbidden)),
    ((31, 3), 31, Some((0, 2147483650)), 155, Some(Forbidden)),
    ((32, 3), 32, Some((0, 2147483650)), 160, Some(NoLength)),
    // two causes
    ((1, 0), 1, None, 40, Some(Boards)),
    ((33, 3), 34, None, 40, Some(Boards)),
    ((2, 5), 3, None, 40, Some(Measure)),
    ((2, 0), 0, None, 40, Some(Measure)),
    ((2, 3), 8195, None, 20000, Some(Shape)),
    ((2, 3), 3, Some((0, 1)), 0, Some(Shape)),
    ((2, 3), 0, None, 0, Some(NoPick)),
    ((2, 3), 8194, None, 0, Some(Picks)),
    ((2, 3), 8194, Some((0, 1)), 20000, Some(Picks)),
    ((2, 3), 2, Some((0, 1)), 9, Some(Room)),
    ((3, 3), 3, Some((0, 1)), 15, Some(Forbidden)),
];

// ---- the table of reach

// The words lent are as for a whole run.
pub static TABLE_EDGES: &[Edge<usize>] = &rows![
    Edge { settings, lent, own, room, refusal };
    // an output exact to the word, and one word less
    (2, 2, None, 2, None),
    (2, 2, None, 1, Some(Room)),
    (32, 32, None, 32, None),
    (32, 32, None, 31, Some(Room)),
    // boards, picks
    (1, 1, None, 40, Some(Boards)),
    (33, 33, None, 40, Some(Boards)),
    (2, 8192, None, 2, None),
    (2, 8194, None, 2, Some(Picks)),
    (2, 1, None, 2, Some(Shape)),
    (2, 3, None, 2, Some(Shape)),
    (2, 0, None, 2, Some(NoPick)),
    // a board's own bit
    (2, 2, Some((0, 3)), 2, Some(Forbidden)),
    (2, 8192, Some((8191, 2)), 2, Some(Forbidden)),
    (32, 32, Some((31, 2147483648)), 32, Some(Forbidden)),
    // a bit of a board n or above
    (2, 2, Some((1, 5)), 2, Some(Forbidden)),
    (31, 31, Some((0, 2147483650)), 31, Some(Forbidden)),
    (32, 32, Some((0, 2147483650)), 32, None),
    // two causes
    (33, 34, None, 0, Some(Boards)),
    (2, 8195, None, 2, Some(Shape)),
    (2, 3, Some((0, 1)), 1, Some(Shape)),
    (2, 0, None, 1, Some(NoPick)),
    (2, 8194, None, 1, Some(Picks)),
    (2, 8194, Some((0, 1)), 2, Some(Picks)),
    (2, 2, Some((0, 1)), 1, Some(Room)),
];

// ---- opening

// The words lent are a list: 0, but for the row's own.
pub static OPEN_EDGES: &[Edge<Settings>] = &rows![
    Edge { settings: Settings { boards, measure, limit }, lent, own, room, refusal };
    // an area exact to the word, and one word less
    ((2, 3, 1), 2, None, 10, None),
    ((2, 3, 1), 2, None, 9, Some(Room)),
    ((32, 4, 1), 2, None, 10240, None),
    ((32, 4, 1), 2, None, 10239, Some(Room)),
    ((2, 3, 4096), 2, None, 8200, None),
    ((2, 3, 4096), 2, None, 8199, Some(Room)),
    // boards, measures, limits
    ((1, 3, 1), 2, None, 20000, Some(Boards)),
    ((33, 3, 1), 2, None, 20000, Some(Boards)),
    ((2, 0, 1), 2, None, 40, Some(Measure)),
    ((2, 5, 1), 2, None, 40, Some(Measure)),
    ((2, 3, 0), 2, None, 20000, Some(Picks)),
    ((2, 3, 4097), 2, None, 20000, Some(Picks)),
    // a list: it may hold no link, and has n words
    ((2, 2, 1), 2, None, 10, None),
    ((2, 2, 1), 2, Some((0, 2)), 10, None),
    ((32, 2, 1), 32, Some((0, 4294967294)), 160, None),
    ((2, 2, 1), 0, None, 10, Some(Shape)),
    ((2, 2, 1), 1, Some((0, 2)), 10, Some(Shape)),
    ((2, 2, 1), 3, Some((0, 2)), 10, Some(Shape)),
    ((3, 2, 1), 2, None, 100, Some(Shape)),
    // a board's own bit, a bit of a board n or above
    ((2, 2, 1), 2, Some((0, 1)), 10, Some(Forbidden)),
    ((32, 2, 1), 32, Some((0, 1)), 160, Some(Forbidden)),
    ((2, 2, 1), 2, Some((0, 4)), 10, Some(Forbidden)),
    ((31, 2, 1), 31, Some((0, 2147483648)), 155, Some(Forbidden)),
    // the other measures read no list
    ((2, 1, 1), 3, Some((0, 1)), 10, None),
    ((2, 3, 1), 0, None, 10, None),
    ((2, 4, 1), 2, Some((0, 7)), 40, None),
    // two causes
    ((1, 0, 1), 2, None, 10, Some(Boards)),
    ((33, 2, 0), 2, None, 10, Some(Boards)),
    ((2, 5, 0), 2, None, 10, Some(Measure)),
    ((2, 0, 1), 2, None, 0, Some(Measure)),
    ((2, 2, 0), 3, None, 10, Some(Picks)),
    ((2, 2, 4097), 2, Some((0, 1)), 10, Some(Picks)),
    ((2, 3, 4097), 2, None, 0, Some(Picks)),
    ((2, 2, 1), 3, Some((0, 1)), 10, Some(Shape)),
    ((2, 2, 1), 3, None, 9, Some(Shape)),
    ((2, 2, 1), 2, Some((0, 1)), 9, Some(Forbidden)),
];

// ---- reading a file

#[derive(Clone, Copy)]
pub struct ReadEdge {
    pub limit: usize,
    // how many bytes are lent
    pub lent: usize,
    // the words of the output
    pub room: usize,
    pub refusal: Option<Refusal>,
}

// Bytes are lent, of 42 02 50 50 45. What a file alone can show is in `compare`.
pub static READ_EDGES: &[ReadEdge] = &rows![
    ReadEdge { limit, lent, room, refusal };
    // an output exact to the word, and one word less
    (2, 5, 4, None),
    (2, 5, 3, Some(Room)),
    (4096, 5, 8192, None),
    (4096, 5, 8191, Some(Room)),
    // the limit
    (0, 5, 4, Some(Picks)),
    (4097, 5, 20000, Some(Picks)),
    (1, 5, 4, Some(Full)),
    // two causes
    (0, 0, 4, Some(Picks)),
    (4097, 5, 0, Some(Picks)),
    (2, 1, 3, Some(Stopped)),
    (1, 5, 1, Some(Room)),
];

// ---- saving a recording

// The words lent are as for a whole run.
pub static SAVE_EDGES: &[Edge<usize>] = &rows![
    Edge { settings, lent, own, room, refusal };
    // an output exact to the byte, one byte less, and one that is longer
    (2, 2, None, 10, None),
    (2, 2, None, 9, Some(FileRoom)),
    (2, 2, None, 11, None),
    (2, 2, None, 0, Some(FileRoom)),
    (32, 32, None, 100, None),
    (32, 32, None, 99, Some(FileRoom)),
    (2, 8192, None, 4105, None),
    (2, 8192, None, 4104, Some(FileRoom)),
    // no picks
    (2, 0, None, 3, None),
    (2, 0, None, 2, Some(FileRoom)),
    (2, 0, None, 0, Some(FileRoom)),
    (32, 0, None, 3, None),
    (32, 0, None, 2, Some(FileRoom)),
    // a link that stays shut, one that shuts in the last pick, and one that opens there
    (2, 2, Some((0, 0)), 7, None),
    (2, 2, Some((0, 0)), 6, Some(FileRoom)),
    (2, 4, Some((2, 0)), 14, None),
    (2, 4, Some((2, 0)), 13, Some(FileRoom)),
    (2, 4, Some((1, 0)), 11, None),
    (2, 4, Some((1, 0)), 10, Some(FileRoom)),
    // boards, picks
    (0, 0, None, 40, Some(Boards)),
    (1, 1, Some((0, 0)), 40, Some(Boards)),
    (33, 33, None, 200, Some(Boards)),
    (usize::MAX, 0, None, 40, Some(Boards)),
    (2, 8194, None, 4106, Some(Picks)),
    (2, 1, None, 40, Some(Shape)),
    (2, 3, None, 40, Some(Shape)),
    (32, 31, None, 200, Some(Shape)),
    (32, 33, None, 200, Some(Shape)),
    // a board's own bit
    (2, 2, Some((0, 3)), 40, Some(Forbidden)),
    (2, 8192, Some((8191, 2)), 8192, Some(Forbidden)),
    (32, 32, Some((31, 2147483648)), 200, Some(Forbidden)),
    // a bit of a board n or above
    (2, 2, Some((1, 5)), 40, Some(Forbidden)),
    (31, 31, Some((0, 2147483650)), 200, Some(Forbidden)),
    (32, 32, Some((0, 2147483650)), 103, None),
    (32, 32, Some((0, 2147483650)), 102, Some(FileRoom)),
    // two causes
    (33, 34, None, 200, Some(Boards)),
    (1, 4097, Some((0, 0)), 8192, Some(Boards)),
    (1, 1, Some((0, 1)), 40, Some(Boards)),
    (33, 0, None, 2, Some(Boards)),
    (2, 8195, None, 8192, Some(Shape)),
    (2, 3, Some((0, 1)), 40, Some(Shape)),
    (2, 3, None, 2, Some(Shape)),
    (2, 8194, Some((0, 1)), 8192, Some(Picks)),
    (2, 8194, None, 4104, Some(Picks)),
    (2, 2, Some((0, 1)), 9, Some(Forbidden)),
    (2, 2, Some((1, 5)), 0, Some(Forbidden)),
];

// ---- a pick

// A pick over three boards: the limit, how many picks were taken before, and how many words the area lacks; the words lent, which are 2, 4, 1, and so are
// those of the list and of the picks before; a fourth is 0.
#[derive(Clone, Copy)]
pub struct PickEdge {
    pub limit: usize,
    pub before: usize,
    pub lacking: usize,
    pub lent: usize,
    // one of them that is another, by its index, and what it is
    pub own: Option<(usize, u32)>,
    // the refusal under measure 2, and that of the others
    pub refusal_listed: Option<Refusal>,
    pub refusal: Option<Refusal>,
}

pub static PICK_EDGES: &[PickEdge] = &rows![
    PickEdge { limit, before, lacking, lent, own, refusal_listed, refusal };
    // taken
    (2, 0, 0, 3, None, None, None),
    (2, 1, 0, 3, None, None, None),
    (2, 1, 0, 3, Some((0, 0)), None, None),
    // a link outside the list
    (2, 0, 0, 3, Some((1, 5)), Some(Unlisted), None),
    (2, 1, 0, 3, Some((0, 6)), Some(Unlisted), None),
    (2, 1, 0, 3, Some((2, 3)), Some(Unlisted), None),
    // a board's own bit
    (2, 0, 0, 3, Some((0, 1)), Some(Forbidden), Some(Forbidden)),
    (2, 1, 0, 3, Some((0, 3)), Some(Forbidden), Some(Forbidden)),
    (2, 1, 0, 3, Some((1, 6)), Some(Forbidden), Some(Forbidden)),
    (2, 1, 0, 3, Some((2, 5)), Some(Forbidden), Some(Forbidden)),
    // a bit of a board n or above
    (2, 1, 0, 3, Some((0, 8)), Some(Forbidden), Some(Forbidden)),
    (2, 1, 0, 3, Some((2, 9)), Some(Forbidden), Some(Forbidden)),
    (2, 1, 0, 3, Some((1, 2147483652)), Some(Forbidden), Some(Forbidden)),
    // an area one word short
    (2, 0, 1, 3, None, Some(Room), Some(Room)),
    (2, 1, 1, 3, None, Some(Room), Some(Room)),
    // words not n
    (2, 1, 0, 0, None, Some(Shape), Some(Shape)),
    (2, 1, 0, 2, None, Some(Shape), Some(Shape)),
    (2, 1, 0, 4, None, Some(Shape), Some(Shape)),
    // beyond the limit
    (1, 1, 0, 3, None, Some(Full), Some(Full)),
    (2, 2, 0, 3, None, Some(Full), Some(Full)),
    // two causes
    (1, 1, 0, 2, None, Some(Full), Some(Full)),
    (1, 1, 0, 3, Some((0, 3)), Some(Full), Some(Full)),
    (1, 1, 1, 3, None, Some(Full), Some(Full)),
    (1, 1, 0, 3, Some((0, 6)), Some(Full), Some(Full)),
    (2, 1, 0, 4, Some((0, 3)), Some(Shape), Some(Shape)),
    (2, 1, 1, 2, None, Some(Shape), Some(Shape)),
    (2, 1, 0, 2, Some((0, 6)), Some(Shape), Some(Shape)),
    (2, 1, 1, 3, Some((0, 3)), Some(Forbidden), Some(Forbidden)),
    (2, 1, 0, 3, Some((0, 7)), Some(Forbidden), Some(Forbidden)),
    (2, 1, 1, 3, Some((0, 6)), Some(Room), Some(Room)),
];

// ---- an altered place

// A place that was just opened, and one with picks.
const FRESH: Place = Place {
    settings: Settings {
        boards: 3,
        measure: 3,
        limit: 4,
    },
    window: Window::FIRST,
    marks: TestMarks::NONE,
    counts: Counts::NONE,
};

const WALKED: Place = Place {
    settings: Settings {
        boards: 3,
        measure: 3,
        limit: 8,
    },
    window: Window {
        taken: Pick(4),
        start: Pick(3),
        boundary: Pick(4),
    },
    marks: TestMarks {
        failed: true,
        passed: true,
    },
    counts: Counts {
        compositions: Compositions(3),
        tests: Tests(4),
    },
};

// The field that is altered, and what it is.
#[derive(Clone, Copy)]
pub enum Field {
    Boards(usize),
    Measure(usize),
    Limit(usize),
    Taken(usize),
    Start(usize),
    Boundary(usize),
    Failed(bool),
    Passed(bool),
    Compositions(usize),
    Tests(usize),
}

#[derive(Clone, Copy)]
pub struct PlaceEdge {
    pub place: Place,
    pub field: Field,
    // how many words are lent to a pick
    pub lent: usize,
    // the refusal of the pick, and of the length
    pub refusal_pick: Option<Refusal>,
    pub refusal_length: Option<Refusal>,
}

pub static PLACE_EDGES: &[PlaceEdge] = &rows![
    PlaceEdge { place, field, lent, refusal_pick, refusal_length };
    // as they were
    (FRESH, Field::Taken(0), 3, None, Some(NoPick)),
    (WALKED, Field::Taken(4), 3, None, None),
    // n
    (FRESH, Field::Boards(0), 3, Some(BadPlace), Some(BadPlace)),
    (FRESH, Field::Boards(1), 3, Some(BadPlace), Some(BadPlace)),
    (WALKED, Field::Boards(33), 3, Some(BadPlace), Some(BadPlace)),
    (WALKED, Field::Boards(2), 3, Some(Shape), None),
    (WALKED, Field::Boards(32), 3, Some(Shape), None),
    // measure
    (FRESH, Field::Measure(0), 3, Some(BadPlace), Some(BadPlace)),
    (WALKED, Field::Measure(5), 3, Some(BadPlace), Some(BadPlace)),
    (WALKED, Field::Measure(4), 3, Some(Room), None),
    // limit
    (FRESH, Field::Limit(0), 3, Some(BadPlace), Some(BadPlace)),
    (WALKED, Field::Limit(4097), 3, Some(BadPlace), Some(BadPlace)),
    (WALKED, Field::Limit(4096), 3, Some(Room), None),
    // m above limit
    (WALKED, Field::Limit(3), 3, Some(BadPlace), Some(BadPlace)),
    (WALKED, Field::Limit(4), 3, Some(Full), None),
    (WALKED, Field::Taken(9), 3, Some(BadPlace), Some(BadPlace)),
    (WALKED, Field::Taken(8), 3, Some(Full), None),
    // b above m
    (FRESH, Field::Boundary(1), 3, Some(BadPlace), Some(BadPlace)),
    (WALKED, Field::Boundary(5), 3, Some(BadPlace), Some(BadPlace)),
    (WALKED, Field::Boundary(usize::MAX), 3, Some(BadPlace), Some(BadPlace)),
    // s not 1 to b + 1
    (FRESH, Field::Start(0), 3, Some(BadPlace), Some(BadPlace)),
    (FRESH, Field::Start(2), 3, Some(BadPlace), Some(BadPlace)),
    (WALKED, Field::Start(0), 3, Some(BadPlace), Some(BadPlace)),
    (WALKED, Field::Boundary(1), 3, Some(BadPlace), Some(BadPlace)),
    (WALKED, Field::Boundary(2), 3, None, None),
    // s above m
    (WALKED, Field::Start(5), 3, Some(BadPlace), Some(BadPlace)),
    (WALKED, Field::Start(4), 3, None, None),
    (WALKED, Field::Start(usize::MAX), 3, Some(BadPlace), Some(BadPlace)),
    // a test marked when m is 0
    (FRESH, Field::Failed(true), 3, Some(BadPlace), Some(BadPlace)),
    (FRESH, Field::Passed(true), 3, Some(BadPlace), Some(BadPlace)),
    (WALKED, Field::Failed(false), 3, None, None),
    (WALKED, Field::Passed(false), 3, None, None),
    // compositions above 4 × m, tests above 2 × m
    (FRESH, Field::Compositions(1), 3, Some(BadPlace), Some(BadPlace)),
    (WALKED, Field::Compositions(17), 3, Some(BadPlace), Some(BadPlace)),
    (WALKED, Field::Compositions(16), 3, None, None),
    (FRESH, Field::Tests(1), 3, Some(BadPlace), Some(BadPlace)),
    (WALKED, Field::Tests(9), 3, Some(BadPlace), Some(BadPlace)),
    (WALKED, Field::Tests(8), 3, None, None),
    // two causes
    (WALKED, Field::Tests(9), 2, Some(BadPlace), Some(BadPlace)),
    (WALKED, Field::Taken(9), 4, Some(BadPlace), Some(BadPlace)),
    (WALKED, Field::Taken(8), 4, Some(Full), None),
    (WALKED, Field::Measure(4), 2, Some(Shape), None),
];

impl PlaceEdge {
    // The place with its field altered.
    pub fn altered(&self) -> Place {
        let mut place = self.place;
        match self.field {
            Field::Boards(n) => place.settings.boards = n,
            Field::Measure(measure) => place.settings.measure = measure,
            Field::Limit(limit) => place.settings.limit = limit,
            Field::Taken(m) => place.window.taken = Pick(m),
            Field::Start(s) => place.window.start = Pick(s),
            Field::Boundary(b) => place.window.boundary = Pick(b),
            Field::Failed(yes) => place.marks.failed = yes,
            Field::Passed(yes) => place.marks.passed = yes,
            Field::Compositions(k) => place.counts.compositions = Compositions(k),
            Field::Tests(k) => place.counts.tests = Tests(k),
        }
        place
    }
}
