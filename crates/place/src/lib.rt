// The place of a walk: the record that every call is handed and hands back, the steps it takes, and cause 16.
#![tactic(auto)]

ghost use Rattle.std.specs.Prelude.{◌≡◌, ◌≤◌};
ghost use Rattle.place.specs.Places.{fresh, most_counted, picks_taken, start_moved, boundary_moved, charged, tested};
ghost use Rattle.place.specs.Places.{in_range, sound_window, sound_start, sound_marks, sound_counts, sound_place};

use model::{Compositions, Pick, Tests};

// What no step touches.
#[derive(Clone, Copy, PartialEq, Eq)]
pub struct Settings {
    // n, the number of boards
    pub boards: usize,
    // measure, 1 to 4
    pub measure: usize,
    // limit, the most picks
    pub limit: usize,
}

// Where the walk stands.
#[derive(Clone, Copy, PartialEq, Eq)]
pub struct Window {
    // picks taken m
    pub taken: Pick,
    // window start s, first 1
    pub start: Pick,
    // boundary b, first 0
    pub boundary: Pick,
}

// What the tests said.
#[derive(Clone, Copy, PartialEq, Eq)]
pub struct TestMarks {
    // whether any test has failed, first no
    pub failed: bool,
    // whether the last test passed, first no
    pub passed: bool,
}

// The two counts, charged as the steps are made.
#[derive(Clone, Copy, PartialEq, Eq)]
pub struct Counts {
    pub compositions: Compositions,
    pub tests: Tests,
}

// In groups that change together: each step names its own, and the others stay.
#[derive(Clone, Copy, PartialEq, Eq)]
pub struct Place {
    pub settings: Settings,
    pub window: Window,
    pub marks: TestMarks,
    pub counts: Counts,
}

impl Window {
    // Before pick 1.
    pub const FIRST: Window = Window {
        taken: Pick(0),
        start: Pick(1),
        boundary: Pick(0),
    };

    // Zeros.
    pub const NOWHERE: Window = Window {
        taken: Pick(0),
        start: Pick(0),
        boundary: Pick(0),
    };
}

impl TestMarks {
    // No test made.
    pub const NONE: TestMarks = TestMarks {
        failed: false,
        passed: false,
    };
}

impl Counts {
    // Nothing charged.
    pub const NONE: Counts = Counts {
        compositions: Compositions(0),
        tests: Tests(0),
    };
}

// The fresh place of a measure, which no `const fn` may give a constant.
macro_rules! fresh {
    ($measure:literal) => {
        Place {
            settings: Settings {
                boards: 0,
                measure: $measure,
                limit: 0,
            },
            window: Window::FIRST,
            marks: TestMarks::NONE,
            counts: Counts::NONE,
        }
    };
}

impl Place {
    // The fresh value of measure 1. Boards and limit are filled in at opening.
    pub const COMMON: Place = fresh!(1);

    // The fresh value of measure 2, which 01 calls return.
    pub const FOOTPRINT: Place = fresh!(2);

    // The fresh value of measure 3.
    pub const REACH: Place = fresh!(3);

    // The fresh value of measure 4.
    pub const ROUND_TRIP: Place = fresh!(4);

    // Zeros and noes: what a refused opening hands back.
    pub const NOWHERE: Place = Place {
        settings: Settings {
            boards: 0,
            measure: 0,
            limit: 0,
        },
        window: Window::NOWHERE,
        marks: TestMarks::NONE,
        counts: Counts::NONE,
    };

    // The fresh value of a measure.
    #[tactic(auto, unfolding(crate::specs::Places::fresh))]
    fn of_measure(measure: usize) -> Place
        requires { (1 ≤ measure) × (measure ≤ 4) }
        ensures { result ≡ fresh measure 0 0 }
    {
        match measure {
            1 => Place::COMMON,
            2 => Place::FOOTPRINT,
            3 => Place::REACH,
            _ => Place::ROUND_TRIP,
        }
    }

    // The opened place: the fresh value of its measure, with the settings of the walk.
    #[tactic(auto, unfolding(crate::specs::Places::fresh))]
    pub fn open(settings: Settings) -> Place
        requires { (1 ≤ settings.measure) × (settings.measure ≤ 4) }
        ensures { result ≡ fresh settings.measure settings.boards settings.limit }
    {
        let mut p = Place::of_measure(settings.measure);
        p.settings = settings;
        p
    }

    // k picks more.
    #[tactic(auto, unfolding(crate::specs::Places::picks_taken))]
    pub fn picks_taken(mut self, k: usize) -> Place
        requires { (self.window.taken.0 ≤ 4096) × (k ≤ 4096) }
        ensures { result ≡ picks_taken self k }
    {
        self.window.taken.0 += k;
        self
    }

    // The start moved on by k.
    #[tactic(auto, unfolding(crate::specs::Places::start_moved))]
    pub fn start_moved(mut self, k: usize) -> Place
        requires { (self.window.start.0 ≤ 4097) × (k ≤ 1) }
        ensures { result ≡ start_moved self k }
    {
        self.window.start.0 += k;
        self
    }

    // The boundary at the last pick.
    #[tactic(auto, unfolding(crate::specs::Places::boundary_moved))]
    pub fn boundary_moved(mut self) -> Place
        ensures { result ≡ boundary_moved self }
    {
        self.window.boundary = self.window.taken;
        self
    }

    // k compositions more on the count.
    #[tactic(auto, unfolding(crate::specs::Places::charged))]
    pub fn charged(mut self, k: usize) -> Place
        requires { (self.counts.compositions.0 ≤ most_counted) × (k ≤ 4096) }
        ensures { result ≡ charged self k }
    {
        self.counts.compositions.0 += k;
        self
    }

    // One test more on the count, and its result.
    #[tactic(auto, unfolding(crate::specs::Places::tested, crate::specs::Places::marked))]
    pub fn tested(mut self, passed: bool) -> Place
        requires { self.counts.tests.0 ≤ most_counted }
        ensures { result ≡ tested self passed }
    {
        self.counts.tests.0 += 1;
        self.marks = TestMarks {
            failed: self.marks.failed || !passed,
            passed,
        };
        self
    }

    // n, measure and limit are in range.
    #[tactic(auto, unfolding(crate::specs::Places::in_range))]
    fn is_in_range(self) -> bool
        ensures { result ≡ in_range self }
    {
        model::is_between(2, self.settings.boards, 32)
            && model::is_between(1, self.settings.measure, 4)
            && model::is_between(1, self.settings.limit, 4096)
    }

    // m is not above limit, b not above m, s is 1 to b + 1. In this order, so that b + 1 is a number whatever the place holds.
    #[tactic(auto, unfolding(crate::specs::Places::sound_window))]
    fn is_sound_window(self) -> bool
        requires { self.settings.limit ≤ 4096 }
        ensures { result ≡ sound_window self }
    {
        let Window {
            taken,
            start,
            boundary,
        } = self.window;
        taken.0 <= self.settings.limit
            && boundary.0 <= taken.0
            && model::is_between(1, start.0, boundary.0 + 1)
    }

    // s is not above m when m is 1 or more.
    #[tactic(auto, unfolding(crate::specs::Places::sound_start))]
    fn is_sound_start(self) -> bool
        ensures { result ≡ sound_start self }
    {
        self.window.taken.0 == 0 || self.window.start.0 <= self.window.taken.0
    }

    // No test is marked, as failed or as passed, when m is 0.
    #[tactic(auto, unfolding(crate::specs::Places::sound_marks))]
    fn are_sound_marks(self) -> bool
        ensures { result ≡ sound_marks self }
    {
        1 <= self.window.taken.0 || !self.marks.failed && !self.marks.passed
    }

    // Compositions are not above 4 × m, tests not above 2 × m.
    #[tactic(auto, unfolding(crate::specs::Places::sound_counts))]
    fn are_sound_counts(self) -> bool
        requires { self.window.taken.0 ≤ 4096 }
        ensures { result ≡ sound_counts self }
    {
        let m = self.window.taken.0;
        self.counts.compositions.0 <= 4 * m && self.counts.tests.0 <= 2 * m
    }

    // Whether the place is none of those that cause 16 refuses. Nothing is required: the ranges come first, so no sum after them wraps.
    #[tactic(auto, using(crate::proofs::Laws::limit_within, crate::proofs::Laws::taken_low), unfolding(crate::specs::Places::sound_place))]
    pub fn is_sound(self) -> bool
        ensures { result ≡ sound_place self }
    {
        self.is_in_range()
            && self.is_sound_window()
            && self.is_sound_start()
            && self.are_sound_marks()
            && self.are_sound_counts()
    }
}
