// The steps of the walk, on a place and the words of its area. m is the picks taken, s the start of the window, b the boundary: the left ladder
// stands in parts s to b, the right ladder, over picks b + 1 to m, in part limit + 1, the window in part limit + 2, the footprint in limit + 3.
#![tactic(auto)]

ghost use Rattle.std.specs.Prelude.{◌≡◌, ◌≢◌, true, not, ◌&&◌, ◌+◌, ◌-◌, ◌*◌, ◌≤◌, ◌<◌, length};
ghost use Rattle.steps.specs.Alike.{finished};
ghost use Rattle.steps.specs.Bare.{spared};
ghost use Rattle.steps.specs.Modes.{kept_by, held_by, over_by, rise_by, untested_by};
ghost use Rattle.steps.specs.Fit.{Able, first_part, rise};

use measures::Kit;
use model::Pick;
use place::Place;

// The part that the window begins in: part s where that is on the left ladder, else the right ladder's.
fn first_part(p: Place) -> usize
    requires { p.settings.limit ≤ 4096 }
    ensures { result ≡ first_part p }
{
    let s = p.window.start.0;
    if p.window.boundary.0 < s {
        p.settings.limit + 1
    } else {
        s
    }
}

// Under measure 1, none for good: some pick is taken and the last test not passed.
pub fn is_finished(p: Place) -> bool
    ensures { result ≡ finished p }
{
    p.settings.measure == 1 && 0 < p.window.taken.0 && !p.marks.passed
}

// ---- how a step is made

// `Kept`: every part then holds what 01 says, as after a call for a pick. `Unkept`: nobody looks at the area afterwards, as in a whole run. `Held(k)`: nor
// here, and the window is held at k picks, as in a decision. One function makes all of them, so that what it calls is called from one place.
#[derive(Clone, Copy, PartialEq, Eq)]
pub enum Mode {
    Kept,
    Unkept,
    Held(usize),
}

fn is_kept(mode: Mode) -> bool
    ensures { result ≡ kept_by mode }
{
    matches!(mode, Mode::Kept)
}

fn is_held(mode: Mode) -> bool
    ensures { result ≡ held_by mode }
{
    matches!(mode, Mode::Held(_))
}

// Whether a pick raises m only. Where the window is held none does: before pick k no test has passed, and that is no end.
fn is_over(p: Place, mode: Mode) -> bool
    ensures { result ≡ over_by mode p }
{
    !is_held(mode) && is_finished(p)
}

// What the start moves by at a new pick: one, under measure 1 once a test has failed, under the others after a test that passed.
fn moved_by(p: Place) -> usize
    ensures { result ≡ rise p }
{
    let rises = if p.settings.measure == 1 {
        p.marks.failed
    } else {
        p.marks.passed
    };
    usize::from(rises)
}

// The same in any mode: where the window is held at k, one once k picks are taken.
fn rise_by(p: Place, mode: Mode) -> usize
    ensures { result ≡ rise_by mode p }
{
    match mode {
        Mode::Kept | Mode::Unkept => moved_by(p),
        Mode::Held(k) => usize::from(k <= p.window.taken.0),
    }
}

// Whether the pick that was entered comes before the first test: before pick k, where the window is held at k.
fn is_untested(q: Place, mode: Mode) -> bool
    ensures { result ≡ untested_by mode q }
{
    match mode {
        Mode::Kept | Mode::Unkept => false,
        Mode::Held(k) => q.window.taken.0 < k,
    }
}

// Whether the window is judged where it lies: the area is not kept, and the measure makes one test a pick.
fn is_spared(p: Place, kept: bool) -> bool
    ensures { result ≡ (not kept && spared p.settings) }
{
    !kept && matches!(p.settings.measure, 2 | 3 | 4)
}

// ---- the walk

// A place, and the area that its walk goes on in.
#[derive(Drop)]
pub struct Walk<'a> {
    pub place: Place,
    pub area: &'a mut [u32],
    ghost able: { Able place.settings (length area.now) },
}

impl Walk<'_> {
    ghost use Rattle.place.specs.Places.{per_ladder};
    ghost use Rattle.area.specs.Parts.{table_at, compose_at, copy_at, zero_at};
    ghost use Rattle.steps.specs.Walk.{ladder, rebuilt, joined, extended, entered, windowed, judged, tried, raised, again, climbed, cleared};
    ghost use Rattle.steps.specs.Bare.{bare_tried};
    ghost use Rattle.steps.specs.Modes.{Enters, step_by};
    ghost use Rattle.steps.specs.Fit.{In, Owns, Fit, Entry};
    ghost use Rattle.steps.specs.Makes.{walk_kit, Wrote, Makes};

    // ---- parts

    // The measure over the boards of the walk.
    fn kit(&self) -> Kit
        ensures { (result.measure ≡ self.now.place.settings.measure) × (result.n ≡ self.now.place.settings.boards) }
    {
        Kit {
            measure: self.place.settings.measure,
            n: self.place.settings.boards,
        }
    }

    fn compose_at(&mut self, d: usize, r: usize)
        requires { In self.old.place.settings d × In self.old.place.settings r }
        ensures { Wrote (compose_at (walk_kit self.old) self.old.area.now d d r) self.old self.new }
    {
        let kit = self.kit();
        area::compose_onto(self.area, kit, d, r);
    }

    fn copy_at(&mut self, d: usize, l: usize)
        requires { In self.old.place.settings d × In self.old.place.settings l }
        ensures { Wrote (copy_at (walk_kit self.old) self.old.area.now d l) self.old self.new }
    {
        let kit = self.kit();
        area::copy_part(self.area, kit, d, l);
    }

    fn zero_at(&mut self, d: usize)
        requires { In self.old.place.settings d }
        ensures { Wrote (zero_at (walk_kit self.old) self.old.area.now d) self.old self.new }
    {
        let kit = self.kit();
        area::zero_part(self.area, kit, d);
    }

    // Part limit + 4 is zero after each pick taken.
    #[tactic(auto, unfolding(crate::specs::Walk::cleared))]
    fn clear_spare(&mut self)
        ensures { Makes (cleared (walk_kit self.old)) self.old self.new }
    {
        let limit = self.place.settings.limit;
        self.zero_at(limit + 4);
    }

    // ---- the ladders

    // From part m - 1 down to part s, each part becomes its composition with the part after it, so that part i holds the window i to m.
    fn build_left(&mut self, s: usize, m: usize)
        requires { (1 ≤ s) × (s ≤ m) × (m ≤ self.old.place.settings.limit) }
        ensures { Wrote (ladder (walk_kit self.old) self.old.area.now m (m - s)) self.old self.new }
    {
        for i in (s..m).rev() {
            self.compose_at(i, i + 1);
        }
    }

    // b becomes m: the left ladder is built over s to m, one composition for each part but the last, and the right ladder is empty.
    #[tactic(auto, unfolding(place::specs::Places::charged, place::specs::Places::boundary_moved))]
    fn rebuild(&mut self)
        requires { Fit self.old.place 0 }
        ensures { Makes (rebuilt (walk_kit self.old)) self.old self.new }
    {
        let m = self.place.window.taken;
        let s = self.place.window.start;
        let limit = self.place.settings.limit;
        self.build_left(s.0, m.0);
        self.zero_at(limit + 1);
        let q = self.place.boundary_moved();
        self.place = q.charged(m.0 - s.0);
    }

    // Pick m joins the right ladder: a composition, unless that was empty and m is all it holds.
    #[tactic(auto, unfolding(place::specs::Places::charged))]
    fn join(&mut self, words: &[u32])
        requires { Fit self.old.place 0 × Owns self.old.place self.old.area.now words.now }
        ensures { Makes (joined (walk_kit self.old)) self.old self.new }
    {
        let s = self.place.settings;
        let m = self.place.window.taken;
        let b = self.place.window.boundary;
        if b.0 + 1 < m.0 {
            let kit = self.kit();
            area::compose_own(self.area, words, kit, s.limit + 1, m.0);
            self.place = self.place.charged(1);
            return;
        }
        self.copy_at(s.limit + 1, m.0);
    }

    // The ladders take in pick m. A start beyond b + 1 has left the left ladder behind, and part of the right one: only then is a new one built.
    fn extend(&mut self, words: &[u32])
        requires { Fit self.old.place 0 × Owns self.old.place self.old.area.now words.now }
        ensures { Makes (extended (walk_kit self.old)) self.old self.new }
    {
        let s = self.place.window.start;
        let b = self.place.window.boundary;
        if b.0 + 1 < s.0 {
            return self.rebuild();
        }
        self.join(words)
    }

    // A new pick: its own table goes to its part, the start moves by k, and the ladders take it in.
    #[tactic(auto, unfolding(place::specs::Places::picks_taken, place::specs::Places::start_moved))]
    fn enter(&mut self, words: &[u32], k: usize)
        requires { Entry self.old.place k × (k ≤ 1) × (self.old.place.settings.boards ≡ length words.now) }
        ensures { Makes (entered (walk_kit self.old) k words.now) self.old self.new }
    {
        let kit = self.kit();
        let m = self.place.window.taken;
        let next = Pick(m.0 + 1);
        area::own_part(self.area, words, kit, next);
        let q = self.place.picks_taken(1);
        self.place = q.start_moved(k);
        self.extend(words)
    }

    // ---- a test

    // The window s to m goes to part limit + 2: a copy from the ladder that it begins on, and a composition where it lies on both. In line, and `try_window`
    // too: as calls they cost a pick 60 instructions more.
    #[inline(always)]
    #[tactic(auto, unfolding(place::specs::Places::charged))]
    fn window(&mut self)
        requires { Fit self.old.place 0 }
        ensures { Makes (windowed (walk_kit self.old)) self.old self.new }
    {
        let m = self.place.window.taken;
        let s = self.place.window.start;
        let b = self.place.window.boundary;
        let limit = self.place.settings.limit;
        let from = first_part(self.place);
        self.copy_at(limit + 2, from);
        if b.0 < s.0 {
            return;
        }
        if m.0 <= b.0 {
            return;
        }
        self.compose_at(limit + 2, limit + 1);
        let q = self.place;
        self.place = q.charged(1);
    }

    // Whether the table in part `at` passes the test against the footprint, with the turn-round of 01. In line: as a call it costs a pick up to 27
    // instructions.
    #[inline(always)]
    fn passes_at(&self, at: usize) -> bool
        requires { In self.now.place.settings at }
        ensures { result ≡ (walk_kit self.now).pass (table_at (walk_kit self.now) self.now.area.now (self.now.place.settings.limit + 3))
            (table_at (walk_kit self.now) self.now.area.now at) }
    {
        let s = self.place.settings;
        let turn = measures::turn_round();
        area::passes_part(self.area, self.kit(), s.limit + 3, at, turn)
    }

    // The same of the composition of parts l and r, under measures 2 and 3: nothing is written.
    #[inline(always)]
    fn joined_passes(&self, l: usize, r: usize) -> bool
        requires { let s = self.now.place.settings in (s.measure ≢ 4) × (spared s ≡ true) × In s l × In s r }
        ensures { result ≡ (walk_kit self.now).pass (table_at (walk_kit self.now) self.now.area.now (self.now.place.settings.limit + 3))
            ((walk_kit self.now).join (table_at (walk_kit self.now) self.now.area.now l) (table_at (walk_kit self.now) self.now.area.now r)) }
    {
        let s = self.place.settings;
        area::joined_passes(self.area, self.kit(), s.limit + 3, l, r)
    }

    // The test of the window in part limit + 2; the area stays as it is.
    #[tactic(auto, unfolding(crate::specs::Walk::judged, place::specs::Places::tested))]
    fn judge(&mut self)
        requires { Fit self.old.place 0 }
        ensures { Makes (judged (walk_kit self.old)) self.old self.new }
    {
        let limit = self.place.settings.limit;
        let passed = self.passes_at(limit + 2);
        self.place = self.place.tested(passed);
    }

    // One test of the window s to m.
    #[inline(always)]
    fn try_window(&mut self)
        requires { Fit self.old.place 1 }
        ensures { Makes (tried (walk_kit self.old)) self.old self.new }
    {
        self.window();
        self.judge();
    }

    // The same where nobody looks at the area afterwards: a window that lies on one ladder is judged where it is, one of both ladders is composed only under
    // measure 4, and judged without being written under the others. A call of `passes_at` for each ladder: one for both, the part chosen before it, costs up
    // to 2.4 per cent more instructions a pick.
    #[tactic(auto, unfolding(place::specs::Places::charged, place::specs::Places::tested))]
    fn judge_ladders(&mut self)
        requires { Fit self.old.place 1 × (spared self.old.place.settings ≡ true) }
        ensures { Makes (bare_tried (walk_kit self.old)) self.old self.new }
    {
        let p = self.place;
        let m = p.window.taken;
        let s = p.window.start;
        let b = p.window.boundary;
        let limit = p.settings.limit;
        if b.0 < s.0 {
            let passed = self.passes_at(limit + 1);
            self.place = p.tested(passed);
            return;
        }
        if m.0 <= b.0 {
            let passed = self.passes_at(s.0);
            self.place = p.tested(passed);
            return;
        }
        if p.settings.measure == 4 {
            return self.try_window();
        }
        let passed = self.joined_passes(s.0, limit + 1);
        let q = p.charged(1);
        self.place = q.tested(passed);
    }

    // ---- measure 1: the start rises while tests fail

    // After a failure the start rises by one; where it then exceeds b + 1, the left ladder is built.
    #[tactic(auto, unfolding(place::specs::Places::start_moved))]
    fn raise(&mut self)
        requires { Fit self.old.place 0 × (self.old.place.window.start.0 < self.old.place.window.taken.0) }
        ensures { Makes (raised (walk_kit self.old)) self.old self.new }
    {
        let s = self.place.window.start;
        let b = self.place.window.boundary;
        self.place = self.place.start_moved(1);
        if b.0 + 1 < s.0 + 1 {
            self.rebuild();
            return;
        }
    }

    // A rise, and the test repeated.
    fn again(&mut self)
        requires { Fit self.old.place per_ladder × (self.old.place.window.start.0 < self.old.place.window.taken.0) }
        ensures { Makes (again (walk_kit self.old)) self.old self.new }
    {
        self.raise();
        self.try_window();
    }

    // Until a test passes or the window s = m has failed.
    fn climb(&mut self)
        requires { Fit self.old.place (3 * per_ladder) }
        ensures { Makes (climbed (walk_kit self.old)) self.old self.new }
    {
        for _ in self.place.window.start.0..self.place.window.taken.0 {
            if self.place.marks.passed {
                return;
            }
            self.again();
        }
    }

    // ---- a pick taken

    // A pick is entered, the start moved on, and one test follows; under measure 1 the start then rises while tests fail, and after the end only m does. Where
    // the area is not kept, under measures 2 to 4, neither the window's part nor part limit + 4 is written for its own sake. Where the window is held at k, no
    // test comes before pick k, and from then on the one test is all.
    #[tactic(auto, unfolding(place::specs::Places::picks_taken))]
    pub fn step(&mut self, words: &[u32], mode: Mode)
        requires { Enters mode self.old.place (length words.now) }
        ensures { Makes (step_by mode (walk_kit self.old) words.now) self.old self.new }
    {
        let p = self.place;
        if is_over(p, mode) {
            self.place = p.picks_taken(1);
            return;
        }
        let by = rise_by(p, mode);
        self.enter(words, by);
        if is_untested(self.place, mode) {
            return;
        }
        let kept = is_kept(mode);
        if is_spared(p, kept) {
            return self.judge_ladders();
        }
        self.try_window();
        if is_held(mode) {
            return;
        }
        if p.settings.measure == 1 {
            self.climb();
            self.clear_spare();
            return;
        }
        self.clear_spare();
    }
}
