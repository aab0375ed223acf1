// The counts by the second implementation: the walk of 01 on numbers and marks alone, sentence by sentence, with no table and no area. It shares no code
// with the walk of the calls. A test is answered by `naive` over the bare window.
#![tactic(auto)]

ghost use Rattle.std.specs.Prelude.{◌≡◌, ◌+◌, ◌*◌, ◌≤◌, ◌<◌, IsTrue};
ghost use Rattle.naive_walk.specs.Bounds.{most_per_rise, most_per_pick};

use naive::Recording;

// "picks taken m, window start s (first 1), boundary b (first 0), whether any test has failed (first no), whether the last test passed (first no) and the
// two counts". Picks are numbered from 1.
#[derive(Clone, Copy)]
pub struct Numbers {
    pub m: usize,
    pub s: usize,
    pub b: usize,
    pub failed: bool,
    pub passed: bool,
    pub compositions: usize,
    pub tests: usize,
    ghost start: { 1 ≤ s },
    // s can rise by one at the next pick, where a mark lets it
    ghost end: { s ≤ m + 1 },
    ghost end_failed: { IsTrue failed → s ≤ m },
    ghost end_passed: { IsTrue passed → s ≤ m },
    ghost boundary: { b ≤ m },
    ghost few_picks: { m ≤ 4096 },
    ghost few_compositions: { compositions ≤ 4096 + most_per_pick * m },
    ghost few_tests: { tests ≤ 4096 * m },
}

// A recording under a measure.
#[derive(Clone, Copy)]
pub struct Walk<'a> {
    pub recording: Recording<'a>,
    pub measure: usize,
}

impl Numbers {
    ghost use Rattle.naive_walk.specs.Room.{Room};

    // Before pick 1, with the compositions that were spent before it.
    pub fn first(spent: usize) -> Numbers
        requires { spent ≤ 4096 }
        ensures { result.m ≡ 0 }
    {
        Numbers {
            m: 0,
            s: 1,
            b: 0,
            failed: false,
            passed: false,
            compositions: spent,
            tests: 0,
        }
    }

    // ---- the ladders, 01's chains

    // "b becomes m and the left chain is built over s to m, costing m - s."
    fn rebuilt(mut self) -> Numbers
        requires { Room most_per_rise 1 self }
        ensures { Room 1 1 result × ((result.m ≡ self.m) × (result.s ≡ self.s)) }
    {
        self.b = self.m;
        self.compositions += self.m - self.s;
        self
    }

    // "When s exceeds b + 1, .. Otherwise a new pick joins the right chain, costing 1 if that was not empty." Before pick m that was the picks b + 1 to m - 1.
    fn extended(mut self) -> Numbers
        requires { Room most_per_rise 1 self }
        ensures { Room 1 1 result × ((result.m ≡ self.m) × (result.s ≡ self.s)) }
    {
        if self.b + 1 < self.s {
            return self.rebuilt();
        }
        if self.b + 1 < self.m {
            self.compositions += 1;
        }
        self
    }

    // A new pick: m is one more, the window starts at s, and the ladders take the pick in.
    fn entered(mut self, s: usize) -> Numbers
        requires { (self.m < 4096) × ((1 ≤ s) × (s ≤ self.m + 1)) }
        ensures { Room 1 1 result × ((result.m ≡ self.m + 1) × (result.s ≡ s)) }
    {
        self.m += 1;
        self.s = s;
        self.extended()
    }

    // "After a failure s rises by one", and where it then exceeds b + 1 the left ladder is built. No pick joins.
    fn raised(mut self) -> Numbers
        requires { Room 0 0 self × (self.s < self.m) }
        ensures { Room 1 1 result × ((result.m ≡ self.m) × (result.s ≡ self.s + 1)) }
    {
        self.s += 1;
        if self.b + 1 < self.s {
            return self.rebuilt();
        }
        self
    }

    // "A test costs one more composition where s is at most b and the right chain is not empty." That is the picks b + 1 to m.
    fn window_cost(self) -> usize
        ensures { result ≤ 1 }
    {
        usize::from(self.s <= self.b && self.b < self.m)
    }

    // ---- the length

    // "Passed: the length is m - s + 1. Failed with s above 1: the length is m - s + 2", but under measure 1. Else there is none.
    pub fn length(self, measure: usize) -> Option<usize> {
        if self.passed {
            Some(self.m + 1 - self.s)
        } else if measure != 1 && 1 < self.s {
            Some(self.m + 2 - self.s)
        } else {
            None
        }
    }
}

impl Walk<'_> {
    ghost use Rattle.naive_walk.specs.Room.{Room};

    // One test of the window s to m.
    fn tested(&self, mut x: Numbers) -> Numbers
        requires { Room 1 1 x }
        ensures { Room 0 0 result × ((result.m ≡ x.m) × (result.s ≡ x.s)) }
    {
        x.passed = self.recording.window(x.s - 1, x.m).passes(self.measure);
        x.failed |= !x.passed;
        x.compositions += x.window_cost();
        x.tests += 1;
        x
    }

    // ---- measures 2, 3 and 4

    // "At a new pick, s rises by one if the last test passed, else stays. One test follows."
    fn smallest_step(&self, x: Numbers) -> Numbers
        requires { x.m < 4096 }
        ensures { result.m ≡ x.m + 1 }
    {
        self.tested(x.entered(x.s + usize::from(x.passed)))
    }

    // ---- measure 1

    // ".. and the test is repeated, .., until one passes or the window s = m fails."
    fn climbed(&self, x: Numbers) -> Numbers
        requires { Room 0 0 x }
        ensures { result.m ≡ x.m }
    {
        let mut y = x;
        while !y.passed && y.s < y.m {
            y = self.tested(y.raised());
        }
        y
    }

    // "At a new pick s stays while no test has failed yet, else rises by one. Test; .." Once it is none for good, "m of 1 or more and last test not passed",
    // "later picks .. raise m only, write nothing and cost nothing".
    fn largest_step(&self, mut x: Numbers) -> Numbers
        requires { x.m < 4096 }
        ensures { result.m ≡ x.m + 1 }
    {
        if 0 < x.m && !x.passed {
            x.m += 1;
            return x;
        }
        let y = self.tested(x.entered(x.s + usize::from(x.failed)));
        self.climbed(y)
    }

    // ---- a recording

    // One pick more.
    pub fn step(&self, x: Numbers) -> Numbers
        requires { x.m < 4096 }
        ensures { result.m ≡ x.m + 1 }
    {
        if self.measure == 1 {
            self.largest_step(x)
        } else {
            self.smallest_step(x)
        }
    }

    // "A whole-recording run of measure 2 first spends m - 1 on its list."
    fn list_cost(&self) -> usize
        requires { 1 ≤ self.now.recording.picks }
        ensures { result ≤ 4096 }
    {
        if self.measure == 2 {
            self.recording.picks - 1
        } else {
            0
        }
    }

    // Behind the last pick of a recording that is lent whole.
    pub fn whole(&self) -> Numbers
        requires { 1 ≤ self.now.recording.picks }
    {
        let mut x = Numbers::first(self.list_cost());
        for _ in 0..self.recording.picks {
            x = self.step(x);
        }
        x
    }

    // ---- request A1 of 02: the window held at k

    // "The chains are those of document 01 with the window held at k": at pick p it starts at the greater of 1 and p - k + 1. "..., testing from pick k on ..":
    // no test before, then one a pick.
    fn held_step(&self, k: usize, x: Numbers) -> Numbers
        requires { (1 ≤ k) × (x.m < 4096) }
        ensures { result.m ≡ x.m + 1 }
    {
        let y = x.entered((x.m + 2).saturating_sub(k).max(1));
        if y.m < k { y } else { self.tested(y) }
    }

    // ".. and stopping at the first failure, .. plus the m - 1 of the list under measure 2." The answer is yes where no test has failed.
    pub fn held(&self, k: usize) -> Numbers
        requires { (1 ≤ self.now.recording.picks) × (1 ≤ k) }
    {
        let mut x = Numbers::first(self.list_cost());
        for _ in 0..self.recording.picks {
            if x.failed {
                break;
            }
            x = self.held_step(k, x);
        }
        x
    }
}
