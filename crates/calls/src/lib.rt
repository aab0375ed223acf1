// The calls of the walk: opening, pick, length, whole run. None of the four requires anything; `whole_start` and `zero_needed`, which `decision` uses too, do.
#![tactic(auto)]

ghost use Rattle.std.specs.Prelude.{◌≡◌, ◌-◌, ◌≤◌, length};
ghost use Rattle.area.specs.Parts.{zeroed};
ghost use Rattle.place.specs.Places.{charged};
ghost use Rattle.verdicts.specs.Verdicts.{needed};
ghost use Rattle.verdicts.specs.Fit.{Clears, Runs};
ghost use Rattle.steps.specs.Walk.{reported};
ghost use Rattle.steps.specs.Makes.{walk_kit, Makes};
ghost use Rattle.model.specs.Refusals.{number};
ghost use Rattle.calls.specs.Answers.{outcome, handed_says, answer_says};
ghost use Rattle.calls.specs.Fit.{Starts, Begins, Ends};
ghost use Rattle.calls.specs.Calls.{opened_area, open_says, open_leaves, pick_says, pick_leaves, report_says, length_says};
ghost use Rattle.calls.specs.Calls.{unions, bare_steps, whole_report, whole_says, whole_leaves};

use links::LentPicks;
use measures::Kit;
use model::Refusal;
use place::{Counts, Place, Settings};
use steps::{Mode, Walk};

// What stands against a place: the cause, and the place that 01 has handed back. That is zeros and noes for an opening, and the place as it was for a pick.
#[derive(Clone, Copy, PartialEq, Eq)]
pub struct Refused {
    pub place: Place,
    pub cause: Refusal,
}

// A length or a cause, with both counts. They stand beside the `Result` since 9, which is a refusal in 01, has them too; where another cause refuses they
// are 0.
#[derive(Clone, Copy, PartialEq, Eq)]
pub struct Answer {
    pub length: Result<usize, Refusal>,
    pub counts: Counts,
}

// The length call hands the place back beside its answer.
#[derive(Clone, Copy, PartialEq, Eq)]
pub struct Measured {
    pub place: Place,
    pub answer: Answer,
}

impl Answer {
    // Refused before anything was counted.
    pub fn refused(cause: Refusal) -> Answer
        ensures { answer_says result ≡ outcome (number cause) 0 0 0 }
    {
        Answer {
            length: Err(cause),
            counts: Counts::NONE,
        }
    }
}

// ---- opening

// The needed words zero.
pub fn zero_needed(settings: Settings, area: &mut [u32])
    requires { (settings.boards ≤ 32) × (settings.limit ≤ 4096)
        × (needed settings.measure settings.boards settings.limit ≤ length area.old) }
    ensures { area.new ≡ zeroed (needed settings.measure settings.boards settings.limit) area.old }
{
    let k = verdicts::needed_words(settings);
    area::zero_first(area, k);
}

// The needed words zero, and the footprint of measure 2 in part limit + 3.
#[tactic(auto, using(measures::proofs::Words::size_links, verdicts::proofs::Verdicts::third_part), unfolding(crate::specs::Calls::opened_area))]
fn open_area(settings: Settings, footprint: &[u32], area: &mut [u32])
    requires { Clears settings.boards settings.measure settings.limit footprint.now area.old }
    ensures { area.new ≡ opened_area settings.boards settings.measure settings.limit footprint.now area.old }
{
    zero_needed(settings, area);
    if settings.measure != 2 {
        return;
    }
    let kit = Kit {
        measure: settings.measure,
        n: settings.boards,
    };
    area::put_table(area, footprint, kit, settings.limit + 3);
}

// Opens a walk over n boards.
#[tactic(auto, using(model::proofs::Refusals::number_some, verdicts::proofs::Verdicts::open_sound, verdicts::proofs::Verdicts::open_clears), unfolding(crate::specs::Calls::open_says, crate::specs::Calls::open_leaves, place::specs::Places::nowhere))]
pub fn open(
    n: usize,
    measure: usize,
    limit: usize,
    footprint: &[u32],
    area: &mut [u32],
) -> Result<Place, Refused>
    ensures { (handed_says result ≡ open_says n measure limit footprint.now area.old)
        × (area.new ≡ open_leaves n measure limit footprint.now area.old) }
{
    let place = Place::NOWHERE;
    let settings = Settings {
        boards: n,
        measure,
        limit,
    };
    verdicts::open_verdict(settings, footprint, area).map_err(|cause| Refused { place, cause })?;
    open_area(settings, footprint, area);
    Ok(Place::open(settings))
}

// ---- pick

// Takes a pick: one step of the walk.
#[tactic(auto, using(model::proofs::Refusals::number_some), unfolding(crate::specs::Calls::pick_state))]
pub fn pick(p: Place, area: &mut [u32], words: &[u32]) -> Result<Place, Refused>
    ensures { (handed_says result ≡ pick_says p area.old words.now)
        × (area.new ≡ pick_leaves p area.old words.now) }
{
    match verdicts::pick_verdict(p, area, words) {
        Ok(()) => {
            let mut walk = Walk { place: p, area };
            walk.step(words, Mode::Kept);
            Ok(walk.place)
        }
        Err(cause) => Err(Refused { place: p, cause }),
    }
}

// ---- length

// The answer of a place that is sound and has a pick: a length, or 9 with the counts.
#[tactic(auto, unfolding(steps::specs::Walk::reported))]
fn report(p: Place) -> Answer
    requires { (p.window.start.0 ≤ p.window.taken.0) × (p.window.taken.0 ≤ 4096) }
    ensures { answer_says result ≡ report_says (reported p) p }
{
    let m = p.window.taken.0;
    let s = p.window.start.0;
    let length = if p.marks.passed {
        Ok(m + 1 - s)
    } else if p.settings.measure != 1 && 1 < s {
        Ok(m + 2 - s)
    } else {
        Err(Refusal::NoLength)
    };
    Answer {
        length,
        counts: p.counts,
    }
}

#[tactic(auto, using(place::proofs::Laws::sound_says), unfolding(model::specs::Causes::first_of, crate::specs::Calls::length_says))]
fn length_of(p: Place) -> Answer
    ensures { answer_says result ≡ length_says p }
{
    if !p.is_sound() {
        return Answer::refused(Refusal::BadPlace);
    }
    if p.window.taken.0 == 0 {
        return Answer::refused(Refusal::NoPick);
    }
    report(p)
}

// The length of the picks so far, with the counts. The place is handed back as it was.
pub fn length(p: Place) -> Measured
    ensures { (answer_says result.answer ≡ length_says p) × (result.place ≡ p) }
{
    Measured {
        place: p,
        answer: length_of(p),
    }
}

// ---- whole run

// The union of the picks. Each pick after the first is one union, and how many were made is counted.
fn make_footprint(lent: &LentPicks<'_>, out: &mut [u32]) -> usize
    requires { (lent.now.n ≡ length out.old) × (1 ≤ lent.now.m) }
    ensures { (result ≡ lent.now.m - 1) × (out.new ≡ unions lent.now.n lent.now.words.now lent.now.m) }
{
    let Some(first) = lent.picks().next() else {
        return 0;
    };
    out.copy_from_slice(first);
    lent.unite_picks(out, 1)
}

// The place that a whole run starts from, and all that the steps read of the area before they write it: the footprint. Only measure 2 has one, the
// union of all picks, made in part m + 3.
#[tactic(auto, using(measures::proofs::Words::size_links, verdicts::proofs::Verdicts::third_part, crate::proofs::Loops::start_uncounted))]
pub fn whole_start(lent: &LentPicks<'_>, measure: usize, area: &mut [u32]) -> Place
    requires { Runs lent.now.n measure lent.now.m lent.now.words.now area.old }
    ensures { Begins lent.now.n measure lent.now.m lent.now.words.now area.old result area.new }
{
    let n = lent.n;
    let m = lent.m;
    let p = Place::open(Settings {
        boards: n,
        measure,
        limit: m,
    });
    let kit = Kit { measure, n };
    if measure != 2 {
        area::zero_part(area, kit, m + 3);
        return p;
    }
    let at = area::start(area, kit, m + 3);
    let made = make_footprint(lent, &mut area[at..at + n]);
    p.charged(made)
}

// All picks, one after the other, by the unchecked step: a count that starts at m - 1 would be refused as 16. The area is not kept, and once measure 1
// has ended the picks that are left only count.
#[tactic(auto, unfolding(place::specs::Places::picks_taken))]
fn whole_steps(walk: &mut Walk, lent: &LentPicks<'_>)
    requires { Starts walk.old.place lent.now.m lent.now.words.now walk.old.area.now × (lent.now.n ≡ walk.old.place.settings.boards) }
    ensures { Makes (bare_steps (walk_kit walk.old) walk.old.place.settings.boards lent.now.words.now lent.now.m) walk.old walk.new
        × Ends walk.old.place lent.now.m walk.old.area.now walk.new.place walk.new.area.now }
{
    for pick in lent.picks() {
        let q = walk.place;
        if steps::is_finished(q) {
            walk.place = q.picks_taken(lent.m - q.window.taken.0);
            return;
        }
        walk.step(pick, Mode::Unkept);
    }
}

// A whole run that nothing refuses. It never reads what the area held, and the needed words end zero.
fn whole_run(lent: &LentPicks<'_>, measure: usize, area: &mut [u32]) -> Answer
    requires { Runs lent.now.n measure lent.now.m lent.now.words.now area.old }
    ensures { (answer_says result ≡ whole_report lent.now.n measure lent.now.m lent.now.words.now area.old)
        × (area.new ≡ zeroed (needed measure lent.now.n lent.now.m) area.old) }
{
    let p = whole_start(lent, measure, area);
    let mut walk = Walk { place: p, area };
    whole_steps(&mut walk, lent);
    let q = walk.place;
    zero_needed(p.settings, area);
    report(q)
}

// The length of a recording lent whole, n words a pick, with the counts.
#[tactic(auto, using(model::proofs::Refusals::number_some, verdicts::proofs::Verdicts::whole_sound), unfolding(crate::specs::Calls::whole_says, crate::specs::Calls::whole_leaves))]
pub fn whole(n: usize, measure: usize, words: &[u32], area: &mut [u32]) -> Answer
    ensures { (answer_says result ≡ whole_says n measure words.now area.old)
        × (area.new ≡ whole_leaves n measure words.now area.old) }
{
    match verdicts::whole_verdict(n, measure, words, area) {
        Ok(lent) => whole_run(&lent, measure, area),
        Err(cause) => Answer::refused(cause),
    }
}
