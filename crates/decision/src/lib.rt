// Whether every window of k picks of a recording passes: the decision problem of source document 002 (its definition 3). The call, `decide`, requires
// nothing.
#![tactic(auto)]

ghost use Rattle.std.specs.Prelude.{◌≡◌, ◌≤◌, IfOk};
ghost use Rattle.links.specs.Lent.{HasPicks};
ghost use Rattle.area.specs.Parts.{zeroed};
ghost use Rattle.verdicts.specs.Verdicts.{needed, verdict_says};
ghost use Rattle.verdicts.specs.Fit.{Runs};
ghost use Rattle.calls.specs.Fit.{Starts};
ghost use Rattle.decision.specs.Fit.{Leaves};
ghost use Rattle.decision.specs.Decisions.{decided_as, decision_says, decision_verdict, decided_at, decision_report, decide_says, decide_leaves};

use links::LentPicks;
use model::Refusal;
use place::{Counts, Place};
use steps::{Mode, Walk};

// Yes or no, with both counts.
#[derive(Clone, Copy, PartialEq, Eq)]
pub struct Decision {
    pub yes: bool,
    pub counts: Counts,
}

// The causes, in their order: those of a whole run, 1, 2, 10, 8, 3, 4, 5, then 17. Where there is none, the picks.
#[tactic(auto, using(verdicts::proofs::Verdicts::whole_sound), unfolding(model::specs::Causes::first_of, crate::specs::Decisions::decision_verdict, verdicts::specs::Verdicts::whole_verdict))]
fn decision_verdict<'a>(
    n: usize,
    measure: usize,
    words: &'a [u32],
    k: usize,
    area: &[u32],
) -> Result<LentPicks<'a>, Refusal>
    ensures verdict { verdict_says result ≡ decision_verdict n measure words.now k area.now }
    ensures lent { IfOk result (λ l. HasPicks l n words.now) }
{
    let lent = verdicts::whole_verdict(n, measure, words, area)?;
    verdicts::window_verdict(k, lent.m)?;
    Ok(lent)
}

// ---- the walk held at k

// The picks up to the first failure, or all. The area is not kept.
fn hold_picks(walk: &mut Walk, lent: &LentPicks<'_>, k: usize)
    requires { Starts walk.old.place lent.now.m lent.now.words.now walk.old.area.now × (1 ≤ k) × (lent.now.n ≡ walk.old.place.settings.boards) }
    ensures { (walk.new.area.ghost_name ≡ walk.old.area.ghost_name)
        × Leaves walk.old.place k lent.now.m lent.now.words.now walk.old.area.now walk.new.place walk.new.area.now }
{
    for pick in lent.picks() {
        if walk.place.marks.failed {
            return;
        }
        walk.step(pick, Mode::Held(k));
    }
}

// ---- the call

// Yes where no test has failed.
fn answer_at(p: Place) -> Decision
    ensures { decided_as result ≡ decided_at p }
{
    Decision {
        yes: !p.marks.failed,
        counts: p.counts,
    }
}

// A decision that nothing refuses. It never reads what the area held, and the needed words end zero.
fn decide_run(lent: &LentPicks<'_>, measure: usize, k: usize, area: &mut [u32]) -> Decision
    requires { Runs lent.now.n measure lent.now.m lent.now.words.now area.old × (1 ≤ k) }
    ensures { (decided_as result ≡ decision_report lent.now.n measure lent.now.m lent.now.words.now k area.old)
        × (area.new ≡ zeroed (needed measure lent.now.n lent.now.m) area.old) }
{
    let p = calls::whole_start(lent, measure, area);
    let mut walk = Walk { place: p, area };
    hold_picks(&mut walk, lent, k);
    let q = walk.place;
    calls::zero_needed(p.settings, area);
    answer_at(q)
}

// Whether every window of k picks passes, of a recording lent whole, n words a pick; with the counts.
#[tactic(auto, using(crate::proofs::Verdicts::decides), unfolding(crate::specs::Decisions::decide_says, crate::specs::Decisions::decide_leaves))]
pub fn decide(
    n: usize,
    measure: usize,
    words: &[u32],
    k: usize,
    area: &mut [u32],
) -> Result<Decision, Refusal>
    ensures { (decision_says result ≡ decide_says n measure words.now k area.old)
        × (area.new ≡ decide_leaves n measure words.now k area.old) }
{
    let lent = decision_verdict(n, measure, words, k, area)?;
    Ok(decide_run(&lent, measure, k, area))
}
