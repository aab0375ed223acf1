// The call for the table of reach: bit b of word a is set when a journey leads from a to b in the whole recording.
#![tactic(auto)]

ghost use Rattle.std.specs.Prelude.{◌≡◌, ◌≤◌, length, IfOk};
ghost use Rattle.links.specs.Tables.{compose, within};
ghost use Rattle.links.specs.Composed.{reach};
ghost use Rattle.links.specs.Lent.{HasPicks};
ghost use Rattle.checks.specs.Lent.{lent_picks};
ghost use Rattle.measures.specs.Kit.{hops01};
ghost use Rattle.verdicts.specs.Verdicts.{verdict_says};
ghost use Rattle.model.specs.Causes.{first_of};
ghost use Rattle.reach.specs.Tables.{out_causes, table_verdict, table_leaves};

use links::LentPicks;
use model::Refusal;

// The table takes in one pick more: the pick's own table is composed onto it.
#[tactic(auto, using(measures::proofs::Words::lent_within))]
fn add_pick(out: &mut [u32], pick: &[u32])
    requires { (length pick.now ≤ 32) × (length out.old ≡ length pick.now) }
    ensures { out.new ≡ compose (length pick.now) out.old (within (length pick.now) hops01 pick.now) }
{
    let own = joins::closed_words(pick);
    joins::join_over(out, &own[..pick.len()]);
}

// The table of the picks, from the first one on.
fn write_table(out: &mut [u32], lent: &LentPicks<'_>)
    requires { (lent.now.n ≤ 32) × (lent.now.n ≡ length out.old) × (1 ≤ lent.now.m) }
    ensures { out.new ≡ reach lent.now.n hops01 (lent_picks lent.now.n lent.now.words.now lent.now.m) }
{
    let mut picks = lent.picks();
    let Some(first) = picks.next() else {
        return;
    };
    joins::close_over(out, first);
    for pick in picks {
        add_pick(out, pick);
    }
}

// The causes after those of every lent recording: 4, 5.
#[tactic(auto, unfolding(model::specs::Causes::first_of))]
fn out_verdict(lent: &LentPicks<'_>, out: &[u32]) -> Result<(), Refusal>
    requires { lent.now.n ≤ 32 }
    ensures { verdict_says result ≡ first_of (out_causes lent.now.n lent.now.words.now lent.now.m out.now) }
{
    if out.len() < lent.n {
        return Err(Refusal::Room);
    }
    if !checks::are_clean(lent) {
        return Err(Refusal::Forbidden);
    }
    Ok(())
}

// The causes, in their order: 1, 10, 8, 3, 4, 5. Where there is none, the picks.
#[tactic(auto, unfolding(model::specs::Causes::first_of, model::specs::Causes::between, crate::specs::Tables::table_verdict))]
fn table_verdict<'a>(n: usize, words: &'a [u32], out: &[u32]) -> Result<LentPicks<'a>, Refusal>
    ensures verdict { verdict_says result ≡ table_verdict n words.now out.now }
    ensures lent { IfOk result (λ l. HasPicks l n words.now) }
{
    if !model::is_between(2, n, 32) {
        return Err(Refusal::Boards);
    }
    let lent = verdicts::lent_verdict(words, n)?;
    out_verdict(&lent, out)?;
    Ok(lent)
}

// The table of a recording lent whole, n words a pick, into the first n words of out.
#[tactic(auto, using(crate::proofs::Picks::table_sound, model::proofs::Refusals::number_some), unfolding(crate::specs::Tables::table_leaves))]
pub fn table(n: usize, words: &[u32], out: &mut [u32]) -> Result<(), Refusal>
    ensures { (verdict_says result ≡ table_verdict n words.now out.old) × (out.new ≡ table_leaves n words.now out.old) }
{
    let lent = table_verdict(n, words, out)?;
    write_table(&mut out[..n], &lent);
    Ok(())
}
