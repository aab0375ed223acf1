// What the checks of opening, pick and whole run find, cause by cause in document 01's order. The three verdicts require nothing.
#![tactic(auto)]

ghost use Rattle.std.specs.Prelude.{◌≡◌, [], ◌∷◌, ◌+◌, ◌≤◌, length, ltb, IfOk};
ghost use Rattle.links.specs.Lent.{HasPicks};
ghost use Rattle.checks.specs.Checks.{listed};
ghost use Rattle.measures.specs.Kit.{kit};
ghost use Rattle.area.specs.Parts.{table_at};
ghost use Rattle.model.specs.Causes.{first_of};
ghost use Rattle.verdicts.specs.Verdicts.{needed, lent_causes, run_causes, window_causes};
ghost use Rattle.verdicts.specs.Verdicts.{open_verdict, pick_verdict, whole_verdict, verdict_says};

use links::LentPicks;
use measures::Kit;
use model::Refusal;
use place::{Place, Settings};

// The words that an area needs.
#[tactic(auto, using(crate::proofs::Verdicts::needed_most))]
pub fn needed_words(settings: Settings) -> usize
    requires { (settings.boards ≤ 32) × (settings.limit ≤ 4096) }
    ensures { result ≡ needed settings.measure settings.boards settings.limit }
{
    let e = area::width(Kit {
        measure: settings.measure,
        n: settings.boards,
    });
    (settings.limit + 4) * e
}

// Whether the area is shorter than that: cause 4.
fn is_short(area: &[u32], settings: Settings) -> bool
    requires { (settings.boards ≤ 32) × (settings.limit ≤ 4096) }
    ensures { result ≡ ltb (length area.now) (needed settings.measure settings.boards settings.limit) }
{
    area.len() < needed_words(settings)
}

// The causes that every recording lent whole is asked first, in their order: 10, 8, 3. Where there is none, its picks.
#[tactic(auto, unfolding(model::specs::Causes::first_of))]
pub fn lent_verdict(words: &[u32], n: usize) -> Result<LentPicks<'_>, Refusal>
    requires { 1 ≤ n }
    ensures verdict { verdict_says result ≡ first_of (lent_causes n words.now) }
    ensures lent { IfOk result (λ l. HasPicks l n words.now) }
{
    if words.len() % n != 0 {
        return Err(Refusal::Shape);
    }
    let lent = LentPicks::new(words, n);
    if lent.m == 0 {
        return Err(Refusal::NoPick);
    }
    if 4096 < lent.m {
        return Err(Refusal::Picks);
    }
    Ok(lent)
}

// ---- opening

#[tactic(auto, unfolding(model::specs::Causes::first_of))]
fn room_verdict(area: &[u32], settings: Settings) -> Result<(), Refusal>
    requires { (settings.boards ≤ 32) × (settings.limit ≤ 4096) }
    ensures { verdict_says result ≡ first_of ((ltb (length area.now) (needed settings.measure settings.boards settings.limit), 4) ∷ []) }
{
    if is_short(area, settings) {
        return Err(Refusal::Room);
    }
    Ok(())
}

// The causes of an opening, in their order: 1, 2, 3, 10, 5, 4. Only measure 2 has a footprint.
#[tactic(auto, unfolding(model::specs::Causes::first_of, model::specs::Causes::between, crate::specs::Verdicts::open_verdict))]
pub fn open_verdict(settings: Settings, footprint: &[u32], area: &[u32]) -> Result<(), Refusal>
    ensures { verdict_says result ≡ open_verdict settings.boards settings.measure settings.limit footprint.now area.now }
{
    if !model::is_between(2, settings.boards, 32) {
        return Err(Refusal::Boards);
    }
    if !model::is_between(1, settings.measure, 4) {
        return Err(Refusal::Measure);
    }
    if !model::is_between(1, settings.limit, 4096) {
        return Err(Refusal::Picks);
    }
    if settings.measure != 2 {
        return room_verdict(area, settings);
    }
    if footprint.len() != settings.boards {
        return Err(Refusal::Shape);
    }
    if !checks::is_clean(footprint) {
        return Err(Refusal::Forbidden);
    }
    room_verdict(area, settings)
}

// ---- pick

// Whether the footprint in part limit + 3 has every link of a pick.
#[tactic(auto, using(measures::proofs::Words::size_links, crate::proofs::Verdicts::third_part))]
fn is_listed(area: &[u32], words: &[u32], settings: Settings) -> bool
    requires { (settings.boards ≤ 32) × (settings.limit ≤ 4096) × (settings.measure ≡ 2) × (settings.boards ≡ length words.now)
        × (needed settings.measure settings.boards settings.limit ≤ length area.now) }
    ensures { result ≡ listed settings.boards (table_at (kit settings.measure settings.boards) area.now (settings.limit + 3)) words.now }
{
    let kit = Kit {
        measure: settings.measure,
        n: settings.boards,
    };
    checks::is_listed(area::table(area, kit, settings.limit + 3), words)
}

// The causes of a pick, in their order: 16, 7, 10, 5, 4, 6.
#[tactic(auto, unfolding(model::specs::Causes::first_of, crate::specs::Verdicts::pick_verdict))]
pub fn pick_verdict(p: Place, area: &[u32], words: &[u32]) -> Result<(), Refusal>
    ensures { verdict_says result ≡ pick_verdict p area.now words.now }
{
    if !p.is_sound() {
        return Err(Refusal::BadPlace);
    }
    if p.settings.limit <= p.window.taken.0 {
        return Err(Refusal::Full);
    }
    if words.len() != p.settings.boards {
        return Err(Refusal::Shape);
    }
    if !checks::is_clean(words) {
        return Err(Refusal::Forbidden);
    }
    if is_short(area, p.settings) {
        return Err(Refusal::Room);
    }
    if p.settings.measure != 2 {
        return Ok(());
    }
    if !is_listed(area, words, p.settings) {
        return Err(Refusal::Unlisted);
    }
    Ok(())
}

// ---- whole run

// The causes after those of every lent recording: 4, 5.
#[tactic(auto, unfolding(model::specs::Causes::first_of))]
fn run_verdict(lent: &LentPicks<'_>, measure: usize, area: &[u32]) -> Result<(), Refusal>
    requires { (lent.now.n ≤ 32) × (lent.now.m ≤ 4096) }
    ensures { verdict_says result ≡ first_of (run_causes lent.now.n measure lent.now.words.now lent.now.m area.now) }
{
    let settings = Settings {
        boards: lent.n,
        measure,
        limit: lent.m,
    };
    if is_short(area, settings) {
        return Err(Refusal::Room);
    }
    if !checks::are_clean(lent) {
        return Err(Refusal::Forbidden);
    }
    Ok(())
}

// The causes of a whole run, in their order: 1, 2, 10, 8, 3, 4, 5. Where there is none, its picks.
#[tactic(auto, unfolding(model::specs::Causes::first_of, model::specs::Causes::between, crate::specs::Verdicts::whole_verdict))]
pub fn whole_verdict<'a>(
    n: usize,
    measure: usize,
    words: &'a [u32],
    area: &[u32],
) -> Result<LentPicks<'a>, Refusal>
    ensures verdict { verdict_says result ≡ whole_verdict n measure words.now area.now }
    ensures lent { IfOk result (λ l. HasPicks l n words.now) }
{
    if !model::is_between(2, n, 32) {
        return Err(Refusal::Boards);
    }
    if !model::is_between(1, measure, 4) {
        return Err(Refusal::Measure);
    }
    let lent = lent_verdict(words, n)?;
    run_verdict(&lent, measure, area)?;
    Ok(lent)
}

// ---- a window length

// The cause of a window length k where m picks are lent: 17.
#[tactic(auto, unfolding(model::specs::Causes::first_of))]
pub fn window_verdict(k: usize, m: usize) -> Result<(), Refusal>
    ensures { verdict_says result ≡ first_of (window_causes k m) }
{
    if !model::is_between(1, k, m) {
        return Err(Refusal::WindowLength);
    }
    Ok(())
}
