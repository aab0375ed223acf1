// Parts of a lent area: part i, of E words, begins at word (i - 1) × E, for i from 1 on. Each function but `zero_first` changes one part at most. A part is
// found by E and its table lent by the table's own size, which is as large today.
#![tactic(auto)]

ghost use Rattle.std.specs.Prelude.{◌≡◌, ◌≢◌, ◌+◌, ◌-◌, ◌*◌, ◌^◌, ◌≤◌, ◌<◌, length};
ghost use Rattle.measures.specs.Kit.{pass_of};
ghost use Rattle.measures.specs.Meant.{meant};
ghost use Rattle.area.specs.Parts.{part_size, Has, table_at, put_table, compose_at, copy_at, zero_at, own_at, zeroed};

use measures::Kit;
use model::Pick;

// E: the words of a part.
#[tactic(auto, unfolding(crate::specs::Parts::stored_size))]
pub fn width(kit: Kit) -> usize
    ensures words { result ≡ part_size (meant kit) }
    ensures most { result ≤ 2048 }
{
    kit.size()
}

// The word that part d begins at: the one place that says which.
#[tactic(auto, using(crate::proofs::Lent::fits, crate::proofs::Lent::table_inside))]
pub fn start(area: &[u32], kit: Kit, d: usize) -> usize
    requires { Has (part_size (meant kit)) (length area.now) d }
    ensures first { result ≡ (d - 1) * part_size (meant kit) }
    ensures part { result + part_size (meant kit) ≤ length area.now }
    ensures table { result + (meant kit).size ≤ length area.now }
{
    (d - 1) * width(kit)
}

// The table of part d, as it stands.
#[tactic(auto, using(crate::proofs::Stored::table_lent))]
pub fn table(area: &[u32], kit: Kit, d: usize) -> &[u32]
    requires { Has (part_size (meant kit)) (length area.now) d }
    ensures table { result.now ≡ table_at (meant kit) area.now d }
    ensures size { length result.now ≡ (meant kit).size }
{
    let k = kit.size();
    let at = start(area, kit, d);
    &area[at..at + k]
}

// ---- one part written

// Calls f with the table of part d, to be written. A closure, and not the slice as the result: of a slice that is handed out the checker does not know what
// the area becomes when it is written.
fn on_table<F: FnOnce(&mut [u32])>(area: &mut [u32], kit: Kit, d: usize, f: F)
    requires part { Has (part_size (meant kit)) (length area.old) d }
    requires accepts { (x : _) → (meant kit).size ≡ length x.now → F.pre f x }
    ensures { (x : _) × (z : _) × F.post f x tt z × (x.now ≡ table_at (meant kit) area.old d)
        × (length x.now ≡ (meant kit).size) × (area.new ≡ put_table (meant kit) area.old d z.now) }
{
    let k = kit.size();
    let at = start(area, kit, d);
    f(&mut area[at..at + k]);
}

// The words become the table of part d.
pub fn put_table(area: &mut [u32], words: &[u32], kit: Kit, d: usize)
    requires { ((meant kit).size ≡ length words.now) × Has (part_size (meant kit)) (length area.old) d }
    ensures { area.new ≡ put_table (meant kit) area.old d words.now }
{
    on_table(area, kit, d, |t| t.copy_from_slice(words));
}

// Composes words, the later table, onto the table of part d, the earlier: for the measures whose tables compose word by word.
#[tactic(auto, using(crate::proofs::Lent::links_join))]
fn compose_with(area: &mut [u32], words: &[u32], kit: Kit, d: usize)
    requires { (kit.measure ≢ 4) × (kit.measure ≢ 3) × ((meant kit).size ≤ length words.now) × Has (part_size (meant kit)) (length area.old) d }
    ensures { area.new
        ≡ put_table (meant kit) area.old d ((meant kit).join (table_at (meant kit) area.old d) words.now) }
{
    on_table(
        area,
        kit,
        d,
        |t| measures::compose_words(t, words, kit.measure),
    );
}

// Composes the table of part d onto itself, from a copy: no part is lent twice.
#[tactic(auto, unfolding(crate::specs::Parts::compose_at))]
fn compose_itself(area: &mut [u32], kit: Kit, d: usize)
    requires { Has (part_size (meant kit)) (length area.old) d }
    ensures { area.new ≡ compose_at (meant kit) area.old d d d }
{
    let k = kit.size();
    let mut copy = lists::zeroed::<2048>();
    let right = &mut copy[..k];
    right.copy_from_slice(table(area, kit, d));
    on_table(area, kit, d, |left| kit.compose(left, right));
}

// Calls f with the table of part d, to be written, and that of part r, to be read: the area is cut between the two, so that both are lent at the same time.
// Each branch asks where the parts begin: asked before the two, a pick of measures 1 and 2 costs up to 19 instructions more.
fn on_tables<F: FnOnce(&mut [u32], &[u32])>(area: &mut [u32], kit: Kit, d: usize, r: usize, f: F)
    requires parts { (d ≢ r) × Has (part_size (meant kit)) (length area.old) d × Has (part_size (meant kit)) (length area.old) r }
    requires accepts { (x : _) (y : _) → (meant kit).size ≡ length x.now → (meant kit).size ≡ length y.now → F.pre f x y }
    ensures { (x : _) × (y : _) × (z : _) × F.post f x y tt z × (x.now ≡ table_at (meant kit) area.old d)
        × (y.now ≡ table_at (meant kit) area.old r) × (area.new ≡ put_table (meant kit) area.old d z.now) }
{
    let k = kit.size();
    if d < r {
        let at_d = start(area, kit, d);
        let at_r = start(area, kit, r);
        let (front, back) = area.split_at_mut(at_r);
        f(&mut front[at_d..at_d + k], &back[..k]);
        return;
    }
    let at_r = start(area, kit, r);
    let at_d = start(area, kit, d);
    let (front, back) = area.split_at_mut(at_d);
    f(&mut back[..k], &front[at_r..at_r + k]);
}

// Composes the table of part r, the later, onto that of part d, the earlier.
#[tactic(auto, unfolding(crate::specs::Parts::compose_at))]
pub fn compose_onto(area: &mut [u32], kit: Kit, d: usize, r: usize)
    requires { Has (part_size (meant kit)) (length area.old) d × Has (part_size (meant kit)) (length area.old) r }
    ensures { area.new ≡ compose_at (meant kit) area.old d d r }
{
    if d == r {
        compose_itself(area, kit, d);
        return;
    }
    on_tables(area, kit, d, r, |left, right| kit.compose(left, right));
}

// The same where the table of part r is the own table of pick r. Under measures 1 and 2 that is the pick's words, which are composed from where they are.
#[tactic(auto, using(crate::proofs::Lent::onto_own, crate::proofs::Lent::links_short))]
pub fn compose_own(area: &mut [u32], words: &[u32], kit: Kit, d: usize, r: usize)
    requires { Has (part_size (meant kit)) (length area.old) d × Has (part_size (meant kit)) (length area.old) r
        × (kit.n ≡ length words.now) × (table_at (meant kit) area.old r ≡ (meant kit).own r words.now) }
    ensures { area.new ≡ compose_at (meant kit) area.old d d r }
{
    match kit.measure {
        3 | 4 => compose_onto(area, kit, d, r),
        _ => compose_with(area, words, kit, d),
    }
}

// The table of part l becomes that of part d; d may be l. The copy is one move of memory: `copy_within` goes word by word, which costs twice the
// instructions.
#[tactic(auto, unfolding(crate::specs::Parts::copy_at))]
pub fn copy_part(area: &mut [u32], kit: Kit, d: usize, l: usize)
    requires { Has (part_size (meant kit)) (length area.old) d × Has (part_size (meant kit)) (length area.old) l }
    ensures { area.new ≡ copy_at (meant kit) area.old d l }
{
    if d == l {
        return;
    }
    on_tables(area, kit, d, l, |left, right| left.copy_from_slice(right));
}

// Part d becomes zero.
#[tactic(auto, using(crate::proofs::Lent::zero_put))]
pub fn zero_part(area: &mut [u32], kit: Kit, d: usize)
    requires { Has (part_size (meant kit)) (length area.old) d }
    ensures { area.new ≡ zero_at (meant kit) area.old d }
{
    let e = width(kit);
    let at = start(area, kit, d);
    lists::zero_over(&mut area[at..at + e]);
}

// The pick's own table becomes that of the part of the pick's number.
#[tactic(auto, unfolding(crate::specs::Parts::own_at))]
pub fn own_part(area: &mut [u32], words: &[u32], kit: Kit, pick: Pick)
    requires { (pick.0 < 2 ^ 32) × (kit.n ≡ length words.now) × Has (part_size (meant kit)) (length area.old) pick.0 }
    ensures { area.new ≡ own_at (meant kit) area.old pick.0 words.now }
{
    on_table(area, kit, pick.0, |t| kit.own(t, words, pick));
}

// ---- no part written

// Whether the table of part `window` passes, a round trip turning round in `turn` picks; both tables are lent as they stand.
#[tactic(auto, using(crate::proofs::Lent::size_least))]
pub fn passes_part(area: &[u32], kit: Kit, footprint: usize, window: usize, turn: u32) -> bool
    requires { Has (part_size (meant kit)) (length area.now) footprint × Has (part_size (meant kit)) (length area.now) window }
    ensures { result ≡ pass_of turn kit.measure kit.n (table_at (meant kit) area.now footprint) (table_at (meant kit) area.now window) }
{
    let list = table(area, kit, footprint);
    kit.passes(list, table(area, kit, window), turn)
}

// Whether the composition of the tables of parts l and r would pass under measures 2 and 3: nothing is written.
#[tactic(auto, using(measures::proofs::Words::size_links))]
pub fn joined_passes(area: &[u32], kit: Kit, footprint: usize, l: usize, r: usize) -> bool
    requires { (kit.measure ≢ 4) × (kit.measure ≢ 3 → kit.measure ≡ 2) × Has (part_size (meant kit)) (length area.now) footprint
        × Has (part_size (meant kit)) (length area.now) l × Has (part_size (meant kit)) (length area.now) r }
    ensures { result ≡ (meant kit).pass (table_at (meant kit) area.now footprint)
        ((meant kit).join (table_at (meant kit) area.now l) (table_at (meant kit) area.now r)) }
{
    let earlier = table(area, kit, l);
    let later = table(area, kit, r);
    if kit.measure == 3 {
        return joins::joins_full(earlier, later);
    }
    links::is_union(table(area, kit, footprint), earlier, later)
}

// ---- many parts at once

// The first k words become zero.
#[tactic(auto, using(lists::proofs::Splice::written_first))]
pub fn zero_first(area: &mut [u32], k: usize)
    requires { k ≤ length area.old }
    ensures { area.new ≡ zeroed k area.old }
{
    lists::zero_over(&mut area[0..k]);
}
