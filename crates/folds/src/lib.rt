// The composition of tables of times. A table is crossed with a later one row by row: what row u takes from the later table depends only on
// which boards u reaches, so rows with the same set of boards share one fold over the later table. Latest departures are the same, with
// rows and columns exchanged and the two parts too. The composition is written over the earlier part.
// Rows of a table go by number: `chunks_exact` wants n above 0, and what it lends for writing is lost to the proof.
#![tactic(auto)]

ghost use Rattle.std.specs.Prelude.{◌≡◌, Bool, ◌+◌, ◌*◌, ◌^◌, ◌<◌, ◌≤◌, true, false, length, slice_index};
ghost use Rattle.lists.specs.Tab.{tab, splice};
ghost use Rattle.times.specs.Times.{cell, rows, times_words, departures, compose_times};
ghost use Rattle.folds.specs.Folds.{each, better, row_at, gather, with_fold, fold_of, joined_row, transposed, column_set, crossed, Small, Shared};

use model::Board;
use times::{Half, Table};

// ---- a row taken in

// Which of two times is the better one: for departures the later one, for arrivals the earlier one.
trait Best {
    ghost late: { Bool };

    fn best(x: u32, y: u32) -> u32
        ensures { result ≡ better late x y };
}

struct Earliest;

impl Best for Earliest {
    ghost late = { false };

    // Less one, where 0 becomes the largest word, the earlier is the smaller: one comparison and a select.
    #[tactic(auto, using(crate::proofs::Better::bests))]
    fn best(x: u32, y: u32) -> u32 {
        if x.wrapping_sub(1) <= y.wrapping_sub(1) {
            x
        } else {
            y
        }
    }
}

struct Latest;

impl Best for Latest {
    ghost late = { true };

    #[tactic(auto, using(crate::proofs::Better::bests))]
    fn best(x: u32, y: u32) -> u32 {
        x.max(y)
    }
}

// The words of row join those of out.
#[tactic(auto, using(lists::proofs::Tab::made_all))]
fn fold<B: Best>(out: &mut [u32], row: &[u32])
    requires { length out.old ≤ length row.now }
    ensures { out.new ≡ tab (each (better B.late) out.old row.now) (length out.old) }
{
    for (v, x) in out.iter_mut().enumerate() {
        *x = B::best(*x, row[v]);
    }
}

// ---- folds

// Takes in the rows of the boards of a set.
fn fold_set<B: Best>(out: &mut [u32], later: &Half<'_>, set: u32)
    requires { (set < 2 ^ later.now.n) × (later.now.n ≡ length out.old) }
    ensures { let n = later.now.n in out.new ≡ tab (with_fold B.late n later.now.words.now set out.old) n }
{
    let mut rest = set;
    // An iterator over the boards of a set costs 1 per cent more instructions.
    while rest != 0 {
        let w = links::board_in(rest);
        fold::<B>(out, later.row(Board(w)));
        rest = links::cleared(rest, Board(w));
    }
}

// The fold of one set: its first row, with the others.
#[tactic(auto, using(crate::proofs::Gathered::first_rows))]
fn fold_row<B: Best>(out: &mut [u32], later: &Half<'_>, set: u32)
    requires { (set < 2 ^ later.now.n) × (later.now.n ≡ length out.old) }
    ensures { let n = later.now.n in out.new ≡ tab (gather B.late n later.now.words.now set n) n }
{
    if set == 0 {
        lists::zero_over(out);
    } else {
        let w = links::board_in(set);
        out.copy_from_slice(later.row(Board(w)));
        fold_set::<B>(out, later, links::cleared(set, Board(w)));
    }
}

// Row d becomes row l, which is before it.
#[tactic(auto, using(std::proofs::lemmas::Grind::common_steps), unfolding(lists::specs::Tab::splice))]
fn share(folds: &mut [u32], n: usize, d: Board, l: Board)
    requires { (n ≤ 32) × ((l.0 < d.0) × ((d.0 < n) × (n * n ≤ length folds.old))) }
    ensures { folds.new ≡ splice (d.0 * n) n (row_at n folds.old l.0) folds.old }
{
    let from = l.0 * n;
    let (before, rest) = folds.split_at_mut(d.0 * n);
    rest[..n].copy_from_slice(&before[from..from + n]);
}

// The fold of row u: that of an earlier row with the same set, where there is one.
fn write_fold<B: Best>(folds: &mut [u32], later: &Half<'_>, sets: &[u32], own: Board)
    requires { Shared B.late later.now.n later.now.words.now sets.now own.0 folds.old }
    ensures { let n = later.now.n in folds.new ≡ splice (own.0 * n) n (tab (fold_of B.late n later.now.words.now sets.now own.0) n) folds.old }
{
    let n = later.n;
    let u = own.0;
    let k = sets::first_same(sets, u);
    if k < u {
        share(folds, n, own, Board(k));
    } else {
        let at = u * n;
        fold_row::<B>(&mut folds[at..at + n], later, sets[u]);
    }
}

// The folds of all rows.
fn fold_rows<B: Best>(folds: &mut [u32], later: &Half<'_>, sets: &[u32])
    requires { let n = later.now.n in (n ≤ length sets.now) × (n * n ≡ length folds.old) × Small n sets.now }
    ensures { let n = later.now.n in folds.new ≡ rows n (fold_of B.late n later.now.words.now sets.now) n }
{
    for u in 0..later.n {
        write_fold::<B>(folds, later, sets, Board(u));
    }
}

// A row takes in its fold, and has no time for the board itself.
#[tactic(auto, using(times::proofs::Rows::row_last))]
fn take_fold<B: Best>(row: &mut [u32], joined: &[u32], own: Board)
    requires { (own.0 < length row.old) × (length row.old ≤ length joined.now) }
    ensures { row.new ≡ tab (joined_row B.late (λ v. slice_index row.old v) (λ v. slice_index joined.now v) own.0) (length row.old) }
{
    let u = own.0;
    fold::<B>(row, joined);
    row[u] = 0;
}

// All rows do, where they stand.
fn fold_over<B: Best>(half: &mut [u32], folds: &Half<'_>)
    requires { folds.now.n * folds.now.n ≡ length half.old }
    ensures { let n = folds.now.n in half.new ≡ rows n (λ u. joined_row B.late (cell n half.old u) (cell n folds.now.words.now u) u) n }
{
    let n = folds.n;
    for u in 0..n {
        let at = u * n;
        take_fold::<B>(&mut half[at..at + n], folds.row(Board(u)), Board(u));
    }
}

// ---- arrivals

// Earliest arrivals, over those of the earlier part: the folds are made before its rows are written. Room is lent for the sets and the folds.
fn arrive(half: &mut [u32], later: &Half<'_>, sets: &mut [u32], folds: &mut [u32])
    requires { let n = later.now.n in (n * n ≡ length half.old) × (n ≡ length sets.old) × (n * n ≡ length folds.old) }
    ensures { let n = later.now.n in half.new ≡ rows n (crossed false n half.old later.now.words.now) n }
{
    let n = later.n;
    let some = sets::some_rows(later);
    sets::write(sets, &Half { words: half, n }, some);
    fold_rows::<Earliest>(folds, later, sets);
    fold_over::<Earliest>(half, &Half { words: folds, n });
}

// ---- rows and columns exchanged

// Column u of half.
#[tactic(auto, using(lists::proofs::Tab::made_all))]
fn transpose_row(out: &mut [u32], half: &Half<'_>, own: Board)
    requires { (own.0 < half.now.n) × (half.now.n ≡ length out.old) }
    ensures { let n = half.now.n in out.new ≡ tab (λ v. cell n half.now.words.now v own.0) n }
{
    for (v, x) in out.iter_mut().enumerate() {
        *x = half.at(Board(v), own);
    }
}

fn transpose(out: &mut [u32], half: &Half<'_>)
    requires { half.now.n * half.now.n ≡ length out.old }
    ensures { let n = half.now.n in out.new ≡ rows n (transposed n half.now.words.now) n }
{
    let n = half.n;
    for u in 0..n {
        let at = u * n;
        transpose_row(&mut out[at..at + n], half, Board(u));
    }
}

// ---- departures

// The earlier part transposed, in far, and the sets of the columns of the later part.
fn column_sets(sets: &mut [u32], far: &mut [u32], left: &Half<'_>, right: &Half<'_>)
    requires { let n = right.now.n in (left.now.n ≡ n) × (n ≡ length sets.old) × (n * n ≡ length far.old) }
    ensures { let n = right.now.n in (far.new ≡ rows n (transposed n left.now.words.now) n) × (sets.new ≡ tab (column_set n right.now.words.now far.new) n) }
{
    transpose(far, left);
    let some = sets::some_rows(&Half {
        words: far,
        n: left.n,
    });
    sets::write_columns(sets, right, some);
}

// Latest departures, over those of the earlier part: columns for rows, and the later part for the earlier. Room is lent for the sets and for
// a transposed table: first that of the earlier part, before the folds are made over it in half, then that of the folds, which take in the
// later part's rows.
fn depart(half: &mut [u32], right: &Half<'_>, sets: &mut [u32], far: &mut [u32])
    requires { let n = right.now.n in (n * n ≡ length half.old) × (n ≡ length sets.old) × (n * n ≡ length far.old) }
    ensures { half.new ≡ departures right.now.n half.old right.now.words.now }
{
    let n = right.n;
    column_sets(sets, far, &Half { words: half, n }, right);
    fold_rows::<Latest>(half, &Half { words: far, n }, sets);
    transpose(far, &Half { words: half, n });
    fold_over::<Latest>(far, right);
    half.copy_from_slice(far);
}

// ---- composition

// Both halves, with room lent for sets and for a table.
#[tactic(auto, using(crate::proofs::Gathered::composed))]
fn compose_in(t: &mut [u32], right: &Table<'_>, sets: &mut [u32], room: &mut [u32])
    requires { let n = right.now.n in (times_words n ≡ length t.old) × (n ≡ length sets.old) × (n * n ≡ length room.old) }
    ensures { t.new ≡ compose_times right.now.n t.old right.now.words.now }
{
    let (arrivals, departures) = t.split_at_mut(right.n * right.n);
    arrive(arrivals, &right.arrivals(), sets, room);
    depart(departures, &right.departures(), sets, room);
}

// t, the earlier part, becomes its composition with right, the later part.
pub fn compose_over(t: &mut [u32], right: &Table<'_>)
    requires { times_words right.now.n ≡ length t.old }
    ensures { t.new ≡ compose_times right.now.n t.old right.now.words.now }
{
    let n = right.n;
    let mut sets = lists::zeroed::<32>();
    let mut room = lists::zeroed::<1024>();
    compose_in(t, right, &mut sets[..n], &mut room[..n * n]);
}
