// Sets of boards, as words: which rows of a later table a row of an earlier one takes in.
#![tactic(auto)]

ghost use Rattle.std.specs.Prelude.{◌≡◌, ◌≤◌, ◌<◌, length, get_or};
ghost use Rattle.lists.specs.Tab.{tab, zeros};
ghost use Rattle.times.specs.Times.{cell};
ghost use Rattle.sets.specs.Marks.{marks, some_of, set_of, marked_row, own_row};

use model::Board;
use times::Half;

// The boards at which the row has a time.
#[tactic(auto, using(std::proofs::lemmas::Grind::common_steps), unfolding(crate::specs::Marks::marks))]
fn row_marks(row: &[u32]) -> u32
    requires { length row.now ≤ 32 }
    ensures { result ≡ marks (λ v. get_or row.now v 0) (length row.now) }
{
    let mut set = 0u32;
    for (v, x) in row.iter().enumerate() {
        set |= links::mark_of(*x, Board(v));
    }
    set
}

// The boards whose row holds a time.
#[tactic(auto, unfolding(crate::specs::Marks::some_of, crate::specs::Marks::marks))]
pub fn some_rows(half: &Half<'_>) -> u32
    ensures { result ≡ some_of half.now.n half.now.words.now }
{
    let mut set = 0u32;
    // By number here and below: `chunks_exact` wants n above 0, and costs 2 per cent more instructions.
    for w in 0..half.n {
        set |= links::mark_of(lists::any_of(half.row(Board(w))), Board(w));
    }
    set
}

// What a row takes from the later table: the rows of the boards that it reaches, and of the board itself, but for those without a time.
#[tactic(auto, unfolding(crate::specs::Marks::set_of))]
fn set_of(row: &[u32], some: u32, own: Board) -> u32
    requires { (length row.now ≤ 32) × (own.0 < 32) }
    ensures { result ≡ set_of (λ v. get_or row.now v 0) (length row.now) some own.0 }
{
    links::with_bit(row_marks(row), own) & some
}

// The sets of all rows.
#[tactic(auto, using(lists::proofs::Tab::made_all))]
pub fn write(sets: &mut [u32], half: &Half<'_>, some: u32)
    requires { half.now.n ≡ length sets.old }
    ensures { let n = half.now.n in sets.new ≡ tab (λ u. set_of (cell n half.now.words.now u) n some u) n }
{
    for (u, set) in sets.iter_mut().enumerate() {
        *set = set_of(half.row(Board(u)), some, Board(u));
    }
}

// ---- the sets of columns

// Board b goes into the set of each board at which its row has a time.
#[tactic(auto, using(lists::proofs::Tab::made_all), unfolding(crate::specs::Marks::marked_row))]
fn add_marks(sets: &mut [u32], row: &[u32], b: Board)
    requires { (b.0 < 32) × (length sets.old ≤ length row.now) }
    ensures { sets.new ≡ tab (marked_row sets.old (λ v. get_or row.now v 0) b.0) (length sets.old) }
{
    for (v, set) in sets.iter_mut().enumerate() {
        *set |= links::mark_of(row[v], b);
    }
}

// The boards from which a time leads to each board.
fn column_marks(sets: &mut [u32], half: &Half<'_>)
    requires { (sets.old ≡ zeros half.now.n) × (half.now.n ≡ length sets.old) }
    ensures { let n = half.now.n in sets.new ≡ tab (λ u. marks (λ w. cell n half.now.words.now w u) n) n }
{
    for w in 0..half.n {
        add_marks(sets, half.row(Board(w)), Board(w));
    }
}

// Each set with its own board, but for those that are not in some.
#[tactic(auto, using(lists::proofs::Tab::made_all), unfolding(crate::specs::Marks::own_row))]
fn with_own(sets: &mut [u32], some: u32)
    requires { length sets.old ≤ 32 }
    ensures { sets.new ≡ tab (own_row sets.old some) (length sets.old) }
{
    for (u, set) in sets.iter_mut().enumerate() {
        *set = links::with_bit(*set, Board(u)) & some;
    }
}

// The sets of all columns.
pub fn write_columns(sets: &mut [u32], half: &Half<'_>, some: u32)
    requires { half.now.n ≡ length sets.old }
    ensures { let n = half.now.n in sets.new ≡ tab (λ u. set_of (λ w. cell n half.now.words.now w u) n some u) n }
{
    lists::zero_over(sets);
    column_marks(sets, half);
    with_own(sets, some);
}

// ---- sets that are the same

// The first row with the same set as row u.
pub fn first_same(sets: &[u32], u: usize) -> usize
    requires { u < length sets.now }
    ensures { (result ≤ u) × (get_or sets.now result 0 ≡ get_or sets.now u 0) }
{
    let set = sets[u];
    sets[..u]
        .iter()
        .position(|other| *other == set)
        .unwrap_or(u)
}
