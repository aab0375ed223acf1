// The pairs of boards that are joined: over two parts of a recording, by the composition of measure 3, and within one pick, its own table. A table
// is that of `links`: n words, 2 to 32, bit v of word u for the pair u, v. Words are taken as they are found.
#![tactic(auto)]

ghost use Rattle.std.specs.Prelude.{◌≡◌, [], ◌+◌, ◌*◌, ◌/◌, ◌%◌, ◌^◌, ◌≤◌, ◌<◌, length, get_or};
ghost use Rattle.model.specs.Journey.{most_links};
ghost use Rattle.lists.specs.Tab.{tab, zeros, splice, every};
ghost use Rattle.links.specs.Tables.{union, gathered, through_row, compose, within, full};
ghost use Rattle.joins.specs.Columns.{column_row, columns_row};
ghost use Rattle.joins.specs.LookUps.{unions_of, tables_from, looked_word, looked_row, looked_full};
ghost use Rattle.joins.specs.Warshall.{pass, passes, clear_row, Into};

use model::Board;

// The bits of the boards' own links are cleared.
#[tactic(auto, using(lists::proofs::Tab::made_all), unfolding(crate::specs::Warshall::clear_row))]
fn clear_own(t: &mut [u32])
    requires { length t.old ≤ 32 }
    ensures { t.new ≡ tab (clear_row t.old) (length t.old) }
{
    for (u, row) in t.iter_mut().enumerate() {
        *row = links::cleared(*row, Board(u));
    }
}

// ---- two parts: the composition of measure 3

// The word x, united with each row that l has the bit of.
#[tactic(auto, using(std::proofs::lemmas::Grind::common_steps), unfolding(links::specs::Tables::gathered, model::specs::Recording::bit))]
fn with_rows(x: u32, l: u32, rows: &[u32]) -> u32
    requires { length rows.now ≤ 32 }
    ensures { result ≡ gathered x l rows.now (length rows.now) }
{
    let mut all = x;
    for (k, row) in rows.iter().enumerate() {
        all |= lists::keep(*row, links::linked(l, Board(k)));
    }
    all
}

// The columns of N boards from b on: what each of them reaches in the later part goes to every board that reaches it in the earlier one. More than one
// at once, so that each word of out is read and written once for them.
#[tactic(auto, using(crate::proofs::Rows::some_columns), unfolding(crate::specs::Columns::columns_row))]
fn add_some<const N: usize>(out: &mut [u32], left: &[u32], right: &[u32], b: Board)
    requires { (b.0 < 32) × (b.0 + N ≤ 32) × (length out.old ≤ length left.now) × (b.0 + N ≤ length right.now) }
    ensures { out.new ≡ tab (columns_row out.old left.now right.now b.0 N) (length out.old) }
{
    let w = b.0;
    let rows = &right[w..w + N];
    if lists::any_of(rows) == 0 {
        return;
    }
    for (u, word) in out.iter_mut().enumerate() {
        *word = with_rows(*word, left[u] >> w, rows);
    }
}

// The columns of the boards below the number returned, as many as go by fours.
#[tactic(auto, using(crate::proofs::Rows::column_turns))]
fn add_fours(out: &mut [u32], left: &[u32], right: &[u32]) -> usize
    requires { (length out.old ≤ 32) × (out.old ≡ union (length out.old) left.now right.now)
        × (length out.old ≤ length left.now) × (length out.old ≤ length right.now) }
    ensures { (result ≤ length out.old) × (out.new ≡ tab (through_row left.now right.now result) (length out.old)) }
{
    let n = out.len();
    let mut w = 0;
    // By hand: a `for` over the fours costs 2 per cent more instructions.
    while w + 4 <= n {
        add_some::<4>(out, left, right, Board(w));
        w += 4;
    }
    w
}

// The columns of all boards.
#[tactic(auto, using(crate::proofs::Rows::column_turns))]
fn add_columns(out: &mut [u32], left: &[u32], right: &[u32])
    requires { (length out.old ≤ 32) × (out.old ≡ union (length out.old) left.now right.now)
        × (length out.old ≤ length left.now) × (length out.old ≤ length right.now) }
    ensures { out.new ≡ tab (through_row left.now right.now (length out.old)) (length out.old) }
{
    let n = out.len();
    let from = add_fours(out, left, right);
    // By number: the rest of a slice would count from 0 again.
    for w in from..n {
        add_some::<1>(out, left, right, Board(w));
    }
}

// The composition by columns: the union, and the pairs that are joined over some board. The earlier part is lent a second time, as it was.
#[tactic(auto, using(crate::proofs::Rows::clear_through))]
fn join_columns(out: &mut [u32], left: &[u32], right: &[u32])
    requires { (length out.old ≤ 32) × (out.old ≡ left.now) × (length out.old ≤ length right.now) }
    ensures { out.new ≡ compose (length out.old) left.now right.now }
{
    links::unite_into(out, right);
    add_columns(out, left, right);
    clear_own(out);
}

// The unions of rows k to k + 3: entry i has the union of those that i has the bit of, so that four boards of a row cost one look-up.
fn unions(rows: &[u32; 32], k: usize) -> [u32; 16]
    requires { k + 4 ≤ 32 }
    ensures { result ≡ unions_of rows.now k }
{
    let a = rows[k];
    let b = rows[k + 1];
    let c = rows[k + 2];
    let d = rows[k + 3];
    let ab = a | b;
    let ac = a | c;
    let bc = b | c;
    let abc = ab | c;
    [
        0,
        a,
        b,
        ab,
        c,
        ac,
        bc,
        abc,
        d,
        a | d,
        b | d,
        ab | d,
        c | d,
        ac | d,
        bc | d,
        abc | d,
    ]
}

// The tables of all rows, four by four. Rows of zero add nothing.
fn tables(rows: &[u32; 32]) -> [[u32; 16]; 8]
    ensures { result ≡ tables_from rows.now 0 8 }
{
    let mut ts = [[0; 16]; 8];
    for (j, table) in ts.iter_mut().enumerate() {
        *table = unions(rows, 4 * j);
    }
    ts
}

// What the four bits of `row` from bit 4 j on find in table j.
fn look_up(table: &[u32; 16], row: u32, j: usize) -> u32
    requires { j < 8 }
    ensures { result ≡ get_or table.now (row / 2 ^ (4 * j) % 16) 0 }
{
    let i = (row >> (4 * j)) % 16;
    table[i as usize]
}

// The word x of board b with its own bit, which leads on to its row in the later part, and what the eight tables have for it.
#[tactic(auto, using(crate::proofs::LookUps::looked_turns))]
fn through(x: u32, b: Board, ts: &[[u32; 16]; 8]) -> u32
    requires { b.0 < 32 }
    ensures { result ≡ looked_word ts.now x b.0 }
{
    let row = links::with_bit(x, b);
    let mut all = row;
    for (j, table) in ts.iter().enumerate() {
        all |= look_up(table, row, j);
    }
    all
}

// The rows of the composition, each from its own word alone, and so in place.
#[tactic(auto, using(lists::proofs::Tab::made_all), unfolding(crate::specs::LookUps::looked_row))]
fn join_rows(t: &mut [u32], ts: &[[u32; 16]; 8])
    requires { length t.old ≤ 32 }
    ensures { t.new ≡ tab (looked_row ts.now t.old) (length t.old) }
{
    for (u, row) in t.iter_mut().enumerate() {
        *row = links::cleared(through(*row, Board(u), ts), Board(u));
    }
}

// The composition by tables of unions, in place.
#[tactic(auto, using(crate::proofs::LookUps::look_ups))]
fn join_tables(t: &mut [u32], right: &[u32])
    requires { (length t.old ≤ 32) × (length t.old ≡ length right.now) }
    ensures { t.new ≡ compose (length t.old) t.old right.now }
{
    let later = lists::load(right);
    let ts = tables(&later);
    join_rows(t, &ts);
}

// How many rows have links.
fn filled(t: &[u32]) -> usize {
    let mut k = 0usize;
    // `filter` and `count` cost more than twice the instructions.
    for row in t {
        k += usize::from(*row != 0);
    }
    k
}

// The later part is composed onto t, the earlier one. Where few of its rows have links, their columns cost less than the tables; they read the
// earlier part as it was, so it is copied first.
#[tactic(auto, using(crate::proofs::LookUps::lent_words))]
pub fn join_over(t: &mut [u32], right: &[u32])
    requires { (length t.old ≤ 32) × (length t.old ≡ length right.now) }
    ensures { t.new ≡ compose (length t.old) t.old right.now }
{
    if filled(right) <= 8 {
        let before = lists::load(t);
        join_columns(t, &before[..right.len()], right);
    } else {
        join_tables(t, right);
    }
}

// Whether every row of the composition has the bits of all boards, its own counted in. The first that lacks one ends it.
#[tactic(auto, using(crate::proofs::LookUps::full_turns))]
fn are_full(left: &[u32], ts: &[[u32; 16]; 8]) -> bool
    requires { length left.now ≤ 32 }
    ensures { result ≡ every (looked_full (length left.now) ts.now left.now) (length left.now) }
{
    let all = links::low_bits(left.len());
    // By `all` over the numbers measure 3 costs 2 instructions a pick more where a recording is given whole.
    for (u, row) in left.iter().enumerate() {
        if through(*row, Board(u), ts) & all != all {
            return false;
        }
    }
    true
}

// Whether the composition marks every ordered pair of different boards, without writing it.
#[tactic(auto, using(crate::proofs::LookUps::look_ups))]
pub fn joins_full(left: &[u32], right: &[u32]) -> bool
    requires { (length left.now ≤ 32) × (length left.now ≡ length right.now) }
    ensures { result ≡ full (length left.now) (compose (length left.now) left.now right.now) }
{
    let later = lists::load(right);
    let ts = tables(&later);
    are_full(left, &ts)
}

// ---- a pick's own table

// Each row that links to b takes in b's row.
#[tactic(auto, using(crate::proofs::Rows::columns), unfolding(crate::specs::Columns::column_row, model::specs::Recording::link, model::specs::Recording::bit))]
fn pass_over(t: &mut [u32], b: Board)
    requires { (length t.old ≤ 32) × (b.0 < length t.old) }
    ensures { t.new ≡ pass (length t.old) t.old b.0 }
{
    let w = b.0;
    let row = t[w];
    if row == 0 {
        return;
    }
    for word in t.iter_mut() {
        *word |= lists::keep(row, links::linked(*word, b));
    }
}

// The same; where no row links to b it is left out.
#[tactic(auto, using(crate::proofs::Closure::no_pass))]
fn pass_if(t: &mut [u32], into: u32, b: Board)
    requires { (length t.old ≤ 32) × ((b.0 < length t.old) × Into (length t.old) t.old into) }
    ensures { t.new ≡ pass (length t.old) t.old b.0 }
{
    if links::linked(into, b) {
        pass_over(t, b);
    }
}

// A pass leads to no board that no link led to before, so the boards that some link leads to are looked up once.
#[tactic(auto, using(crate::proofs::Everywhere::pass_turns), unfolding(crate::specs::Warshall::passes))]
fn pass_over_all(t: &mut [u32])
    requires { length t.old ≤ 32 }
    ensures { t.new ≡ passes (length t.old) t.old (length t.old) }
{
    let into = lists::any_of(t);
    // By board: each pass changes the whole table.
    for w in 0..t.len() {
        pass_if(t, into, Board(w));
    }
}

// The pairs joined within one pick, by Warshall's method, which knows no limit.
#[tactic(auto, using(crate::proofs::Closure::closes), unfolding(crate::specs::Warshall::closed))]
fn close_by_passes(t: &mut [u32])
    requires { length t.old ≤ 32 }
    ensures { t.new ≡ within (length t.old) most_links t.old }
{
    pass_over_all(t);
    clear_own(t);
}

// The pairs joined within one pick. Where links lead from every board to every other, each gets to all boards that some link leads to: two
// searches tell, and no pass is made.
#[tactic(auto, using(crate::proofs::Everywhere::everywhere_closed))]
fn close(t: &mut [u32])
    requires { length t.old ≤ 32 }
    ensures { t.new ≡ within (length t.old) most_links t.old }
{
    if searches::is_connected(t) {
        let boards = lists::any_of(t);
        links::fill_rows(t, boards);
    } else {
        close_by_passes(t);
    }
}

// The pairs joined within the pick of the words, over out.
pub fn close_over(out: &mut [u32], words: &[u32])
    requires { (length words.now ≤ 32) × (length out.old ≡ length words.now) }
    ensures { out.new ≡ within (length words.now) most_links words.now }
{
    out.copy_from_slice(words);
    close(out);
}

// The pairs joined within the pick of the words, by value, and zeros up to 32.
#[tactic(auto, using(std::proofs::lemmas::Grind::common_steps), unfolding(lists::specs::Tab::splice))]
pub fn closed_words(words: &[u32]) -> [u32; 32]
    requires { length words.now ≤ 32 }
    ensures { result ≡ splice 0 (length words.now) (within (length words.now) most_links words.now) (zeros 32) }
{
    let mut t = lists::load(words);
    close(&mut t[..words.len()]);
    t
}
