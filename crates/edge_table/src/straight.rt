// The rules of a table in straight passes, each over one column. Most tables pass, and a pass that no row ends early takes several
// rows at a time; which row is the lowest bad one is asked only where a pass fails.
ghost use Rattle.std.specs.Prelude.{◌≡◌, true, false, ◌^◌, ◌<◌, ◌≤◌, length};
ghost use Rattle.std.specs.Int.Bits.{bit_xor};
ghost use Rattle.scope.specs.Lists.{passes};
ghost use Rattle.scope.specs.Table.{table, ascends, paired};
ghost use Rattle.edge_table.specs.Straight.{fields_kept, sevens, EdgesKept, side_kept, finite_at, crosses, NoSide, SidesAsk, Columns, NoneBad};

use index::{is_pentagon, resolution};
use row_search::rows_below;
use slices::{at32, get32};
use table_rules::{is_finite, row_paired};

// A one at the lowest bit of each of the fifteen digits.
const ONES: u64 = 0o111_111_111_111_111;

// How the digits 7 of an edge differ from the wanted ones: a digit is 7 where all its three bits are set.
fn sevens_off(x: u64, wanted: u64) -> u64
    ensures { result ≡ bit_xor (sevens x) wanted }
{
    (x & (x >> 1) & (x >> 2) & ONES) ^ wanted
}

// The difference modulo 2^64: of numbers below 2^63 it has the top bit where the first is the lower one.
fn difference(low: u64, high: u64) -> u64
    ensures { 2 ^ 63 ≤ result → low < 2 ^ 63 → low < high }
{
    low.wrapping_sub(high)
}

// The digits 7 of every edge are the wanted ones, and the edges ascend, all below 2^63: the top bit stays where each difference has it
// and no edge has it. What is told is gathered as bits, for a pass that only gathers takes two rows at a time.
fn edges_kept(edges: &[u64], wanted: u64) -> bool
    requires { 0 < length edges.now }
    ensures { result ≡ true → EdgesKept wanted edges.now }
{
    let first = edges[0];
    let mut off = sevens_off(first, wanted);
    let mut rising = u64::MAX - first;
    for i in 1..edges.len() {
        let x = edges[i];
        off |= sevens_off(x, wanted);
        rising = rising & difference(edges[i - 1], x) & (u64::MAX - x);
    }
    (off == 0) & (0x8000_0000_0000_0000 <= rising)
}

fn terms_finite(area: &[f64]) -> bool
    ensures { result ≡ passes (finite_at area.now) (length area.now) }
{
    area.iter().fold(true, |kept, &term| kept & is_finite(term))
}

// The reverse of row `i` is in the second half and names row `i` back.
fn crosses_at(reverse: &[u32], half: usize, i: usize) -> bool
    requires { i < length reverse.now }
    ensures { result ≡ crosses half reverse.now i }
{
    let back = get32(reverse, i);
    (half <= back) & (back < reverse.len()) & (at32(reverse, back) == i)
}

fn halves_cross(reverse: &[u32], half: usize) -> bool
    requires { half ≤ length reverse.now }
    ensures { result ≡ passes (crosses half reverse.now) half }
{
    for i in 0..half {
        if !crosses_at(reverse, half, i) {
            return false;
        }
    }
    true
}

fn each_paired(reverse: &[u32]) -> bool
    ensures { result ≡ passes (paired reverse.now) (length reverse.now) }
{
    (0..reverse.len()).fold(true, |kept, i| kept & row_paired(reverse, i))
}

// Where a table crosses no face of the icosahedron, the reverses of edges 1 to 3 are edges 4 to 6: its first half names its second, and
// that tells of all rows.
fn rows_paired(reverse: &[u32]) -> bool
    ensures { result ≡ passes (paired reverse.now) (length reverse.now) }
{
    let half = reverse.len() / 2;
    if (reverse.len() == 2 * half) & halves_cross(reverse, half) {
        return true;
    }
    each_paired(reverse)
}

// Every edge has the target's resolution and a base cell. Rows in order stand by their top bytes, 17 to 22, and then by these fields: so
// the rows of a top byte begin where those of the one before it end. `block` is the top byte and the resolution.
fn fields_kept(edges: &[u64], target: u64) -> bool
    requires { (passes (ascends edges.now) (length edges.now) ≡ true) × (target < 16) }
    ensures { result ≡ true → passes (fields_kept target edges.now) (length edges.now) ≡ true }
{
    let mut end = 0;
    for top in 17..23 {
        let block = top * 16 + target;
        if rows_below(edges, block * 0x10_0000_0000_0000) != end {
            return false;
        }
        end = rows_below(edges, (block * 128 + 122) * 0x2000_0000_0000);
    }
    end == edges.len()
}

// Whether a row with these fields above its digits is edge 1 of a pentagon. If one is, the first of these rows is: its digits are no higher.
fn side_among(edges: &[u64], fields: u64) -> bool
    requires { (passes (ascends edges.now) (length edges.now) ≡ true) × (fields < 2 ^ 16) }
    ensures { result ≡ false → NoSide edges.now fields }
{
    let low = fields * 0x2000_0000_0000;
    if !is_pentagon(low) {
        return false;
    }
    let row = rows_below(edges, low);
    if edges.len() <= row {
        return false;
    }
    is_pentagon(edges[row]) & (edges[row] >> 56 == 17)
}

// No edge is edge 1 of a pentagon, for any base cell: these have the top byte 17.
fn sides_kept(edges: &[u64], target: u64) -> bool
    requires { SidesAsk edges.now target }
    ensures { result ≡ true → passes (side_kept edges.now) (length edges.now) ≡ true }
{
    !(0..122).any(|base| side_among(edges, (272 + target) * 128 + base))
}

// What the columns tell each by itself, and of the edges' top bytes the first and the last.
fn columns_kept(edges: &[u64], reverse: &[u32], area: &[f64]) -> bool
    requires { 0 < length edges.now }
    ensures { result ≡ true → Columns (table edges.now reverse.now area.now) }
{
    let last = edges.len() - 1;
    let first = edges[0];
    let tops = (17 <= first >> 56) & (edges[last] >> 56 <= 22);
    tops & (terms_finite(area) & rows_paired(reverse))
        & edges_kept(edges, ONES >> (3 * resolution(first)))
}

// No row breaks a rule. Where a pass fails, nothing is said.
pub(crate) fn none_bad(edges: &[u64], reverse: &[u32], area: &[f64]) -> bool
    requires { 0 < length edges.now }
    ensures { result ≡ true → NoneBad (table edges.now reverse.now area.now) }
{
    if !columns_kept(edges, reverse, area) {
        return false;
    }
    let target = resolution(edges[0]) as u64;
    if !fields_kept(edges, target) {
        return false;
    }
    sides_kept(edges, target)
}
