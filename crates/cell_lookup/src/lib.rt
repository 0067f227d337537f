// A cell looked up among others: along the held ones, or by halving through the indices of a part of a list in order.
#![tactic(auto)]

ghost use Rattle.std.specs.Prelude.{◌≡◌, length};
ghost use Rattle.scope.specs.Answers.{found_below};
ghost use Rattle.scope.specs.Lists.{at, first_bad, passes};
ghost use Rattle.scope.specs.CellLists.{differs, not_under, not_over};
ghost use Rattle.cell_lookup.specs.Order.{key_of};
ghost use Rattle.cell_lookup.specs.Lookup.{Ascending, PlaceIn, key_below, new_to, LookedUp, clear_of, LookedOver, top_over};

use index::lies_under;
use slices::get32;

// None of the held cells is x.
pub fn is_unheld(held: &[u64], x: u64) -> bool
    ensures { result ≡ passes (differs held.now x) (length held.now) }
{
    !held.contains(&x)
}

// x lies under none of the held cells.
pub fn lies_under_none(held: &[u64], x: u64) -> bool
    ensures { result ≡ passes (not_under held.now x) (length held.now) }
{
    !held.iter().any(|&over| lies_under(x, over))
}

// The place of the lowest held cell that lies under x.
pub fn first_under(held: &[u64], x: u64) -> Option<usize>
    ensures { result ≡ found_below (length held.now) (first_bad (not_over held.now x) (length held.now)) }
{
    held.iter().position(|&under| lies_under(under, x))
}

// A cell's base cell and digits. Its descendants stand right before it, and no other valid cell has the same:
// the resolution can be read off the digits.
pub fn key(x: u64) -> u64
    ensures { result ≡ key_of x }
{
    x % 0x10_0000_0000_0000
}

// The key of cell `j` of the part, 0 where there is none.
fn key_at(part: &[u64], j: u32) -> u64
    ensures { result ≡ key_of (at part.now j) }
{
    part.get(j as usize).map_or(0, |&cell| key(cell))
}

// The first place whose cell does not stand before x; the number of cells where there is none.
fn first_from(order: &[u32], part: &[u64], x: u64) -> usize
    requires { Ascending part.now order.now }
    ensures { result ≡ first_bad (key_below part.now order.now x) (length part.now) }
{
    order[..part.len()].partition_point(|&j| key_at(part, j) < key(x))
}

// None of the first `count` cells of the part is x. Of equal cells the one with the lowest index stands first.
pub fn is_new(order: &[u32], part: &[u64], x: u64, count: usize) -> bool
    requires { LookedUp part.now order.now x }
    ensures { result ≡ new_to part.now x count }
{
    let p = first_from(order, part, x);
    if part.len() <= p {
        return true;
    }
    let j = get32(order, p);
    (part[j] != x) | (count <= j)
}

// x lies under no cell of the part: if it lies under any, then under the first that is named from its place on.
pub fn is_clear(raised: &[u32], part: &[u64], x: u64) -> bool
    requires { LookedOver part.now raised.now x }
    ensures { result ≡ clear_of part.now x }
{
    let p = first_from(raised, part, x);
    if part.len() <= p {
        return true;
    }
    let j = get32(raised, p);
    !lies_under(x, part[j])
}

// The index at place `p` or, where its cell lies under that of `top`, `top`. A `top` that is no index stands for none: an option would be no
// plainer, for the caller stores each answer and hands the same number on.
pub fn top_over(order: &[u32], part: &[u64], p: usize, top: usize) -> usize
    requires { PlaceIn part.now order.now p }
    ensures { result ≡ top_over part.now (at order.now p) top }
{
    let j = get32(order, p);
    if part.len() <= top {
        return j;
    }
    if lies_under(part[j], part[top]) {
        return top;
    }
    j
}
