// Two slots leave their rings and are free again.
#![tactic(auto)]

ghost use Rattle.std.specs.Prelude.{◌≡◌, [], ◌<◌, length};
ghost use Rattle.pair_links.specs.Links.{swap_next, swap_prev, drop_next, drop_prev, pair_next, pair_prev, clear_two, Closed, pool, FreeAsks, Freed};

use slices::{get32, put32};

// Clears the numbers at two places.
#[tactic(auto, unfolding(crate::specs::Links::clear_two))]
fn clear_two(s: &mut [u32], x: usize, y: usize)
    requires { (x < length s.old) × (y < length s.old) }
    ensures { s.new ≡ clear_two s.old x y }
{
    put32(s, x, 0);
    put32(s, y, 0);
}

// The slots `x` and `y` exchange their nexts.
#[tactic(auto, unfolding(crate::specs::Links::swap_next, crate::specs::Links::swap_prev))]
fn swap_next(prev: &mut [u32], next: &mut [u32], x: usize, y: usize)
    requires { Closed prev.old next.old × (x < length next.old) × (y < length next.old) }
    ensures { (next.new ≡ swap_next next.old x y) × (prev.new ≡ swap_prev next.old prev.old x y) }
{
    let a = get32(next, x);
    let b = get32(next, y);
    put32(next, x, b);
    put32(next, y, a);
    put32(prev, b, x);
    put32(prev, a, y);
}

// The slot `x` is taken out of its ring.
#[tactic(auto, unfolding(crate::specs::Links::drop_next, crate::specs::Links::drop_prev))]
fn unlink(prev: &mut [u32], next: &mut [u32], x: usize)
    requires { Closed prev.old next.old × (x < length next.old) }
    ensures { (next.new ≡ drop_next next.old prev.old x) × (prev.new ≡ drop_prev next.old prev.old x) }
{
    let before = get32(prev, x);
    let after = get32(next, x);
    put32(next, before, after);
    put32(prev, after, before);
}

// The slots `x` and `y`, whose edges are each other's reverse, leave their rings: what came before
// one is linked to what comes after the other. Exchanging the nexts first leaves no case of its own
// for a slot that is its own next, or its mate's, or for the last pair of a ring.
pub fn merge_arcs(prev: &mut [u32], next: &mut [u32], x: usize, y: usize)
    requires { Closed prev.old next.old × (x < length next.old) × (y < length next.old) }
    ensures { (next.new ≡ pair_next next.old prev.old x y) × (prev.new ≡ pair_prev next.old prev.old x y) }
{
    swap_next(prev, next, x, y);
    unlink(prev, next, x);
    unlink(prev, next, y);
}

// The slots `x` and `y` are free again, and the rows that they held have no slot.
pub fn free_pair(
    slot_row: &mut [u32],
    slot_cell: &mut [u32],
    prev: &mut [u32],
    next: &mut [u32],
    row_slot: &mut [u32],
    x: usize,
    y: usize,
    row: usize,
    back: usize,
)
    requires { FreeAsks (pool [] [] slot_row.old slot_cell.old prev.old next.old row_slot.old) x y row back }
    ensures { Freed (pool [] [] slot_row.old slot_cell.old prev.old next.old row_slot.old) x y row back (pool [] [] slot_row.new slot_cell.new prev.new next.new row_slot.new) }
{
    clear_two(slot_row, x, y);
    clear_two(slot_cell, x, y);
    clear_two(prev, x, y);
    clear_two(next, x, y);
    clear_two(row_slot, row, back);
}
