// The rules of the slots of a state, on any numbers at all: a number that nothing has checked is read as 0 past the end of its slice, as the
// rules have it.
#![tactic(auto)]

ghost use Rattle.std.specs.Prelude.{◌≡◌, [], ◌<◌, length};
ghost use Rattle.scope.specs.Lists.{at, passes};
ghost use Rattle.scope.specs.Table.{table};
ghost use Rattle.scope.specs.Rules.{owned_by, link_used, free_kept};
ghost use Rattle.slot_rules.specs.Slices.{links, pool, ahead_kept, used_ahead, slot_ahead};

use index::{lies_under, owner};
use slices::at32;

// The number at place `i`, 0 past the end.
pub fn at64(s: &[u64], i: usize) -> u64
    ensures { result ≡ at s.now i }
{
    s.get(i).map_or(0, |x| *x)
}

// The edge's owner is the cell or lies under it.
#[tactic(auto, unfolding(scope::specs::Rules::owned_by))]
fn owned_by(edge: u64, cell: u64) -> bool
    ensures { result ≡ owned_by edge cell }
{
    let cell_of_edge = owner(edge);
    (cell_of_edge == cell) || lies_under(cell_of_edge, cell)
}

fn link_used(slot_row: &[u32], slot: usize) -> bool
    ensures { result ≡ link_used (links slot_row.now [] [] []) slot }
{
    (slot < slot_row.len()) & (at32(slot_row, slot) != 0)
}

// Next is used, and its previous is this slot. Where this is so of every used slot, next goes around among them, and each slot's previous
// is the one that leads to it.
fn link_ahead(slot_row: &[u32], prev: &[u32], next: &[u32], slot: usize) -> bool
    ensures { result ≡ ahead_kept (links slot_row.now [] prev.now next.now) slot }
{
    let after = at32(next, slot);
    link_used(slot_row, after) & (at32(prev, after) == slot)
}

// Free slots are cleared.
fn free_kept(slot_cell: &[u32], prev: &[u32], next: &[u32], slot: usize) -> bool
    ensures { result ≡ free_kept (links [] slot_cell.now prev.now next.now) slot }
{
    (at32(slot_cell, slot) == 0) & (at32(prev, slot) == 0) & (at32(next, slot) == 0)
}

// A used slot has its row in range, that row points back to it, its cell number is held and the row's owner is that cell
// or lies under it, its link ahead is kept, and its row's reverse is not held. What is out of its range ends the test at once, so that no number
// after it has to be tested before it is looked up.
fn used_kept(
    edges: &[u64],
    reverse: &[u32],
    cells: &[u64],
    slot_row: &[u32],
    slot_cell: &[u32],
    prev: &[u32],
    next: &[u32],
    row_slot: &[u32],
    held: usize,
    slot: usize,
) -> bool
    requires { (slot < length slot_row.now) × (0 < at slot_row.now slot) }
    ensures { result ≡ used_ahead (table edges.now reverse.now []) (pool held cells.now slot_row.now slot_cell.now prev.now next.now row_slot.now) slot }
{
    let number = at32(slot_row, slot);
    let row = number - 1;
    let place = at32(slot_cell, slot);
    if (edges.len() <= row) | (held <= place) | (slot_row.len() <= at32(next, slot)) {
        return false;
    }
    let back = at32(reverse, row);
    (number <= edges.len())
        & (at32(row_slot, row) == slot + 1)
        & ((place < held) & owned_by(at64(edges, row), at64(cells, place)))
        & link_ahead(slot_row, prev, next, slot)
        & (at32(row_slot, back) == 0)
}

#[tactic(auto, unfolding(crate::specs::Slices::slot_ahead))]
fn slot_kept(
    edges: &[u64],
    reverse: &[u32],
    cells: &[u64],
    slot_row: &[u32],
    slot_cell: &[u32],
    prev: &[u32],
    next: &[u32],
    row_slot: &[u32],
    held: usize,
    slot: usize,
) -> bool
    requires { slot < length slot_row.now }
    ensures { result ≡ slot_ahead (table edges.now reverse.now []) (pool held cells.now slot_row.now slot_cell.now prev.now next.now row_slot.now) slot }
{
    if at32(slot_row, slot) == 0 {
        return free_kept(slot_cell, prev, next, slot);
    }
    used_kept(
        edges, reverse, cells, slot_row, slot_cell, prev, next, row_slot, held, slot,
    )
}

// The slices stand apart, since the caller cuts them to one length, which tells the compiler that they agree.
// There is no early end, so that the next slot's numbers are on their way before this one's are there.
pub fn slots_kept(
    edges: &[u64],
    reverse: &[u32],
    cells: &[u64],
    slot_row: &[u32],
    slot_cell: &[u32],
    prev: &[u32],
    next: &[u32],
    row_slot: &[u32],
    held: usize,
) -> bool
    ensures { result ≡ passes (slot_ahead (table edges.now reverse.now []) (pool held cells.now slot_row.now slot_cell.now prev.now next.now row_slot.now)) (length slot_row.now) }
{
    let mut kept = true;
    for slot in 0..slot_row.len() {
        kept &= slot_kept(
            edges, reverse, cells, slot_row, slot_cell, prev, next, row_slot, held, slot,
        );
    }
    kept
}
