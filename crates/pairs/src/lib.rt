// A pair of slots whose edges are each other's reverse leaves the pool: its cells are united, its links joined, its slots free again.
#![tactic(auto)]

ghost use Rattle.free_slots.specs.Search.{Flags};
ghost use Rattle.pair_links.specs.Links.{pool};
ghost use Rattle.pairs.specs.Cancel.{PairAsks, PairCancelled};

use free_slots::vacate_two;
use pair_links::{free_pair, merge_arcs};
use slices::get32;
use union_find::union;

// The edges of `row` and of `back`, each other's reverse and both in the pool, cancel. Their slots are flagged as free.
pub fn cancel_pair(
    parent: &mut [u32],
    rank: &mut [u32],
    slot_row: &mut [u32],
    slot_cell: &mut [u32],
    prev: &mut [u32],
    next: &mut [u32],
    row_slot: &mut [u32],
    vacant: &mut [u64],
    held: usize,
    row: usize,
    back: usize,
)
    requires { PairAsks (pool parent.old rank.old slot_row.old slot_cell.old prev.old next.old row_slot.old) held row back × Flags vacant.old slot_row.old }
    ensures { PairCancelled (pool parent.old rank.old slot_row.old slot_cell.old prev.old next.old row_slot.old) held row back (pool parent.new rank.new slot_row.new slot_cell.new prev.new next.new row_slot.new) × Flags vacant.new slot_row.new }
{
    let x = get32(row_slot, row) - 1;
    let y = get32(row_slot, back) - 1;
    let cell_x = get32(slot_cell, x);
    let cell_y = get32(slot_cell, y);
    union(parent, rank, held, cell_x, cell_y);
    merge_arcs(prev, next, x, y);
    free_pair(slot_row, slot_cell, prev, next, row_slot, x, y, row, back);
    vacate_two(vacant, x, y);
}
