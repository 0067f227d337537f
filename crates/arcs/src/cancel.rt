// Cancelling: an edge whose reverse has a slot leaves the pool with it, and their cells are united.
ghost use Rattle.free_slots.specs.Search.{Flags};
ghost use Rattle.pair_links.specs.Links.{pool};
ghost use Rattle.arcs.specs.CancelRows.{reverses, RowAsks, RowCancelled, CancelAsks, RowsCancelled};

use pairs::cancel_pair;
use slices::get32;

// The edge of `row` cancels where its reverse has a slot. Answers the number of pairs: 0 or 1.
fn cancel_row(
    reverse: &[u32],
    parent: &mut [u32],
    rank: &mut [u32],
    slot_row: &mut [u32],
    slot_cell: &mut [u32],
    prev: &mut [u32],
    next: &mut [u32],
    row_slot: &mut [u32],
    vacant: &mut [u64],
    held: usize,
    row: usize,
) -> usize
    requires { RowAsks reverse.now (pool parent.old rank.old slot_row.old slot_cell.old prev.old next.old row_slot.old) held row × Flags vacant.old slot_row.old }
    ensures { (RowCancelled reverse.now (pool parent.old rank.old slot_row.old slot_cell.old prev.old next.old row_slot.old) held row result (pool parent.new rank.new slot_row.new slot_cell.new prev.new next.new row_slot.new)) × Flags vacant.new slot_row.new }
{
    let back = get32(reverse, row);
    if get32(row_slot, back) == 0 {
        return 0;
    }
    cancel_pair(
        parent, rank, slot_row, slot_cell, prev, next, row_slot, vacant, held, row, back,
    );
    1
}

// The pairs of a placed outline cancel, in walk order. Answers how many did.
pub fn cancel_rows(
    reverse: &[u32],
    parent: &mut [u32],
    rank: &mut [u32],
    slot_row: &mut [u32],
    slot_cell: &mut [u32],
    prev: &mut [u32],
    next: &mut [u32],
    row_slot: &mut [u32],
    vacant: &mut [u64],
    rows: &[u32],
    held: usize,
) -> usize
    requires { CancelAsks (reverses reverse.now) (pool parent.old rank.old slot_row.old slot_cell.old prev.old next.old row_slot.old) held rows.now × Flags vacant.old slot_row.old }
    ensures { RowsCancelled (reverses reverse.now) (pool parent.old rank.old slot_row.old slot_cell.old prev.old next.old row_slot.old) held rows.now result (pool parent.new rank.new slot_row.new slot_cell.new prev.new next.new row_slot.new) × Flags vacant.new slot_row.new }
{
    let mut pairs = 0;
    for &row in rows {
        pairs += cancel_row(
            reverse,
            parent,
            rank,
            slot_row,
            slot_cell,
            prev,
            next,
            row_slot,
            vacant,
            held,
            row as usize,
        );
    }
    pairs
}
