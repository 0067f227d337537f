// A cell held, and its outline placed: its i-th edge takes the i-th lowest free slot, and its edges are linked in walk order.
#![tactic(auto)]

ghost use Rattle.std.specs.Prelude.{◌≡◌, ◌<◌, length};
ghost use Rattle.scope.specs.Lists.{at};
ghost use Rattle.scope.proofs.Outlines.{onward};
ghost use Rattle.placing.specs.Place.{free_in, PlaceAsks, PlacedRows, slots_at, SlotAsks, LinkAsks, LinkedRows};
ghost use Rattle.placing.specs.Outline.{HoldAsks, CellHeld, OutlineAsks, OutlinePlaced};

use free_slots::lowest_free;
use slices::{get32, put32};
use union_find::add;

// Puts the rows of an outline into the lowest free slots, in their order. The search for a slot goes on
// from the last one: no slot is free below it.
fn place_rows(
    slot_row: &mut [u32],
    slot_cell: &mut [u32],
    row_slot: &mut [u32],
    vacant: &mut [u64],
    rows: &[u32],
    place: usize,
)
    requires { PlaceAsks slot_row.old slot_cell.old row_slot.old vacant.old rows.now place }
    ensures { PlacedRows slot_row.old slot_cell.old row_slot.old rows.now place slot_row.new slot_cell.new row_slot.new vacant.new }
{
    let mut start = 0;
    for i in 0..rows.len() {
        let row = get32(rows, i);
        let slot = lowest_free(slot_row, vacant, start);
        put32(slot_row, slot, row + 1);
        put32(slot_cell, slot, place);
        put32(row_slot, row, slot + 1);
        start = slot + 1;
    }
}

// The place after `i` in a round of `n`.
fn place_after(i: usize, n: usize) -> usize
    requires { i < n }
    ensures { result ≡ onward n i }
{
    if i + 1 == n { 0 } else { i + 1 }
}

// The slot of the `i`-th row.
fn slot_at(row_slot: &[u32], rows: &[u32], i: usize) -> usize
    requires { SlotAsks row_slot.now rows.now i }
    ensures { result ≡ at (slots_at row_slot.now rows.now) i }
{
    get32(row_slot, get32(rows, i)) - 1
}

// Links the slots of an outline's rows in a ring, in their order.
fn link_rows(prev: &mut [u32], next: &mut [u32], row_slot: &[u32], rows: &[u32])
    requires { LinkAsks prev.old next.old row_slot.now rows.now }
    ensures { LinkedRows prev.old next.old row_slot.now rows.now prev.new next.new }
{
    for i in 0..rows.len() {
        let slot = slot_at(row_slot, rows, i);
        let after = slot_at(row_slot, rows, place_after(i, rows.len()));
        put32(next, slot, after);
        put32(prev, after, slot);
    }
}

// An outline in the lowest free slots, linked in walk order.
pub fn place_outline(
    slot_row: &mut [u32],
    slot_cell: &mut [u32],
    prev: &mut [u32],
    next: &mut [u32],
    row_slot: &mut [u32],
    vacant: &mut [u64],
    rows: &[u32],
    place: usize,
)
    requires { OutlineAsks slot_row.old slot_cell.old prev.old next.old row_slot.old vacant.old rows.now place }
    ensures { OutlinePlaced slot_row.old slot_cell.old prev.old next.old row_slot.old rows.now place slot_row.new slot_cell.new prev.new next.new row_slot.new vacant.new }
{
    place_rows(slot_row, slot_cell, row_slot, vacant, rows, place);
    link_rows(prev, next, row_slot, rows);
}

// The cell takes the next place, a group of its own. Answers the place.
pub fn hold_cell(
    head: &mut [u32],
    cells: &mut [u64],
    parent: &mut [u32],
    rank: &mut [u32],
    cell: u64,
) -> usize
    requires { HoldAsks head.old cells.old parent.old rank.old }
    ensures { CellHeld head.old cells.old parent.old rank.old cell result head.new cells.new parent.new rank.new }
{
    let place = get32(head, 1);
    put32(head, 1, place + 1);
    cells[place] = cell;
    add(parent, rank, place);
    place
}

// How many slots are free. A sum with no branch, so that several are counted at a time.
pub fn count_free(slot_row: &[u32]) -> usize
    ensures { result ≡ length (free_in slot_row.now) }
{
    slot_row.iter().map(|row| usize::from(*row == 0)).sum()
}
