// The pool: edges of the accepted outlines in slots, linked to rings. The Rust's `ArcSolvent`.
#![tactic(auto)]

mod cancel;

ghost use Rattle.std.specs.Prelude.{◌≡◌, ◌&&◌, [], ◌∷◌, ◌<◌, leb, length};
ghost use Rattle.scope.specs.Memory.{kept, opened};
ghost use Rattle.lent.specs.Lent.{table_of, memory_of, marked_of, SameMemory, SameMarks};
ghost use Rattle.arcs.specs.Taking.{AddAsks, Added};

use cancel::cancel_rows;
use lent::{Marked, Marks, Memory, Table};
use placing::{hold_cell, place_outline};
use slices::{clear, put32};

// The capacities of a pool.
#[derive(Clone, Copy)]
pub struct Pool {
    pub slots: usize,
    pub places: usize,
}

// The mode that a state keeps: 1 for mixed, 0 for even and for none named.
pub fn kept_mode(mode: usize) -> usize
    ensures { (result ≡ kept mode) × (result < 2) }
{
    let mixed = mode == 1;
    if mixed { 1 } else { 0 }
}

// The mode, and no cell.
fn open_head(head: &mut [u32], mode: usize)
    requires { length head.old ≡ 2 }
    ensures { head.new ≡ kept mode ∷ 0 ∷ [] }
{
    put32(head, 0, kept_mode(mode));
    put32(head, 1, 0);
}

// Takes one more cell, whose outline is `rows`: the cell is held, its edges are put into the lowest free
// slots, and what cancels leaves the pool. Answers how many pairs cancelled. `vacant` flags slots that may
// be free. Of the table, edges and areas are here for the contract alone, which is about the whole table and state, and so are the marks.
pub fn add_edges(
    table: &Table<'_>,
    memory: &mut Memory<'_>,
    marks: &Marked<'_>,
    vacant: &mut [u64],
    rows: &[u32],
    cell: u64,
) -> usize
    requires { AddAsks (table_of table.now) (marked_of memory.old marks.now) vacant.old cell rows.now }
    ensures same_memory { SameMemory memory.old memory.new }
    ensures added { Added (table_of table.now) (marked_of memory.old marks.now) cell result (marked_of memory.new marks.now) vacant.new }
{
    let place = hold_cell(memory.head, memory.cells, memory.parent, memory.rank, cell);
    place_outline(
        memory.slot_row,
        memory.slot_cell,
        memory.prev,
        memory.next,
        memory.row_slot,
        vacant,
        rows,
        place,
    );
    cancel_rows(
        table.reverse,
        memory.parent,
        memory.rank,
        memory.slot_row,
        memory.slot_cell,
        memory.prev,
        memory.next,
        memory.row_slot,
        vacant,
        rows,
        place + 1,
    )
}

impl Pool {
    pub const MAX_SLOTS: usize = 65536;

    pub const MAX_CELLS: usize = 16384;

    // Whether both capacities are in range.
    pub fn fits(self) -> bool
        ensures { result ≡ (leb 1 self.slots && leb self.slots 65536 && leb 1 self.places && leb self.places 16384) }
    {
        (1 <= self.slots)
            & (self.slots <= Pool::MAX_SLOTS)
            & (1 <= self.places)
            & (self.places <= Pool::MAX_CELLS)
    }

    // A newly opened state, whatever the memory held.
    #[tactic(auto, unfolding(scope::specs::Memory::opened))]
    pub fn open(memory: &mut Memory<'_>, marks: &mut Marks<'_>, mode: usize)
        requires { length memory.old.head.now ≡ 2 }
        ensures same_memory { SameMemory memory.old memory.new }
        ensures same_marks { SameMarks marks.old marks.new }
        ensures opened { memory_of memory.new marks.new ≡ opened mode (memory_of memory.old marks.old) }
    {
        open_head(memory.head, mode);
        clear(memory.cells);
        clear(memory.parent);
        clear(memory.rank);
        clear(marks.cell_mark);
        clear(memory.slot_row);
        clear(memory.slot_cell);
        clear(memory.prev);
        clear(memory.next);
        clear(memory.row_slot);
        clear(marks.row_mark);
    }
}
