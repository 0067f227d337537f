// Going round the rings of a state: a ring marked, all rings counted.
ghost use Rattle.std.specs.Prelude.{◌≡◌, length, ◌<◌};
ghost use Rattle.rings.specs.Marking.{MarkReady, Marked, unmarked, CountReady, Counted};
ghost use Rattle.rings.specs.Views.{view_in};

use crate::links::View;
use slices::{get32, put32};

// Marks the rows of r's ring with 1, and r itself with 2; the answer is how many there are.
fn mark_ring(view: &View<'_>, mark: &mut [u32], r: usize) -> usize
    requires { let s = view_in view.now in MarkReady s.row_slot s.slot_row s.next mark.old r }
    ensures { let s = view_in view.now in Marked s.row_slot s.slot_row s.next
        mark.old r mark.new result }
{
    let mut k: usize = 0;
    let mut x = r;
    let mut slot = view.slot_of(r);
    loop {
        put32(mark, x, 1);
        k += 1;
        slot = view.next_slot(x, slot);
        x = view.row_in(slot);
        if x == r {
            put32(mark, r, 2);
            return k;
        }
    }
}

// Whether the row i stands and has no mark.
fn is_unmarked(view: &View<'_>, mark: &[u32], i: usize) -> bool
    requires { (i < length view.now.row_slot.now) × (i < length mark.now) }
    ensures { result ≡ unmarked view.now.row_slot.now mark.now i }
{
    (get32(view.row_slot, i) != 0) & (get32(mark, i) == 0)
}

#[derive(Clone, Copy)]
pub(crate) struct Counts {
    pub rings: usize,
    pub edges: usize,
}

// How many rings there are, and how many edges they have. The lowest row of each is marked with 2, the others with 1.
pub(crate) fn count_rings(view: &View<'_>, mark: &mut [u32]) -> Counts
    requires { let s = view_in view.now in CountReady s.row_slot s.slot_row s.next mark.old }
    ensures { let s = view_in view.now in Counted s.row_slot s.slot_row s.next
        mark.old mark.new result.rings result.edges }
{
    let mut rings: usize = 0;
    let mut edges: usize = 0;
    for i in 0..view.row_slot.len() {
        if is_unmarked(view, mark, i) {
            edges += mark_ring(view, mark, i);
            rings += 1;
        }
    }
    Counts { rings, edges }
}
