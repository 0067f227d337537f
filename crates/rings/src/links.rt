// What read out reads of a state, as slices that are lent, and going on from a row to the next of its ring.
ghost use Rattle.std.specs.Prelude.{◌≡◌, ◌-◌, ◌≢◌};
ghost use Rattle.scope.specs.Lists.{at};
ghost use Rattle.rings.specs.Links.{OnRing, NextSlot};
ghost use Rattle.rings.specs.Views.{view_in};

use slices::get32;

#[derive(Clone, Copy)]
pub(crate) struct View<'a> {
    pub row_slot: &'a [u32],
    pub slot_row: &'a [u32],
    pub slot_cell: &'a [u32],
    pub next: &'a [u32],
    pub parent: &'a [u32],
    pub terms: &'a [f64],
    pub held: usize,
}

impl View<'_> {
    // The slot of a row that stands.
    pub fn slot_of(&self, r: usize) -> usize
        requires { let v = view_in self.now in OnRing v.row_slot v.slot_row v.next r }
        ensures { result ≡ at self.now.row_slot.now r - 1 }
    {
        get32(self.row_slot, r) - 1
    }

    // The slot that follows that of r in its ring. The rings are gone round by slots, so that a turn waits for one number and not for three;
    // r serves the proof alone.
    pub fn next_slot(&self, r: usize, slot: usize) -> usize
        requires { let v = view_in self.now in OnRing v.row_slot v.slot_row v.next r × (slot ≡ at v.row_slot r - 1) }
        ensures { let v = view_in self.now in NextSlot v.row_slot v.slot_row v.next r result }
    {
        get32(self.next, slot)
    }

    // The row that a used slot holds.
    pub fn row_in(&self, slot: usize) -> usize
        requires { at self.now.slot_row.now slot ≢ 0 }
        ensures { result ≡ at self.now.slot_row.now slot - 1 }
    {
        get32(self.slot_row, slot) - 1
    }
}
