// What callers lend, as one value each: the edge table, the memory of a standing state, its marks, and the outputs.
#![tactic(auto)]

ghost use Rattle.std.specs.Prelude.{◌≡◌, ◌<◌, ◌^◌, length};
ghost use Rattle.scope.specs.Lists.{at};
ghost use Rattle.lent.specs.Lent.{IsRead, IsMarked, IsDrawn};

pub mod arrays;

use slices::get32;

// Three slices of one length: edge numbers, reverse rows, and one area term a row.
#[derive(Clone, Copy)]
pub struct Table<'a> {
    pub edges: &'a [u64],
    pub reverse: &'a [u32],
    pub area: &'a [f64],
}

// The state: mode and count of held cells; for each place its cell, parent and rank; for each slot its row, the place of its cell and
// the slots before and after it; for each row its slot.
#[derive(Drop)]
pub struct Memory<'a> {
    pub head: &'a mut [u32],
    pub cells: &'a mut [u64],
    pub parent: &'a mut [u32],
    pub rank: &'a mut [u32],
    pub slot_row: &'a mut [u32],
    pub slot_cell: &'a mut [u32],
    pub prev: &'a mut [u32],
    pub next: &'a mut [u32],
    pub row_slot: &'a mut [u32],
}

impl Memory<'_> {
    // The same, to be read.
    pub fn as_state(&self) -> State<'_>
        ensures { IsRead self.now result }
    {
        State {
            head: self.head,
            cells: self.cells,
            parent: self.parent,
            rank: self.rank,
            slot_row: self.slot_row,
            slot_cell: self.slot_cell,
            prev: self.prev,
            next: self.next,
            row_slot: self.row_slot,
        }
    }

    // The mode that the state keeps: 1 for mixed, 0 for even.
    pub fn mode(&self) -> usize
        requires { 0 < length self.now.head.now }
        ensures { (result ≡ at self.now.head.now 0) × (result < 2 ^ 32) }
    {
        self.as_state().mode()
    }

    // For how many cells there is room.
    pub fn places(&self) -> usize
        ensures { result ≡ length self.now.cells.now }
    {
        self.cells.len()
    }

    // How many cells are held.
    pub fn held(&self) -> usize
        requires { 1 < length self.now.head.now }
        ensures { (result ≡ at self.now.head.now 1) × (result < 2 ^ 32) }
    {
        self.as_state().held()
    }
}

// The state for those that only read it: its slices may be lent to others too.
#[derive(Clone, Copy)]
pub struct State<'a> {
    pub head: &'a [u32],
    pub cells: &'a [u64],
    pub parent: &'a [u32],
    pub rank: &'a [u32],
    pub slot_row: &'a [u32],
    pub slot_cell: &'a [u32],
    pub prev: &'a [u32],
    pub next: &'a [u32],
    pub row_slot: &'a [u32],
}

impl State<'_> {
    // The mode that the state keeps.
    pub fn mode(&self) -> usize
        requires { 0 < length self.now.head.now }
        ensures { (result ≡ at self.now.head.now 0) × (result < 2 ^ 32) }
    {
        get32(self.head, 0)
    }

    // How many cells are held.
    pub fn held(&self) -> usize
        requires { 1 < length self.now.head.now }
        ensures { (result ≡ at self.now.head.now 1) × (result < 2 ^ 32) }
    {
        get32(self.head, 1)
    }
}

// The marks of its places and of the table's rows, clear between calls. They stand apart, so that a call can read the state and write them.
#[derive(Drop)]
pub struct Marks<'a> {
    pub cell_mark: &'a mut [u32],
    pub row_mark: &'a mut [u32],
}

impl Marks<'_> {
    // The same, to be read.
    pub fn as_marked(&self) -> Marked<'_>
        ensures { IsMarked self.now result }
    {
        Marked {
            cell_mark: self.cell_mark,
            row_mark: self.row_mark,
        }
    }
}

// The marks for those that only read them: its slices may be lent to others too.
#[derive(Clone, Copy)]
pub struct Marked<'a> {
    pub cell_mark: &'a [u32],
    pub row_mark: &'a [u32],
}

// The ring list as a slice for each field of its records, and the edge list.
#[derive(Drop)]
pub struct Output<'a> {
    pub start: &'a mut [u32],
    pub size: &'a mut [u32],
    pub group: &'a mut [u32],
    pub area: &'a mut [f64],
    pub edges: &'a mut [u32],
}

impl Output<'_> {
    // The same, to be read.
    pub fn as_drawn(&self) -> Drawn<'_>
        ensures { IsDrawn self.now result }
    {
        Drawn {
            start: self.start,
            size: self.size,
            group: self.group,
            area: self.area,
            edges: self.edges,
        }
    }
}

// What read out wrote, for those that only read it.
#[derive(Clone, Copy)]
pub struct Drawn<'a> {
    pub start: &'a [u32],
    pub size: &'a [u32],
    pub group: &'a [u32],
    pub area: &'a [f64],
    pub edges: &'a [u32],
}
