// Arrays for the columns of a state and of an output, all zeros, of which a call lends as much as it needs. How large they are is for
// their users to say: within the host's limits, or of full size.
ghost use Rattle.std.specs.Prelude.{◌≡◌, ◌≤◌};
ghost use Rattle.scope.specs.Bytes.{cleared};
ghost use Rattle.lent.specs.Lent.{memory_of, output_of};
ghost use Rattle.lent.specs.Arrays.{columns_of, outputs_of, first_of, Few, HasSizes, outputs_within};

use crate::{Marks, Memory, Output};

// How many rows, slots and places a state has.
#[derive(Clone, Copy, Debug, PartialEq, Eq)]
pub struct Sizes {
    pub rows: usize,
    pub slots: usize,
    pub places: usize,
}

#[derive(Drop)]
pub struct StateArrays<const ROWS: usize, const SLOTS: usize, const PLACES: usize> {
    head: [u32; 2],
    cells: [u64; PLACES],
    parent: [u32; PLACES],
    rank: [u32; PLACES],
    cell_mark: [u32; PLACES],
    slot_row: [u32; SLOTS],
    slot_cell: [u32; SLOTS],
    prev: [u32; SLOTS],
    next: [u32; SLOTS],
    row_slot: [u32; ROWS],
    row_mark: [u32; ROWS],
}

impl<const ROWS: usize, const SLOTS: usize, const PLACES: usize> StateArrays<ROWS, SLOTS, PLACES> {
    #[tactic(auto, unfolding(scope::specs::Bytes::cleared))]
    pub fn new() -> Self
        ensures { columns_of result ≡ cleared ROWS SLOTS PLACES }
    {
        Self {
            head: [0; 2],
            cells: [0; PLACES],
            parent: [0; PLACES],
            rank: [0; PLACES],
            cell_mark: [0; PLACES],
            slot_row: [0; SLOTS],
            slot_cell: [0; SLOTS],
            prev: [0; SLOTS],
            next: [0; SLOTS],
            row_slot: [0; ROWS],
            row_mark: [0; ROWS],
        }
    }

    // Cleared memory of these sizes.
    pub fn lend(&mut self, sizes: Sizes) -> (Memory<'_>, Marks<'_>)
        requires new { columns_of self.old ≡ cleared ROWS SLOTS PLACES }
        requires few { Few sizes ROWS SLOTS PLACES }
        ensures { memory_of result.0 result.1 ≡ cleared sizes.rows sizes.slots sizes.places }
    {
        self.lend_again(sizes)
    }

    // Memory of these sizes that holds what the arrays do, such as what a call before left there.
    pub fn lend_again(&mut self, sizes: Sizes) -> (Memory<'_>, Marks<'_>)
        requires { Few sizes ROWS SLOTS PLACES }
        ensures holds { memory_of result.0 result.1 ≡ first_of sizes (columns_of self.old) }
        ensures sized { HasSizes sizes (memory_of result.0 result.1) }
    {
        let Self {
            head,
            cells,
            parent,
            rank,
            cell_mark,
            slot_row,
            slot_cell,
            prev,
            next,
            row_slot,
            row_mark,
        } = self;
        let Sizes {
            rows,
            slots,
            places,
        } = sizes;
        let memory = Memory {
            head: &mut head[..],
            cells: &mut cells[..places],
            parent: &mut parent[..places],
            rank: &mut rank[..places],
            slot_row: &mut slot_row[..slots],
            slot_cell: &mut slot_cell[..slots],
            prev: &mut prev[..slots],
            next: &mut next[..slots],
            row_slot: &mut row_slot[..rows],
        };
        let marks = Marks {
            cell_mark: &mut cell_mark[..places],
            row_mark: &mut row_mark[..rows],
        };
        (memory, marks)
    }
}

#[derive(Drop)]
pub struct OutputArrays<const RINGS: usize, const EDGES: usize> {
    start: [u32; RINGS],
    size: [u32; RINGS],
    group: [u32; RINGS],
    area: [f64; RINGS],
    edges: [u32; EDGES],
}

impl<const RINGS: usize, const EDGES: usize> OutputArrays<RINGS, EDGES> {
    pub fn new() -> Self
        ensures { outputs_of result ≡ outputs_within RINGS EDGES }
    {
        Self {
            start: [0; RINGS],
            size: [0; RINGS],
            group: [0; RINGS],
            area: [0.0; RINGS],
            edges: [0; EDGES],
        }
    }

    // Cleared outputs for so many rings and edges.
    pub fn lend(&mut self, rings: usize, edges: usize) -> Output<'_>
        requires new { outputs_of self.old ≡ outputs_within RINGS EDGES }
        requires few { (rings ≤ RINGS) × (edges ≤ EDGES) }
        ensures { output_of result ≡ outputs_within rings edges }
    {
        let Self {
            start,
            size,
            group,
            area,
            edges: all_edges,
        } = self;
        Output {
            start: &mut start[..rings],
            size: &mut size[..rings],
            group: &mut group[..rings],
            area: &mut area[..rings],
            edges: &mut all_edges[..edges],
        }
    }
}
