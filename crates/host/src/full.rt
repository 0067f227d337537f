// The four calls at full size, on slices of numbers, answered by numbers. host_c hands them on to Rust and C.
// The slices stand apart, as its C functions take them.
ghost use Rattle.scope.specs.Table.{table};
ghost use Rattle.scope.specs.Memory.{memory, output};
ghost use Rattle.host.specs.Full.{CallsOpen, CallsOffer, TellsReadOut, TellsDissolve};

use answer_numbers::result;
use lent::{Marks, Memory, Output, State, Table};
use scope::Refusal;
use solvent::{dissolve, offer, open, read_out};
use telling::tell;

#[tactic(auto, unfolding(crate::specs::Full::called))]
pub fn zo_open(
    edges: &[u64],
    reverse: &[u32],
    area: &[f64],
    head: &mut [u32],
    cells: &mut [u64],
    parent: &mut [u32],
    rank: &mut [u32],
    cell_mark: &mut [u32],
    slot_row: &mut [u32],
    slot_cell: &mut [u32],
    prev: &mut [u32],
    next: &mut [u32],
    row_slot: &mut [u32],
    row_mark: &mut [u32],
    mode: usize,
) -> u64
    ensures { CallsOpen (table edges.now reverse.now area.now) (memory head.old cells.old parent.old rank.old cell_mark.old slot_row.old slot_cell.old prev.old next.old row_slot.old row_mark.old) mode
        result (memory head.new cells.new parent.new rank.new cell_mark.new slot_row.new slot_cell.new prev.new next.new row_slot.new row_mark.new) }
{
    let table = Table {
        edges,
        reverse,
        area,
    };
    let mut memory = Memory {
        head,
        cells,
        parent,
        rank,
        slot_row,
        slot_cell,
        prev,
        next,
        row_slot,
    };
    let mut marks = Marks {
        cell_mark,
        row_mark,
    };
    result(open(&table, &mut memory, &mut marks, mode))
}

#[tactic(auto, unfolding(crate::specs::Full::called))]
pub fn zo_offer(
    edges: &[u64],
    reverse: &[u32],
    area: &[f64],
    head: &mut [u32],
    cells: &mut [u64],
    parent: &mut [u32],
    rank: &mut [u32],
    cell_mark: &mut [u32],
    slot_row: &mut [u32],
    slot_cell: &mut [u32],
    prev: &mut [u32],
    next: &mut [u32],
    row_slot: &mut [u32],
    row_mark: &mut [u32],
    cell: u64,
) -> u64
    ensures { CallsOffer (table edges.now reverse.now area.now) (memory head.old cells.old parent.old rank.old cell_mark.old slot_row.old slot_cell.old prev.old next.old row_slot.old row_mark.old) cell
        result (memory head.new cells.new parent.new rank.new cell_mark.new slot_row.new slot_cell.new prev.new next.new row_slot.new row_mark.new) }
{
    let table = Table {
        edges,
        reverse,
        area,
    };
    let mut memory = Memory {
        head,
        cells,
        parent,
        rank,
        slot_row,
        slot_cell,
        prev,
        next,
        row_slot,
    };
    let mut marks = Marks {
        cell_mark,
        row_mark,
    };
    result(offer(&table, &mut memory, &mut marks, cell))
}

#[tactic(auto, unfolding(crate::specs::Full::reading_told, crate::specs::Full::four_numbers, crate::specs::Full::told))]
pub fn zo_read_out(
    edges: &[u64],
    reverse: &[u32],
    area: &[f64],
    head: &[u32],
    cells: &[u64],
    parent: &[u32],
    rank: &[u32],
    cell_mark: &mut [u32],
    slot_row: &[u32],
    slot_cell: &[u32],
    prev: &[u32],
    next: &[u32],
    row_slot: &[u32],
    row_mark: &mut [u32],
    start: &mut [u32],
    size: &mut [u32],
    group: &mut [u32],
    ring_area: &mut [f64],
    ring_edges: &mut [u32],
    summary: &mut [u64],
) -> u64
    ensures { TellsReadOut (table edges.now reverse.now area.now) (memory head.now cells.now parent.now rank.now cell_mark.old slot_row.now slot_cell.now prev.now next.now row_slot.now row_mark.old) (output start.old size.old group.old ring_area.old ring_edges.old) summary.old
        result (memory head.now cells.now parent.now rank.now cell_mark.new slot_row.now slot_cell.now prev.now next.now row_slot.now row_mark.new) (output start.new size.new group.new ring_area.new ring_edges.new) summary.new }
{
    if summary.len() != 4 {
        return result(Err(Refusal::BadLengths));
    }
    let table = Table {
        edges,
        reverse,
        area,
    };
    let state = State {
        head,
        cells,
        parent,
        rank,
        slot_row,
        slot_cell,
        prev,
        next,
        row_slot,
    };
    let mut marks = Marks {
        cell_mark,
        row_mark,
    };
    let mut output = Output {
        start,
        size,
        group,
        area: ring_area,
        edges: ring_edges,
    };
    let answer = read_out(&table, &state, &mut marks, &mut output);
    tell(summary, answer)
}

#[tactic(auto, unfolding(crate::specs::Full::dissolving_told, crate::specs::Full::four_numbers, crate::specs::Full::told))]
pub fn zo_dissolve(
    edges: &[u64],
    reverse: &[u32],
    area: &[f64],
    head: &mut [u32],
    cells: &mut [u64],
    parent: &mut [u32],
    rank: &mut [u32],
    cell_mark: &mut [u32],
    slot_row: &mut [u32],
    slot_cell: &mut [u32],
    prev: &mut [u32],
    next: &mut [u32],
    row_slot: &mut [u32],
    row_mark: &mut [u32],
    list: &[u64],
    start: &mut [u32],
    size: &mut [u32],
    group: &mut [u32],
    ring_area: &mut [f64],
    ring_edges: &mut [u32],
    summary: &mut [u64],
    mode: usize,
) -> u64
    ensures { TellsDissolve (table edges.now reverse.now area.now) (memory head.old cells.old parent.old rank.old cell_mark.old slot_row.old slot_cell.old prev.old next.old row_slot.old row_mark.old) mode list.now (output start.old size.old group.old ring_area.old ring_edges.old) summary.old
        result (memory head.new cells.new parent.new rank.new cell_mark.new slot_row.new slot_cell.new prev.new next.new row_slot.new row_mark.new) (output start.new size.new group.new ring_area.new ring_edges.new) summary.new }
{
    if summary.len() != 4 {
        return result(Err(Refusal::BadLengths));
    }
    let table = Table {
        edges,
        reverse,
        area,
    };
    let mut memory = Memory {
        head,
        cells,
        parent,
        rank,
        slot_row,
        slot_cell,
        prev,
        next,
        row_slot,
    };
    let mut marks = Marks {
        cell_mark,
        row_mark,
    };
    let mut output = Output {
        start,
        size,
        group,
        area: ring_area,
        edges: ring_edges,
    };
    let answer = dissolve(&table, &mut memory, &mut marks, list, &mut output, mode);
    tell(summary, answer)
}
