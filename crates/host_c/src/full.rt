// The four calls at full size, on slices of numbers. include/zone_outliner.h documents them for C.
// The slices stand apart and the promises are host's again: C names stand in a static library alone, and no crate can call those.
ghost use Rattle.scope.specs.Table.{table};
ghost use Rattle.scope.specs.Memory.{memory, output};
ghost use Rattle.host.specs.Full.{CallsOpen, CallsOffer, TellsReadOut, TellsDissolve};

#[unsafe(no_mangle)]
pub extern "C" fn zo_open(
    edges: &[u64],
    reverse: &[u32],
    area: &[f64],
    head: &mut [u32],
    cells: &mut [u64],
    parent: &mut [u32],
    rank: &mut [u32],
    cell_mark: &mut [u32],
    slot_row: &mut [u32],
    slot_cell: &mut [u32],
    prev: &mut [u32],
    next: &mut [u32],
    row_slot: &mut [u32],
    row_mark: &mut [u32],
    mode: usize,
) -> u64
    ensures { CallsOpen (table edges.now reverse.now area.now) (memory head.old cells.old parent.old rank.old cell_mark.old slot_row.old slot_cell.old prev.old next.old row_slot.old row_mark.old) mode
        result (memory head.new cells.new parent.new rank.new cell_mark.new slot_row.new slot_cell.new prev.new next.new row_slot.new row_mark.new) }
{
    host::full::zo_open(
        edges, reverse, area, head, cells, parent, rank, cell_mark, slot_row, slot_cell, prev,
        next, row_slot, row_mark, mode,
    )
}

#[unsafe(no_mangle)]
pub extern "C" fn zo_offer(
    edges: &[u64],
    reverse: &[u32],
    area: &[f64],
    head: &mut [u32],
    cells: &mut [u64],
    parent: &mut [u32],
    rank: &mut [u32],
    cell_mark: &mut [u32],
    slot_row: &mut [u32],
    slot_cell: &mut [u32],
    prev: &mut [u32],
    next: &mut [u32],
    row_slot: &mut [u32],
    row_mark: &mut [u32],
    cell: u64,
) -> u64
    ensures { CallsOffer (table edges.now reverse.now area.now) (memory head.old cells.old parent.old rank.old cell_mark.old slot_row.old slot_cell.old prev.old next.old row_slot.old row_mark.old) cell
        result (memory head.new cells.new parent.new rank.new cell_mark.new slot_row.new slot_cell.new prev.new next.new row_slot.new row_mark.new) }
{
    host::full::zo_offer(
        edges, reverse, area, head, cells, parent, rank, cell_mark, slot_row, slot_cell, prev,
        next, row_slot, row_mark, cell,
    )
}

#[unsafe(no_mangle)]
pub extern "C" fn zo_read_out(
    edges: &[u64],
    reverse: &[u32],
    area: &[f64],
    head: &[u32],
    cells: &[u64],
    parent: &[u32],
    rank: &[u32],
    cell_mark: &mut [u32],
    slot_row: &[u32],
    slot_cell: &[u32],
    prev: &[u32],
    next: &[u32],
    row_slot: &[u32],
    row_mark: &mut [u32],
    start: &mut [u32],
    size: &mut [u32],
    group: &mut [u32],
    ring_area: &mut [f64],
    ring_edges: &mut [u32],
    summary: &mut [u64],
) -> u64
    ensures { TellsReadOut (table edges.now reverse.now area.now) (memory head.now cells.now parent.now rank.now cell_mark.old slot_row.now slot_cell.now prev.now next.now row_slot.now row_mark.old) (output start.old size.old group.old ring_area.old ring_edges.old) summary.old
        result (memory head.now cells.now parent.now rank.now cell_mark.new slot_row.now slot_cell.now prev.now next.now row_slot.now row_mark.new) (output start.new size.new group.new ring_area.new ring_edges.new) summary.new }
{
    host::full::zo_read_out(
        edges, reverse, area, head, cells, parent, rank, cell_mark, slot_row, slot_cell, prev,
        next, row_slot, row_mark, start, size, group, ring_area, ring_edges, summary,
    )
}

#[unsafe(no_mangle)]
pub extern "C" fn zo_dissolve(
    edges: &[u64],
    reverse: &[u32],
    area: &[f64],
    head: &mut [u32],
    cells: &mut [u64],
    parent: &mut [u32],
    rank: &mut [u32],
    cell_mark: &mut [u32],
    slot_row: &mut [u32],
    slot_cell: &mut [u32],
    prev: &mut [u32],
    next: &mut [u32],
    row_slot: &mut [u32],
    row_mark: &mut [u32],
    list: &[u64],
    start: &mut [u32],
    size: &mut [u32],
    group: &mut [u32],
    ring_area: &mut [f64],
    ring_edges: &mut [u32],
    summary: &mut [u64],
    mode: usize,
) -> u64
    ensures { TellsDissolve (table edges.now reverse.now area.now) (memory head.old cells.old parent.old rank.old cell_mark.old slot_row.old slot_cell.old prev.old next.old row_slot.old row_mark.old) mode list.now (output start.old size.old group.old ring_area.old ring_edges.old) summary.old
        result (memory head.new cells.new parent.new rank.new cell_mark.new slot_row.new slot_cell.new prev.new next.new row_slot.new row_mark.new) (output start.new size.new group.new ring_area.new ring_edges.new) summary.new }
{
    host::full::zo_dissolve(
        edges, reverse, area, head, cells, parent, rank, cell_mark, slot_row, slot_cell, prev,
        next, row_slot, row_mark, list, start, size, group, ring_area, ring_edges, summary, mode,
    )
}
