// Ring building: the rings of a state, in their order, with areas and groups, written to the lent outputs.
#![tactic(auto)]

mod groups;
mod layout;
mod links;
mod walk;

ghost use Rattle.std.specs.Prelude.{◌≤◌, ◌≡◌, ◌&&◌, leb, length, get_or};
ghost use Rattle.std.specs.Float.{nan};
ghost use Rattle.scope.specs.Memory.{output};
ghost use Rattle.lent.specs.Lent.{output_of, SameMarks, SameOutput};
ghost use Rattle.rings.specs.Views.{view_of, view_in, SurveyReady, Surveyed};
ghost use Rattle.rings.specs.Build.{answer_of, WriteReady, Wrote, BuildReady, Built};

use groups::{mark_groups, ring_groups};
use layout::lay_out;
use lent::{Marks, Output, State, Table};
use links::View;
use ring_order::{list_rings, order_rings};
use ring_sort::gather;
use scope::{ReadOut, Refusal};
use slices::clear;
use walk::count_rings;

// The row, the group and the area of each of the n rings by number, where the lowest rows are marked with 2; edges and size are scratch.
// All marks are cleared.
fn survey_rings(
    view: &View<'_>,
    row_mark: &mut [u32],
    cell_mark: &mut [u32],
    edges: &mut [u32],
    size: &mut [u32],
    rows: &mut [u32],
    group: &mut [u32],
    area: &mut [f64],
    n: usize,
)
    requires { SurveyReady
        (view_in view.now)
        row_mark.old cell_mark.old edges.old size.old rows.old group.old area.old n }
    ensures { Surveyed
        (view_in view.now)
        row_mark.old cell_mark.old edges.old size.old rows.old
        group.old area.old n
        row_mark.new cell_mark.new edges.new size.new rows.new
        group.new area.new }
{
    list_rings(row_mark, rows);
    clear(row_mark);
    lay_out(view, rows, n, edges, group, size, area);
    mark_groups(view, cell_mark);
    ring_groups(view, cell_mark, rows, group, n);
    clear(cell_mark);
}

// The answer: no cells; cells, but no edge stands; or the counts and the first outer area.
fn answer(held: usize, rings: usize, polygons: usize, area: &[f64]) -> ReadOut
    requires { rings ≤ length area.now }
    ensures { result ≡ answer_of held rings polygons (get_or area.now 0 nan) }
{
    if held == 0 {
        return ReadOut::Nothing;
    }
    if rings == 0 {
        return ReadOut::Closed;
    }
    ReadOut::Outline(polygons, rings, area[0])
}

// Writes the n rings, where their lowest rows are marked with 2.
// The outputs stay slices of their own: one call is lent some of them to read and others to write, which a struct of them cannot give.
fn write_rings(
    view: &View<'_>,
    row_mark: &mut [u32],
    cell_mark: &mut [u32],
    start: &mut [u32],
    size: &mut [u32],
    group: &mut [u32],
    area: &mut [f64],
    edges: &mut [u32],
    n: usize,
) -> ReadOut
    requires { WriteReady
        (view_in view.now)
        row_mark.old cell_mark.old
        (output start.old size.old group.old area.old edges.old) n }
    ensures { Wrote
        (view_in view.now)
        row_mark.old cell_mark.old
        (output start.old size.old group.old area.old edges.old)
        row_mark.new cell_mark.new
        (output start.new size.new group.new area.new edges.new) result }
{
    // By number: the rows in group, the groups in start. In their order: the numbers in edges, the rows in row_mark.
    survey_rings(
        view, row_mark, cell_mark, edges, size, group, start, area, n,
    );
    let polygons = order_rings(group, area, start, n, cell_mark, size, edges, row_mark);
    gather(start, edges, group, n, 0);
    lay_out(view, row_mark, n, edges, start, size, area);
    clear(row_mark);
    answer(view.held, n, polygons, area)
}

// Whether the rings fit in as many places, and their edges in the room for them.
fn has_room(rings: usize, places: usize, edges: usize, room: usize) -> bool
    ensures { result ≡ (leb rings places && leb edges room) }
{
    (rings <= places) & (edges <= room)
}

// Reads out the rings of a state that passes the rules: the ring list as a slice for each field of its records, and the edge list.
// An output that is too short is refused before anything is written. The marks, which are 0, are 0 again.
pub fn build_rings(
    table: &Table<'_>,
    state: &State<'_>,
    marks: &mut Marks<'_>,
    output: &mut Output<'_>,
    held: usize,
) -> Result<ReadOut, Refusal>
    requires { BuildReady
        (view_of state.now.row_slot.now state.now.slot_row.now state.now.slot_cell.now state.now.next.now state.now.parent.now held table.now.area.now)
        marks.old.row_mark.now marks.old.cell_mark.now (output_of output.old) }
    ensures same_marks { SameMarks marks.old marks.new }
    ensures same_output { SameOutput output.old output.new }
    ensures built { Built
        (view_of state.now.row_slot.now state.now.slot_row.now state.now.slot_cell.now state.now.next.now state.now.parent.now held table.now.area.now)
        marks.old.row_mark.now marks.old.cell_mark.now (output_of output.old)
        marks.new.row_mark.now marks.new.cell_mark.now (output_of output.new) result }
{
    let view = View {
        row_slot: state.row_slot,
        slot_row: state.slot_row,
        slot_cell: state.slot_cell,
        next: state.next,
        parent: state.parent,
        terms: table.area,
        held,
    };
    let counts = count_rings(&view, marks.row_mark);
    let rings = counts.rings;
    if has_room(rings, output.start.len(), counts.edges, output.edges.len()) {
        Ok(write_rings(
            &view,
            marks.row_mark,
            marks.cell_mark,
            output.start,
            output.size,
            output.group,
            output.area,
            output.edges,
            rings,
        ))
    } else {
        clear(marks.row_mark);
        Err(Refusal::BadLengths)
    }
}
