// Groups as the lowest places among their held cells: written to the cells' marks in linear time, then read for each ring.
ghost use Rattle.std.specs.Prelude.{◌≡◌, suc};
ghost use Rattle.scope.specs.Lists.{at};
ghost use Rattle.scope.specs.Order.{group_of};
ghost use Rattle.ring_sort.specs.Fill.{Filling};
ghost use Rattle.rings.specs.Grouping.{PathReady, PaintReady, Painted, GroupsReady, Grouped, CellReady, marked_group, RingGroupsReady};
ghost use Rattle.rings.specs.Views.{view_in};

use crate::links::View;
use slices::{get32, put32};

// 1 more than the group of the cell p, where the cells before it are marked: the mark on the way up, or p where there is none.
fn find_group(view: &View<'_>, mark: &[u32], p: usize) -> usize
    requires { let s = view_in view.now in PathReady s.parent mark.now s.held p }
    ensures { let s = view_in view.now in result ≡ suc (group_of s.parent s.held p) }
{
    let mut i = p;
    while get32(mark, i) == 0 {
        let above = get32(view.parent, i);
        if above == i {
            return p + 1;
        }
        i = above;
    }
    get32(mark, i)
}

// Marks the way up from p with v.
fn mark_path(view: &View<'_>, mark: &mut [u32], p: usize, v: usize)
    requires { let s = view_in view.now in PaintReady s.parent mark.old s.held p v }
    ensures { let s = view_in view.now in Painted s.parent mark.old s.held p mark.new }
{
    let mut i = p;
    while get32(mark, i) == 0 {
        put32(mark, i, v);
        i = get32(view.parent, i);
    }
}

// Marks each held cell with 1 more than its group.
pub(crate) fn mark_groups(view: &View<'_>, mark: &mut [u32])
    requires { let s = view_in view.now in GroupsReady s.parent mark.old s.held }
    ensures { let s = view_in view.now in Grouped s.parent mark.old s.held mark.new }
{
    for p in 0..view.held {
        let v = find_group(view, mark, p);
        mark_path(view, mark, p, v);
    }
}

// The group of the row's cell, by the marks.
fn ring_group(view: &View<'_>, mark: &[u32], r: usize) -> usize
    requires { let s = view_in view.now in CellReady s.row_slot s.slot_cell mark.now r }
    ensures { let s = view_in view.now in result ≡ marked_group s.row_slot s.slot_cell mark.now r }
{
    let cell = get32(view.slot_cell, get32(view.row_slot, r) - 1);
    get32(mark, cell) - 1
}

// The groups of the n rings that are named by rows.
pub(crate) fn ring_groups(view: &View<'_>, mark: &[u32], rows: &[u32], out: &mut [u32], n: usize)
    requires { let s = view_in view.now in RingGroupsReady s.row_slot s.slot_cell mark.now rows.now out.old n }
    ensures { let s = view_in view.now in Filling 0
        (λ i. marked_group s.row_slot s.slot_cell mark.now (at rows.now i))
        out.old out.new n }
{
    for i in 0..n {
        put32(out, i, ring_group(view, mark, get32(rows, i)));
    }
}
