// The edge list: rings laid end to end, with the start and the length of each, and the areas read off it.
ghost use Rattle.std.specs.Prelude.{◌≡◌};
ghost use Rattle.std.specs.Float.{nan};
ghost use Rattle.scope.specs.Area.{area_of};
ghost use Rattle.ring_sort.specs.Fill.{Filling};
ghost use Rattle.rings.specs.Views.{view_in};
ghost use Rattle.rings.specs.Laying.{LayReady, Laid, LayAllReady, LaidAll, terms_of, RowsReady, area_laid, AreasReady, OutReady, LaidOut};

use crate::links::View;
use fp_adder::FloatAdder;
use slices::{get32, put32};

// Writes the rows of r's ring from the place `from` on; the answer is how many there are.
fn lay_ring(view: &View<'_>, out: &mut [u32], from: usize, r: usize) -> usize
    requires { let s = view_in view.now in LayReady s.row_slot s.slot_row s.next out.old from r }
    ensures { let s = view_in view.now in Laid s.row_slot s.slot_row s.next
        out.old from r out.new result }
{
    let mut k: usize = 0;
    let mut x = r;
    let mut slot = view.slot_of(r);
    loop {
        put32(out, from + k, x);
        k += 1;
        slot = view.next_slot(x, slot);
        x = view.row_in(slot);
        if x == r {
            return k;
        }
    }
}

// Writes the rings of the n rows end to end, with the start and the length of each.
fn lay_rings(
    view: &View<'_>,
    rows: &[u32],
    n: usize,
    edges: &mut [u32],
    start: &mut [u32],
    size: &mut [u32],
)
    requires { let s = view_in view.now in LayAllReady s.row_slot s.slot_row s.next rows.now n edges.old start.old size.old }
    ensures { let s = view_in view.now in LaidAll
        s.row_slot s.slot_row s.next rows.now n
        edges.old start.old size.old
        edges.new start.new size.new }
{
    let mut k: usize = 0;
    for i in 0..n {
        let count = lay_ring(view, edges, k, get32(rows, i));
        put32(start, i, k);
        put32(size, i, count);
        k += count;
    }
}

// The area of a ring, by its rows.
fn ring_area(terms: &[f64], rows: &[u32]) -> f64
    requires { RowsReady terms.now rows.now }
    ensures { result ≡ area_of (terms_of terms.now rows.now) }
{
    let mut adder = FloatAdder::new();
    for row in rows {
        adder = adder.add(terms[*row as usize]);
    }
    adder.closed()
}

// The areas of the n rings that are laid end to end.
fn ring_areas(terms: &[f64], edges: &[u32], start: &[u32], size: &[u32], area: &mut [f64], n: usize)
    requires { AreasReady terms.now edges.now start.now size.now area.old n }
    ensures { Filling nan
        (area_laid terms.now edges.now start.now size.now)
        area.old area.new n }
{
    for i in 0..n {
        let from = get32(start, i);
        area[i] = ring_area(terms, &edges[from..from + get32(size, i)]);
    }
}

// Lays the rings of the n rows end to end, with the start, the length and the area of each.
pub(crate) fn lay_out(
    view: &View<'_>,
    rows: &[u32],
    n: usize,
    edges: &mut [u32],
    start: &mut [u32],
    size: &mut [u32],
    area: &mut [f64],
)
    requires { let s = view_in view.now in OutReady s.row_slot s.slot_row s.next s.terms rows.now n
        edges.old start.old size.old area.old }
    ensures { let s = view_in view.now in LaidOut
        s.row_slot s.slot_row s.next s.terms rows.now n
        edges.old start.old size.old area.old
        edges.new start.new size.new area.new }
{
    lay_rings(view, rows, n, edges, start, size);
    ring_areas(view.terms, edges, start, size, area, n);
}
