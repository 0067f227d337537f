// An outline as text: a summary, then each polygon with its rings, the outer first.
#![tactic(auto)]

ghost use Rattle.std.specs.Prelude.{◌≡◌, ◌≤◌, ◌<◌, ◌^◌, length, get_or};
ghost use Rattle.std.specs.Float.{nan};
ghost use Rattle.scope.specs.Lists.{at};
ghost use Rattle.text.specs.Text.{Wrote};
ghost use Rattle.outline_text.specs.Outlines.{edge_name, edge_text, edges_text, begins as beginsAt, heading_text, ring_text, rings_text, standing as standingOf, summary_text};

use lent::Drawn;
use note_text::{put_area, put_noted};
use slices::at32;
use text::{put_bytes, put_numeral};

// What a slice holds at place `i`, and `otherwise` past its end.
pub fn at_or<T: Copy>(items: &[T], i: usize, otherwise: T) -> T
    ensures { result ≡ get_or items.now i otherwise }
{
    items.get(i).copied().unwrap_or(otherwise)
}

// The area of a ring, NaN past the end.
pub fn area_at(area: &[f64], i: usize) -> f64
    ensures { result ≡ get_or area.now i nan }
{
    at_or(area, i, f64::NAN)
}

// An edge by its number, or by its row.
fn put_edge_name(out: &mut [u8], at: usize, edges: &[u64], rows: bool, row: usize) -> usize
    requires { at ≤ length out.old }
    ensures { Wrote out.old at out.new result (edge_name edges.now rows row) }
{
    if rows {
        put_numeral(out, at, row as u64, 10, 1)
    } else {
        put_numeral(out, at, at_or(edges, row, 0), 16, 16)
    }
}

fn put_edge(out: &mut [u8], at: usize, edges: &[u64], rows: bool, row: usize) -> usize
    requires { at ≤ length out.old }
    ensures { Wrote out.old at out.new result (edge_text edges.now rows row) }
{
    let indented = put_bytes(out, at, b"    ");
    let named = put_edge_name(out, indented, edges, rows, row);
    put_bytes(out, named, b"\n")
}

// So many edges of the edge list, from place `start` on, a line each.
fn put_edges(
    out: &mut [u8],
    at: usize,
    edges: &[u64],
    rows: bool,
    list: &[u32],
    start: usize,
    size: usize,
) -> usize
    requires { (at ≤ length out.old) × (start < 2 ^ 32) × (size < 2 ^ 32) }
    ensures { Wrote out.old at out.new result (edges_text edges.now rows list.now start size) }
{
    let mut place = at;
    for j in 0..size {
        place = put_edge(out, place, edges, rows, at32(list, start + j));
    }
    place
}

// Whether a ring is the first of its polygon.
pub fn begins(group: &[u32], i: usize) -> bool
    ensures { result ≡ beginsAt group.now i }
{
    i == 0 || at32(group, i) != at32(group, i - 1)
}

#[tactic(auto, unfolding(crate::specs::Outlines::heading_text))]
fn put_heading(out: &mut [u8], at: usize, group: &[u32], i: usize) -> usize
    requires { at ≤ length out.old }
    ensures { Wrote out.old at out.new result (heading_text group.now i) }
{
    if begins(group, i) {
        put_noted(
            out,
            at,
            b"polygon of group ",
            at32(group, i),
            b"\n  outer ring",
        )
    } else {
        put_bytes(out, at, b"  inner ring")
    }
}

// Ring i of a ring list: its heading, area, length and edges.
fn put_ring(
    out: &mut [u8],
    at: usize,
    edges: &[u64],
    rows: bool,
    drawn: &Drawn<'_>,
    i: usize,
) -> usize
    requires { at ≤ length out.old }
    ensures { Wrote out.old at out.new result (ring_text edges.now rows drawn.now.start.now drawn.now.size.now drawn.now.group.now drawn.now.area.now drawn.now.edges.now i) }
{
    let count = at32(drawn.size, i);
    let headed = put_heading(out, at, drawn.group, i);
    let named = put_bytes(out, headed, b", area ");
    let measured = put_area(out, named, area_at(drawn.area, i));
    let counted = put_noted(out, measured, b", edges ", count, b"\n");
    put_edges(
        out,
        counted,
        edges,
        rows,
        drawn.edges,
        at32(drawn.start, i),
        count,
    )
}

// The first rings of a ring list, polygon after polygon.
pub fn put_rings(
    out: &mut [u8],
    at: usize,
    edges: &[u64],
    rows: bool,
    drawn: &Drawn<'_>,
    rings: usize,
) -> usize
    requires { at ≤ length out.old }
    ensures { Wrote out.old at out.new result (rings_text edges.now rows drawn.now.start.now drawn.now.size.now drawn.now.group.now drawn.now.area.now drawn.now.edges.now rings) }
{
    let mut place = at;
    for i in 0..rings {
        place = put_ring(out, place, edges, rows, drawn, i);
    }
    place
}

// How many edges stand: where the last ring ends.
pub fn standing(start: &[u32], size: &[u32], rings: usize) -> usize
    ensures { result ≡ standingOf start.now size.now rings }
{
    if rings == 0 {
        0
    } else {
        at32(start, rings - 1) + at32(size, rings - 1)
    }
}

pub fn put_summary(
    out: &mut [u8],
    at: usize,
    rows: usize,
    cells: usize,
    polygons: usize,
    rings: usize,
    edges: usize,
) -> usize
    requires { at ≤ length out.old }
    ensures { Wrote out.old at out.new result (summary_text rows cells polygons rings edges) }
{
    let of_cells = put_noted(out, at, b"cells ", cells, b"\n");
    let of_polygons = put_noted(out, of_cells, b"polygons ", polygons, b"\n");
    let of_rings = put_noted(out, of_polygons, b"rings ", rings, b"\n");
    let of_table = put_noted(out, of_rings, b"table edges ", rows, b"\n");
    put_noted(out, of_table, b"standing edges ", edges, b"\n")
}
