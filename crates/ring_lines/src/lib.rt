// The rings of a zone, each as a list on one line, as text into a lent slice.
// Every slice is read as far as it goes, and 0 past its end, so that nothing is asked of them.
#![tactic(auto)]

ghost use Rattle.std.specs.Prelude.{◌≤◌, ◌<◌, ◌^◌, length};
ghost use Rattle.lent.specs.Lent.{drawn_of};
ghost use Rattle.text.specs.Text.{Wrote};
ghost use Rattle.ring_lines.specs.Rings.{edge_word, edge_words, kind_text, ring_name, ring_line, ring_lines};

use lent::Drawn;
use note_text::{put_area, put_noted};
use outline_text::{area_at, at_or, begins};
use slices::at32;
use text::{put_bytes, put_numeral};

// An edge by its number, behind a blank.
fn put_edge_word(out: &mut [u8], at: usize, edges: &[u64], row: usize) -> usize
    requires { at ≤ length out.old }
    ensures { Wrote out.old at out.new result (edge_word edges.now row) }
{
    let parted = put_bytes(out, at, b" ");
    put_numeral(out, parted, at_or(edges, row, 0), 16, 16)
}

// So many edges of the edge list, from place `start` on.
fn put_edge_words(
    out: &mut [u8],
    at: usize,
    edges: &[u64],
    list: &[u32],
    start: usize,
    size: usize,
) -> usize
    requires { (at ≤ length out.old) × (start < 2 ^ 32) × (size < 2 ^ 32) }
    ensures { Wrote out.old at out.new result (edge_words edges.now list.now start size) }
{
    let mut place = at;
    for j in 0..size {
        place = put_edge_word(out, place, edges, at32(list, start + j));
    }
    place
}

fn put_kind(out: &mut [u8], at: usize, outer: bool) -> usize
    requires { at ≤ length out.old }
    ensures { Wrote out.old at out.new result (kind_text outer) }
{
    if outer {
        put_bytes(out, at, b"outer")
    } else {
        put_bytes(out, at, b"inner")
    }
}

fn put_ring_name(out: &mut [u8], at: usize, group: &[u32], i: usize) -> usize
    requires { at ≤ length out.old }
    ensures { Wrote out.old at out.new result (ring_name group.now i) }
{
    let kind = put_kind(out, at, begins(group, i));
    put_noted(out, kind, b" ring of group ", at32(group, i), b", area ")
}

// Ring i of a ring list: its name, area and edges.
fn put_ring_line(out: &mut [u8], at: usize, edges: &[u64], drawn: &Drawn<'_>, i: usize) -> usize
    requires { at ≤ length out.old }
    ensures { Wrote out.old at out.new result (ring_line edges.now (drawn_of drawn.now) i) }
{
    let count = at32(drawn.size, i);
    let named = put_ring_name(out, at, drawn.group, i);
    let measured = put_area(out, named, area_at(drawn.area, i));
    let counted = put_noted(out, measured, b", edges ", count, b":");
    let listed = put_edge_words(
        out,
        counted,
        edges,
        drawn.edges,
        at32(drawn.start, i),
        count,
    );
    put_bytes(out, listed, b"\n")
}

// The first rings of a ring list, polygon after polygon.
pub fn put_ring_lines(
    out: &mut [u8],
    at: usize,
    edges: &[u64],
    drawn: &Drawn<'_>,
    rings: usize,
) -> usize
    requires { at ≤ length out.old }
    ensures { Wrote out.old at out.new result (ring_lines edges.now (drawn_of drawn.now) rings) }
{
    let mut place = at;
    for i in 0..rings {
        place = put_ring_line(out, place, edges, drawn, i);
    }
    place
}
