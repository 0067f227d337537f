// A zone as lines for the tills, as text into a lent slice: one line with its answer, then each ring as a list on one line.
// Every slice is read as far as it goes, and 0 past its end, so that nothing is asked of them.
#![tactic(auto)]

ghost use Rattle.std.specs.Prelude.{◌≡◌, ◌≤◌, length};
ghost use Rattle.lent.specs.Lent.{drawn_of};
ghost use Rattle.text.specs.Text.{Wrote};
ghost use Rattle.zone_lines.specs.Zones.{counts_text, read_out_text, zone_text};
ghost use Rattle.zone_lines.specs.Telling.{told_by, Tells};

use lent::Drawn;
use note_text::{put_area, put_noted};
use outline_text::{at_or, standing};
use refusal_text::put_refusal;
use ring_lines::put_ring_lines;
use scope::{ReadOut, Refusal};
use text::{put_bytes, put_shown};

// Why no answer is told of a zone: so many bytes tell of a refusal; or what there is to tell would fill the room, and may be cut off there.
#[derive(Clone, Copy, Debug, PartialEq, Eq)]
pub enum Untold {
    Refused(usize),
    TooLong,
}

// What is told of a zone: so many bytes of its answer.
pub type Told = Result<usize, Untold>;

fn put_counts(
    out: &mut [u8],
    at: usize,
    cells: usize,
    polygons: usize,
    rings: usize,
    edges: usize,
    first: f64,
) -> usize
    requires { at ≤ length out.old }
    ensures { Wrote out.old at out.new result (counts_text cells polygons rings edges first) }
{
    let of_cells = put_noted(out, at, b": outline, cells ", cells, b"");
    let of_polygons = put_noted(out, of_cells, b", polygons ", polygons, b"");
    let of_rings = put_noted(out, of_polygons, b", rings ", rings, b"");
    let of_edges = put_noted(
        out,
        of_rings,
        b", standing edges ",
        edges,
        b", first outer area ",
    );
    let measured = put_area(out, of_edges, first);
    put_bytes(out, measured, b"\n")
}

// What dissolve read out of a list.
fn put_read_out(
    out: &mut [u8],
    at: usize,
    list: &[u8],
    cells: usize,
    edges: &[u64],
    read: ReadOut,
    drawn: &Drawn<'_>,
) -> usize
    requires { at ≤ length out.old }
    ensures { Wrote out.old at out.new result (read_out_text list.now cells edges.now read (drawn_of drawn.now)) }
{
    let named = put_shown(out, at, list);
    match read {
        ReadOut::Nothing => put_bytes(
            out,
            named,
            b": nothing, cells 0, polygons 0, rings 0, standing edges 0\n",
        ),
        ReadOut::Closed => put_noted(
            out,
            named,
            b": closed, cells ",
            cells,
            b", polygons 0, rings 0, standing edges 0\n",
        ),
        ReadOut::Outline(polygons, rings, first) => {
            let stand = standing(drawn.start, drawn.size, rings);
            let counted = put_counts(out, named, cells, polygons, rings, stand, first);
            put_ring_lines(out, counted, edges, drawn, rings)
        }
    }
}

// What dissolve answered of a list, and what it read out.
fn put_zone(
    out: &mut [u8],
    at: usize,
    table: &[u8],
    list: &[u8],
    cells: usize,
    lines: &[usize],
    edges: &[u64],
    answer: Result<ReadOut, Refusal>,
    drawn: &Drawn<'_>,
) -> usize
    requires { at ≤ length out.old }
    ensures { Wrote out.old at out.new result (zone_text table.now list.now cells lines.now edges.now answer (drawn_of drawn.now)) }
{
    match answer {
        Ok(read) => put_read_out(out, at, list, cells, edges, read, drawn),
        Err(refusal) => {
            let line = at_or(lines, refusal.index(), 0);
            put_refusal(out, at, table, list, refusal, line)
        }
    }
}

// What is told where so many bytes were written, of a call that was carried out or refused.
#[tactic(auto, unfolding(crate::specs::Telling::told_by))]
fn told_of(size: usize, room: usize, done: bool) -> Told
    ensures { result ≡ told_by size room done }
{
    if room <= size {
        Err(Untold::TooLong)
    } else if done {
        Ok(size)
    } else {
        Err(Untold::Refused(size))
    }
}

// Tells what dissolve answered of a list, and what it read out: the names of the two files, how many cells and the line of each, the table's edges.
pub fn tell_zone(
    out: &mut [u8],
    table: &[u8],
    list: &[u8],
    cells: usize,
    lines: &[usize],
    edges: &[u64],
    answer: Result<ReadOut, Refusal>,
    drawn: &Drawn<'_>,
) -> Told
    ensures { Tells table.now list.now cells lines.now edges.now answer (drawn_of drawn.now) out.old out.new result }
{
    let room = out.len();
    let written = put_zone(out, 0, table, list, cells, lines, edges, answer, drawn);
    told_of(written, room, answer.is_ok())
}
