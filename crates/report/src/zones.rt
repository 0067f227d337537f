// What a call answered, as text.
ghost use Rattle.std.specs.Prelude.{◌≤◌, length};
ghost use Rattle.text.specs.Text.{Wrote};
ghost use Rattle.report.specs.Answers.{counted_text, read_out_text, outline_text};

use lent::Drawn;
use outline_text::{at_or, put_rings, put_summary, standing};
use refusal_text::put_refusal;
use scope::{ReadOut, Refusal};
use text::put_bytes;

// An outline of so many cells: what it counts, then each ring.
fn put_counted(
    out: &mut [u8],
    at: usize,
    cells: usize,
    edges: &[u64],
    rows: bool,
    polygons: usize,
    rings: usize,
    drawn: &Drawn<'_>,
) -> usize
    requires { at ≤ length out.old }
    ensures { Wrote out.old at out.new result (counted_text cells edges.now rows polygons rings drawn.now.start.now drawn.now.size.now drawn.now.group.now drawn.now.area.now drawn.now.edges.now) }
{
    let count = standing(drawn.start, drawn.size, rings);
    let counted = put_summary(out, at, edges.len(), cells, polygons, rings, count);
    put_rings(out, counted, edges, rows, drawn, rings)
}

// What was read out of so many cells: what it counts, and each ring or why there is none.
fn put_read_out(
    out: &mut [u8],
    at: usize,
    cells: usize,
    edges: &[u64],
    rows: bool,
    read: ReadOut,
    drawn: &Drawn<'_>,
) -> usize
    requires { at ≤ length out.old }
    ensures { Wrote out.old at out.new result (read_out_text cells edges.now rows read drawn.now.start.now drawn.now.size.now drawn.now.group.now drawn.now.area.now drawn.now.edges.now) }
{
    match read {
        ReadOut::Nothing => {
            let counted = put_summary(out, at, edges.len(), cells, 0, 0, 0);
            put_bytes(out, counted, b"nothing: the list has no cells\n")
        }
        ReadOut::Closed => {
            let counted = put_summary(out, at, edges.len(), cells, 0, 0, 0);
            put_bytes(out, counted, b"closed: no edge stands\n")
        }
        ReadOut::Outline(polygons, rings, _) => put_counted(
            out, at, cells, edges, rows, polygons, rings, drawn,
        ),
    }
}

// The whole report of an answer of so many cells: what it counts, and each ring or why there is none; or a refusal.
pub fn put_outline(
    out: &mut [u8],
    at: usize,
    table: &[u8],
    list: &[u8],
    cells: usize,
    lines: &[usize],
    edges: &[u64],
    rows: bool,
    answer: Result<ReadOut, Refusal>,
    drawn: &Drawn<'_>,
) -> usize
    requires { at ≤ length out.old }
    ensures { Wrote out.old at out.new result (outline_text table.now list.now cells lines.now edges.now rows answer drawn.now.start.now drawn.now.size.now drawn.now.group.now drawn.now.area.now drawn.now.edges.now) }
{
    match answer {
        Ok(read) => put_read_out(out, at, cells, edges, rows, read, drawn),
        Err(refusal) => {
            let line = at_or(lines, refusal.index(), 0);
            put_refusal(out, at, table, list, refusal, line)
        }
    }
}
