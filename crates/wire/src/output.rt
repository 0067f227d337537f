// What read out and dissolve write into the bytes of an output: a summary, the rings, the edges.
ghost use Rattle.std.specs.Prelude.{◌≡◌, ◌+◌, ◌<◌, ◌≤◌, length};
ghost use Rattle.std.proofs.lemmas.List.Edits.{sets};
ghost use Rattle.scope.specs.Lists.{at, total};
ghost use Rattle.scope.specs.Calls.{over};
ghost use Rattle.scope.specs.Bytes.{summary_record, ring_bytes, read_bytes, result_of, shown_verdict, shown_out, joined};
ghost use Rattle.lent.specs.Lent.{drawn_of};
ghost use Rattle.wire.specs.Room.{RingsIn, CountRoom, RingsRoom, ReadingRoom, ShownRoom};

use answer_numbers::{Summary, result, summarise, then_fits, verdict_of};
use codec::{ToBytes, bits_of, encode, write_u32};
use lent::Drawn;
use scope::{ReadOut, Refusal};

// As many edges as the first rings are long.
fn edge_count(output: &Drawn<'_>, rings: usize) -> usize
    requires { CountRoom (drawn_of output.now) rings }
    ensures { result ≡ total (at output.now.size.now) rings }
{
    let mut edges = 0;
    for size in &output.size[..rings] {
        edges += *size as usize;
    }
    edges
}

fn write_summary(out: &mut [u8], summary: Summary, edges: usize)
    requires { 24 ≤ length out.old }
    ensures { out.new ≡ sets out.old 0 (summary_record summary.kind summary.polygons summary.rings edges summary.area) }
{
    write_u32(out, 0, summary.kind);
    write_u32(out, 4, summary.polygons);
    write_u32(out, 8, summary.rings);
    write_u32(out, 12, edges as u64);
    summary.area.write(out, 16);
}

// The record of ring i, from place `at` on.
fn write_ring(out: &mut [u8], at: usize, output: &Drawn<'_>, i: usize)
    requires room { at + 20 ≤ length out.old }
    requires here { RingsIn (drawn_of output.now) (i + 1) }
    ensures { out.new ≡ sets out.old at (ring_bytes (drawn_of output.now) i) }
{
    write_u32(out, at, u64::from(output.start[i]));
    write_u32(out, at + 4, u64::from(output.size[i]));
    write_u32(out, at + 8, u64::from(output.group[i]));
    bits_of(output.area[i]).write(out, at + 12);
}

// The records of the first rings, behind the summary.
fn write_rings(out: &mut [u8], output: &Drawn<'_>, rings: usize)
    requires { RingsRoom (length out.old) (drawn_of output.now) rings }
    ensures { out.new ≡ sets out.old 24 (joined (ring_bytes (drawn_of output.now)) rings) }
{
    for i in 0..rings {
        write_ring(out, 24 + 20 * i, output, i);
    }
}

// Everything, into an output that is long enough.
fn write_reading(out: &mut [u8], output: &Drawn<'_>, answer: Result<ReadOut, Refusal>, edges: usize)
    requires { ReadingRoom (length out.old) answer (drawn_of output.now) edges }
    ensures { out.new ≡ over (read_bytes answer (drawn_of output.now)) out.old }
{
    let summary = summarise(answer);
    let rings = summary.rings as usize;
    write_summary(out, summary, edges);
    write_rings(out, output, rings);
    encode(&output.edges[..edges], out, 24 + 20 * rings);
}

// The answer into the bytes of an output, or nothing where it is refused or has no room.
fn write_answer(
    out: &mut [u8],
    output: &Drawn<'_>,
    answer: Result<ReadOut, Refusal>,
) -> Result<(), Refusal>
    requires { ShownRoom answer (drawn_of output.now) }
    ensures verdict { result ≡ shown_verdict answer (drawn_of output.now) out.old }
    ensures written { out.new ≡ shown_out answer (drawn_of output.now) out.old }
{
    let rings = summarise(answer).rings as usize;
    let edges = edge_count(output, rings);
    let fits = 24 + 20 * rings + 4 * edges <= out.len();
    then_fits(verdict_of(answer), fits)?;
    write_reading(out, output, answer, edges);
    Ok(())
}

// That, and the result as a number.
pub fn show(out: &mut [u8], output: &Drawn<'_>, answer: Result<ReadOut, Refusal>) -> u64
    requires { ShownRoom answer (drawn_of output.now) }
    ensures result { result ≡ result_of (shown_verdict answer (drawn_of output.now) out.old) }
    ensures written { out.new ≡ shown_out answer (drawn_of output.now) out.old }
{
    result(write_answer(out, output, answer))
}
