// A list of cells dissolved in memory of full size, and the report of what came of it.
ghost use Rattle.std.specs.Prelude.{◌≡◌, length};
ghost use Rattle.lent.specs.Lent.{table_of, output_of, SameOutput};
ghost use Rattle.full_size.specs.Drawing.{drawing};
ghost use Rattle.desk.specs.Outputs.{new_output};
ghost use Rattle.desk.specs.Reports.{Page};
ghost use Rattle.outline.specs.Zones.{Reported, zone_in};

use desk::arrays::{EDGES, RINGS};
use desk::reports::{Report, in_room};
use full_size::dissolve_list;
use lent::arrays::OutputArrays;
use lent::{Output, Table};
use report::zones::put_outline;

// `lines` are those of the cells in their file; `by_row` has the edges named by their rows.
fn report_zone(
    table_name: &[u8],
    list_name: &[u8],
    text: &mut [u8],
    table: &Table<'_>,
    cells: &[u64],
    lines: &[usize],
    output: &mut Output<'_>,
    mode: usize,
    by_row: bool,
) -> Report
    ensures { Reported table_name.now list_name.now (length cells.now) lines.now table.now.edges.now by_row
        (drawing (table_of table.now) mode cells.now (output_of output.old)) text.old text.new (output_of output.new) result }
{
    let answer = dissolve_list(table, cells, output, mode);
    let end = put_outline(
        text,
        0,
        table_name,
        list_name,
        cells.len(),
        lines,
        table.edges,
        by_row,
        answer,
        &output.as_drawn(),
    );
    answer.map(|_| end).map_err(|_| end)
}

// The same in new outputs of full size, as it can be printed.
pub fn draw_zone(
    table_name: &[u8],
    list_name: &[u8],
    text: &mut [u8],
    table: &Table<'_>,
    cells: &[u64],
    lines: &[usize],
    mode: usize,
    by_row: bool,
) -> Report
    ensures { record { text = text.new; report = result }
        ≡ zone_in text.old table_name.now list_name.now (length cells.now) lines.now table.now.edges.now by_row (drawing (table_of table.now) mode cells.now new_output) }
{
    let mut arrays = OutputArrays::<RINGS, EDGES>::new();
    let mut output = arrays.lend(RINGS, EDGES);
    let report = report_zone(
        table_name,
        list_name,
        text,
        table,
        cells,
        lines,
        &mut output,
        mode,
        by_row,
    );
    in_room(text, report, list_name)
}
