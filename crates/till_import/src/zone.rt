// A zone imported: its list dissolved in a fresh state, naming no mode, and told as lines.
ghost use Rattle.std.specs.Prelude.{◌≡◌, length};
ghost use Rattle.lent.specs.Lent.{table_of, output_of};
ghost use Rattle.full_size.specs.Drawing.{drawing};
ghost use Rattle.desk.specs.Outputs.{new_output};
ghost use Rattle.desk.specs.Reports.{Page};
ghost use Rattle.till_import.specs.Imports.{no_mode, Imported, report_of, zone_in};

use desk::arrays::{EDGES, RINGS};
use desk::reports::{Report, in_room};
use full_size::{PLACES, ROWS, SLOTS, sizes_for};
use lent::arrays::{OutputArrays, StateArrays};
use lent::{Output, Table};
use solvent::dissolve;
use zone_lines::{Told, Untold, tell_zone};

// The arrays of a state of full size, which serve for one list after the other: clearing them anew takes longer than dissolving a short list.
pub type FullArrays = StateArrays<ROWS, SLOTS, PLACES>;

// Mode 2 names none.
const NO_MODE: usize = 2;

// Dissolves a list and tells what came of it: the names of the two files, the line of each cell, the table, the cells, the outputs.
fn import(
    arrays: &mut FullArrays,
    text: &mut [u8],
    table_name: &[u8],
    list_name: &[u8],
    lines: &[usize],
    table: &Table<'_>,
    cells: &[u64],
    output: &mut Output<'_>,
) -> Told
    ensures { Imported table_name.now list_name.now (length cells.now) lines.now table.now.edges.now
        (drawing (table_of table.now) no_mode cells.now (output_of output.old)) (output_of output.new) text.old text.new result }
{
    let (mut memory, mut marks) = arrays.lend_again(sizes_for(table));
    let answer = dissolve(table, &mut memory, &mut marks, cells, output, NO_MODE);
    tell_zone(
        text,
        table_name,
        list_name,
        cells.len(),
        lines,
        table.edges,
        answer,
        &output.as_drawn(),
    )
}

// Lines that were not told, since they may be cut off, are as long as their room.
fn report_of(told: Told, room: usize) -> Report
    ensures { result ≡ report_of told room }
{
    told.map_err(|untold| match untold {
        Untold::Refused(size) => size,
        Untold::TooLong => room,
    })
}

// Imports a list into new outputs, which are long enough for every table, and tells what came of it, as it can be printed. The arrays may
// hold anything, such as what a list before left there.
pub fn import_list(
    arrays: &mut FullArrays,
    text: &mut [u8],
    table_name: &[u8],
    list_name: &[u8],
    lines: &[usize],
    table: &Table<'_>,
    cells: &[u64],
) -> Report
    ensures { record { text = text.new; report = result }
        ≡ zone_in text.old table_name.now list_name.now (length cells.now) lines.now table.now.edges.now (drawing (table_of table.now) no_mode cells.now new_output) }
{
    let mut outputs = OutputArrays::<RINGS, EDGES>::new();
    let mut output = outputs.lend(RINGS, EDGES);
    let told = import(
        arrays,
        text,
        table_name,
        list_name,
        lines,
        table,
        cells,
        &mut output,
    );
    let report = report_of(told, text.len());
    in_room(text, report, list_name)
}
