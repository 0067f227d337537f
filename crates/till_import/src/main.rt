// till_import TABLE CELLS...: zones for the tills, one after the other, each into a fresh state: a line with its answer, then each ring as
// a list. All that can be stated of it is in the functions called: the command line, files as bytes, the table's check and the lines of a
// zone (`zone`). Here files are read and reports are printed.
#![tactic(auto)]

mod zone;

use arguments::{argument, argument_count, begin};
use command_line::tools::Tool;
use desk::arrays::{place_zeros, row_zeros, text_zeros};
use desk::load_cells;
use desk::tables::load_sound_table;
use desk::words::say_report;
use lent::Table;
use std::rt::{Env, Files};
use zone::{FullArrays, import_list};

// Imports the list in a file, over its cells and their lines.
fn import_file<R: Files>(
    rt: &R,
    arrays: &mut FullArrays,
    text: &mut [u8],
    cells: &mut [u64],
    lines: &mut [usize],
    table_name: &[u8],
    list_name: &[u8],
    table: &Table<'_>,
) {
    let Some(count) = load_cells(rt, list_name, text, cells, lines) else {
        return;
    };
    let report = import_list(
        arrays,
        text,
        table_name,
        list_name,
        &lines[..count],
        table,
        &cells[..count],
    );
    say_report(text, report);
}

// Imports the list that word number k of the command line names.
fn import_word<R: Files + Env>(
    rt: &R,
    arrays: &mut FullArrays,
    text: &mut [u8],
    cells: &mut [u64],
    lines: &mut [usize],
    table_name: &[u8],
    table: &Table<'_>,
    k: usize,
) {
    let mut name = io::buffer();
    let size = argument(rt, k, &mut name);
    import_file(
        rt,
        arrays,
        text,
        cells,
        lines,
        table_name,
        &name[..size],
        table,
    );
}

// Imports the lists, which are all words from the first of them on. Each is loaded and dissolved in the same arrays, so that they are made once.
fn import_words<R: Files + Env>(
    rt: &R,
    text: &mut [u8],
    table_name: &[u8],
    table: &Table<'_>,
    first: usize,
) {
    let mut arrays = FullArrays::new();
    let mut cells = place_zeros::<u64>();
    let mut lines = place_zeros::<usize>();
    for k in first..argument_count(rt) {
        import_word(
            rt,
            &mut arrays,
            text,
            &mut cells,
            &mut lines,
            table_name,
            table,
            k,
        );
    }
}

// Loads the table and goes on where it keeps the rules: one that does not is told once, and not for each zone. A call of its own, so
// that help and complaints take no stack for its arrays.
#[inline(never)]
fn import_all<R: Files + Env>(rt: &R, table_name: &[u8], first: usize) {
    let mut text = text_zeros();
    let mut edges = row_zeros::<u64>();
    let mut reverse = row_zeros::<u32>();
    let mut area = row_zeros::<f64>();
    let Some(rows) = load_sound_table(
        rt,
        table_name,
        &mut text,
        &mut edges,
        &mut reverse,
        &mut area,
    ) else {
        return;
    };
    let table = Table {
        edges: &edges[..rows],
        reverse: &reverse[..rows],
        area: &area[..rows],
    };
    import_words(rt, &mut text, table_name, &table, first);
}

fn main(rt: HostRuntime) {
    let Some(command) = begin(&rt, Tool::TillImport) else {
        return;
    };
    let mut table = io::buffer();
    let size = argument(&rt, command.table, &mut table);
    import_all(&rt, &table[..size], command.list);
}
