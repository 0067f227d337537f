// outline TABLE CELLS: dissolves a list of cells and prints its outline: a summary, then each polygon with its rings. All that can be
// stated of it is in the functions called, of which `draw_zone` is the last: here files are read and its report is printed.
// Its arrays take 5.7 MB of stack (desk::arrays has them one by one), and with the library's own the program takes 6.6 MB.
#![tactic(auto)]

mod zone;

use arguments::{argument, begin};
use command_line::line::Command;
use command_line::tools::Tool;
use desk::arrays::{place_zeros, row_zeros, text_zeros};
use desk::load_cells;
use desk::tables::load_sound_table;
use desk::words::say_report;
use lent::Table;
use std::rt::{Env, Files};
use zone::draw_zone;

// Loads the two files and, where both can be taken, prints the outline of the cells over the table. A call of its own, so that help and
// complaints take no stack for its arrays.
#[inline(never)]
fn outline<R: Files>(rt: &R, table_name: &[u8], list_name: &[u8], mode: usize, by_row: bool) {
    let mut text = text_zeros();
    let mut edges = row_zeros::<u64>();
    let mut reverse = row_zeros::<u32>();
    let mut area = row_zeros::<f64>();
    let mut cells = place_zeros::<u64>();
    let mut lines = place_zeros::<usize>();
    let Some(rows) = load_sound_table(
        rt,
        table_name,
        &mut text,
        &mut edges,
        &mut reverse,
        &mut area,
    ) else {
        return;
    };
    let Some(count) = load_cells(rt, list_name, &mut text, &mut cells, &mut lines) else {
        return;
    };
    let table = Table {
        edges: &edges[..rows],
        reverse: &reverse[..rows],
        area: &area[..rows],
    };
    let report = draw_zone(
        table_name,
        list_name,
        &mut text,
        &table,
        &cells[..count],
        &lines[..count],
        mode,
        by_row,
    );
    say_report(&text, report);
}

fn run<R: Files + Env>(rt: &R, command: Command) {
    let mut table_name = io::buffer();
    let mut list_name = io::buffer();
    let table_size = argument(rt, command.table, &mut table_name);
    let list_size = argument(rt, command.list, &mut list_name);
    outline(
        rt,
        &table_name[..table_size],
        &list_name[..list_size],
        command.mode.number(),
        command.rows,
    );
}

fn main(rt: HostRuntime) {
    let Some(command) = begin(&rt, Tool::Outline) else {
        return;
    };
    run(&rt, command);
}
