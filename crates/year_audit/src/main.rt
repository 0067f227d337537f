// year_audit TABLE FEED: offers the cells of a feed one by one to a standing state and prints what came of it: how many were accepted and
// refused, what the replays would have drawn, and whether what stands is what is dissolved afresh. All that can be stated of it is in the
// functions called: here files are read and the report is printed.
#![tactic(auto)]

mod year;

ghost use Rattle.std.specs.Prelude.{◌≤◌, length};
ghost use Rattle.desk.specs.Loads.{count_of};

use arguments::{argument, begin};
use command_line::tools::Tool;
use desk::arrays::{offer_zeros, row_zeros, text_zeros};
use desk::load_cells;
use desk::tables::load_sound_table;
use desk::words::say_report;
use lent::Table;
use std::rt::Files;
use year::audit_feed;

// Loads the table at `path`; the file's bytes are gone when it returns.
fn load_rows<R: Files>(
    rt: &R,
    path: &[u8],
    edges: &mut [u64],
    reverse: &mut [u32],
    area: &mut [f64],
) -> Option<usize>
    ensures { (count_of result ≤ length edges.old) × (count_of result ≤ length reverse.old) × (count_of result ≤ length area.old) }
{
    let mut text = text_zeros();
    load_sound_table(rt, path, &mut text, edges, reverse, area)
}

// Loads the feed at `path`, in the same way.
fn load_feed<R: Files>(rt: &R, path: &[u8], cells: &mut [u64]) -> Option<usize>
    ensures { count_of result ≤ length cells.old }
{
    let mut text = text_zeros();
    let mut lines = offer_zeros::<usize>();
    load_cells(rt, path, &mut text, cells, &mut lines)
}

// Loads the two files and, where both can be taken, prints what came of the audit. A call of its own, so that help and complaints take no
// stack for its arrays.
#[inline(never)]
fn audit_files<R: Files>(rt: &R, table_name: &[u8], feed_name: &[u8]) {
    let mut edges = row_zeros::<u64>();
    let mut reverse = row_zeros::<u32>();
    let mut area = row_zeros::<f64>();
    let mut cells = offer_zeros::<u64>();
    let Some(rows) = load_rows(rt, table_name, &mut edges, &mut reverse, &mut area) else {
        return;
    };
    let Some(count) = load_feed(rt, feed_name, &mut cells) else {
        return;
    };
    let mut text = io::large_buffer();
    let table = Table {
        edges: &edges[..rows],
        reverse: &reverse[..rows],
        area: &area[..rows],
    };
    let report = audit_feed(table_name, feed_name, &mut text, &table, &cells[..count]);
    say_report(&text, report);
}

fn main(rt: HostRuntime) {
    let Some(command) = begin(&rt, Tool::YearAudit) else {
        return;
    };
    let mut table = io::buffer();
    let mut feed = io::buffer();
    let table_size = argument(&rt, command.table, &mut table);
    let feed_size = argument(&rt, command.list, &mut feed);
    audit_files(&rt, &table[..table_size], &feed[..feed_size]);
}
