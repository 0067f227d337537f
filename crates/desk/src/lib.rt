// What the tools share: files loaded into lent slices, arrays of full size, reports and their printing. A file that cannot be taken is
// answered with the one line that says why. No contract can say which bytes a file has; what becomes of them is promised.
#![tactic(auto)]

pub mod arrays;
pub mod reports;
pub mod tables;
pub mod words;

ghost use Rattle.std.specs.Prelude.{◌≡◌, ◌≤◌, length};
ghost use Rattle.scope.specs.Table.{table};
ghost use Rattle.files.specs.Files.{count_of as bytesRead};
ghost use Rattle.desk.specs.Loads.{count_of, LoadsTable, LoadsCells};
ghost use Rattle.desk.specs.Taking.{TakesRows, TakesTable, TakesList, TakesCells};

use cell_text::read_cells;
use files::{FileError, read_file};
use report::faults::{put_file_error, put_list_fault, put_table_fault};
use reports::in_room;
use std::rt::Files;
use table_bytes::read_table;
use words::say_report;

// How many rows or cells were taken; or how many bytes the complaint has that says why none were.
pub type Taken = Result<usize, usize>;

// The rows of the bytes that came from the file at `path`.
fn take_rows(
    path: &[u8],
    line: &mut [u8],
    bytes: &[u8],
    edges: &mut [u64],
    reverse: &mut [u32],
    area: &mut [f64],
) -> Taken
    ensures { TakesRows bytes.now path.now (table edges.old reverse.old area.old) line.old line.new result (table edges.new reverse.new area.new) }
{
    match read_table(bytes, edges, reverse, area) {
        Ok(rows) => Ok(rows),
        Err(fault) => Err(put_table_fault(line, 0, path, edges.len(), Err(fault))),
    }
}

// The table that came of reading the file at `path` into `text`: its rows into the start of the slices, or a complaint into `line`.
pub fn take_table(
    read: Result<usize, FileError>,
    path: &[u8],
    line: &mut [u8],
    text: &[u8],
    edges: &mut [u64],
    reverse: &mut [u32],
    area: &mut [f64],
) -> Taken
    requires { bytesRead read ≤ length text.now }
    ensures { TakesTable read text.now path.now (table edges.old reverse.old area.old) line.old line.new result (table edges.new reverse.new area.new) }
{
    match read {
        Ok(size) => take_rows(path, line, &text[..size], edges, reverse, area),
        Err(error) => Err(put_file_error(line, 0, path, text.len(), error)),
    }
}

// Says why the file at `path` is not taken.
fn complain(line: &mut [u8], size: usize, path: &[u8]) {
    let report = in_room(line, Err(size), path);
    say_report(line, report);
}

// Loads the table at `path` into the start of the slices, by way of `text`. A complaint has a line of its own: the bytes that came stay
// where they are.
pub fn load_table<R: Files>(
    rt: &R,
    path: &[u8],
    text: &mut [u8],
    edges: &mut [u64],
    reverse: &mut [u32],
    area: &mut [f64],
) -> Option<usize>
    ensures loads { LoadsTable text.new (table edges.old reverse.old area.old) result (table edges.new reverse.new area.new) }
    ensures fits { (count_of result ≤ length edges.old) × (count_of result ≤ length reverse.old) × (count_of result ≤ length area.old) }
{
    let mut line = io::large_buffer();
    let read = read_file(rt, path, text);
    match take_table(read, path, &mut line, text, edges, reverse, area) {
        Ok(rows) => Some(rows),
        Err(size) => {
            complain(&mut line, size, path);
            None
        }
    }
}

// The cells of the bytes that came from the file at `path`.
fn take_list(
    path: &[u8],
    line: &mut [u8],
    bytes: &[u8],
    cells: &mut [u64],
    lines: &mut [usize],
) -> Taken
    ensures { TakesList bytes.now path.now cells.old lines.old line.old line.new result cells.new lines.new }
{
    match read_cells(bytes, cells, lines) {
        Ok(count) => Ok(count),
        Err(stopped) => Err(put_list_fault(line, 0, path, cells.len(), Some(stopped.fault))),
    }
}

// The list that came of reading the file at `path` into `text`: its cells and their lines into the start of the slices, or a complaint
// into `line`.
pub fn take_cells(
    read: Result<usize, FileError>,
    path: &[u8],
    line: &mut [u8],
    text: &[u8],
    cells: &mut [u64],
    lines: &mut [usize],
) -> Taken
    requires { bytesRead read ≤ length text.now }
    ensures { TakesCells read text.now path.now cells.old lines.old line.old line.new result cells.new lines.new }
{
    match read {
        Ok(size) => take_list(path, line, &text[..size], cells, lines),
        Err(error) => Err(put_file_error(line, 0, path, text.len(), error)),
    }
}

// Loads the cell list at `path` into the start of `cells`, with the line of each cell, by way of `text`.
pub fn load_cells<R: Files>(
    rt: &R,
    path: &[u8],
    text: &mut [u8],
    cells: &mut [u64],
    lines: &mut [usize],
) -> Option<usize>
    ensures loads { LoadsCells text.new cells.old lines.old result cells.new lines.new }
    ensures fits { (count_of result ≤ length cells.old) × (count_of result ≤ length lines.old) }
{
    let mut line = io::large_buffer();
    let read = read_file(rt, path, text);
    match take_cells(read, path, &mut line, text, cells, lines) {
        Ok(count) => Some(count),
        Err(size) => {
            complain(&mut line, size, path);
            None
        }
    }
}
