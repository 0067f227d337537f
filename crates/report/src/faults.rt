// Files that cannot be taken, in words.
ghost use Rattle.std.specs.Prelude.{◌≡◌, ◌≤◌, length};
ghost use Rattle.text.specs.Text.{Wrote};
ghost use Rattle.report.specs.Faults.{unreadable_words, unreadable_text, too_long_text, file_error_text, table_fault_text, wrong_text, list_fault_text};

use cell_text::ListFault;
use cell_words::Wrong;
use files::{FileError, Reason};
use note_text::put_noted;
use table_bytes::TableFault;
use text::{put_bytes, put_shown};

// Why a file cannot be read.
#[tactic(auto, unfolding(crate::specs::Faults::unreadable_words))]
fn unreadable_words(reason: Reason) -> &'static [u8]
    ensures { result.now ≡ unreadable_words reason }
{
    match reason {
        Reason::Missing => b": there is no such file\n",
        Reason::Directory => b": this is a directory\n",
        Reason::Forbidden => b": this file may not be read\n",
        Reason::Other => b": this file cannot be read\n",
    }
}

pub fn put_unreadable(out: &mut [u8], at: usize, name: &[u8], reason: Reason) -> usize
    requires { at ≤ length out.old }
    ensures { Wrote out.old at out.new result (unreadable_text name.now reason) }
{
    let named = put_shown(out, at, name);
    put_bytes(out, named, unreadable_words(reason))
}

pub fn put_too_long(out: &mut [u8], at: usize, name: &[u8], room: usize) -> usize
    requires { at ≤ length out.old }
    ensures { Wrote out.old at out.new result (too_long_text name.now room) }
{
    let named = put_shown(out, at, name);
    put_noted(out, named, b" byte ", room, b": this file is too long\n")
}

// Why no bytes of a file were taken.
pub fn put_file_error(
    out: &mut [u8],
    at: usize,
    name: &[u8],
    room: usize,
    error: FileError,
) -> usize
    requires { at ≤ length out.old }
    ensures { Wrote out.old at out.new result (file_error_text name.now room error) }
{
    match error {
        FileError::Unreadable(reason) => put_unreadable(out, at, name, reason),
        FileError::TooLong => put_too_long(out, at, name, room),
    }
}

// What is wrong with a table file, where something is.
pub fn put_table_fault(
    out: &mut [u8],
    at: usize,
    name: &[u8],
    room: usize,
    file: Result<usize, TableFault>,
) -> usize
    requires { at ≤ length out.old }
    ensures { Wrote out.old at out.new result (table_fault_text name.now room file) }
{
    match file {
        Ok(_) => at,
        Err(TableFault::CutOff(place)) => {
            let named = put_shown(out, at, name);
            put_noted(
                out,
                named,
                b" byte ",
                place,
                b": this row is cut off, a row has 20 bytes\n",
            )
        }
        Err(TableFault::TooMany(place)) => {
            let named = put_shown(out, at, name);
            let placed = put_noted(out, named, b" byte ", place, b"");
            put_noted(
                out,
                placed,
                b": this table has more than ",
                room,
                b" rows\n",
            )
        }
    }
}

// The byte of a line, and what is wrong there.
#[tactic(auto, unfolding(crate::specs::Faults::wrong_text))]
fn put_wrong(out: &mut [u8], at: usize, wrong: Wrong) -> usize
    requires { at ≤ length out.old }
    ensures { Wrote out.old at out.new result (wrong_text wrong) }
{
    match wrong {
        Wrong::Word(place) => put_noted(
            out,
            at,
            b", byte ",
            place,
            b": a line has one cell, 1 to 16 hexadecimal digits, with or without 0x\n",
        ),
        Wrong::Return(place) => put_noted(
            out,
            at,
            b", byte ",
            place,
            b": a carriage return inside a comment: lines end with LF\n",
        ),
    }
}

// What is wrong with a cell list, where something is.
pub fn put_list_fault(
    out: &mut [u8],
    at: usize,
    name: &[u8],
    room: usize,
    end: Option<ListFault>,
) -> usize
    requires { at ≤ length out.old }
    ensures { Wrote out.old at out.new result (list_fault_text name.now room end) }
{
    match end {
        None => at,
        Some(ListFault::Wrong(line, wrong)) => {
            let named = put_shown(out, at, name);
            let lined = put_noted(out, named, b" line ", line, b"");
            put_wrong(out, lined, wrong)
        }
        Some(ListFault::TooMany(line)) => {
            let named = put_shown(out, at, name);
            let lined = put_noted(out, named, b" line ", line, b"");
            put_noted(out, lined, b": there are more than ", room, b" cells\n")
        }
    }
}
