// A cell list as text: one cell a line in hexadecimal, with or without 0x; blank lines, # comments and a byte order mark in front are passed over.
// The cells go into a lent slice, with the line of each beside it; a line that is none of these is named with what is wrong and its place.
#![tactic(auto)]

ghost use Rattle.std.specs.Prelude.{◌≡◌, ◌≤◌, min, length, Ok, Some};
ghost use Rattle.cell_text.specs.Lines.{cells_in, mark_of, cells_of, Stored, Took};

use cell_words::{Wrong, read_line};

// What ends a reading before its text does: a fault, by its line and what is wrong there; or a line whose cell finds no room.
#[derive(Clone, Copy, Debug, PartialEq, Eq)]
pub enum ListFault {
    Wrong(usize, Wrong),
    TooMany(usize),
}

// A reading that a fault has ended, and how many cells were read before it.
#[derive(Clone, Copy, Debug, PartialEq, Eq)]
pub struct Stopped {
    pub count: usize,
    pub fault: ListFault,
}

// A cell, with its line, behind the `count` that stand: how many stand now, or that there is no room.
#[tactic(auto, unfolding(crate::specs::Lines::listed_by, crate::specs::Lines::stored_by))]
fn store_cell(
    cell: u64,
    number: usize,
    cells: &mut [u64],
    numbers: &mut [usize],
    count: usize,
) -> Result<usize, Stopped>
    ensures { Took (min (length cells.old) (length numbers.old)) (Ok (Some cell)) number count cells.old numbers.old result cells.new numbers.new }
{
    if count < cells.len().min(numbers.len()) {
        cells[count] = cell;
        numbers[count] = number;
        return Ok(count + 1);
    }
    Err(Stopped {
        count,
        fault: ListFault::TooMany(number),
    })
}

// One line more, where `count` cells stand: how many stand after it, or what ends the reading there.
#[tactic(auto, unfolding(crate::specs::Lines::listed_by, crate::specs::Lines::stored_by))]
fn take_line(
    line: Result<Option<u64>, Wrong>,
    number: usize,
    cells: &mut [u64],
    numbers: &mut [usize],
    count: usize,
) -> Result<usize, Stopped>
    ensures { Took (min (length cells.old) (length numbers.old)) line number count cells.old numbers.old result cells.new numbers.new }
{
    match line {
        Ok(None) => Ok(count),
        Ok(Some(cell)) => store_cell(cell, number, cells, numbers, count),
        Err(wrong) => Err(Stopped {
            count,
            fault: ListFault::Wrong(number, wrong),
        }),
    }
}

// The cells of lines, in their order, and the line of each, up to the first fault.
fn read_lines(text: &[u8], cells: &mut [u64], numbers: &mut [usize]) -> Result<usize, Stopped>
    ensures { Stored (cells_in (min (length cells.old) (length numbers.old)) text.now) cells.old numbers.old result cells.new numbers.new }
{
    let mut number: usize = 0;
    let mut count: usize = 0;
    for line in text.split(|b| *b == b'\n') {
        number += 1;
        count = take_line(read_line(line), number, cells, numbers, count)?;
    }
    Ok(count)
}

// How many bytes the byte order mark has that some editors put in front of a text.
#[tactic(auto, unfolding(crate::specs::Lines::mark_of))]
fn mark_of(text: &[u8]) -> usize
    ensures length { result ≡ mark_of text.now }
    ensures within { result ≤ length text.now }
{
    if text.starts_with(b"\xef\xbb\xbf") {
        return 3;
    }
    0
}

// The cells of a text, in their order, and the line of each, up to the first fault.
#[tactic(auto, unfolding(crate::specs::Lines::cells_of))]
pub fn read_cells(text: &[u8], cells: &mut [u64], numbers: &mut [usize]) -> Result<usize, Stopped>
    ensures { Stored (cells_of (min (length cells.old) (length numbers.old)) text.now) cells.old numbers.old result cells.new numbers.new }
{
    let mark = mark_of(text);
    read_lines(&text[mark..], cells, numbers)
}
