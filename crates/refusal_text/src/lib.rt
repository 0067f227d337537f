// Refusals in words.
#![tactic(auto)]

ghost use Rattle.std.specs.Prelude.{◌≡◌, ◌≤◌, [], ◌∷◌, ◌++◌, length};
ghost use Rattle.scope.specs.Answers.{refusal_number, refusal_index};
ghost use Rattle.text.specs.Text.{shown, Wrote};
ghost use Rattle.note_text.specs.Notes.{noted};
ghost use Rattle.refusal_text.specs.Refusals.{refusal_words, row_words, reason_words, refusal_place, refusal_text};

use note_text::put_noted;
use scope::Refusal;
use text::{put_bytes, put_shown};

// The words of a refusal by its number alone; those of 7 to 10 are of the memory lent.
#[tactic(auto, unfolding(crate::specs::Refusals::refusal_words))]
fn words_of(number: usize) -> &'static [u8]
    ensures { result.now ≡ refusal_words number }
{
    match number {
        1 => b"the table breaks a rule",
        2 => b"this is no valid cell",
        3 => b"this cell is there already, or lies under another",
        4 => b"this cell's resolution does not fit the table",
        5 => b"an edge of this cell's outline is not in the table",
        6 => b"this cell's outline names an edge twice",
        7 => b"the pool has too few free slots for this cell's outline",
        8 => b"there are more cells than places",
        9 => b"the state breaks a rule",
        _ => b"a length, a capacity or the mode is out of range, or an output is too short",
    }
}

// By the number, since an audit counts refusals by it.
pub fn put_words(out: &mut [u8], at: usize, number: usize) -> usize
    requires { at ≤ length out.old }
    ensures { Wrote out.old at out.new result (refusal_words number) }
{
    put_bytes(out, at, words_of(number))
}

// The words of 1 by its row.
fn row_words(row: usize) -> &'static [u8]
    ensures { result.now ≡ row_words row }
{
    if row == 0 {
        return b"the table has fewer than 2 rows or more than 65536, its resolutions are unequal, or this row is no valid edge, is not named back by its reverse row, or has no finite area term";
    }
    b"this row (the first is row 0, each has 20 bytes) is no valid edge, is out of order, is not named back by its reverse row, or has no finite area term"
}

// The words of a refusal by its number and index.
#[tactic(auto, using(std::proofs::lemmas::Bool::Decides::nat_tests))]
fn reason_of(number: usize, index: usize) -> &'static [u8]
    ensures { result.now ≡ reason_words number index }
{
    match number {
        1 => row_words(index),
        _ => words_of(number),
    }
}

// A file, and a row or a line in it.
fn put_spot(out: &mut [u8], at: usize, file: &[u8], word: &[u8], n: usize) -> usize
    requires { at ≤ length out.old }
    ensures { Wrote out.old at out.new result (shown file.now ++ noted word.now n (58 ∷ 32 ∷ [])) }
{
    let named = put_shown(out, at, file);
    put_noted(out, named, word, n, b": ")
}

// The file that a refusal points at, if any, and the row or the line in it; `line` is the line of the cell.
#[tactic(auto, using(std::proofs::lemmas::Bool::Decides::nat_tests), unfolding(crate::specs::Refusals::refusal_place))]
fn put_place(
    out: &mut [u8],
    at: usize,
    table: &[u8],
    list: &[u8],
    number: usize,
    index: usize,
    line: usize,
) -> usize
    requires { at ≤ length out.old }
    ensures { Wrote out.old at out.new result (refusal_place table.now list.now number index line) }
{
    match number {
        1 => put_spot(out, at, table, b" row ", index),
        2..=7 => put_spot(out, at, list, b" line ", line),
        8 => {
            let named = put_shown(out, at, list);
            put_bytes(out, named, b": ")
        }
        _ => at,
    }
}

// A refusal of this number and index, whether there is such a one or not: where, its number, and in words.
pub fn put_numbered(
    out: &mut [u8],
    at: usize,
    table: &[u8],
    list: &[u8],
    number: usize,
    index: usize,
    line: usize,
) -> usize
    requires { at ≤ length out.old }
    ensures { Wrote out.old at out.new result (refusal_text table.now list.now number index line) }
{
    let placed = put_place(out, at, table, list, number, index, line);
    let numbered = put_noted(out, placed, b"refused ", number, b", ");
    let worded = put_bytes(out, numbered, reason_of(number, index));
    put_bytes(out, worded, b"\n")
}

// A refusal: where, its number, and in words.
pub fn put_refusal(
    out: &mut [u8],
    at: usize,
    table: &[u8],
    list: &[u8],
    refusal: Refusal,
    line: usize,
) -> usize
    requires { at ≤ length out.old }
    ensures { Wrote out.old at out.new result (refusal_text table.now list.now (refusal_number refusal) (refusal_index refusal) line) }
{
    put_numbered(
        out,
        at,
        table,
        list,
        refusal.number(),
        refusal.index(),
        line,
    )
}
