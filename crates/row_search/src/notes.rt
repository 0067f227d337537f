// Notes of where rows stand, so that most searches end at the first row that is looked at. A note is a guess: it is taken where
// its row holds the edge, and else the search goes by halving, so that any notes at all give the same answer.
ghost use Rattle.std.specs.Prelude.{◌≡◌, true, ◌<◌, ◌≤◌, ◌^◌, length};
ghost use Rattle.scope.specs.Lists.{passes};
ghost use Rattle.scope.specs.Table.{ascends, find_row};
ghost use Rattle.row_search.specs.Notes.{spread_of, note_place, noted};

use crate::find_row;
use index::resolution;
use slices::{at32, put32};

// The last digits and the edge number, spread over 32 bits: a multiplication drives edges that stand near each other apart.
fn spread(edge: u64) -> u64
    ensures { (result ≡ spread_of edge) × (result < 2 ^ 32) }
{
    let digits = (edge >> (3 * (15 - resolution(edge)))) % 0x1000_0000;
    let class = digits + ((edge >> 56) % 8) * 0x1000_0000;
    (class * 0x9e37_79b1) % 0x1_0000_0000
}

// The place of an edge's note among so many.
fn note_place(edge: u64, size: usize) -> usize
    requires { size ≤ 2 ^ 32 }
    ensures { (result ≡ note_place size edge) × (0 < size → result < size) }
{
    let part = spread(edge) as usize;
    (part * size) >> 32
}

// Notes each row at the place of its edge; of rows with one place the last stays.
pub fn note_rows(edges: &[u64], notes: &mut [u32])
    requires { (length edges.now ≤ 2 ^ 32) × (0 < length notes.old) × (length notes.old ≤ 2 ^ 32) }
    ensures { notes.new ≡ noted edges.now notes.old (length edges.now) }
{
    for (row, &edge) in edges.iter().enumerate() {
        let place = note_place(edge, notes.len());
        put32(notes, place, row);
    }
}

// What is noted for an edge, 0 where nothing is: a guess, of which nothing is promised.
fn note_of(notes: &[u32], edge: u64) -> usize {
    if notes.len() <= 0x1_0000_0000 {
        at32(notes, note_place(edge, notes.len()))
    } else {
        0
    }
}

// The row of an edge, by its note or else by halving.
pub fn find_noted(edges: &[u64], notes: &[u32], edge: u64) -> Option<usize>
    requires { passes (ascends edges.now) (length edges.now) ≡ true }
    ensures { result ≡ find_row edges.now edge }
{
    let row = note_of(notes, edge);
    if row < edges.len() && edges[row] == edge {
        return Some(row);
    }
    find_row(edges, edge)
}
