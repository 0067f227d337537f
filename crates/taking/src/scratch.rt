// Scratch on the stack of a call: room for the rows of an outline, and notes of where the table's rows stand.
ghost use Rattle.std.specs.Prelude.{◌≡◌, ◌*◌, ◌<◌, ◌≤◌, length};
ghost use Rattle.scope.specs.Lists.{passes};
ghost use Rattle.taking.specs.Outlines.{is_near, near_at, few_suffice};

use index::resolution;
use row_search::notes::note_rows;

// The most rows of a table, and so of an outline that is taken; and of notes.
pub(crate) const MAX_ROWS: usize = 65536;

pub(crate) const MAX_NOTES: usize = 131072;

// Rows of a small table, and notes for them.
pub(crate) const FEW_ROWS: usize = 4096;

pub(crate) const FEW_NOTES: usize = 16384;

// Fewer cells than these are sooner looked up than the rows noted.
const FEW_CELLS: usize = 8;

// So many places, none filled, in a call of its own: a local array is cleared where its function begins.
pub(crate) fn blank<const N: usize>() -> [u32; N]
    ensures { length result ≡ N }
{
    [0; N]
}

// At most four resolutions coarser than the target: at most 6 · 3^4 edges in its outline.
fn is_near(cell: u64, target: usize) -> bool
    ensures { result ≡ is_near target cell }
{
    target <= resolution(cell) + 4
}

fn all_near(list: &[u64], target: usize) -> bool
    ensures { result ≡ passes (near_at target list.now) (length list.now) }
{
    list.iter().all(|&cell| is_near(cell, target))
}

// Whether short arrays serve: for a small table, and for a few cells with short outlines.
#[tactic(auto, unfolding(crate::specs::Outlines::few_suffice))]
pub(crate) fn few_suffice(edges: &[u64], list: &[u64]) -> bool
    requires { 0 < length edges.now }
    ensures { result ≡ few_suffice edges.now list.now }
{
    if edges.len() <= FEW_ROWS {
        return true;
    }
    if FEW_CELLS <= list.len() {
        return false;
    }
    all_near(list, resolution(edges[0]))
}

// How many notes, of as many as there is room for: four for each row, and none for a few cells, which are sooner looked up than the rows noted.
fn note_count(rows: usize, cells: usize, most: usize) -> usize
    ensures { (result ≤ most) × (result ≤ 4 * rows) }
{
    if cells < FEW_CELLS {
        return 0;
    }
    if most / 4 < rows {
        return most;
    }
    4 * rows
}

// Notes the rows for so many cells, in the first places; how many places.
pub(crate) fn note_some(edges: &[u64], notes: &mut [u32], cells: usize) -> usize
    requires { length edges.now ≤ 65536 }
    ensures { result ≤ length notes.old }
{
    let count = note_count(edges.len(), cells, notes.len());
    if 0 < count {
        note_rows(edges, &mut notes[..count]);
    }
    count
}
