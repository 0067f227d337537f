// A cell's outline as rows of the table, in one walk with one search for each edge, most of them ended by a note: refusals 5 and 6 come from it.
// The rows' marks tell a row that is named twice, and are clear again at the end.
ghost use Rattle.std.specs.Prelude.{◌≡◌};
ghost use Rattle.scope.specs.Lists.{zeros};
ghost use Rattle.taking.specs.Outlines.{OutlineAsks, Finds, FindsMarked, UnmarkAsks, RowAsks, StoresRow};

use gosper::Gosper;
use index::resolution;
use row_search::notes::find_noted;
use slices::{get32, put32};

// The count is needed beside either fault: by it the rows that are stored are unmarked.
// How many different rows are stored, whether an edge is absent from the table, and whether one is named twice.
#[derive(Clone, Copy)]
pub struct Outlined {
    pub count: usize,
    pub absent: bool,
    pub twice: bool,
}

// Stores a row at the place `count` and marks it, unless it is marked: whether it was new.
fn store_row(row_mark: &mut [u32], rows: &mut [u32], count: usize, row: usize) -> bool
    requires { RowAsks row_mark.old rows.old count row }
    ensures { StoresRow row_mark.old rows.old count row row_mark.new rows.new result }
{
    if get32(row_mark, row) != 0 {
        return false;
    }
    put32(row_mark, row, 1);
    put32(rows, count, row);
    true
}

// Clears the marks of the rows that are stored.
#[tactic(auto, using(crate::proofs::Marking::clearing_start, crate::proofs::Marking::clearing_row, crate::proofs::Marking::clearing_more))]
fn unmark_rows(row_mark: &mut [u32], rows: &[u32])
    requires { UnmarkAsks row_mark.old rows.now }
    ensures { row_mark.new ≡ zeros row_mark.old }
{
    for &row in rows {
        put32(row_mark, row as usize, 0);
    }
}

// Walks the outline and stores its different rows, marked, up to an edge that is absent. The walk hands its state back with each edge, so it is
// no iterator.
fn mark_rows(
    edges: &[u64],
    notes: &[u32],
    row_mark: &mut [u32],
    rows: &mut [u32],
    cell: u64,
) -> Outlined
    requires { OutlineAsks edges.now row_mark.old rows.old cell }
    ensures { FindsMarked edges.now cell row_mark.new rows.new result }
{
    let mut walk = Gosper::new(cell, resolution(edges[0]));
    let mut count: usize = 0;
    let mut twice = false;
    while 0 < walk.len() {
        let stepped = walk.step();
        walk = stepped.walk;
        let Some(row) = find_noted(edges, notes, stepped.edge) else {
            return Outlined {
                count,
                absent: true,
                twice,
            };
        };
        if store_row(row_mark, rows, count, row) {
            count += 1;
        } else {
            twice = true;
        }
    }
    Outlined {
        count,
        absent: false,
        twice,
    }
}

// The rows of a cell's outline. The marks are left as they were.
pub fn outline_rows(
    edges: &[u64],
    notes: &[u32],
    row_mark: &mut [u32],
    rows: &mut [u32],
    cell: u64,
) -> Outlined
    requires { OutlineAsks edges.now row_mark.old rows.old cell }
    ensures { Finds edges.now cell rows.new result × (row_mark.new ≡ row_mark.old) }
{
    let outlined = mark_rows(edges, notes, row_mark, rows, cell);
    unmark_rows(row_mark, &rows[..outlined.count]);
    outlined
}
