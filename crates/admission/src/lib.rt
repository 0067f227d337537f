// What is refused before anything is written: the tests of each call in their order, over slices that are only read.
// `fits` is what a call has found of the lengths of its slices, by `lengths`: 10 comes first.
#![tactic(auto)]

pub mod lengths;

ghost use Rattle.std.specs.Prelude.{◌≡◌, length, take};
ghost use Rattle.scope.specs.Lists.{at};
ghost use Rattle.scope.specs.Table.{target_of};
ghost use Rattle.scope.specs.CellLists.{cell_verdict};
ghost use Rattle.scope.specs.Memory.{kept_mode, held_cells, places};
ghost use Rattle.lent.specs.Lent.{table_of, read_of};
ghost use Rattle.admission.specs.Admits.{table_after, open_after, list_after, state_after, admits, CellAsks};

use arcs::kept_mode;
use edge_table::check_table;
use index::resolution;
use lengths::lengths_fit;
use lent::{Marked, State, Table};
use rules::rules_kept;
use scope::Refusal;
use validate::{validate, validate_cell};

// 10, 1: the lengths, and the table.
#[tactic(auto, unfolding(crate::specs::Admits::table_after))]
fn table_verdict(table: &Table<'_>, fits: bool) -> Result<(), Refusal>
    ensures { result ≡ table_after fits (table_of table.now) }
{
    if !fits {
        return Err(Refusal::BadLengths);
    }
    check_table(table.edges, table.reverse, table.area)
}

// Open: 10, 1.
#[tactic(auto, unfolding(crate::specs::Admits::open_after))]
pub fn open_verdict(table: &Table<'_>, mode: usize, fits: bool) -> Result<(), Refusal>
    ensures { result ≡ open_after fits mode (table_of table.now) }
{
    table_verdict(table, fits & (mode <= 2))
}

// Dissolve, before its work: 10, 1, and over the whole list 2, 3, 4, 3, 8.
#[tactic(auto, unfolding(crate::specs::Admits::list_after))]
pub fn list_verdict(
    table: &Table<'_>,
    list: &[u64],
    mode: usize,
    places: usize,
    fits: bool,
) -> Result<(), Refusal>
    ensures { result ≡ list_after fits mode (table_of table.now) places list.now }
{
    open_verdict(table, mode, fits)?;
    validate(list, kept_mode(mode), resolution(table.edges[0]), places)
}

// Offer and read out: 10, 1, 9. `agree` is what read out has found of its outputs' lengths.
pub fn state_verdict(
    table: &Table<'_>,
    state: &State<'_>,
    marks: &Marked<'_>,
    agree: bool,
) -> Result<(), Refusal>
    ensures { result ≡ state_after agree (table_of table.now) (read_of state.now marks.now) }
{
    let fits = lengths_fit(table, state, marks);
    table_verdict(table, agree & fits)?;
    if !rules_kept(table, state, marks) {
        return Err(Refusal::BrokenState);
    }
    Ok(())
}

// A cell against the held ones: 2, 3, 4, 3, 8.
fn cell_verdict(table: &Table<'_>, state: &State<'_>, cell: u64) -> Result<(), Refusal>
    requires { CellAsks table.now.edges.now state.now.head.now state.now.cells.now }
    ensures { result ≡ cell_verdict (at state.now.head.now 0) (target_of (table_of table.now)) (length state.now.cells.now) (take (at state.now.head.now 1) state.now.cells.now) cell }
{
    let held = state.held();
    validate_cell(
        &state.cells[..held],
        cell,
        state.mode(),
        resolution(table.edges[0]),
        state.cells.len(),
    )
}

// Offer, before the cell's outline: 10, 1, 9, 2, 3, 4, 3, 8.
pub fn admit_verdict(
    table: &Table<'_>,
    state: &State<'_>,
    marks: &Marked<'_>,
    cell: u64,
) -> Result<(), Refusal>
    ensures { result ≡ admits (table_of table.now) (read_of state.now marks.now) cell }
{
    state_verdict(table, state, marks, true)?;
    cell_verdict(table, state, cell)
}
