// Which rule a table breaks, on slices of any lengths: its tests in the order of document 01, for the table as a whole and then for a row.
ghost use Rattle.std.specs.Prelude.{◌≡◌, get_or};
ghost use Rattle.std.specs.Float.{nan};
ghost use Rattle.scope.specs.Lists.{at};
ghost use Rattle.scope.specs.Cells.{valid_edge};
ghost use Rattle.scope.specs.Table.{table, is_finite};
ghost use Rattle.table_words.specs.Faults.{whole_fault, row_fault, fault_of};

use index::is_edge;
use slices::at32;
use table_rules::{is_finite, one_resolution, row_ascends};

// What is wrong with a table as a whole: columns of unequal lengths, too few or too many rows, edges of unequal resolutions.
#[derive(Clone, Copy, Debug, PartialEq, Eq)]
pub enum WholeFault {
    Lengths,
    TooFew,
    TooMany,
    Resolutions,
}

// The first rule that a row breaks: no valid edge, not above the row before it, its reverse row past the end, the row itself or one that
// does not name it back, an area term that is not finite.
#[derive(Clone, Copy, Debug, PartialEq, Eq)]
pub enum RowFault {
    NoEdge,
    NotAbove,
    PastEnd,
    Itself,
    NotBack,
    NotFinite,
}

// The first is of refusals that point at no row.
#[derive(Clone, Copy, Debug, PartialEq, Eq)]
pub enum Fault {
    Whole(WholeFault),
    Row(RowFault),
}

// A valid edge is in this row; there is none past the end.
#[tactic(auto, using(crate::proofs::Rows::edge_past))]
fn edge_at(edges: &[u64], row: usize) -> bool
    ensures { result ≡ valid_edge (at edges.now row) }
{
    row < edges.len() && is_edge(edges[row])
}

// The area term of this row is finite; there is none past the end.
#[tactic(auto, using(crate::proofs::Rows::term_past))]
fn term_at(area: &[f64], row: usize) -> bool
    ensures { result ≡ is_finite (get_or area.now row nan) }
{
    row < area.len() && is_finite(area[row])
}

// What is wrong with the table as a whole.
#[tactic(auto, using(std::proofs::lemmas::Bool::Decides::nat_tests), unfolding(crate::specs::Faults::whole_fault))]
fn whole_fault(edges: &[u64], reverse: &[u32], area: &[f64]) -> Result<(), WholeFault>
    ensures { result ≡ whole_fault (table edges.now reverse.now area.now) }
{
    let rows = edges.len();
    if !((reverse.len() == rows) & (area.len() == rows)) {
        return Err(WholeFault::Lengths);
    }
    if rows < 2 {
        return Err(WholeFault::TooFew);
    }
    if 65536 < rows {
        return Err(WholeFault::TooMany);
    }
    if !one_resolution(edges) {
        return Err(WholeFault::Resolutions);
    }
    Ok(())
}

// What is wrong with a row.
#[tactic(auto, using(std::proofs::lemmas::Bool::Decides::nat_tests), unfolding(crate::specs::Faults::row_fault))]
fn row_fault(edges: &[u64], reverse: &[u32], area: &[f64], row: usize) -> Result<(), RowFault>
    ensures { result ≡ row_fault (table edges.now reverse.now area.now) row }
{
    if !edge_at(edges, row) {
        return Err(RowFault::NoEdge);
    }
    if !row_ascends(edges, row) {
        return Err(RowFault::NotAbove);
    }
    let back = at32(reverse, row);
    if reverse.len() <= back {
        return Err(RowFault::PastEnd);
    }
    if back == row {
        return Err(RowFault::Itself);
    }
    if at32(reverse, back) != row {
        return Err(RowFault::NotBack);
    }
    if !term_at(area, row) {
        return Err(RowFault::NotFinite);
    }
    Ok(())
}

// What is wrong with the table: with all of it, or else with this row.
#[tactic(auto, unfolding(crate::specs::Faults::fault_of))]
pub fn fault_of(edges: &[u64], reverse: &[u32], area: &[f64], row: usize) -> Result<(), Fault>
    ensures { result ≡ fault_of (table edges.now reverse.now area.now) row }
{
    whole_fault(edges, reverse, area).map_err(Fault::Whole)?;
    row_fault(edges, reverse, area, row).map_err(Fault::Row)
}
