// Tests of a cell list, and of one cell against the held ones: refusals 2, 3, 4, the second 3 and 8, each with its index.
// Nothing lent is written.
#![tactic(auto)]

ghost use Rattle.std.specs.Prelude.{◌≡◌, length};
ghost use Rattle.scope.specs.CellLists.{valid_at, resolution_fits, resolution_fits_at, room_for, list_verdict, cell_verdict};
ghost use Rattle.validate.specs.Parts.{lowest};

mod chains;
mod parts;
mod sorting;
mod tops;

use cell_lookup::{first_under, is_unheld, lies_under_none};
use index::{is_cell, resolution};
use parts::lowest_clashes;
use scope::Refusal;

// Even mode wants the target's resolution, mixed mode none finer.
fn resolution_fits(mode: usize, target: usize, x: u64) -> bool
    ensures { result ≡ resolution_fits mode target x }
{
    if mode == 0 {
        return resolution(x) == target;
    }
    resolution(x) <= target
}

fn room_for(capacity: usize, n: usize) -> Result<(), Refusal>
    ensures { result ≡ room_for capacity n }
{
    if n <= capacity {
        Ok(())
    } else {
        Err(Refusal::TooManyCells)
    }
}

fn invalid_cell(cells: &[u64]) -> Option<usize>
    ensures { result ≡ lowest (valid_at cells.now) (length cells.now) }
{
    cells.iter().position(|x| !is_cell(*x))
}

fn unfit_cell(cells: &[u64], mode: usize, target: usize) -> Option<usize>
    ensures { result ≡ lowest (resolution_fits_at mode target cells.now) (length cells.now) }
{
    cells
        .iter()
        .position(|x| !resolution_fits(mode, target, *x))
}

// A whole list. Mode 0 is even; any other is mixed.
pub fn validate(cells: &[u64], mode: usize, target: usize, capacity: usize) -> Result<(), Refusal>
    ensures { result ≡ list_verdict mode target capacity cells.now }
{
    if let Some(i) = invalid_cell(cells) {
        return Err(Refusal::InvalidCell(i));
    }
    let clashes = lowest_clashes(cells, mode != 0);
    if let Some(i) = clashes.second {
        return Err(Refusal::DuplicateInput(i));
    }
    if let Some(i) = unfit_cell(cells, mode, target) {
        return Err(Refusal::UnsupportedResolution(i));
    }
    if let Some(i) = clashes.nested {
        return Err(Refusal::DuplicateInput(i));
    }
    room_for(capacity, cells.len())
}

// Cells of the target's resolution.
pub fn validate_homogeneous(cells: &[u64], target: usize, capacity: usize) -> Result<(), Refusal>
    ensures { result ≡ list_verdict 0 target capacity cells.now }
{
    validate(cells, 0, target, capacity)
}

// Cells of mixed resolutions, none finer than the target and none under another.
pub fn validate_heterogeneous(cells: &[u64], target: usize, capacity: usize) -> Result<(), Refusal>
    ensures { result ≡ list_verdict 1 target capacity cells.now }
{
    validate(cells, 1, target, capacity)
}

// One cell against the held ones, in linear time.
#[tactic(auto, using(std::proofs::lemmas::Bool::Decides::nat_tests), unfolding(scope::specs::CellLists::cell_verdict))]
pub fn validate_cell(
    held: &[u64],
    x: u64,
    mode: usize,
    target: usize,
    capacity: usize,
) -> Result<(), Refusal>
    ensures { result ≡ cell_verdict mode target capacity held.now x }
{
    let n = held.len();
    if !is_cell(x) {
        return Err(Refusal::InvalidCell(n));
    }
    if !is_unheld(held, x) {
        return Err(Refusal::DuplicateInput(n));
    }
    if !resolution_fits(mode, target, x) {
        return Err(Refusal::UnsupportedResolution(n));
    }
    if mode == 0 {
        return room_for(capacity, n + 1);
    }
    if let Some(under) = first_under(held, x) {
        return Err(Refusal::DuplicateInput(under));
    }
    if !lies_under_none(held, x) {
        return Err(Refusal::DuplicateInput(n));
    }
    room_for(capacity, n + 1)
}
