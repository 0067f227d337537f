// A list of any length goes by parts of at most 16,384 cells. Each part's indices are sorted in a local array, and every
// cell of the list is looked up among them: n log n for one part, and n log n again for each further one.
ghost use Rattle.std.specs.Prelude.{◌≡◌, ◌+◌, ◌≤◌, ◌<◌, length};
ghost use Rattle.validate.specs.Parts.{lowest, lower, new_against, clear_against, Against, Found, SecondIn, NestedIn, PartIn, AllValid};

use crate::chains::all_differ;
use crate::sorting::sort;
use crate::tops::raise;
use cell_lookup::{is_clear, is_new};

// The most cells of a part.
const PART: usize = 16384;

// The lowest second one of equal cells, and the lowest cell under another, where there are any.
#[derive(Clone, Copy)]
pub struct Clashes {
    pub second: Option<usize>,
    pub nested: Option<usize>,
}

// The lowest cell with an equal before it in the part, which begins at `start`.
fn second_against(order: &[u32], part: &[u64], cells: &[u64], start: usize) -> Option<usize>
    requires { SecondIn part.now order.now cells.now start }
    ensures { result ≡ lowest (new_against part.now cells.now start) (length cells.now) }
{
    (start..cells.len()).find(|i| !is_new(order, part, cells[*i], *i - start))
}

// The lowest cell under one of the part.
fn nested_against(raised: &[u32], part: &[u64], cells: &[u64]) -> Option<usize>
    requires { NestedIn part.now raised.now cells.now }
    ensures { result ≡ lowest (clear_against part.now cells.now) (length cells.now) }
{
    cells.iter().position(|x| !is_clear(raised, part, *x))
}

fn against_part(cells: &[u64], part: &[u64], start: usize, mixed: bool) -> Clashes
    requires { PartIn cells.now part.now start }
    ensures { Against cells.now start (start + length part.now) mixed result.second result.nested }
{
    let mut order = [0u32; PART];
    sort(&mut order, part);
    let second = second_against(&order, part, cells, start);
    if !mixed {
        return Clashes {
            second,
            nested: None,
        };
    }
    raise(&mut order, part);
    let nested = nested_against(&order, part, cells);
    Clashes { second, nested }
}

// The lower of two indices, where there are any.
fn lower(a: Option<usize>, b: Option<usize>) -> Option<usize>
    ensures { result ≡ lower a b }
{
    match (a, b) {
        (Some(x), Some(y)) => Some(x.min(y)),
        _ => a.or(b),
    }
}

// The lowest clashes over all parts.
fn clashes_in_parts(cells: &[u64], mixed: bool) -> Clashes
    requires { AllValid cells.now }
    ensures { Found cells.now (length cells.now) mixed result.second result.nested }
{
    let mut second = None;
    let mut nested = None;
    for (k, part) in cells.chunks(PART).enumerate() {
        let found = against_part(cells, part, k * PART, mixed);
        second = lower(second, found.second);
        nested = lower(nested, found.nested);
    }
    Clashes { second, nested }
}

// Cells of one resolution mostly differ, which is told without sorting them.
pub fn lowest_clashes(cells: &[u64], mixed: bool) -> Clashes
    requires { AllValid cells.now }
    ensures { Found cells.now (length cells.now) mixed result.second result.nested }
{
    if mixed {
        return clashes_in_parts(cells, mixed);
    }
    if all_differ(cells) {
        return Clashes {
            second: None,
            nested: None,
        };
    }
    clashes_in_parts(cells, mixed)
}
