// Cells and edges as numbers: the bit fields, which numbers are valid cells and edges, an edge's owner,
// and which cell lies under which. Nothing here goes over the fifteen digits one by one.
#![tactic(auto)]

ghost use Rattle.std.specs.Prelude.{◌≡◌};
ghost use Rattle.scope.specs.Lists.{all, member};
ghost use Rattle.scope.specs.Cells.{edge_number, resolution_of, base_cell, digit_fits, valid_cell, pentagon_base_cells, is_pentagon, owner_of, valid_edge, under};

fn edge_number(x: u64) -> u64
    ensures { result ≡ edge_number x }
{
    (x >> 56) % 8
}

pub fn resolution(x: u64) -> usize
    ensures { result ≡ resolution_of x }
{
    ((x >> 52) % 16) as usize
}

fn base_cell(x: u64) -> u64
    ensures { result ≡ base_cell x }
{
    (x >> 45) % 128
}

// A one at the lowest bit of each of the fifteen digits.
const ONES: u64 = 0o111_111_111_111_111;

// The digits up to the resolution are 0 to 6, and those after it 7. A digit is 7 where all its three bits
// are set, so that one comparison tells it of all fifteen.
fn digits_fit(x: u64) -> bool
    ensures { result ≡ all (digit_fits x) 15 }
{
    let sevens = x & (x >> 1) & (x >> 2) & ONES;
    sevens == ONES >> (3 * resolution(x))
}

// Bit 63 zero, mode 1 and edge bits 0 are 8 in the top byte.
pub fn is_cell(x: u64) -> bool
    ensures { result ≡ valid_cell x }
{
    (x >> 56 == 8) & (base_cell(x) <= 121) & digits_fit(x)
}

const PENTAGON_BASE_CELLS: [u64; 12] = [4, 14, 24, 38, 49, 58, 63, 72, 83, 97, 107, 117];

fn is_pentagon_base(b: u64) -> bool
    ensures { result ≡ member b pentagon_base_cells }
{
    PENTAGON_BASE_CELLS.contains(&b)
}

// Few numbers have only zeros up to their resolution, so this is asked first.
pub fn is_pentagon(x: u64) -> bool
    ensures { result ≡ is_pentagon x }
{
    let digits = x % 0x2000_0000_0000;
    if digits >> (3 * (15 - resolution(x))) != 0 {
        return false;
    }
    is_pentagon_base(base_cell(x))
}

// Mode 2 and edge number 1 to 6 are 17 to 22 in the top byte, and 17 is edge 1.
pub fn is_edge(x: u64) -> bool
    ensures { result ≡ valid_edge x }
{
    let top = x >> 56;
    let fits = (17 <= top) & (top <= 22) & (base_cell(x) <= 121) & digits_fit(x);
    if top != 17 {
        return fits;
    }
    fits & !is_pentagon(x)
}

// The cell that owns an edge. A number below mode 1 is no edge, and its owner is 0.
pub fn owner(x: u64) -> u64
    ensures { result ≡ owner_of x }
{
    if x < 0x0800_0000_0000_0000 {
        return 0;
    }
    x - 0x0800_0000_0000_0000 - edge_number(x) * 0x0100_0000_0000_0000
}

// Cell `a` lies under cell `b`: the base cell and the digits up to b's resolution are compared at once.
pub fn lies_under(a: u64, b: u64) -> bool
    ensures { result ≡ under a b }
{
    let coarse = resolution(b);
    let below = 3 * (15 - coarse);
    (coarse < resolution(a))
        & ((a % 0x10_0000_0000_0000) >> below == (b % 0x10_0000_0000_0000) >> below)
}
