// Both ways in on byte slices, for small tables, under the names by which host_c hands them on to Rust and C.
ghost use Rattle.byte_calls.specs.Promises.{DissolvesBytes, CallsBytes};

use byte_calls::{dissolve, standing};

// Dissolves a list of cells.
pub fn zone_dissolve(
    table: &[u8],
    cells: &[u8],
    out: &mut [u8],
    mode: u32,
    slots: u32,
    places: u32,
) -> u64
    ensures { DissolvesBytes table.now cells.now out.old mode slots places result out.new }
{
    dissolve(table, cells, out, mode, slots, places)
}

// Opens (call 0), offers to (1) or reads out (2) a standing state; `value` is the mode or the cell.
pub fn zone_standing(
    table: &[u8],
    state: &mut [u8],
    out: &mut [u8],
    slots: u32,
    places: u32,
    call: u32,
    value: u64,
) -> u64
    ensures { CallsBytes table.now state.old out.old slots places call value result state.new out.new }
{
    standing(table, state, out, slots, places, call, value)
}
