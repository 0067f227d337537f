// Both ways in on bytes, for small tables: the host's limits tested, and the call made within them. The formats are those of scope's Bytes.
#![tactic(auto)]

ghost use Rattle.std.specs.Prelude.{◌≡◌};
ghost use Rattle.scope.specs.Bytes.{rows_in, table_in, state_in, calling};
ghost use Rattle.byte_limits.specs.Within.{StandingWithin};
ghost use Rattle.byte_calls.specs.Promises.{DissolvesBytes, CallsBytes};

use answer_numbers::result;
use byte_change::{Change, change_within};
use byte_dissolve::dissolve_within;
use byte_limits::fits::{dissolve_fits, standing_fits};
use byte_read::read_within;
use scope::Refusal;

// Dissolves a list of cells.
pub fn dissolve(
    table: &[u8],
    cells: &[u8],
    out: &mut [u8],
    mode: u32,
    slots: u32,
    places: u32,
) -> u64
    ensures { DissolvesBytes table.now cells.now out.old mode slots places result out.new }
{
    if !dissolve_fits(table, cells, slots, places) {
        return result(Err(Refusal::BadLengths));
    }
    dissolve_within(
        table,
        cells,
        out,
        mode as usize,
        slots as usize,
        places as usize,
    )
}

// The call of this number on a standing state within the limits.
fn call_within(
    table: &[u8],
    state: &mut [u8],
    out: &mut [u8],
    slots: usize,
    places: usize,
    call: u32,
    value: u64,
) -> u64
    requires { StandingWithin table.now state.old slots places }
    ensures { record { result = result; state = state.new; out = out.new } ≡ calling (table_in table.now) (state_in (rows_in table.now) slots places state.old) state.old out.old call value }
{
    match call {
        0 => change_within(table, state, slots, places, Change::Open(value as usize)),
        1 => change_within(table, state, slots, places, Change::Offer(value)),
        2 => read_within(table, state, out, slots, places),
        _ => result(Err(Refusal::BadLengths)),
    }
}

// Opens (call 0), offers to (1) or reads out (2) a standing state; `value` is the mode or the cell.
pub fn standing(
    table: &[u8],
    state: &mut [u8],
    out: &mut [u8],
    slots: u32,
    places: u32,
    call: u32,
    value: u64,
) -> u64
    ensures { CallsBytes table.now state.old out.old slots places call value result state.new out.new }
{
    if !standing_fits(table, state, slots, places) {
        return result(Err(Refusal::BadLengths));
    }
    call_within(
        table,
        state,
        out,
        slots as usize,
        places as usize,
        call,
        value,
    )
}
