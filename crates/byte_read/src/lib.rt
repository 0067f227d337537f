// Read out on the bytes of a standing state within the host's limits: table and state decoded into local arrays, and what is read out
// into the bytes of an output.
#![tactic(auto)]

ghost use Rattle.std.specs.Prelude.{◌≡◌, []};
ghost use Rattle.scope.specs.Table.{row_count};
ghost use Rattle.scope.specs.Calls.{reading_out};
ghost use Rattle.scope.specs.Bytes.{rows_in, table_in, state_in, cleared_output, showing};
ghost use Rattle.byte_limits.specs.Within.{StandingWithin};

use byte_limits::arrays::{TableArrays, decode_in};
use lent::arrays::{OutputArrays, Sizes, StateArrays};
use standing::read_out;
use wire::output::show;

// Reads out within the limits. Never inlined: in its caller's frame its arrays would lie beside those of a change.
#[inline(never)]
pub fn read_within(table: &[u8], state: &[u8], out: &mut [u8], slots: usize, places: usize) -> u64
    requires { StandingWithin table.now state.now slots places }
    ensures { record { result = result; state = []; out = out.new } ≡ showing (reading_out (table_in table.now) (state_in (rows_in table.now) slots places state.now) (cleared_output (row_count (table_in table.now)))) [] out.old }
{
    let rows = table.len() / 20;
    let mut table_arrays = TableArrays::new();
    let mut state_arrays = StateArrays::<1024, 1024, 256>::new();
    let mut output_arrays = OutputArrays::<1024, 1024>::new();
    let table = table_arrays.decode(table);
    let sizes = Sizes {
        rows,
        slots,
        places,
    };
    let (memory, mut marks) = decode_in(&mut state_arrays, state, sizes);
    let mut output = output_arrays.lend(rows, rows);
    let answer = read_out(&table, &memory.as_state(), &mut marks, &mut output);
    show(out, &output.as_drawn(), answer)
}
