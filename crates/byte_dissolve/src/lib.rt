// Dissolve on bytes within the host's limits: table and list decoded into local arrays, and what is read out into the bytes of an output.
#![tactic(auto)]

ghost use Rattle.std.specs.Prelude.{◌≡◌, []};
ghost use Rattle.scope.specs.Calls.{dissolving};
ghost use Rattle.scope.specs.Bytes.{rows_in, table_in, cells_in, cleared, cleared_output, showing};
ghost use Rattle.byte_limits.specs.Within.{DissolveWithin};

use byte_limits::arrays::TableArrays;
use byte_limits::decode_cells;
use lent::arrays::{OutputArrays, Sizes, StateArrays};
use solvent::dissolve;
use wire::output::show;

// Dissolves within the limits.
pub fn dissolve_within(
    table: &[u8],
    cells: &[u8],
    out: &mut [u8],
    mode: usize,
    slots: usize,
    places: usize,
) -> u64
    requires { DissolveWithin table.now cells.now slots places }
    ensures { record { result = result; state = []; out = out.new } ≡ showing (dissolving (table_in table.now) (cleared (rows_in table.now) slots places) mode (cells_in cells.now) (cleared_output (rows_in table.now))) [] out.old }
{
    let rows = table.len() / 20;
    let mut table_arrays = TableArrays::new();
    let mut state_arrays = StateArrays::<1024, 1024, 256>::new();
    let mut output_arrays = OutputArrays::<1024, 1024>::new();
    let mut list = [0u64; 256];
    let table = table_arrays.decode(table);
    let sizes = Sizes {
        rows,
        slots,
        places,
    };
    let (mut memory, mut marks) = state_arrays.lend(sizes);
    let mut output = output_arrays.lend(rows, rows);
    let list = &mut list[..cells.len() / 8];
    decode_cells(cells, list);
    let answer = dissolve(&table, &mut memory, &mut marks, list, &mut output, mode);
    show(out, &output.as_drawn(), answer)
}
