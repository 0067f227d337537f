// Dissolve in memory of full size: 65,536 slots, 16,384 places, and as many rows as the table has. The tools lend the outputs alone.
#![tactic(auto)]

ghost use Rattle.std.specs.Prelude.{◌≡◌, min, length};
ghost use Rattle.lent.specs.Lent.{table_of, output_of, SameOutput};
ghost use Rattle.full_size.specs.Drawing.{drawing};

use lent::arrays::{Sizes, StateArrays};
use lent::{Output, Table};
use scope::{ReadOut, Refusal};
use solvent::dissolve;

pub const ROWS: usize = 65536;

pub const SLOTS: usize = 65536;

pub const PLACES: usize = 16384;

// A table has no more rows than these; a longer one is refused by its lengths.
pub fn sizes_for(table: &Table<'_>) -> Sizes
    ensures { result ≡ record { rows = min (length table.now.edges.now) 65536; slots = 65536; places = 16384 } }
{
    Sizes {
        rows: table.edges.len().min(ROWS),
        slots: SLOTS,
        places: PLACES,
    }
}

// Dissolves a list of cells.
pub fn dissolve_list(
    table: &Table<'_>,
    list: &[u64],
    output: &mut Output<'_>,
    mode: usize,
) -> Result<ReadOut, Refusal>
    ensures same_output { SameOutput output.old output.new }
    ensures draws { record { answer = result; out = output_of output.new }
        ≡ drawing (table_of table.now) mode list.now (output_of output.old) }
{
    let mut arrays = StateArrays::<ROWS, SLOTS, PLACES>::new();
    let (mut memory, mut marks) = arrays.lend(sizes_for(table));
    dissolve(table, &mut memory, &mut marks, list, output, mode)
}
