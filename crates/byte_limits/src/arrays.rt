// Arrays for the columns of a table within the host's limits, as `lent` has them for a state and an output. A call has them to itself,
// and lends as much of them as its bytes say.
ghost use Rattle.std.specs.Prelude.{◌≡◌, ◌≤◌, replicate};
ghost use Rattle.scope.specs.Area.{positive_zero};
ghost use Rattle.scope.specs.Table.{table};
ghost use Rattle.scope.specs.Bytes.{rows_in, table_in, state_in, cleared};
ghost use Rattle.lent.specs.Lent.{table_of, memory_of};
ghost use Rattle.lent.specs.Arrays.{columns_of};
ghost use Rattle.byte_limits.specs.Arrays.{rows_of, StateFits};

use lent::arrays::{Sizes, StateArrays};
use lent::{Marks, Memory, Table};
use wire::columns::{decode_state, decode_table};

#[derive(Drop)]
pub struct TableArrays {
    edges: [u64; 1024],
    reverse: [u32; 1024],
    area: [f64; 1024],
}

impl TableArrays {
    pub fn new() -> TableArrays
        ensures { rows_of result ≡ table (replicate 1024 0) (replicate 1024 0) (replicate 1024 positive_zero) }
    {
        TableArrays {
            edges: [0; 1024],
            reverse: [0; 1024],
            area: [0.0; 1024],
        }
    }

    // The table of `bytes`.
    pub fn decode(&mut self, bytes: &[u8]) -> Table<'_>
        requires { rows_in bytes.now ≤ 1024 }
        ensures { table_of result ≡ table_in bytes.now }
    {
        let TableArrays {
            edges,
            reverse,
            area,
        } = self;
        let rows = bytes.len() / 20;
        let edges = &mut edges[..rows];
        let reverse = &mut reverse[..rows];
        let area = &mut area[..rows];
        decode_table(bytes, edges, reverse, area);
        Table {
            edges,
            reverse,
            area,
        }
    }
}

// The state of `bytes`.
pub fn decode_in<'a>(
    arrays: &'a mut StateArrays<1024, 1024, 256>,
    bytes: &[u8],
    sizes: Sizes,
) -> (Memory<'a>, Marks<'a>)
    requires new { columns_of arrays.old ≡ cleared 1024 1024 256 }
    requires fits { StateFits sizes bytes.now }
    ensures { memory_of result.0 result.1 ≡ state_in sizes.rows sizes.slots sizes.places bytes.now }
{
    let (mut memory, mut marks) = arrays.lend(sizes);
    decode_state(bytes, &mut memory, &mut marks);
    (memory, marks)
}
