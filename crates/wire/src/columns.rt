// Tables and states: from their bytes into a slice for each column, and a state back into its bytes.
ghost use Rattle.std.specs.Prelude.{◌≡◌};
ghost use Rattle.scope.specs.Table.{table};
ghost use Rattle.scope.specs.Bytes.{rows_in, table_in, state_bytes};
ghost use Rattle.lent.specs.Lent.{memory_of, read_of, SameMemory, SameMarks};
ghost use Rattle.wire.specs.Sizes.{TableSized, StateRoom, state_like};

use codec::{decode, encode};
use lent::{Marked, Marks, Memory, State};

// The table of `bytes`, rows of 20 bytes. Its slices stand apart, since they are written here: a `Table` lends them to be read.
pub fn decode_table(bytes: &[u8], edges: &mut [u64], reverse: &mut [u32], area: &mut [f64])
    requires { TableSized (rows_in bytes.now) (table edges.old reverse.old area.old) }
    ensures { table edges.new reverse.new area.new ≡ table_in bytes.now }
{
    decode(bytes, edges, 0, 20);
    decode(bytes, reverse, 8, 20);
    decode(bytes, area, 12, 20);
}

// A whole state: the head, then one number of each column for each place, for each slot, for each row.
pub fn decode_state(bytes: &[u8], memory: &mut Memory<'_>, marks: &mut Marks<'_>)
    requires { StateRoom bytes.now (memory_of memory.old marks.old) }
    ensures same_memory { SameMemory memory.old memory.new }
    ensures same_marks { SameMarks marks.old marks.new }
    ensures decoded { memory_of memory.new marks.new ≡ state_like (memory_of memory.old marks.old) bytes.now }
{
    let places = memory.cells.len();
    let slots = memory.slot_row.len();
    let rows = memory.row_slot.len();
    let of_slots = 8 + 20 * places;
    let of_rows = of_slots + 16 * slots;
    decode(bytes, memory.head, 0, 4);
    decode(bytes, memory.cells, 8, 8);
    decode(bytes, memory.parent, 8 + 8 * places, 4);
    decode(bytes, memory.rank, 8 + 12 * places, 4);
    decode(bytes, marks.cell_mark, 8 + 16 * places, 4);
    decode(bytes, memory.slot_row, of_slots, 4);
    decode(bytes, memory.slot_cell, of_slots + 4 * slots, 4);
    decode(bytes, memory.prev, of_slots + 8 * slots, 4);
    decode(bytes, memory.next, of_slots + 12 * slots, 4);
    decode(bytes, memory.row_slot, of_rows, 4);
    decode(bytes, marks.row_mark, of_rows + 4 * rows, 4);
}

// A whole state back into its bytes.
pub fn encode_state(bytes: &mut [u8], state: &State<'_>, marks: &Marked<'_>)
    requires { StateRoom bytes.old (read_of state.now marks.now) }
    ensures { bytes.new ≡ state_bytes (read_of state.now marks.now) }
{
    let places = state.cells.len();
    let slots = state.slot_row.len();
    let rows = state.row_slot.len();
    let of_slots = 8 + 20 * places;
    let of_rows = of_slots + 16 * slots;
    encode(state.head, bytes, 0);
    encode(state.cells, bytes, 8);
    encode(state.parent, bytes, 8 + 8 * places);
    encode(state.rank, bytes, 8 + 12 * places);
    encode(marks.cell_mark, bytes, 8 + 16 * places);
    encode(state.slot_row, bytes, of_slots);
    encode(state.slot_cell, bytes, of_slots + 4 * slots);
    encode(state.prev, bytes, of_slots + 8 * slots);
    encode(state.next, bytes, of_slots + 12 * slots);
    encode(state.row_slot, bytes, of_rows);
    encode(marks.row_mark, bytes, of_rows + 4 * rows);
}
