// The cells of a list in turn, over lent scratch.
ghost use Rattle.std.specs.Prelude.{◌≡◌, length};
ghost use Rattle.lent.specs.Lent.{table_of, memory_with, SameMemory};
ghost use Rattle.placing.specs.Place.{free_in};
ghost use Rattle.taking.specs.Taking.{ScratchAsks, TakesAll};

use crate::scratch::note_some;
use crate::take::take_cell;
use lent::{Memory, Table};
use placing::count_free;
use scope::Refusal;

// A flag for each slot of the largest pool, 64 to a word: where it is clear, the slot is used. At first all are set.
const WORDS: usize = 1024;

const ALL: u64 = 0xffff_ffff_ffff_ffff;

// How many slots are free.
fn free_slots(memory: &Memory<'_>) -> usize
    ensures { result ≡ length (free_in memory.now.slot_row.now) }
{
    count_free(memory.slot_row)
}

// The cells of a list that passes, in turn, up to the first that is refused. `notes` and `rows` are scratch.
pub(crate) fn take_list(
    table: &Table<'_>,
    memory: &mut Memory<'_>,
    cell_mark: &[u32],
    row_mark: &mut [u32],
    notes: &mut [u32],
    rows: &mut [u32],
    list: &[u64],
) -> Result<(), Refusal>
    requires { ScratchAsks (table_of table.now) (memory_with memory.old cell_mark.now row_mark.old) rows.old list.now }
    ensures same_memory { SameMemory memory.old memory.new }
    ensures takes_all { TakesAll (table_of table.now) (memory_with memory.old cell_mark.now row_mark.old) list.now
        result (memory_with memory.new cell_mark.now row_mark.new) }
{
    let noted = note_some(table.edges, notes, list.len());
    let mut vacant = [ALL; WORDS];
    let mut free = free_slots(memory);
    for &cell in list {
        free = take_cell(
            table,
            memory,
            cell_mark,
            row_mark,
            &notes[..noted],
            rows,
            &mut vacant,
            cell,
            free,
        )?;
    }
    Ok(())
}
