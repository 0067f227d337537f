// One more cell of a state that admits it: refusals 5, 6 and 7, or its outline placed and its pairs cancelled.
ghost use Rattle.std.specs.Prelude.{◌≡◌};
ghost use Rattle.lent.specs.Lent.{table_of, memory_with, SameMemory};
ghost use Rattle.taking.specs.Taking.{outline_answer, TakeAsks, Takes};

use crate::lookup::{Outlined, outline_rows};
use arcs::add_edges;
use lent::{Marked, Memory, Table};
use scope::Refusal;

// 5, 6, 7: an edge is absent, one is named twice, or the free slots are too few.
#[tactic(auto, unfolding(crate::specs::Taking::outline_answer))]
fn outline_verdict(outlined: Outlined, held: usize, free: usize) -> Result<(), Refusal>
    ensures { result ≡ outline_answer outlined held free }
{
    if outlined.absent {
        return Err(Refusal::EdgeNotInTable(held));
    }
    if outlined.twice {
        return Err(Refusal::EdgeTwice(held));
    }
    if free < outlined.count {
        return Err(Refusal::PoolFull(held));
    }
    Ok(())
}

// Takes a cell of a state that admits it, where so many slots are free, all of them flagged in `vacant`; how many are free then. `rows` is
// scratch, `notes` any notes of the table's rows.
pub fn take_cell(
    table: &Table<'_>,
    memory: &mut Memory<'_>,
    cell_mark: &[u32],
    row_mark: &mut [u32],
    notes: &[u32],
    rows: &mut [u32],
    vacant: &mut [u64],
    cell: u64,
    free: usize,
) -> Result<usize, Refusal>
    requires { TakeAsks (table_of table.now) (memory_with memory.old cell_mark.now row_mark.old) rows.old vacant.old cell free }
    ensures same_memory { SameMemory memory.old memory.new }
    ensures takes { Takes (table_of table.now) (memory_with memory.old cell_mark.now row_mark.old) cell
        result (memory_with memory.new cell_mark.now row_mark.new) vacant.new }
{
    let outlined = outline_rows(table.edges, notes, row_mark, rows, cell);
    outline_verdict(outlined, memory.held(), free)?;
    let count = outlined.count;
    let marked = Marked {
        cell_mark,
        row_mark,
    };
    let pairs = add_edges(table, memory, &marked, vacant, &rows[..count], cell);
    Ok(free - count + 2 * pairs)
}
