// Cells of a state that admits them: each one's outline is looked up in the table, refused by 5, 6 or 7, or placed and its pairs cancelled.
#![tactic(auto)]

mod list;
mod lookup;
mod scratch;
mod take;

ghost use Rattle.lent.specs.Lent.{table_of, memory_of, memory_with, SameMemory, SameMarks};
ghost use Rattle.taking.specs.Taking.{ListAsks, TakesAll};

use lent::{Marks, Memory, Table};
use list::take_list;
use scope::Refusal;
use scratch::{FEW_NOTES, FEW_ROWS, MAX_NOTES, MAX_ROWS, blank, few_suffice};

// The cells of a list that passes, in turn, up to the first that is refused. A local array is cleared at every call, so short ones serve where they can.
pub fn take_all(
    table: &Table<'_>,
    memory: &mut Memory<'_>,
    cell_mark: &[u32],
    row_mark: &mut [u32],
    list: &[u64],
) -> Result<(), Refusal>
    requires { ListAsks (table_of table.now) (memory_with memory.old cell_mark.now row_mark.old) list.now }
    ensures same_memory { SameMemory memory.old memory.new }
    ensures takes_all { TakesAll (table_of table.now) (memory_with memory.old cell_mark.now row_mark.old) list.now
        result (memory_with memory.new cell_mark.now row_mark.new) }
{
    if few_suffice(table.edges, list) {
        return take_list(
            table,
            memory,
            cell_mark,
            row_mark,
            &mut [0; FEW_NOTES],
            &mut [0; FEW_ROWS],
            list,
        );
    }
    take_many(table, memory, cell_mark, row_mark, list)
}

// The same, over arrays that are long enough for every table. A call of its own, so that one which short arrays serve takes no stack for these.
#[inline(never)]
fn take_many(
    table: &Table<'_>,
    memory: &mut Memory<'_>,
    cell_mark: &[u32],
    row_mark: &mut [u32],
    list: &[u64],
) -> Result<(), Refusal>
    requires { ListAsks (table_of table.now) (memory_with memory.old cell_mark.now row_mark.old) list.now }
    ensures same_memory { SameMemory memory.old memory.new }
    ensures takes_all { TakesAll (table_of table.now) (memory_with memory.old cell_mark.now row_mark.old) list.now
        result (memory_with memory.new cell_mark.now row_mark.new) }
{
    take_list(
        table,
        memory,
        cell_mark,
        row_mark,
        &mut blank::<MAX_NOTES>(),
        &mut blank::<MAX_ROWS>(),
        list,
    )
}

// The same, where both kinds of marks are lent to be written.
fn take_apart(
    table: &Table<'_>,
    memory: &mut Memory<'_>,
    cell_mark: &mut [u32],
    row_mark: &mut [u32],
    list: &[u64],
) -> Result<(), Refusal>
    requires { ListAsks (table_of table.now) (memory_with memory.old cell_mark.old row_mark.old) list.now }
    ensures same_memory { SameMemory memory.old memory.new }
    ensures takes_all { TakesAll (table_of table.now) (memory_with memory.old cell_mark.old row_mark.old) list.now
        result (memory_with memory.new cell_mark.new row_mark.new) }
{
    take_all(table, memory, cell_mark, row_mark, list)
}

// The same, where the marks are lent as one. A call that is lent them so can hand on both to be written, but not one of them to be read beside.
pub fn take_with_marks(
    table: &Table<'_>,
    memory: &mut Memory<'_>,
    marks: &mut Marks<'_>,
    list: &[u64],
) -> Result<(), Refusal>
    requires { ListAsks (table_of table.now) (memory_of memory.old marks.old) list.now }
    ensures same_memory { SameMemory memory.old memory.new }
    ensures same_marks { SameMarks marks.old marks.new }
    ensures takes_all { TakesAll (table_of table.now) (memory_of memory.old marks.old) list.now result (memory_of memory.new marks.new) }
{
    take_apart(table, memory, marks.cell_mark, marks.row_mark, list)
}
