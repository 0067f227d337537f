// Dissolve's work, once its list is checked: the state is opened, the cells of the list are taken in turn, and the rings are read out.
// Refused by 5, 6, 7 or by a short output, it leaves the state newly opened and the outputs as they were.
#![tactic(auto)]

ghost use Rattle.std.specs.Prelude.{◌≡◌};
ghost use Rattle.scope.specs.Memory.{opened};
ghost use Rattle.scope.specs.Calls.{Reading, working};
ghost use Rattle.lent.specs.Lent.{table_of, memory_of, output_of, SameMemory, SameMarks, SameOutput};
ghost use Rattle.taking.specs.Taking.{TakesAll};
ghost use Rattle.dissolving.specs.Work.{FillAsks, FinishAsks, finishing, WorkAsks};

use arcs::Pool;
use lent::{Marks, Memory, Output, Table};
use reading::read_if;
use scope::{ReadOut, Refusal};
use taking::take_with_marks;

// Open, and offers in list order, up to the first that is refused.
fn fill(
    table: &Table<'_>,
    memory: &mut Memory<'_>,
    marks: &mut Marks<'_>,
    list: &[u64],
    mode: usize,
) -> Result<(), Refusal>
    requires { FillAsks (table_of table.now) (memory_of memory.old marks.old) mode list.now }
    ensures same_memory { SameMemory memory.old memory.new }
    ensures same_marks { SameMarks marks.old marks.new }
    ensures takes_all { TakesAll (table_of table.now) (opened mode (memory_of memory.old marks.old)) list.now result (memory_of memory.new marks.new) }
{
    Pool::open(memory, marks, mode);
    take_with_marks(table, memory, marks, list)
}

// Reads out where the verdict accepts; a refusal opens the state anew.
fn finish(
    table: &Table<'_>,
    memory: &mut Memory<'_>,
    marks: &mut Marks<'_>,
    output: &mut Output<'_>,
    verdict: Result<(), Refusal>,
    mode: usize,
) -> Result<ReadOut, Refusal>
    requires { FinishAsks verdict (table_of table.now) (memory_of memory.old marks.old) (output_of output.old) }
    ensures same_memory { SameMemory memory.old memory.new }
    ensures same_marks { SameMarks marks.old marks.new }
    ensures same_output { SameOutput output.old output.new }
    ensures finishes { record { answer = result; left = memory_of memory.new marks.new; out = output_of output.new }
        ≡ finishing verdict (table_of table.now) mode (memory_of memory.old marks.old) (output_of output.old) }
{
    let answer = read_if(table, &memory.as_state(), marks, output, verdict);
    if answer.is_err() {
        Pool::open(memory, marks, mode);
    }
    answer
}

// Open, offers in list order, and read out; refused, the state is opened anew.
pub fn work(
    table: &Table<'_>,
    memory: &mut Memory<'_>,
    marks: &mut Marks<'_>,
    list: &[u64],
    output: &mut Output<'_>,
    mode: usize,
) -> Result<ReadOut, Refusal>
    requires { WorkAsks (table_of table.now) (memory_of memory.old marks.old) mode list.now (output_of output.old) }
    ensures same_memory { SameMemory memory.old memory.new }
    ensures same_marks { SameMarks marks.old marks.new }
    ensures same_output { SameOutput output.old output.new }
    ensures works { record { answer = result; left = memory_of memory.new marks.new; out = output_of output.new }
        ≡ working (table_of table.now) (memory_of memory.old marks.old) mode list.now (output_of output.old) }
{
    let verdict = fill(table, memory, marks, list, mode);
    finish(table, memory, marks, output, verdict, mode)
}
