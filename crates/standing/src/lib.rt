// The calls on a standing state over lent slices: open, offer and read out. The Rust's `ArcSet`.
// Each takes any slices: what the definitions of `scope` say of the call is its answer and what it leaves.
#![tactic(auto)]

ghost use Rattle.lent.specs.Lent.{table_of, memory_of, state_of, output_of, SameMemory, SameMarks, SameOutput};
ghost use Rattle.standing.specs.Promises.{Opens, Offers, ReadsOut};

use admission::lengths::{lengths_fit, outputs_agree};
use admission::{admit_verdict, open_verdict, state_verdict};
use arcs::Pool;
use lent::{Marks, Memory, Output, State, Table};
use reading::read_if;
use scope::{ReadOut, Refusal};
use taking::take_with_marks;

// A newly opened state: 10, 1.
pub fn open(
    table: &Table<'_>,
    memory: &mut Memory<'_>,
    marks: &mut Marks<'_>,
    mode: usize,
) -> Result<(), Refusal>
    ensures same_memory { SameMemory memory.old memory.new }
    ensures same_marks { SameMarks marks.old marks.new }
    ensures opens { Opens (table_of table.now) (memory_of memory.old marks.old) mode
        result (memory_of memory.new marks.new) }
{
    let fits = lengths_fit(table, &memory.as_state(), &marks.as_marked());
    let allowed = open_verdict(table, mode, fits);
    allowed?;
    Pool::open(memory, marks, mode);
    Ok(())
}

// One more cell: 10, 1, 9, 2, 3, 4, 3, 8, 5, 6, 7.
pub fn offer(
    table: &Table<'_>,
    memory: &mut Memory<'_>,
    marks: &mut Marks<'_>,
    cell: u64,
) -> Result<(), Refusal>
    ensures same_memory { SameMemory memory.old memory.new }
    ensures same_marks { SameMarks marks.old marks.new }
    ensures offers { Offers (table_of table.now) (memory_of memory.old marks.old) cell
        result (memory_of memory.new marks.new) }
{
    let admitted = admit_verdict(table, &memory.as_state(), &marks.as_marked(), cell);
    admitted?;
    let list = [cell];
    take_with_marks(table, memory, marks, &list)
}

// The rings of the state: 10, 1, 9, and 10 where an output is too short.
pub fn read_out(
    table: &Table<'_>,
    state: &State<'_>,
    marks: &mut Marks<'_>,
    output: &mut Output<'_>,
) -> Result<ReadOut, Refusal>
    ensures same_marks { SameMarks marks.old marks.new }
    ensures same_output { SameOutput output.old output.new }
    ensures reads_out { ReadsOut (table_of table.now) (state_of state.now marks.old) (output_of output.old)
        result (state_of state.now marks.new) (output_of output.new) }
{
    let agree = outputs_agree(&output.as_drawn());
    let verdict = state_verdict(table, state, &marks.as_marked(), agree);
    read_if(table, state, marks, output, verdict)
}
