// The four calls over lent slices: open, offer, read out, as `standing` has them, and dissolve. The Rust's `Solvent` and `ArcSet`.
// Each takes any slices: what the definitions of `scope` say of the call is its answer and what it leaves.
#![tactic(auto)]

ghost use Rattle.lent.specs.Lent.{table_of, memory_of, output_of, SameMemory, SameMarks, SameOutput};
ghost use Rattle.solvent.specs.Promises.{Dissolves};

use admission::lengths::{lengths_fit, outputs_agree};
use admission::list_verdict;
use dissolving::work;
use lent::{Marks, Memory, Output, Table};
use scope::{ReadOut, Refusal};
pub use standing::{offer, open, read_out};

// A whole list of cells: 10, 1, 2, 3, 4, 3, 8 over the list, then 5, 6, 7 for each cell in turn, and 10 where an output is too short.
pub fn dissolve(
    table: &Table<'_>,
    memory: &mut Memory<'_>,
    marks: &mut Marks<'_>,
    list: &[u64],
    output: &mut Output<'_>,
    mode: usize,
) -> Result<ReadOut, Refusal>
    ensures same_memory { SameMemory memory.old memory.new }
    ensures same_marks { SameMarks marks.old marks.new }
    ensures same_output { SameOutput output.old output.new }
    ensures dissolves { Dissolves (table_of table.now) (memory_of memory.old marks.old) mode list.now (output_of output.old)
        result (memory_of memory.new marks.new) (output_of output.new) }
{
    let fits = outputs_agree(&output.as_drawn())
        & lengths_fit(table, &memory.as_state(), &marks.as_marked());
    list_verdict(table, list, mode, memory.places(), fits)?;
    work(table, memory, marks, list, output, mode)
}
