// The core's calls, given how many records the ring list has: refusal 10 unless the plain slices have as many.
ghost use Rattle.std.specs.Prelude.{◌≡◌};
ghost use Rattle.scope.specs.Calls.{Reading};
ghost use Rattle.lent.specs.Lent.{table_of, memory_of, state_of, output_of, SameMemory, SameMarks, SameOutput};
ghost use Rattle.ring_list.specs.Listing.{reading_agreed, dissolving_agreed};

use lent::{Marks, Memory, Output, State, Table};
use scope::{ReadOut, Refusal};
use solvent::{dissolve, read_out};

pub fn read_out_agreed(
    table: &Table<'_>,
    state: &State<'_>,
    marks: &mut Marks<'_>,
    output: &mut Output<'_>,
    records: usize,
) -> Result<ReadOut, Refusal>
    ensures same_marks { SameMarks marks.old marks.new }
    ensures same_output { SameOutput output.old output.new }
    ensures reads_out { record { answer = result; left = state_of state.now marks.new; out = output_of output.new }
        ≡ reading_agreed (table_of table.now) (state_of state.now marks.old) (output_of output.old) records }
{
    if records != output.start.len() {
        return Err(Refusal::BadLengths);
    }
    read_out(table, state, marks, output)
}

pub fn dissolve_agreed(
    table: &Table<'_>,
    memory: &mut Memory<'_>,
    marks: &mut Marks<'_>,
    list: &[u64],
    output: &mut Output<'_>,
    mode: usize,
    records: usize,
) -> Result<ReadOut, Refusal>
    ensures same_memory { SameMemory memory.old memory.new }
    ensures same_marks { SameMarks marks.old marks.new }
    ensures same_output { SameOutput output.old output.new }
    ensures dissolves { record { answer = result; left = memory_of memory.new marks.new; out = output_of output.new }
        ≡ dissolving_agreed (table_of table.now) (memory_of memory.old marks.old) mode list.now (output_of output.old) records }
{
    if records != output.start.len() {
        return Err(Refusal::BadLengths);
    }
    dissolve(table, memory, marks, list, output, mode)
}
