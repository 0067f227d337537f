// The ring list as a lent slice of records: read out and dissolve in this form.
// Thin functions over the core, which writes the four plain slices: all that decides a number is in it.
#![tactic(auto)]

mod agreed;

ghost use Rattle.std.specs.Prelude.{◌≡◌};
ghost use Rattle.scope.specs.Answers.{rings_of};
ghost use Rattle.lent.specs.Lent.{table_of, memory_of, state_of, output_of, SameMemory, SameMarks, SameOutput};
ghost use Rattle.ring_records.specs.Records.{filled};
ghost use Rattle.ring_list.specs.Listing.{ReadsRings, DissolvesRings, Records};

use agreed::{dissolve_agreed, read_out_agreed};
use lent::{Marks, Memory, Output, State, Table};
pub use ring_records::{Ring, fill_rings, ring_count};
use scope::{ReadOut, Refusal};

// The records of what an answer counts.
fn list_rings(rings: &mut [Ring], output: &Output<'_>, answer: Result<ReadOut, Refusal>)
    requires { Records answer rings.old (output_of output.now) }
    ensures { rings.new ≡ filled output.now.start.now output.now.size.now output.now.group.now output.now.area.now (rings_of answer) rings.old }
{
    let count = ring_count(answer);
    fill_rings(
        rings,
        output.start,
        output.size,
        output.group,
        output.area,
        count,
    );
}

// Read out, and the records of what it has written. Refused, it leaves the records as they were.
pub fn read_out(
    rings: &mut [Ring],
    table: &Table<'_>,
    state: &State<'_>,
    marks: &mut Marks<'_>,
    output: &mut Output<'_>,
) -> Result<ReadOut, Refusal>
    ensures same_marks { SameMarks marks.old marks.new }
    ensures same_output { SameOutput output.old output.new }
    ensures reads_rings { ReadsRings (table_of table.now) (state_of state.now marks.old) (output_of output.old) rings.old
        result (state_of state.now marks.new) (output_of output.new) rings.new }
{
    let answer = read_out_agreed(table, state, marks, output, rings.len());
    list_rings(rings, output, answer);
    answer
}

// Dissolve, and the records of what it has written. Refused, it leaves the records as they were.
pub fn dissolve(
    rings: &mut [Ring],
    table: &Table<'_>,
    memory: &mut Memory<'_>,
    marks: &mut Marks<'_>,
    list: &[u64],
    output: &mut Output<'_>,
    mode: usize,
) -> Result<ReadOut, Refusal>
    ensures same_memory { SameMemory memory.old memory.new }
    ensures same_marks { SameMarks marks.old marks.new }
    ensures same_output { SameOutput output.old output.new }
    ensures dissolves_rings { DissolvesRings (table_of table.now) (memory_of memory.old marks.old) mode list.now (output_of output.old) rings.old
        result (memory_of memory.new marks.new) (output_of output.new) rings.new }
{
    let answer = dissolve_agreed(table, memory, marks, list, output, mode, rings.len());
    list_rings(rings, output, answer);
    answer
}
