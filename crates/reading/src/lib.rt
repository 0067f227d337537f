// A state read out where a verdict accepts it: its rings are built, or the refusal is handed on and nothing is written.
#![tactic(auto)]

ghost use Rattle.std.specs.Prelude.{◌≡◌};
ghost use Rattle.scope.specs.Calls.{Reading};
ghost use Rattle.lent.specs.Lent.{table_of, state_of, output_of, SameMarks, SameOutput};
ghost use Rattle.reading.specs.Reading.{ReadAsks, reading_if};

use lent::{Marks, Output, State, Table};
use rings::build_rings;
use scope::{ReadOut, Refusal};

// Reads out where the verdict accepts; an output that is too short is refused by 10. The marks are left as they were.
pub fn read_if(
    table: &Table<'_>,
    state: &State<'_>,
    marks: &mut Marks<'_>,
    output: &mut Output<'_>,
    verdict: Result<(), Refusal>,
) -> Result<ReadOut, Refusal>
    requires { ReadAsks verdict (table_of table.now) (state_of state.now marks.old) (output_of output.old) }
    ensures same_marks { SameMarks marks.old marks.new }
    ensures same_output { SameOutput output.old output.new }
    ensures reads_if { record { answer = result; left = state_of state.now marks.new; out = output_of output.new }
        ≡ reading_if verdict (table_of table.now) (state_of state.now marks.old) (output_of output.old) }
{
    verdict?;
    build_rings(table, state, marks, output, state.held())
}
