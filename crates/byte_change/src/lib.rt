// Open and offer on the bytes of a standing state within the host's limits: table and state decoded into local arrays, and the state
// back into its bytes unless the call is refused.
#![tactic(auto)]

ghost use Rattle.std.specs.Prelude.{◌≡◌, []};
ghost use Rattle.scope.specs.Answers.{if_accepted};
ghost use Rattle.scope.specs.Bytes.{rows_in, table_in, state_in, state_bytes, result_of, storing};
ghost use Rattle.lent.specs.Lent.{table_of, memory_of, read_of, SameMemory, SameMarks};
ghost use Rattle.wire.specs.Sizes.{StateRoom};
ghost use Rattle.byte_limits.specs.Within.{StandingWithin};
ghost use Rattle.byte_change.specs.Changing.{changing};

use answer_numbers::result;
use byte_limits::arrays::{TableArrays, decode_in};
use lent::arrays::{Sizes, StateArrays};
use lent::{Marked, Marks, Memory, State, Table};
use scope::Refusal;
use standing::{offer, open};
use wire::columns::encode_state;

// The calls that change a state: it is opened in a mode, or offered a cell.
#[derive(Clone, Copy, Debug, PartialEq, Eq)]
pub enum Change {
    Open(usize),
    Offer(u64),
}

// Opens or offers.
#[tactic(auto, unfolding(crate::specs::Changing::changing))]
fn make(
    table: &Table<'_>,
    memory: &mut Memory<'_>,
    marks: &mut Marks<'_>,
    change: Change,
) -> Result<(), Refusal>
    ensures same_memory { SameMemory memory.old memory.new }
    ensures same_marks { SameMarks marks.old marks.new }
    ensures made { record { answer = result; left = memory_of memory.new marks.new } ≡ changing (table_of table.now) (memory_of memory.old marks.old) change }
{
    match change {
        Change::Open(mode) => open(table, memory, marks, mode),
        Change::Offer(cell) => offer(table, memory, marks, cell),
    }
}

// The state into its bytes, unless the call was refused; and the result.
fn store(
    bytes: &mut [u8],
    state: &State<'_>,
    marks: &Marked<'_>,
    verdict: Result<(), Refusal>,
) -> u64
    requires { StateRoom bytes.old (read_of state.now marks.now) }
    ensures result { result ≡ result_of verdict }
    ensures stored { bytes.new ≡ if_accepted verdict (state_bytes (read_of state.now marks.now)) bytes.old }
{
    if verdict.is_ok() {
        encode_state(bytes, state, marks);
    }
    result(verdict)
}

// Opens or offers within the limits. Never inlined: in its caller's frame its arrays would lie beside those of a read out.
#[inline(never)]
pub fn change_within(
    table: &[u8],
    state: &mut [u8],
    slots: usize,
    places: usize,
    change: Change,
) -> u64
    requires { StandingWithin table.now state.old slots places }
    ensures { record { result = result; state = state.new; out = [] } ≡ storing (changing (table_in table.now) (state_in (rows_in table.now) slots places state.old) change) state.old [] }
{
    let rows = table.len() / 20;
    let mut table_arrays = TableArrays::new();
    let mut state_arrays = StateArrays::<1024, 1024, 256>::new();
    let table = table_arrays.decode(table);
    let sizes = Sizes {
        rows,
        slots,
        places,
    };
    let (mut memory, mut marks) = decode_in(&mut state_arrays, state, sizes);
    let verdict = make(&table, &mut memory, &mut marks, change);
    store(state, &memory.as_state(), &marks.as_marked(), verdict)
}
