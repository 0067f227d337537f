// A feed offered to a state of full size that is opened for it: the offers by verdict, what stands then, and the held cells. The state is gone
// when it returns.
ghost use Rattle.std.specs.Prelude.{◌≡◌, ◌≤◌, length, take, replicate, []};
ghost use Rattle.std.proofs.Math.Seq.{paste};
ghost use Rattle.scope.specs.Lists.{at};
ghost use Rattle.scope.specs.Answers.{if_accepted};
ghost use Rattle.lent.specs.Lent.{table_of, memory_of, output_of, SameMemory, SameMarks, SameOutput};
ghost use Rattle.audit.specs.Feed.{Fed};
ghost use Rattle.feed_audit.specs.Audit.{Begun, beginning, FedRead, reading_fed, Standing, standing};

use audit::feed::offer_all;
use full_size::{PLACES, ROWS, SLOTS, sizes_for};
use lent::arrays::StateArrays;
use lent::{Marks, Memory, Output, Table};
use scope::{ReadOut, Refusal};
use slices::at32;
use solvent::{open, read_out};

// The mode that names none.
pub(crate) const NO_MODE: usize = 2;

// What the opening answers, how many offers have each number, and what read out answers.
#[derive(Clone, Copy)]
pub struct Answers {
    pub opened: Result<(), Refusal>,
    pub counts: [usize; 11],
    pub standing: Result<ReadOut, Refusal>,
}

// The same, and how many cells are held: a number beside the list, since what stands in front of the list is promised, of which a slice
// that is handed back says nothing.
#[derive(Clone, Copy)]
pub struct Stood {
    pub answers: Answers,
    pub held: usize,
}

// The cells that are offered: none where the opening was refused.
fn offered(opened: Result<(), Refusal>, feed: &[u64]) -> &[u64]
    ensures { result.now ≡ if_accepted opened feed.now [] }
{
    if opened.is_ok() { feed } else { &[] }
}

// Opens the state and offers the feed, then reads out what stands.
fn read_fed(
    table: &Table<'_>,
    memory: &mut Memory<'_>,
    marks: &mut Marks<'_>,
    feed: &[u64],
    output: &mut Output<'_>,
) -> Answers
    ensures same_memory { SameMemory memory.old memory.new }
    ensures same_marks { SameMarks marks.old marks.new }
    ensures same_output { SameOutput output.old output.new }
    ensures reads_fed { record { opened = result.opened; counts = result.counts; answer = result.standing; left = memory_of memory.new marks.new; out = output_of output.new }
        ≡ reading_fed (table_of table.now) (memory_of memory.old marks.old) feed.now (output_of output.old) }
{
    let opened = open(table, memory, marks, NO_MODE);
    let counts = offer_all(table, memory, marks, offered(opened, feed));
    let standing = read_out(table, &memory.as_state(), marks, output);
    Answers {
        opened,
        counts,
        standing,
    }
}

// Copies the held cells, as many as there is room for, and says how many.
fn copy_held(memory: &Memory<'_>, list: &mut [u64]) -> usize
    ensures counts { result ≡ length (take (length list.old) (take (at memory.now.head.now 1) memory.now.cells.now)) }
    ensures copies { list.new ≡ paste list.old 0 memory.now.cells.now result }
    ensures within { result ≤ length list.new }
{
    let held = at32(memory.head, 1).min(memory.cells.len());
    let count = list.len().min(held);
    list[..count].copy_from_slice(&memory.cells[..count]);
    count
}

// All of it in a state of its own. The list has a place for each cell that the state can hold.
pub fn stand(table: &Table<'_>, feed: &[u64], list: &mut [u64], output: &mut Output<'_>) -> Stood
    requires { 16384 ≡ length list.old }
    ensures within { result.held ≤ length list.new }
    ensures same_output { SameOutput output.old output.new }
    ensures stands { record { opened = result.answers.opened; counts = result.answers.counts; cells = take result.held list.new; answer = result.answers.standing; out = output_of output.new }
        ≡ standing (table_of table.now) feed.now (output_of output.old) }
{
    let mut arrays = StateArrays::<ROWS, SLOTS, PLACES>::new();
    let (mut memory, mut marks) = arrays.lend(sizes_for(table));
    let answers = read_fed(table, &mut memory, &mut marks, feed, output);
    let held = copy_held(&memory, list);
    Stood { answers, held }
}
