// The cells of a feed, offered one by one, with a tally of the verdicts by their numbers.
ghost use Rattle.std.specs.Prelude.{◌≡◌, ◌≤◌, length};
ghost use Rattle.scope.specs.Answers.{refusal_of};
ghost use Rattle.lent.specs.Lent.{table_of, memory_of, SameMemory, SameMarks};
ghost use Rattle.audit.specs.Feed.{Fed, feeding, points_unchecked};

use lent::{Marks, Memory, Table};
use scope::Refusal;
use standing::offer;

#[tactic(auto, unfolding(scope::specs::Answers::refusal_of))]
fn number_of(verdict: Result<(), Refusal>) -> usize
    ensures { result ≡ refusal_of verdict }
{
    match verdict {
        Ok(()) => 0,
        Err(refusal) => refusal.number(),
    }
}

// Offers every cell of the feed, in turn, and answers how many verdicts have each number, 0 to 10.
pub fn offer_all(
    table: &Table<'_>,
    memory: &mut Memory<'_>,
    marks: &mut Marks<'_>,
    feed: &[u64],
) -> [usize; 11]
    ensures same_memory { SameMemory memory.old memory.new }
    ensures same_marks { SameMarks marks.old marks.new }
    ensures fed { (record { counts = result; left = memory_of memory.new marks.new }
        ≡ feeding (table_of table.now) (memory_of memory.old marks.old) feed.now)
        × (points_unchecked result ≤ length feed.now) }
{
    let mut counts = [0; 11];
    for &cell in feed {
        let verdict = offer(table, memory, marks, cell);
        counts[number_of(verdict)] += 1;
    }
    counts
}
