// A whole audit: a feed offered one by one to a newly opened state, what stands then, and the same dissolved afresh from the held cells. Each
// of the two has its memory of full size in a frame of its own.
#![tactic(auto)]

pub mod fed;

ghost use Rattle.std.specs.Prelude.{◌≡◌};
ghost use Rattle.lent.specs.Lent.{table_of, output_of, drawn_of, SameOutput};
ghost use Rattle.feed_audit.specs.Audit.{Compared, comparing, Audit, auditing};

use audit::same::{same_answer, same_output};
use fed::{Answers, NO_MODE, stand};
use full_size::{PLACES, dissolve_list};
use lent::{Drawn, Output, Table};
use scope::{ReadOut, Refusal};

// The answers of the calls, one visit to each held cell, and whether the cells dissolved afresh give the same.
#[derive(Clone, Copy)]
pub struct Audited {
    pub answers: Answers,
    pub visits: usize,
    pub same: bool,
}

// Dissolves the cells afresh, naming no mode, and says whether that gives the answer and the output that stand.
fn same_anew(
    table: &Table<'_>,
    cells: &[u64],
    standing: Result<ReadOut, Refusal>,
    drawn: &Drawn<'_>,
    anew: &mut Output<'_>,
) -> bool
    ensures same_output { SameOutput anew.old anew.new }
    ensures compares { record { same = result; anew = output_of anew.new }
        ≡ comparing (table_of table.now) cells.now standing (drawn_of drawn.now) (output_of anew.old) }
{
    let again = dissolve_list(table, cells, anew, NO_MODE);
    same_answer(standing, again) & same_output(drawn, &anew.as_drawn())
}

// Audits a feed.
pub fn audit(
    table: &Table<'_>,
    feed: &[u64],
    output: &mut Output<'_>,
    anew: &mut Output<'_>,
) -> Audited
    ensures same_output { SameOutput output.old output.new }
    ensures same_anew { SameOutput anew.old anew.new }
    ensures audits { record { opened = result.answers.opened; counts = result.answers.counts; visits = result.visits; answer = result.answers.standing; same = result.same; out = output_of output.new; anew = output_of anew.new }
        ≡ auditing (table_of table.now) feed.now (output_of output.old) (output_of anew.old) }
{
    let mut list = [0; PLACES];
    let stood = stand(table, feed, &mut list, output);
    let answers = stood.answers;
    let same = same_anew(
        table,
        &list[..stood.held],
        answers.standing,
        &output.as_drawn(),
        anew,
    );
    Audited {
        answers,
        visits: stood.held,
        same,
    }
}
