// The audit of a loaded feed, and the report of what came of it.
ghost use Rattle.std.specs.Prelude.{◌≡◌, ◌≤◌, ◌<◌, ◌^◌, length};
ghost use Rattle.lent.specs.Lent.{table_of, output_of};
ghost use Rattle.audit.specs.Feed.{points_unchecked};
ghost use Rattle.feed_audit.specs.Audit.{auditing};
ghost use Rattle.desk.specs.Outputs.{new_output};
ghost use Rattle.desk.specs.Reports.{Page};
ghost use Rattle.year_audit.specs.Audits.{audited_text, Told, Reported, audit_in};

use audit::summary::put_audit;
use desk::arrays::{EDGES, RINGS};
use desk::reports::{Report, in_room};
use feed_audit::audit;
use lent::arrays::OutputArrays;
use lent::{Output, Table};
use refusal_text::put_refusal;
use scope::{ReadOut, Refusal};

// What came of an audit; or that the table was refused, and at which row.
fn put_audited(
    table_name: &[u8],
    text: &mut [u8],
    opened: Result<(), Refusal>,
    offered: usize,
    counts: &[usize],
    standing: Result<ReadOut, Refusal>,
    same: bool,
    visits: usize,
) -> Report
    requires { points_unchecked counts.now < 2 ^ 64 }
    ensures { Told (audited_text table_name.now offered opened counts.now standing same visits) opened text.old text.new result }
{
    match opened {
        Err(refusal) => { Err(put_refusal(text, 0, table_name, table_name, refusal, 0)) }
        Ok(()) => { Ok(put_audit(text, 0, offered, counts, standing, same, visits)) }
    }
}

// Audits the feed, and writes down what came of it.
fn report_audit(
    table_name: &[u8],
    text: &mut [u8],
    table: &Table<'_>,
    feed: &[u64],
    output: &mut Output<'_>,
    anew: &mut Output<'_>,
) -> Report
    requires { length feed.now ≤ 65536 }
    ensures { Reported table_name.now (length feed.now) (auditing (table_of table.now) feed.now (output_of output.old) (output_of anew.old))
        text.old text.new (output_of output.new) (output_of anew.new) result }
{
    let audited = audit(table, feed, output, anew);
    let answers = audited.answers;
    let counts = answers.counts;
    put_audited(
        table_name,
        text,
        answers.opened,
        feed.len(),
        &counts,
        answers.standing,
        audited.same,
        audited.visits,
    )
}

// The same in new outputs of full size, as it can be printed.
pub(crate) fn audit_feed(
    table_name: &[u8],
    feed_name: &[u8],
    text: &mut [u8],
    table: &Table<'_>,
    feed: &[u64],
) -> Report
    requires { length feed.now ≤ 65536 }
    ensures { record { text = text.new; report = result }
        ≡ audit_in text.old table_name.now feed_name.now (length feed.now) (auditing (table_of table.now) feed.now new_output new_output) }
{
    let mut arrays = OutputArrays::<RINGS, EDGES>::new();
    let mut output = arrays.lend(RINGS, EDGES);
    let mut anew_arrays = OutputArrays::<RINGS, EDGES>::new();
    let mut anew = anew_arrays.lend(RINGS, EDGES);
    let report = report_audit(table_name, text, table, feed, &mut output, &mut anew);
    in_room(text, report, feed_name)
}
