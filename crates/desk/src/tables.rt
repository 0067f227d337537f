// Tables that keep the rules: a table's check as a report, and a load that goes on where the table passes it.
ghost use Rattle.std.specs.Prelude.{◌≡◌, ◌≤◌, length};
ghost use Rattle.scope.specs.Answers.{is_accepted};
ghost use Rattle.scope.specs.Table.{table};
ghost use Rattle.edge_table.specs.Checks.{checked};
ghost use Rattle.desk.specs.Loads.{count_of};
ghost use Rattle.desk.specs.Reports.{Page};
ghost use Rattle.desk.specs.Tables.{table_in, LoadsSound};

use crate::load_table;
use crate::reports::{Report, in_room};
use crate::words::say_report;
use std::rt::Files;
use table_words::tell_table;

// Whether the table of this name keeps the rules; where it does not, the one line that says which it breaks, as it can be printed.
pub fn report_table(
    text: &mut [u8],
    name: &[u8],
    edges: &[u64],
    reverse: &[u32],
    area: &[f64],
) -> Report
    ensures { record { text = text.new; report = result } ≡ table_in text.old name.now (table edges.now reverse.now area.now) }
{
    let told = tell_table(text, name, edges, reverse, area);
    in_room(text, told.map(|_| 0), name)
}

// The same, said.
fn is_sound(name: &[u8], edges: &[u64], reverse: &[u32], area: &[f64]) -> bool
    ensures { result ≡ is_accepted (checked (table edges.now reverse.now area.now)) }
{
    let mut line = io::large_buffer();
    let report = report_table(&mut line, name, edges, reverse, area);
    say_report(&line, report);
    report.is_ok()
}

// Loads the table at `path` as `load_table` does, but none that breaks a rule: over such a table no zone can be dissolved.
pub fn load_sound_table<R: Files>(
    rt: &R,
    path: &[u8],
    text: &mut [u8],
    edges: &mut [u64],
    reverse: &mut [u32],
    area: &mut [f64],
) -> Option<usize>
    ensures loads { LoadsSound text.new (table edges.old reverse.old area.old) result (table edges.new reverse.new area.new) }
    ensures fits { (count_of result ≤ length edges.old) × (count_of result ≤ length reverse.old) × (count_of result ≤ length area.old) }
{
    let rows = load_table(rt, path, text, edges, reverse, area)?;
    is_sound(path, &edges[..rows], &reverse[..rows], &area[..rows]).then_some(rows)
}
