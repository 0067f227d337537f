// A table's check told in words: where it is refused, one line that names the file, the row, its byte, and the rule that it breaks.
#![tactic(auto)]

pub mod rules;
mod words;

ghost use Rattle.scope.specs.Table.{table};
ghost use Rattle.table_words.specs.Words.{TableTold};

use edge_table::check_table;
use rules::fault_of;
use words::put_fault;

// Checks the table of this name; where a rule is broken, the line stands at the front of the text, and its length is answered.
pub fn tell_table(
    text: &mut [u8],
    name: &[u8],
    edges: &[u64],
    reverse: &[u32],
    area: &[f64],
) -> Result<(), usize>
    ensures { TableTold name.now (table edges.now reverse.now area.now) text.old text.new result }
{
    let Err(refusal) = check_table(edges, reverse, area) else {
        return Ok(());
    };
    let row = refusal.index();
    let fault = fault_of(edges, reverse, area, row).unwrap_err();
    Err(put_fault(text, 0, name, refusal.number(), row, fault))
}
