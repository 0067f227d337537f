// The edge table in lent memory: three slices, edge numbers, reverse rows and area terms. Its check.
#![tactic(auto)]

mod straight;

ghost use Rattle.std.specs.Prelude.{◌≡◌};
ghost use Rattle.scope.specs.Table.{table};
ghost use Rattle.edge_table.specs.Checks.{checked};

use scope::Refusal;
use straight::none_bad;
use table_rules::{check_rows, count_fits};

// The check of any three slices: refusal 10 where their lengths disagree, and refusal 1 where the table
// breaks a rule.
#[tactic(auto, using(std::proofs::lemmas::Bool::Decides::nat_tests, crate::proofs::Outcomes::none_bad_good), unfolding(crate::specs::Checks::checked, scope::specs::Table::table_verdict))]
pub fn check_table(edges: &[u64], reverse: &[u32], area: &[f64]) -> Result<(), Refusal>
    ensures { result ≡ checked (table edges.now reverse.now area.now) }
{
    let rows = edges.len();
    if reverse.len() != rows || area.len() != rows {
        return Err(Refusal::BadLengths);
    }
    if !count_fits(rows) {
        return Err(Refusal::BadTable(0));
    }
    if none_bad(edges, reverse, area) {
        return Ok(());
    }
    check_rows(edges, reverse, area)
}
