// Refusal 10, from lengths alone: the slices disagree, or a capacity is outside its range.
ghost use Rattle.std.specs.Prelude.{◌≡◌};
ghost use Rattle.scope.specs.Memory.{lengths_fit, outputs_agree};
ghost use Rattle.lent.specs.Lent.{table_of, read_of, drawn_of};
ghost use Rattle.admission.specs.Lengths.{both_agree, three_agree, capacities_in};

use arcs::Pool;
use lent::{Drawn, Marked, State, Table};

// Both other slices are as long as the first.
pub fn both_agree(n: usize, a: usize, b: usize) -> bool
    ensures { result ≡ both_agree n a b }
{
    (a == n) & (b == n)
}

// All three other slices are as long as the first.
pub fn three_agree(n: usize, a: usize, b: usize, c: usize) -> bool
    ensures { result ≡ three_agree n a b c }
{
    (a == n) & (b == n) & (c == n)
}

pub fn capacities_fit(slots: usize, places: usize) -> bool
    ensures { result ≡ capacities_in slots places }
{
    let pool = Pool { slots, places };
    pool.fits()
}

// The slices of a table and of a state agree in length, and its capacities are in their ranges.
#[tactic(auto, unfolding(scope::specs::Memory::lengths_fit))]
pub fn lengths_fit(table: &Table<'_>, state: &State<'_>, marks: &Marked<'_>) -> bool
    ensures { result ≡ lengths_fit (table_of table.now) (read_of state.now marks.now) }
{
    let rows = table.edges.len();
    let places = state.cells.len();
    let slots = state.slot_row.len();
    both_agree(rows, table.reverse.len(), table.area.len())
        & (state.head.len() == 2)
        & three_agree(
            places,
            state.parent.len(),
            state.rank.len(),
            marks.cell_mark.len(),
        )
        & three_agree(
            slots,
            state.slot_cell.len(),
            state.prev.len(),
            state.next.len(),
        )
        & both_agree(rows, state.row_slot.len(), marks.row_mark.len())
        & capacities_fit(slots, places)
}

// The slices of a ring list agree in length.
pub fn outputs_agree(output: &Drawn<'_>) -> bool
    ensures { result ≡ outputs_agree (drawn_of output.now) }
{
    three_agree(
        output.start.len(),
        output.size.len(),
        output.group.len(),
        output.area.len(),
    )
}
