// The state's rules, refusal 9, on any numbers at all, in slices whose lengths are tested: a number that nothing has checked is read as 0
// past the end of its slice, as the rules have it.
#![tactic(auto)]

ghost use Rattle.std.specs.Prelude.{◌≡◌, cond, not, ◌<◌, ◌≤◌, ◌^◌, eqb, length, take};
ghost use Rattle.scope.specs.Lists.{passes};
ghost use Rattle.scope.specs.Answers.{is_accepted};
ghost use Rattle.scope.specs.CellLists.{list_verdict};
ghost use Rattle.scope.specs.Rules.{cleared_at, is_root, parent_kept, ranks_kept, rules_kept};
ghost use Rattle.lent.specs.Lent.{table_of, read_of};
ghost use Rattle.rules.specs.Slices.{forest, set_count, Lent};

use index::resolution;
use lent::{Marked, State, Table};
use slices::at32;
use slot_rules::{at64, slots_kept};
use validate::validate;

// How many numbers are not 0. Counts of 32 bits are added four at a time.
fn set_count(numbers: &[u32]) -> u32
    requires { length numbers.now < 2 ^ 32 }
    ensures { result ≡ set_count numbers.now }
{
    numbers.iter().map(|number| u32::from(*number != 0)).sum()
}

// Marks are cleared. There is no early end, so that several are read at a time.
fn all_cleared(marks: &[u32]) -> bool
    ensures { result ≡ passes (cleared_at marks.now) (length marks.now) }
{
    let mut kept = true;
    for mark in marks {
        kept &= *mark == 0;
    }
    kept
}

// Each parent is held, and is itself or has a higher rank.
#[tactic(auto, unfolding(scope::specs::Rules::parent_kept))]
fn parent_kept(parent: &[u32], rank: &[u32], held: usize, place: usize) -> bool
    ensures { result ≡ parent_kept (forest held parent.now rank.now) place }
{
    let above = at32(parent, place);
    (above < held) & ((above == place) | (at32(rank, place) < at32(rank, above)))
}

fn parents_kept(parent: &[u32], rank: &[u32], held: usize) -> bool
    ensures { result ≡ passes (parent_kept (forest held parent.now rank.now)) held }
{
    (0..held).all(|place| parent_kept(parent, rank, held, place))
}

// One for a root, else none.
fn root_at(parent: &[u32], place: usize) -> usize
    ensures { result ≡ cond (is_root parent.now place) 1 0 }
{
    usize::from(at32(parent, place) == place)
}

// The ranks add up to no more than the held cells less the roots. Held cells fit 32 bits, so the sums fit 64.
fn ranks_kept(parent: &[u32], rank: &[u32], held: usize) -> bool
    requires { held < 2 ^ 32 }
    ensures { result ≡ ranks_kept parent.now rank.now held }
{
    let mut ranks = 0;
    let mut roots = 0;
    for place in 0..held {
        ranks += at32(rank, place);
        roots += root_at(parent, place);
    }
    ranks + roots <= held
}

// Held cells pass 2, 3 and 4.
fn cells_kept(cells: &[u64], mode: usize, target: usize, held: usize) -> bool
    requires { held ≤ length cells.now }
    ensures { result ≡ is_accepted (list_verdict mode target held (take held cells.now)) }
{
    validate(&cells[..held], mode, target, held).is_ok()
}

// The state breaks no rule: the table's three slices, and the state's eleven. Each used slot's row points back to it, so that a row's slot
// number is none or a used slot that holds this row, for every row, where as many rows have a slot as slots are used. The slices are taken
// out once and lent on by one and the same length, which tells the compiler that they agree.
pub fn rules_kept(table: &Table<'_>, state: &State<'_>, marks: &Marked<'_>) -> bool
    requires { Lent (table_of table.now) (read_of state.now marks.now) }
    ensures { result ≡ rules_kept (table_of table.now) (read_of state.now marks.now) }
{
    let State {
        head,
        cells,
        parent,
        rank,
        slot_row,
        slot_cell,
        prev,
        next,
        row_slot,
    } = *state;
    let mode = at32(head, 0);
    let held = at32(head, 1);
    let fits = (mode <= 1) & (held <= cells.len());
    if !fits {
        return false;
    }
    let Table { edges, reverse, .. } = *table;
    let target = resolution(at64(edges, 0));
    let rows = edges.len();
    let slots = slot_row.len();
    cells_kept(cells, mode, target, held)
        & (set_count(row_slot) == set_count(slot_row))
        & slots_kept(
            edges,
            &reverse[..rows],
            cells,
            slot_row,
            &slot_cell[..slots],
            &prev[..slots],
            &next[..slots],
            &row_slot[..rows],
            held,
        )
        & (all_cleared(marks.row_mark) & all_cleared(marks.cell_mark))
        & parents_kept(parent, rank, held)
        & ranks_kept(parent, rank, held)
}
