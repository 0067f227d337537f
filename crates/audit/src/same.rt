// Two outlines compared, answer with answer and output with output.
ghost use Rattle.std.specs.Prelude.{◌≡◌};
ghost use Rattle.lent.specs.Lent.{drawn_of};
ghost use Rattle.audit.specs.Same.{same_numbers, same_areas, same_output, same_answer};

use answer_numbers::summarise;
use codec::bits_of;
use lent::Drawn;
use scope::{ReadOut, Refusal};

#[tactic(auto, unfolding(crate::specs::Same::same_numbers))]
fn same_numbers(a: &[u32], b: &[u32]) -> bool
    ensures { result ≡ same_numbers a.now b.now }
{
    a == b
}

// By their bits, so that a NaN is the same as a NaN and the two zeros differ.
fn same_areas(a: &[f64], b: &[f64]) -> bool
    ensures { result ≡ same_areas a.now b.now }
{
    a.len() == b.len() && a.iter().zip(b).all(|(x, y)| bits_of(*x) == bits_of(*y))
}

// Two outputs are equal, slice for slice.
#[tactic(auto, unfolding(crate::specs::Same::same_output))]
pub fn same_output(drawn: &Drawn<'_>, other: &Drawn<'_>) -> bool
    ensures { result ≡ same_output (drawn_of drawn.now) (drawn_of other.now) }
{
    same_numbers(drawn.start, other.start)
        & same_numbers(drawn.size, other.size)
        & same_numbers(drawn.group, other.group)
        & same_areas(drawn.area, other.area)
        & same_numbers(drawn.edges, other.edges)
}

// Two answers are carried out, of one kind, with the same counts and first outer area.
#[tactic(auto, unfolding(crate::specs::Same::same_answer))]
pub fn same_answer(answer: Result<ReadOut, Refusal>, other: Result<ReadOut, Refusal>) -> bool
    ensures { result ≡ same_answer answer other }
{
    answer.is_ok() & other.is_ok() & (summarise(answer) == summarise(other))
}
