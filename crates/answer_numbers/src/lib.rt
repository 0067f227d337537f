// What the calls answer, as numbers.
#![tactic(auto)]

ghost use Rattle.std.specs.Prelude.{◌≡◌, ◌<◌, ◌^◌};
ghost use Rattle.scope.specs.declared.Refusal.TheVariants.{BadLengths};
ghost use Rattle.scope.specs.Answers.{verdict_of, require, ◌▷◌};
ghost use Rattle.scope.specs.Bytes.{in32, result_of};
ghost use Rattle.answer_numbers.specs.Sums.{Sums};

use codec::bits_of;
use scope::{ReadOut, Refusal};

// An index in 32 bits; the largest stands for all past it.
fn index_in_32(n: usize) -> u64
    ensures { (result ≡ in32 n) × (result < 2 ^ 32) }
{
    if n < 4294967296 { n as u64 } else { 4294967295 }
}

// 0 when accepted, else the refusal's number above its index.
#[tactic(auto, using(scope::proofs::Numbered::why_numbered), unfolding(scope::specs::Answers::refusal_of, scope::specs::Answers::index_of, scope::specs::Bytes::result_of))]
pub fn result(verdict: Result<(), Refusal>) -> u64
    ensures { result ≡ result_of verdict }
{
    match verdict {
        Ok(()) => 0,
        Err(refusal) => refusal.number() as u64 * 4294967296 + index_in_32(refusal.index()),
    }
}

// The verdict in a read out's answer.
#[tactic(auto, unfolding(scope::specs::Answers::verdict_of))]
pub fn verdict_of(answer: Result<ReadOut, Refusal>) -> Result<(), Refusal>
    ensures { result ≡ verdict_of answer }
{
    answer.map(|_| ())
}

// One more test, refused by 10.
pub fn then_fits(verdict: Result<(), Refusal>, fits: bool) -> Result<(), Refusal>
    ensures { result ≡ (verdict ▷ require fits BadLengths) }
{
    verdict?;
    if fits {
        Ok(())
    } else {
        Err(Refusal::BadLengths)
    }
}

// The four numbers of an answer: kind, counts, and the bits of the first outer area.
#[derive(Clone, Copy, Debug, Default, PartialEq, Eq)]
pub struct Summary {
    pub kind: u64,
    pub polygons: u64,
    pub rings: u64,
    pub area: u64,
}

impl Summary {
    // Of an answer without an outline.
    const fn of_kind(kind: u64) -> Summary
        ensures { result ≡ record { kind = kind; polygons = 0; rings = 0; area = 0 } }
    {
        Summary {
            kind,
            polygons: 0,
            rings: 0,
            area: 0,
        }
    }
}

#[tactic(auto, unfolding(scope::specs::Answers::kind_of, scope::specs::Answers::polygons_of, scope::specs::Answers::rings_of, scope::specs::Bytes::area_bits))]
pub fn summarise(answer: Result<ReadOut, Refusal>) -> Summary
    ensures { Sums answer result }
{
    match answer {
        Ok(ReadOut::Nothing) => Summary::of_kind(0),
        Ok(ReadOut::Closed) => Summary::of_kind(1),
        Ok(ReadOut::Outline(polygons, rings, area)) => Summary {
            kind: 2,
            polygons: polygons as u64,
            rings: rings as u64,
            area: bits_of(area),
        },
        Err(_) => Summary::of_kind(3),
    }
}
