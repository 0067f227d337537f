// What read out and dissolve answer at full size, told as numbers: the result, and a summary of four numbers.
#![tactic(auto)]

ghost use Rattle.std.specs.Prelude.{◌≡◌, length};
ghost use Rattle.telling.specs.Summary.{summary_of, Tells};

use answer_numbers::{result, summarise, verdict_of};
use scope::{ReadOut, Refusal};

// The four numbers of an answer.
#[tactic(auto, using(crate::proofs::Summaries::summary_is))]
fn store_summary(summary: &mut [u64], answer: Result<ReadOut, Refusal>)
    requires { length summary.old ≡ 4 }
    ensures { summary.new ≡ summary_of answer }
{
    let s = summarise(answer);
    summary.copy_from_slice(&[s.kind, s.polygons, s.rings, s.area]);
}

// The result, with the summary of an answer that is no refusal.
pub fn tell(summary: &mut [u64], answer: Result<ReadOut, Refusal>) -> u64
    requires { length summary.old ≡ 4 }
    ensures { Tells answer summary.old result summary.new }
{
    let verdict = verdict_of(answer);
    if verdict.is_ok() {
        store_summary(summary, answer);
    }
    result(verdict)
}
