// The records of the ring list: filled from the four plain slices that the core writes.
#![tactic(auto)]

ghost use Rattle.std.specs.Prelude.{◌≡◌, ◌<◌, length};
ghost use Rattle.scope.specs.Answers.{rings_of};
ghost use Rattle.ring_records.specs.Records.{record_at, filled, Enough};

use scope::{ReadOut, Refusal};

#[repr(C)]
#[derive(Clone, Copy)]
pub struct Ring {
    pub start: u32,
    pub length: u32,
    pub group: u32,
    pub area: f64,
}

// The record whose fields stand at i in the four plain slices.
fn record_at(starts: &[u32], lengths: &[u32], groups: &[u32], areas: &[f64], i: usize) -> Ring
    requires { (i < length starts.now) × (i < length lengths.now) × (i < length groups.now) × (i < length areas.now) }
    ensures { result ≡ record_at starts.now lengths.now groups.now areas.now i }
{
    Ring {
        start: starts[i],
        length: lengths[i],
        group: groups[i],
        area: areas[i],
    }
}

// How many rings an answer of the core has written, so how many records there are to fill.
#[tactic(auto, unfolding(scope::specs::Answers::rings_of))]
pub fn ring_count(answer: Result<ReadOut, Refusal>) -> usize
    ensures { result ≡ rings_of answer }
{
    match answer {
        Ok(ReadOut::Outline(_, rings, _)) => rings,
        Ok(ReadOut::Nothing | ReadOut::Closed) => 0,
        Err(_) => 0,
    }
}

// The first n records, from the four plain slices. The records past them stay as they were.
// The fields stay slices of their own, with n beside them, since `build_rings` promises them so (`written`).
pub fn fill_rings(
    rings: &mut [Ring],
    starts: &[u32],
    lengths: &[u32],
    groups: &[u32],
    areas: &[f64],
    n: usize,
)
    requires { Enough n rings.old starts.now lengths.now groups.now areas.now }
    ensures { rings.new ≡ filled starts.now lengths.now groups.now areas.now n rings.old }
{
    for i in 0..n {
        rings[i] = record_at(starts, lengths, groups, areas, i);
    }
}
