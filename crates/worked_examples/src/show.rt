// How an answer is shown: an outline by its counts, the lengths of its rings as far as they were written, and the bits of its area.
use codec::bits_of;
use scope::{ReadOut, Refusal};
use std::fmt;

#[derive(Clone, Copy)]
pub(crate) struct Shown<'a> {
    pub answer: Result<ReadOut, Refusal>,
    pub lengths: &'a [u32],
}

impl fmt::Display for Shown<'_> {
    fn fmt<W: fmt::Write>(&self, f: &mut fmt::Formatter<W>) -> fmt::Result {
        match self.answer {
            Ok(ReadOut::Nothing) => write!(f, "nothing"),
            Ok(ReadOut::Closed) => write!(f, "closed"),
            Ok(ReadOut::Outline(polygons, rings, area)) => {
                write!(f, "polygons {polygons}, rings {rings} of lengths")?;
                for length in self.lengths.iter().take(rings) {
                    write!(f, " {length}")?;
                }
                let bits = bits_of(area);
                write!(f, ", first outer area {bits:016x}")
            }
            Err(refusal) => {
                let number = refusal.number();
                let index = refusal.index();
                write!(f, "refused by {number} at {index}")
            }
        }
    }
}
