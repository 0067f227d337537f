// How the answers on bytes are shown: what a call answered, and what was read out.
ghost use Rattle.std.specs.Prelude.{◌≤◌, length};

use codec::FromBytes;
use files::FileError;
use std::fmt;

// A table that was not read is all zeros, which every call refuses by 1.
#[derive(Drop)]
pub(crate) struct Table(pub Result<usize, FileError>);

impl fmt::Display for Table {
    fn fmt<W: fmt::Write>(&self, f: &mut fmt::Formatter<W>) -> fmt::Result {
        match self.0 {
            Ok(count) => write!(f, "table of bytes {count}"),
            Err(FileError::Unreadable(_)) => write!(f, "no table"),
            Err(FileError::TooLong) => write!(f, "too long a table"),
        }
    }
}

// Accepted, or a refusal's number and index.
#[derive(Drop)]
pub(crate) struct Answer(pub u64);

impl fmt::Display for Answer {
    fn fmt<W: fmt::Write>(&self, f: &mut fmt::Formatter<W>) -> fmt::Result {
        match self.0 {
            0 => write!(f, "accepted"),
            refusal => {
                let number = refusal / 4294967296;
                let index = refusal % 4294967296;
                write!(f, "refused by {number} at {index}")
            }
        }
    }
}

// What was read out, from the bytes of an output: a head of 24 bytes, and the records of the rings, 20 bytes each, which have their lengths
// at byte 4.
#[derive(Drop)]
pub(crate) struct ReadOut<'a> {
    pub bytes: &'a [u8],
    ghost has_head: { 24 ≤ length bytes.now },
}

impl fmt::Display for ReadOut<'_> {
    fn fmt<W: fmt::Write>(&self, f: &mut fmt::Formatter<W>) -> fmt::Result {
        match u32::read(self.bytes, 0) {
            0 => write!(f, "nothing"),
            1 => write!(f, "closed"),
            _ => {
                let polygons = u32::read(self.bytes, 4);
                let rings = u32::read(self.bytes, 8);
                write!(f, "polygons {polygons}, rings {rings} of lengths")?;
                for ring in self.bytes[24..].chunks(20).take(rings as usize) {
                    if 8 <= ring.len() {
                        let length = u32::read(ring, 4);
                        write!(f, " {length}")?;
                    }
                }
                Ok(())
            }
        }
    }
}
