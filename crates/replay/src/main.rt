// The Rust's answers replayed with no Rust at hand: data/answers.list has tables, cell lists and what h3o's own texts made of them, as
// records that rust/runs/src/list.rs describes. Each list is put to dissolve on bytes, and the answer held to the record's.
#![tactic(auto)]

mod records;

ghost use Rattle.io.specs.Counts.{IsPrefixLen};

use files::{FileError, read_file};
use records::replay;
use std::rt::Files;

// Reads the list: how many bytes of it came. Of one that can't be read none is replayed, and of one too long what there is room for.
fn read_list<R: Files>(rt: &R, bytes: &mut [u8]) -> usize
    ensures { IsPrefixLen result bytes.new }
{
    match read_file(rt, b"answers.list", bytes) {
        Ok(size) => size,
        Err(FileError::Unreadable(_)) => 0,
        Err(FileError::TooLong) => bytes.len(),
    }
}

fn main(rt: HostRuntime) {
    // More room than the list takes.
    let mut bytes = [0u8; 262144];
    let size = read_list(&rt, &mut bytes);
    let tally = replay(&bytes[..size]);
    let _ = print!(rt; "{tally}");
}
