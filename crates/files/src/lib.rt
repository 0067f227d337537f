// Files read whole into lent bytes, for the programs. No contract can say what a file holds, nor what the system says of one that it does
// not hand out.
#![tactic(auto)]

ghost use Rattle.std.specs.Prelude.{◌≡◌};
ghost use Rattle.io.specs.Counts.{IsPrefixLen};
ghost use Rattle.std.specs.IoError.{raw_os_error};
ghost use Rattle.files.specs.declared.FileError.TheVariants as FileError;
ghost use Rattle.files.specs.Files.{reason_of, reason_behind, count_of};

use std::fs;
use std::io::{Error, Read};
use std::rt::Files;

// Linux's numbers of the errors that are told apart.
const EPERM: i32 = 1;

const ENOENT: i32 = 2;

const EACCES: i32 = 13;

const ENOTDIR: i32 = 20;

const EISDIR: i32 = 21;

// Why a file cannot be read: there is none of this name, it is a directory, it may not be read, or what else the system has against it.
#[derive(Clone, Copy, Debug, PartialEq, Eq)]
pub enum Reason {
    Missing,
    Directory,
    Forbidden,
    Other,
}

// Why no bytes were taken: the file cannot be opened or read, or has more bytes than there is room for.
#[derive(Clone, Copy, Debug, PartialEq, Eq)]
pub enum FileError {
    Unreadable(Reason),
    TooLong,
}

// The reason behind the number that the system gives an error.
fn reason_of(error: i32) -> Reason
    ensures { result ≡ reason_of error }
{
    match error {
        ENOENT | ENOTDIR => Reason::Missing,
        EISDIR => Reason::Directory,
        EACCES | EPERM => Reason::Forbidden,
        _ => Reason::Other,
    }
}

// An error has a number where it is the system's. std has one of its own: a name that is no path.
impl From<Error> for FileError {
    ghost from_gives = { λ e r. r ≡ FileError.Unreadable (reason_behind (raw_os_error e)) };

    fn from(error: Error) -> FileError {
        FileError::Unreadable(error.raw_os_error().map_or(Reason::Other, reason_of))
    }
}

// Reads until the bytes are full, the file ends or a read fails: how many came. std's read_exact does not tell how many came of a file that
// ends early.
fn read_full<F: Read>(file: &mut F, bytes: &mut [u8]) -> usize
    ensures { IsPrefixLen result bytes.new }
{
    let mut done = 0;
    while done < bytes.len() {
        match file.read(&mut bytes[done..]) {
            Ok(read) if 0 < read => done += read,
            _ => break,
        }
    }
    done
}

// The bytes of an open file, whose end is told by one read more.
fn read_open<F: Read>(file: &mut F, bytes: &mut [u8]) -> Result<usize, FileError>
    ensures { IsPrefixLen (count_of result) bytes.new }
{
    let count = read_full(file, bytes);
    let mut more = [0; 1];
    if 0 < file.read(&mut more)? {
        return Err(FileError::TooLong);
    }
    Ok(count)
}

// The bytes of the file at `path`, into the start of `bytes`. The library opens a file by a name that is UTF-8; by any other it can't, and no
// file is read.
pub fn read_file<R: Files>(rt: &R, path: &[u8], bytes: &mut [u8]) -> Result<usize, FileError>
    ensures { IsPrefixLen (count_of result) bytes.new }
{
    let name = str::from_utf8(path).map_err(|_| FileError::Unreadable(Reason::Other))?;
    let mut file = fs::open(rt, name)?;
    read_open(&mut file, bytes)
}
