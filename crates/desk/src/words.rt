// Words of a program: answers to standard output; what is wrong with an argument or a file, and refusals, to standard error, a line each.
// Nothing is put together here: what is printed is a text that another function has by promise.
ghost use Rattle.std.specs.Prelude.{◌≤◌, length};
ghost use Rattle.desk.specs.Reports.{size_of};

use crate::reports::Report;

const STDOUT_FILENO: i32 = 1;

const STDERR_FILENO: i32 = 2;

// An answer that a full disk or a closed output does not take is not lost without a word.
fn write(fd: i32, words: &[u8]) {
    if !io::write_all(fd, words) {
        io::write_all(
            STDERR_FILENO,
            b"what there is to say could not be written\n",
        );
    }
}

// The report at the front of a text.
pub fn say_report(text: &[u8], report: Report)
    requires { size_of report ≤ length text.now }
{
    match report {
        Ok(size) => write(STDOUT_FILENO, &text[..size]),
        Err(size) => write(STDERR_FILENO, &text[..size]),
    }
}
