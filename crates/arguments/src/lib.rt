// The arguments that a tool was called with, read word by word and answered: by its help, by the one line for what is wrong with them, or
// by nothing, where all that is needed is there. No contract can say which bytes an argument has: what the words come to is `command_line`'s.
#![tactic(auto)]

ghost use Rattle.std.specs.Prelude.{◌≡◌};
ghost use Rattle.io.specs.Counts.{IsPrefixLen};
ghost use Rattle.desk.specs.Reports.{Page, written};
ghost use Rattle.arguments.specs.Beginning.{SomeWord, SomeWords, line_text, SomeBegun};

use command_line::line::{Command, Line};
use command_line::tools::Tool;
use command_text::complaint::put_complaint;
use command_text::help::put_help;
use desk::reports::Report;
use desk::words::say_report;
use std::env::FillError;
use std::rt::Env;

// Word number k, at the front of a slice, and its length: 0 where there is no such word, or where it is longer than the slice.
pub fn argument<R: Env>(rt: &R, k: usize, word: &mut [u8]) -> usize
    ensures { IsPrefixLen result word.new }
{
    rt.arg(k, word).unwrap_or(0)
}

fn has_argument<R: Env>(rt: &R, k: usize) -> bool {
    !matches!(rt.arg(k, &mut []), Err(FillError::NotPresent))
}

// How many words there are. Number 0 is the program's name.
pub fn argument_count<R: Env>(rt: &R) -> usize {
    (0..usize::MAX)
        .position(|k| !has_argument(rt, k))
        .unwrap_or(usize::MAX)
}

// Word number k, at the front of a slice. One that is longer than the slice is cut off at its end, and so still longer than a path can be.
fn read_word<R: Env>(rt: &R, k: usize, word: &mut [u8]) -> usize
    ensures { IsPrefixLen result word.new }
{
    rt.arg(k, word).unwrap_or(word.len())
}

fn take_argument<R: Env>(rt: &R, tool: Tool, line: Line, k: usize) -> Line
    ensures { SomeWord tool line k result }
{
    let mut word = io::large_buffer();
    let size = read_word(rt, k, &mut word);
    line.take(tool, k, &word[..size])
}

fn read_line<R: Env>(rt: &R, tool: Tool) -> Line
    ensures { SomeWords tool result }
{
    let count = argument_count(rt);
    let mut line = Line::new();
    for k in 1..count {
        line = take_argument(rt, tool, line, k);
    }
    line
}

// What is said of a command line, whose fault is the number of `word`.
pub fn tell_line(text: &mut [u8], tool: Tool, line: Line, word: &[u8]) -> Report
    ensures { record { text = text.new; report = result } ≡ written text.old (line_text tool line word.now) line.help }
{
    if line.help {
        return Ok(put_help(text, 0, tool));
    }
    Err(put_complaint(text, 0, tool, line.status(), line.mode_wanted, word))
}

fn say_line<R: Env>(rt: &R, tool: Tool, line: Line) {
    let mut word = io::large_buffer();
    let mut text = io::large_buffer();
    let size = line.fault.map_or(0, |k| read_word(rt, k, &mut word));
    let report = tell_line(&mut text, tool, line, &word[..size]);
    say_report(&text, report);
}

// Every tool begins with this: all that it needs; or what was asked or wrong is said, and there is nothing more to do.
pub fn begin<R: Env>(rt: &R, tool: Tool) -> Option<Command>
    ensures { SomeBegun tool result }
{
    let line = read_line(rt, tool);
    say_line(rt, tool, line);
    line.status().ok()
}
