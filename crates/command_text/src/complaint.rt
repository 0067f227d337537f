// What is wrong with a command line, in one line: the tool's name, which argument, and why.
ghost use Rattle.std.specs.Prelude.{◌≡◌, ◌≤◌, length};
ghost use Rattle.text.specs.Text.{Wrote};
ghost use Rattle.command_text.specs.Complaints.{misplaced_text, reason_text, fault_text, files_text, name_text, begin_text, end_text, complaint_text};

use command_line::line::{Command, Stop};
use command_line::tools::Tool;
use command_line::words::begins_as_option;
use text::{put_bytes, put_numeral, put_shown};

// Of a word that is neither empty nor too long.
fn put_misplaced(out: &mut [u8], at: usize, mode_wanted: bool, word: &[u8]) -> usize
    requires { at ≤ length out.old }
    ensures { Wrote out.old at out.new result (misplaced_text mode_wanted word.now) }
{
    if mode_wanted {
        return put_bytes(out, at, b" is no mode, which is even or mixed");
    }
    if begins_as_option(word) {
        let told = put_bytes(
            out,
            at,
            b" is no option (a file of that name is given as ./",
        );
        let named = put_shown(out, told, word);
        return put_bytes(out, named, b")");
    }
    put_bytes(out, at, b" is one file too many")
}

#[tactic(auto, unfolding(crate::specs::Complaints::reason_text))]
fn put_reason(out: &mut [u8], at: usize, mode_wanted: bool, word: &[u8]) -> usize
    requires { at ≤ length out.old }
    ensures { Wrote out.old at out.new result (reason_text mode_wanted word.now) }
{
    if word.is_empty() {
        return put_bytes(out, at, b" is empty");
    }
    if 4096 < word.len() {
        return put_bytes(out, at, b" is longer than 4096 bytes");
    }
    let parted = put_bytes(out, at, b", ");
    let named = put_shown(out, parted, word);
    let ended = put_bytes(out, named, b",");
    put_misplaced(out, ended, mode_wanted, word)
}

// Word number k cannot be taken, where a mode is wanted or not.
fn put_fault(out: &mut [u8], at: usize, k: usize, mode_wanted: bool, word: &[u8]) -> usize
    requires { at ≤ length out.old }
    ensures { Wrote out.old at out.new result (fault_text k mode_wanted word.now) }
{
    let told = put_bytes(out, at, b"argument ");
    let numbered = put_numeral(out, told, k as u64, 10, 1);
    put_reason(out, numbered, mode_wanted, word)
}

// The files that a tool wants.
#[tactic(auto, unfolding(crate::specs::Complaints::files_text))]
fn files_wanted(tool: Tool) -> &'static [u8]
    ensures { result.now ≡ files_text tool }
{
    match tool {
        Tool::Outline => b"a TABLE and a CELLS file are wanted",
        Tool::TillImport => b"a TABLE and one CELLS file or more are wanted",
        Tool::YearAudit => b"a TABLE and a FEED file are wanted",
    }
}

#[tactic(auto, unfolding(crate::specs::Complaints::name_text))]
fn name_of(tool: Tool) -> &'static [u8]
    ensures { result.now ≡ name_text tool }
{
    match tool {
        Tool::Outline => b"outline",
        Tool::TillImport => b"till_import",
        Tool::YearAudit => b"year_audit",
    }
}

fn put_begin(out: &mut [u8], at: usize, tool: Tool) -> usize
    requires { at ≤ length out.old }
    ensures { Wrote out.old at out.new result (begin_text tool) }
{
    let named = put_bytes(out, at, name_of(tool));
    put_bytes(out, named, b": ")
}

fn put_end(out: &mut [u8], at: usize, tool: Tool) -> usize
    requires { at ≤ length out.old }
    ensures { Wrote out.old at out.new result (end_text tool) }
{
    let parted = put_bytes(out, at, b"; ");
    let named = put_bytes(out, parted, name_of(tool));
    put_bytes(out, named, b" --help says more\n")
}

// The line for words that come to this status, with a mode wanted or not; `word` is the one that cannot be taken. Nothing where nothing is
// wrong.
#[tactic(auto, unfolding(crate::specs::Complaints::complaint_text))]
pub fn put_complaint(
    out: &mut [u8],
    at: usize,
    tool: Tool,
    status: Result<Command, Stop>,
    mode_wanted: bool,
    word: &[u8],
) -> usize
    requires { at ≤ length out.old }
    ensures { Wrote out.old at out.new result (complaint_text tool status mode_wanted word.now) }
{
    let Err(stop) = status else {
        return at;
    };
    match stop {
        Stop::Help => at,
        Stop::Fault(k) => {
            let begun = put_begin(out, at, tool);
            let told = put_fault(out, begun, k, mode_wanted, word);
            put_end(out, told, tool)
        }
        Stop::ModeWanted => {
            let begun = put_begin(out, at, tool);
            let told = put_bytes(
                out,
                begun,
                b"--mode is the last argument, and even or mixed has to follow",
            );
            put_end(out, told, tool)
        }
        Stop::FilesWanted => {
            let begun = put_begin(out, at, tool);
            let told = put_bytes(out, begun, files_wanted(tool));
            put_end(out, told, tool)
        }
    }
}
