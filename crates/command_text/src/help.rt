// The help of each tool, in one form: its use, what it does, its arguments, where answers and complaints go.
ghost use Rattle.std.specs.Prelude.{◌≡◌, ◌≤◌, length};
ghost use Rattle.text.specs.Text.{Wrote};
ghost use Rattle.command_text.specs.Help.{use_text, list_text, help_text};

use command_line::tools::Tool;
use text::put_bytes;

// How it is called, and what it does.
#[tactic(auto, unfolding(crate::specs::Help::use_text))]
fn use_of(tool: Tool) -> &'static [u8]
    ensures { result.now ≡ use_text tool }
{
    match tool {
        Tool::Outline => b"usage: outline TABLE CELLS [--mode even|mixed] [--rows]
Dissolves the cells of a list and prints their outline: what it counts, then each polygon with its group and its rings, the outer
first, and of each ring its area (on a sphere of radius 1) and its edges.
",
        Tool::TillImport => b"usage: till_import TABLE CELLS...
Dissolves zones one after the other, each into a fresh state, and prints of each a line with its answer, then each ring as a
list on one line: outer or inner, group, area (on a sphere of radius 1) and edges. A zone that is refused does not stop the next.
",
        Tool::YearAudit => b"usage: year_audit TABLE FEED
Offers the cells of a feed one by one to a standing state, replays and all, and prints how many were offered, accepted, and refused
by number; how many replays would each have drawn a second outline; whether the standing outline is the one dissolved afresh from
the accepted cells; and what one visit to each held cell is credited, without the check and with it.
",
    }
}

// What it takes beside the table, which every tool takes first.
#[tactic(auto, unfolding(crate::specs::Help::list_text))]
fn list_of(tool: Tool) -> &'static [u8]
    ensures { result.now ≡ list_text tool }
{
    match tool {
        Tool::Outline =>
            b"  CELLS   text: one cell a line in hexadecimal, with or without 0x; blank lines and what follows a # are passed over
  --mode  even: all cells are of the table's resolution; mixed: coarser ones too, none under another; none named means even
  --rows  edges by their rows in the table, instead of their numbers in hexadecimal
",
        Tool::TillImport =>
            b"  CELLS   text, a file for each zone: one cell a line in hexadecimal, with or without 0x, all of the table's resolution, each
          once; blank lines and what follows a # are passed over
",
        Tool::YearAudit =>
            b"  FEED    text: one cell a line in hexadecimal, with or without 0x, in the order of arrival, at most 65,536 cells; blank lines
          and what follows a # are passed over
",
    }
}

pub fn put_help(out: &mut [u8], at: usize, tool: Tool) -> usize
    requires { at ≤ length out.old }
    ensures { Wrote out.old at out.new result (help_text tool) }
{
    let told = put_bytes(out, at, use_of(tool));
    let tabled = put_bytes(
        out,
        told,
        b"  TABLE   edge table: rows of 20 bytes, the edge (u64), the row of its reverse (u32), the bits of its area term (u64), least byte first
",
    );
    let listed = put_bytes(out, tabled, list_of(tool));
    put_bytes(
        out,
        listed,
        b"  --help  this text, wherever it stands; a file whose name begins with - is given as ./-name
Answers go to standard output. What is wrong with an argument or a file, or why the library refuses a table or a list, is one line on
standard error, and then the exit status is 1.
",
    )
}
