// A table's fault as one line: the file, the row and its byte where a row has it, the refusal's number, and the rule in words.
ghost use Rattle.std.specs.Prelude.{◌≡◌, ◌≤◌, length};
ghost use Rattle.text.specs.Text.{Wrote};
ghost use Rattle.table_words.specs.Words.{whole_words, row_words, fault_words, fault_place, fault_text};

use crate::rules::{Fault, RowFault, WholeFault};
use note_text::put_noted;
use text::{put_bytes, put_shown};

impl WholeFault {
    #[tactic(auto, unfolding(crate::specs::Words::whole_words))]
    fn words(self) -> &'static [u8]
        ensures { result.now ≡ whole_words self }
    {
        match self {
            WholeFault::Lengths => b"its columns are of unequal lengths",
            WholeFault::TooFew => b"the table has fewer than 2 rows",
            WholeFault::TooMany => b"the table has more than 65536 rows",
            WholeFault::Resolutions => b"its edges are of unequal resolutions",
        }
    }
}

impl RowFault {
    #[tactic(auto, unfolding(crate::specs::Words::row_words))]
    fn words(self) -> &'static [u8]
        ensures { result.now ≡ row_words self }
    {
        match self {
            RowFault::NoEdge => b"this row is no valid edge",
            RowFault::NotAbove => b"this row is not above the one before it",
            RowFault::PastEnd => b"its reverse row is past the end of the table",
            RowFault::Itself => b"its reverse row is the row itself",
            RowFault::NotBack => b"its reverse row does not name it back",
            RowFault::NotFinite => b"its area term is not finite",
        }
    }
}

impl Fault {
    #[tactic(auto, unfolding(crate::specs::Words::fault_words))]
    fn words(self) -> &'static [u8]
        ensures { result.now ≡ fault_words self }
    {
        match self {
            Fault::Whole(whole) => whole.words(),
            Fault::Row(row) => row.words(),
        }
    }
}

// Where in the file: a row has 20 bytes. The bound is that of the rows, so that the byte is a number of 64 bits.
fn put_place(out: &mut [u8], at: usize, fault: Fault, row: usize) -> usize
    requires { (at ≤ length out.old) × (row ≤ 65536) }
    ensures { Wrote out.old at out.new result (fault_place fault row) }
{
    match fault {
        Fault::Whole(_) => put_bytes(out, at, b": "),
        Fault::Row(_) => {
            let numbered = put_noted(out, at, b" row ", row, b"");
            put_noted(out, numbered, b", byte ", 20 * row, b": ")
        }
    }
}

pub(crate) fn put_fault(
    out: &mut [u8],
    at: usize,
    name: &[u8],
    number: usize,
    row: usize,
    fault: Fault,
) -> usize
    requires { (at ≤ length out.old) × (row ≤ 65536) }
    ensures { Wrote out.old at out.new result (fault_text name.now number row fault) }
{
    let named = put_shown(out, at, name);
    let placed = put_place(out, named, fault, row);
    let numbered = put_noted(out, placed, b"refused ", number, b", ");
    let worded = put_bytes(out, numbered, fault.words());
    put_bytes(out, worded, b"\n")
}
