// The records of the list. A head of 32 bytes has the kind (1 a table, 2 a dissolve on the last table, 0 the end), the mode or, at the
// end, the number of dissolves, slots, places, the result, and the lengths of the input and the output that follow it.
ghost use Rattle.std.specs.Prelude.{◌+◌, ◌≤◌, length, IfSome};

use byte_calls::dissolve;
use codec::FromBytes;
use std::fmt;

// How many answers were replayed, how many of them came out otherwise, and how many the list has by its end.
#[derive(Clone, Copy, Debug, Default, PartialEq, Eq)]
pub(crate) struct Tally {
    answers: u64,
    otherwise: u64,
    told: u64,
}

impl fmt::Display for Tally {
    fn fmt<W: fmt::Write>(&self, f: &mut fmt::Formatter<W>) -> fmt::Result {
        writeln!(f, "answers replayed: {}", self.answers)?;
        writeln!(f, "answered otherwise: {}", self.otherwise)?;
        writeln!(f, "answers that the list has by its end: {}", self.told)
    }
}

// A list of cells to dissolve, and its answer.
#[derive(Clone, Copy)]
struct Question<'a> {
    mode: u32,
    slots: u32,
    places: u32,
    cells: &'a [u8],
    result: u64,
    output: &'a [u8],
}

impl Question<'_> {
    // The list of cells is answered as the record has it: by its result, and by every byte of its output.
    fn is_answered(self, table: &[u8]) -> bool {
        let mut room = [0u8; 24624];
        let Some(written) = room.get_mut(..self.output.len()) else {
            return false;
        };
        let result = dissolve(
            table,
            self.cells,
            written,
            self.mode,
            self.slots,
            self.places,
        );
        result == self.result && *written == *self.output
    }
}

#[derive(Clone, Copy)]
enum Record<'a> {
    End(u32),
    Table(&'a [u8]),
    Dissolve(Question<'a>),
}

// The first record of a list and what follows it, where the record is not cut off.
fn first_record(list: &[u8]) -> Option<(Record<'_>, &[u8])>
    ensures { IfSome result (λ r. length r.1.now + 32 ≤ length list.now) }
{
    let (head, rest) = list.split_first_chunk::<32>()?;
    let (input, rest) = rest.split_at_checked(u32::read(head, 24) as usize)?;
    let (output, rest) = rest.split_at_checked(u32::read(head, 28) as usize)?;
    let record = match u32::read(head, 0) {
        0 => Record::End(u32::read(head, 4)),
        1 => Record::Table(input),
        _ => Record::Dissolve(Question {
            mode: u32::read(head, 4),
            slots: u32::read(head, 8),
            places: u32::read(head, 12),
            cells: input,
            result: u64::read(head, 16),
            output,
        }),
    };
    Some((record, rest))
}

// Replays the list up to its end record, or to a record that is cut off.
pub(crate) fn replay(list: &[u8]) -> Tally {
    let mut tally = Tally::default();
    let mut table: &[u8] = &[];
    let mut rest = list;
    while let Some((record, more)) = first_record(rest) {
        rest = more;
        match record {
            Record::End(dissolves) => {
                tally.told = u64::from(dissolves);
                return tally;
            }
            Record::Table(bytes) => table = bytes,
            Record::Dissolve(question) => {
                tally.answers += 1;
                tally.otherwise += u64::from(!question.is_answered(table));
            }
        }
    }
    tally
}
