// Reports: a text at the front of a lent slice, and what is said of one that does not fit there.
ghost use Rattle.std.specs.Prelude.{◌≡◌};
ghost use Rattle.desk.specs.Reports.{Page, size_of, in_room};

use text::{put_bytes, put_shown};

// So many bytes that answer what was asked; or so many that say why not.
pub type Report = Result<usize, usize>;

pub fn size_of(report: Report) -> usize
    ensures { result ≡ size_of report }
{
    match report {
        Ok(size) | Err(size) => size,
    }
}

// A report on the file of this name, as it can be printed. One that fills its slice may have been cut off there: that is said in its place.
pub fn in_room(text: &mut [u8], report: Report, name: &[u8]) -> Report
    ensures { record { text = text.new; report = result } ≡ in_room name.now (record { text = text.old; report = report }) }
{
    if size_of(report) < text.len() {
        return report;
    }
    let named = put_shown(text, 0, name);
    Err(put_bytes(
        text,
        named,
        b": what there is to say of it is longer than the room for it, and is left out\n",
    ))
}
