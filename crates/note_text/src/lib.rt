// Notes: a number between words, and an area.
#![tactic(auto)]

ghost use Rattle.std.specs.Prelude.{◌≡◌, ◌≤◌, length};
ghost use Rattle.text.specs.Text.{Wrote};
ghost use Rattle.note_text.specs.Notes.{noted, pointed, scaled, has_whole, area_decimal, area_text};

use codec::bits_of;
use text::{put_bytes, put_numeral};

// A number in decimal, between words.
pub fn put_noted(out: &mut [u8], at: usize, before: &[u8], n: usize, after: &[u8]) -> usize
    requires { at ≤ length out.old }
    ensures { Wrote out.old at out.new result (noted before.now n after.now) }
{
    let named = put_bytes(out, at, before);
    let numbered = put_numeral(out, named, n as u64, 10, 1);
    put_bytes(out, numbered, after)
}

// So many parts of 10^15, as a decimal.
fn put_pointed(out: &mut [u8], at: usize, n: u64) -> usize
    requires { at ≤ length out.old }
    ensures { Wrote out.old at out.new result (pointed n) }
{
    let whole = put_numeral(out, at, n / 1_000_000_000_000_000, 10, 1);
    let point = put_bytes(out, whole, b".");
    put_numeral(out, point, n % 1_000_000_000_000_000, 10, 15)
}

// An area as a decimal, where its parts are a number of 64 bits.
fn put_area_decimal(out: &mut [u8], at: usize, x: f64) -> usize
    requires { at ≤ length out.old }
    ensures { Wrote out.old at out.new result (area_decimal x) }
{
    let y = x * 1_000_000_000_000_000.0;
    if y > -1.0 {
        if y < 18446744073709551616.0 {
            let parts = std::num::truncating_f64_to_u64(y);
            let decimal = put_pointed(out, at, parts);
            return put_bytes(out, decimal, b" ");
        }
    }
    at
}

// An area, as a decimal and by its bits.
pub fn put_area(out: &mut [u8], at: usize, x: f64) -> usize
    requires { at ≤ length out.old }
    ensures { Wrote out.old at out.new result (area_text x) }
{
    let decimal = put_area_decimal(out, at, x);
    let named = put_bytes(out, decimal, b"(bits ");
    let bits = put_numeral(out, named, bits_of(x), 16, 16);
    put_bytes(out, bits, b")")
}
