// Text into a lent slice of bytes, piece by piece. Each function writes from place `at` on and answers the place after it; what
// does not fit is left out, so that a full slice means that the text was as long or longer.
#![tactic(auto)]

ghost use Rattle.std.specs.Prelude.{◌≡◌, [], ◌∷◌, ◌≤◌, ◌<◌, length};
ghost use Rattle.text.specs.Text.{shown_byte, shown, glyph as glyphOf, numeral, Wrote};

// One byte.
pub fn put(out: &mut [u8], at: usize, b: u8) -> usize
    requires { at ≤ length out.old }
    ensures { Wrote out.old at out.new result (b ∷ []) }
{
    if at < out.len() {
        out[at] = b;
        return at + 1;
    }
    at
}

// All bytes of a slice.
pub fn put_bytes(out: &mut [u8], at: usize, bytes: &[u8]) -> usize
    requires { at ≤ length out.old }
    ensures { Wrote out.old at out.new result bytes.now }
{
    let fits = bytes.len().min(out.len() - at);
    out[at..at + fits].copy_from_slice(&bytes[..fits]);
    at + fits
}

// A byte of a name as it is shown.
fn shown_byte(b: u8) -> u8
    ensures { result ≡ shown_byte b }
{
    if b.is_ascii_control() { b'?' } else { b }
}

// A name, or a word of a command line, as it is shown: it may hold any byte, and a line end in it must not begin a line.
pub fn put_shown(out: &mut [u8], at: usize, name: &[u8]) -> usize
    requires { at ≤ length out.old }
    ensures { Wrote out.old at out.new result (shown name.now) }
{
    let mut place = at;
    for b in name {
        place = put(out, place, shown_byte(*b));
    }
    place
}

fn glyph(digit: u64) -> u8
    requires { digit < 16 }
    ensures { result ≡ glyphOf digit }
{
    if digit < 10 {
        b'0' + digit as u8
    } else {
        b'a' - 10 + digit as u8
    }
}

// A number in a base of 2 to 16, in no fewer digits than `least`.
pub fn put_numeral(out: &mut [u8], at: usize, n: u64, base: u64, least: usize) -> usize
    requires { (at ≤ length out.old) × (2 ≤ base) × (base ≤ 16) }
    ensures { Wrote out.old at out.new result (numeral base least n) }
{
    if (n < base) & (least <= 1) {
        return put(out, at, glyph(n % base));
    }
    let last = put_numeral(out, at, n / base, base, least.saturating_sub(1));
    put(out, last, glyph(n % base))
}
