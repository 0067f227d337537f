// Numbers and floats in slices of bytes, least byte first: one at a time, and a column of them into or out of a slice.
// The formats are those of scope's Bytes.
#![tactic(auto)]

ghost use Rattle.std.specs.Prelude.{◌≡◌, refl, map, List, ℕ, ◌+◌, ◌*◌, ◌≤◌, ◌<◌, length, slice_index_or};
ghost use Rattle.std.proofs.lemmas.List.Edits.{sets};
ghost use Rattle.std.specs.Float.{binary64};
ghost use Rattle.std.specs.Float.Ieee.{of_bits, to_bits};
ghost use Rattle.scope.specs.Bytes.{u32_at, u64_at, bytes32, bytes64, column32, column64, joined};
ghost use Rattle.codec.specs.Columns.{Grows, tabulated, mapped};

// What is read from bytes.
pub trait FromBytes: Copy {
    ghost size: { ℕ };

    // The value in the bytes from a place on.
    ghost value_at: { List ℕ → ℕ → Self };

    // So many of them, the first at place `start`, each `step` bytes after the one before.
    ghost column: { List ℕ → ℕ → ℕ → ℕ → List Self };

    fn read(b: &[u8], at: usize) -> Self
        requires { at + size ≤ length b.now }
        ensures { result ≡ value_at b.now at };

    ghost column_grows: { (b : List ℕ) (start step : ℕ) → Grows (column b start step) (λ i. value_at b (start + i * step)) };
}

impl FromBytes for u32 {
    ghost size = { 4 };

    ghost value_at = { u32_at };

    ghost column = { column32 };

    ghost column_grows = { λ b start step. tabulated (λ i. u32_at b (start + i * step)) };

    fn read(b: &[u8], at: usize) -> u32 {
        u32::from_le_bytes([b[at], b[at + 1], b[at + 2], b[at + 3]])
    }
}

impl FromBytes for u64 {
    ghost size = { 8 };

    ghost value_at = { u64_at };

    ghost column = { column64 };

    ghost column_grows = { λ b start step. tabulated (λ i. u64_at b (start + i * step)) };

    fn read(b: &[u8], at: usize) -> u64 {
        u64::from(u32::read(b, at)) + u64::from(u32::read(b, at + 4)) * 0x1_0000_0000
    }
}

impl FromBytes for f64 {
    ghost size = { 8 };

    ghost value_at = { λ b i. of_bits binary64 (u64_at b i) };

    ghost column = { λ b start step n. map (of_bits binary64) (column64 b start step n) };

    ghost column_grows = { λ b start step. mapped (of_bits binary64) (λ i. u64_at b (start + i * step)) };

    fn read(b: &[u8], at: usize) -> f64 {
        float_of(u64::read(b, at))
    }
}

// Writes the low four bytes of `n` from place `at` on. Not `u32`'s `write` alone: callers hand over any number, also one past 32 bits.
pub fn write_u32(b: &mut [u8], at: usize, n: u64)
    requires { at + 4 ≤ length b.old }
    ensures { b.new ≡ sets b.old at (bytes32 n) }
{
    b[at..at + 4].copy_from_slice(&n.to_le_bytes()[..4]);
}

// What is written as bytes.
pub trait ToBytes: Copy {
    ghost SIZE: { ℕ };

    const SIZE: usize;

    ghost bytes: { Self → List ℕ };

    // What stands past the end of a list of them.
    ghost zero: { Self };

    fn write(self, b: &mut [u8], at: usize)
        requires { at + SIZE ≤ length b.old }
        ensures { b.new ≡ sets b.old at (bytes self) };

    ghost sized: { (x : Self) → length (bytes x) ≡ SIZE };
}

impl ToBytes for u32 {
    ghost SIZE = { 4 };

    const SIZE: usize = 4;

    ghost bytes = { bytes32 };

    ghost zero = { 0 };

    fn write(self, b: &mut [u8], at: usize) {
        write_u32(b, at, u64::from(self));
    }

    ghost sized = { λ x. refl };
}

impl ToBytes for u64 {
    ghost SIZE = { 8 };

    const SIZE: usize = 8;

    ghost bytes = { bytes64 };

    ghost zero = { 0 };

    fn write(self, b: &mut [u8], at: usize) {
        b[at..at + 8].copy_from_slice(&self.to_le_bytes());
    }

    ghost sized = { λ x. refl };
}

// The float of a bit pattern. `from_bits` is not asked for a NaN's: no payload is promised.
pub fn float_of(bits: u64) -> f64
    ensures { result ≡ of_bits binary64 bits }
{
    if bits % 0x8000_0000_0000_0000 > 0x7ff0_0000_0000_0000 {
        0.0 / 0.0
    } else {
        f64::from_bits(bits)
    }
}

// A float's bit pattern, 7FF8000000000000 for a NaN whatever its payload.
pub fn bits_of(x: f64) -> u64
    ensures { result ≡ to_bits binary64 x }
{
    if x != x {
        0x7ff8_0000_0000_0000
    } else {
        f64::to_bits(x)
    }
}

// Fills `xs` with what stands at `start` and every `step` bytes after it.
pub fn decode<T: FromBytes>(b: &[u8], xs: &mut [T], start: usize, step: usize)
    requires { (i : ℕ) → i < length xs.old → start + i * step + T.size ≤ length b.now }
    ensures { xs.new ≡ T.column b.now start step (length xs.old) }
{
    for i in 0..xs.len() {
        xs[i] = T::read(b, start + i * step);
    }
}

// Writes every number of `xs`, one after the other, from place `start` on.
pub fn encode<T: ToBytes>(xs: &[T], b: &mut [u8], start: usize)
    requires { start + T.SIZE * length xs.now ≤ length b.old }
    ensures { b.new ≡ sets b.old start (joined (λ i. T.bytes (slice_index_or xs.now i T.zero)) (length xs.now)) }
{
    for (i, x) in xs.iter().enumerate() {
        x.write(b, start + T::SIZE * i);
    }
}
