// Lent slices of 32-bit numbers, read and written as usize. Every layer above keeps its numbers so:
// u32 in memory, usize in the code.
#![tactic(auto)]

ghost use Rattle.std.specs.Prelude.{◌≡◌, ◌<◌, ◌^◌, length, replicate, set};
ghost use Rattle.scope.specs.Lists.{at};

// The number at place `i`.
pub fn get32(s: &[u32], i: usize) -> usize
    requires { i < length s.now }
    ensures { (result ≡ at s.now i) × (result < 2 ^ 32) }
{
    s[i] as usize
}

// The number at place `i`, 0 past the end: for numbers that nothing has checked yet.
pub fn at32(s: &[u32], i: usize) -> usize
    ensures { (result ≡ at s.now i) × (result < 2 ^ 32) }
{
    s.get(i).map_or(0, |x| *x as usize)
}

// Stores `v` at place `i`.
pub fn put32(s: &mut [u32], i: usize, v: usize)
    requires { (i < length s.old) × (v < 2 ^ 32) }
    ensures { s.new ≡ set s.old i v }
{
    s[i] = v as u32;
}

// A number that is copied, and its zero.
pub trait Number: Copy {
    ghost ZERO: { Self };

    const ZERO: Self;

    ghost copied: { Self.Clone.is_infallible ZERO × ((x : Self) → Self.Clone.is_clone ZERO x → x ≡ ZERO) };
}

impl Number for u32 {
    ghost ZERO = { 0 };

    const ZERO: u32 = 0;

    ghost copied = { (tt, λ x e. e) };
}

impl Number for u64 {
    ghost ZERO = { 0 };

    const ZERO: u64 = 0;

    ghost copied = { (tt, λ x e. e) };
}

// Sets every number of the slice to 0.
#[tactic(auto, using(crate::proofs::Clearing::clear_more))]
pub fn clear<T: Number>(s: &mut [T])
    ensures { s.new ≡ replicate (length s.old) T.ZERO }
{
    for i in 0..s.len() {
        s[i] = T::ZERO;
    }
}
