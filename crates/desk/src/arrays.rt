// How large the programs' arrays are. A state and its places are of full size (full_size): 65,536 rows, 65,536 slots, 16,384 places.
//
// They all lie on the stack, of which bin/tool asks 12 MB. In bytes:
//     a table      1,310,720   ROWS numbers of 64, 32 and 64 bits
//     a state      1,900,544
//     an output      786,432   RINGS numbers of 32 bits thrice, and of 64; EDGES of 32
//     a list         262,144   PLACES numbers of 64 bits twice
//     a feed       1,048,576   OFFERS numbers of 64 bits twice
//     a text       1,441,792   TEXT bytes
// A table, a state, an output, a list and a text are 5.7 MB.
ghost use Rattle.std.specs.Prelude.{◌≡◌, replicate};
ghost use Rattle.scope.specs.Area.{positive_zero};

pub const ROWS: usize = 65536;

pub const PLACES: usize = 16384;

// Of an edge and its reverse at most one stands, and a ring has an edge: so many rings and edges are enough for every table.
pub const RINGS: usize = 32768;

pub const EDGES: usize = 32768;

// A feed has many more cells than it leaves held.
pub const OFFERS: usize = 65536;

// The bytes of a file, and then of a report. A table of 65,536 rows has 1,310,720 bytes; the longest report on real cells, 5,461 that do not
// touch, has some 1,190,000. The rest is for made-up tables with more rings. A text that just fits cannot be told from one cut off, and is not printed.
pub const TEXT: usize = 1441792;

// A number that is copied, and its zero.
pub trait Number: Copy {
    ghost ZERO: { Self };

    const ZERO: Self;
}

impl Number for u8 {
    ghost ZERO = { 0 };

    const ZERO: u8 = 0;
}

impl Number for u32 {
    ghost ZERO = { 0 };

    const ZERO: u32 = 0;
}

impl Number for u64 {
    ghost ZERO = { 0 };

    const ZERO: u64 = 0;
}

impl Number for usize {
    ghost ZERO = { 0 };

    const ZERO: usize = 0;
}

impl Number for f64 {
    ghost ZERO = { positive_zero };

    const ZERO: f64 = 0.0;
}

// So many zeros. Behind a call, a caller's proof has their number and need not spell them out.
pub fn zeros<T: Number, const N: usize>() -> [T; N]
    ensures { result ≡ replicate N T.ZERO }
{
    [T::ZERO; N]
}

// For a column of a table.
pub fn row_zeros<T: Number>() -> [T; ROWS]
    ensures { result ≡ replicate 65536 T.ZERO }
{
    zeros()
}

// For the cells of a list, or their lines.
pub fn place_zeros<T: Number>() -> [T; PLACES]
    ensures { result ≡ replicate 16384 T.ZERO }
{
    zeros()
}

// For the cells of a feed, or their lines.
pub fn offer_zeros<T: Number>() -> [T; OFFERS]
    ensures { result ≡ replicate 65536 T.ZERO }
{
    zeros()
}

// For the bytes of a file, or of a report.
pub fn text_zeros() -> [u8; TEXT]
    ensures { result ≡ replicate 1441792 0 }
{
    zeros()
}
