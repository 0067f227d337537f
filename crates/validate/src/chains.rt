// Whether the cells of a list all differ, told quickly: each cell has a seat by a hash, and the cells of one seat are a chain through their
// indices. It may fail to tell, where there are equal cells or a chain is long; sorting tells then, in n log n whatever the cells.
ghost use Rattle.std.specs.Prelude.{◌≡◌, ◌<◌, ◌≤◌, length};
ghost use Rattle.validate.specs.Chains.{seat_of, NewIn, Shows, AsksNew, AsksLink, Linked, ChainRoom, Apart};

// The number of seats, and of steps along a chain.
const SEATS: usize = 8192;

const STEPS: usize = 32;

// The most cells of a short list, and of any.
const FEW: usize = 1024;

const MANY: usize = 16384;

// A product spreads the digits over the upper bits; the factors are odd and below 2^31, so that no sum wraps.
fn seat(x: u64) -> usize
    ensures { (result ≡ seat_of x) × (result < 8192) }
{
    let low = (x % 0x1_0000_0000) * 0x61c8_8647;
    let high = ((x >> 32) % 0x10_0000) * 0x045d_9f3b;
    (((low + high) >> 19) % 8192) as usize
}

// None of the cells in the chains is x.
fn is_new(heads: &[Option<u16>], links: &[Option<u16>], cells: &[u64], x: u64, count: usize) -> bool
    requires { AsksNew cells.now heads.now links.now count }
    ensures { Shows result (NewIn cells.now count x) }
{
    let mut last = heads[seat(x)];
    for _step in 0..STEPS {
        let Some(before) = last else {
            return true;
        };
        if cells[before as usize] == x {
            return false;
        }
        last = links[before as usize];
    }
    false
}

// Cell `i` at the head of its seat's chain.
fn link(heads: &mut [Option<u16>], links: &mut [Option<u16>], x: u64, i: usize)
    requires { AsksLink heads.old links.old i }
    ensures { Linked x i heads.old links.old heads.new links.new }
{
    let s = seat(x);
    links[i] = heads[s];
    heads[s] = Some(i as u16);
}

fn differ(heads: &mut [Option<u16>], links: &mut [Option<u16>], cells: &[u64]) -> bool
    requires { ChainRoom cells.now heads.old links.old }
    ensures { Shows result (Apart cells.now) }
{
    for i in 0..cells.len() {
        let x = cells[i];
        if !is_new(heads, links, cells, x, i) {
            return false;
        }
        link(heads, links, x, i);
    }
    true
}

// A local array is cleared at every call, so short lists have a short one.
fn differ_within<const ROOM: usize>(cells: &[u64]) -> bool
    requires few { ROOM ≤ 16384 }
    requires room { length cells.now ≤ ROOM }
    ensures { Shows result (Apart cells.now) }
{
    let mut heads = [None; SEATS];
    let mut links = [None; ROOM];
    differ(&mut heads, &mut links, cells)
}

// Every two cells differ, if it answers so.
pub fn all_differ(cells: &[u64]) -> bool
    ensures { Shows result (Apart cells.now) }
{
    if cells.len() <= FEW {
        return differ_within::<FEW>(cells);
    }
    if cells.len() <= MANY {
        return differ_within::<MANY>(cells);
    }
    false
}
