// The positions of the walk and what they mean: the two tables, the step of a position, and how the levels over the
// finest one move, with the scratch number that has their digits. The start of a walk is in `start`.
#![tactic(auto)]

pub mod start;

ghost use Rattle.std.specs.Prelude.{◌≡◌, cond, ◌+◌, ◌-◌, ◌<◌, ◌≤◌, ◌%◌, eqb};
ghost use Rattle.scope.specs.Walk.{walk_digit, edge_direction, next_position, next_edge_position, move};
ghost use Rattle.scope.proofs.Odometer.{Fine};
ghost use Rattle.walk_levels.specs.Levels.{DigitSet, Levels, Top, MovesLevel, Leaves, over_finest};

// H3 digit at each of the 18 walk positions: the six digits beside the centre, counter-clockwise, three times each.
const WALK_DIGIT: [u8; 18] = [1, 1, 1, 5, 5, 5, 4, 4, 4, 6, 6, 6, 2, 2, 2, 3, 3, 3];

// H3 edge direction at each edge position, counter-clockwise.
const EDGE_DIR: [u8; 6] = [3, 1, 5, 4, 6, 2];

pub fn walk_digit(position: u8) -> u64
    requires { position < 18 }
    ensures { result ≡ walk_digit position }
{
    u64::from(WALK_DIGIT[usize::from(position)])
}

pub fn edge_direction(facing: u8) -> u64
    requires { facing < 6 }
    ensures { result ≡ edge_direction facing }
{
    u64::from(EDGE_DIR[usize::from(facing)])
}

// Back `BACK` around `COUNT` places, where what leads has changed.
fn set_back<const COUNT: u8, const BACK: u8>(place: u8, changed: bool) -> u8
    requires { (place < COUNT) × (BACK ≤ COUNT) }
    ensures { result ≡ (place + cond changed (COUNT - BACK) 0) % COUNT }
{
    if changed {
        if place < BACK {
            place + (COUNT - BACK)
        } else {
            place - BACK
        }
    } else {
        place
    }
}

// The next of `COUNT` places, after that.
fn next_around<const COUNT: u8, const BACK: u8>(place: u8, changed: bool) -> u8
    requires { (place < COUNT) × (BACK ≤ COUNT) }
    ensures { result ≡ (place + cond changed (COUNT - BACK) 0 + 1) % COUNT }
{
    let from = set_back::<COUNT, BACK>(place, changed);
    if from == COUNT - 1 { 0 } else { from + 1 }
}

// Where the parent's digit changed, 6 back around the 18 positions first.
pub fn next_position(position: u8, changed: bool) -> u8
    requires { position < 18 }
    ensures { result ≡ next_position position changed }
{
    next_around::<18, 6>(position, changed)
}

// Where the finest digit changed, 2 back around the 6 edges first.
pub fn next_edge(facing: u8, changed: bool) -> u8
    requires { facing < 6 }
    ensures { result ≡ next_edge_position facing changed }
{
    next_around::<6, 2>(facing, changed)
}

// The remainder by 3 of each of the 18 positions, two bits each, packed into one number. It has 3 for the
// remainder 2, which no comparison with 0 or 1 notices.
const MOD3_LUT: u64 = 0xffff_fffd_34d3_4d34;

// Whether a level at this position moves its parent level first: position mod 3 equals resolution mod 2.
fn need_to_move_to_next(position: u8, resolution: usize) -> bool
    requires { position < 18 }
    ensures { result ≡ eqb (position % 3) (resolution % 2) }
{
    (MOD3_LUT >> (2 * position)) % 4 == (resolution % 2) as u64
}

// The number with a digit written, and whether the digit was another.
#[derive(Clone, Copy)]
pub struct Written {
    pub scratchpad: u64,
    pub changed: bool,
}

pub fn set_digit(scratchpad: u64, r: usize, d: u64) -> Written
    requires { (r ≤ 15) × (d < 8) }
    ensures { DigitSet scratchpad r d result }
{
    let s = 3 * (15 - r);
    let old = (scratchpad >> s) % 8;
    Written {
        scratchpad: scratchpad - (old << s) + (d << s),
        changed: d != old,
    }
}

// The coarsest level that moves when the level `last` does.
fn top_level(positions: &[u8; 16], parent: usize, last: usize) -> usize
    requires { (parent < last) × (last ≤ 15) × Fine positions.now }
    ensures { Top parent last positions.now result }
{
    for r in (parent + 2..last + 1).rev() {
        if !need_to_move_to_next(positions[r], r) {
            return r;
        }
    }
    parent + 1
}

// The level r moves, after its parent level, whose digit changed or not.
fn move_level(positions: &mut [u8; 16], r: usize, parent: Written) -> Written
    requires { (r ≤ 15) × Fine positions.old }
    ensures { MovesLevel r parent.scratchpad parent.changed positions.old positions.new result }
{
    let q = next_position(positions[r], parent.changed);
    positions[r] = q;
    set_digit(parent.scratchpad, r, walk_digit(q))
}

// The level `last` moves, and before it the levels over it that must: from the coarsest on, where the Rust has a stack.
fn move_levels(positions: &mut [u8; 16], scratchpad: u64, parent: usize, last: usize) -> Written
    requires { (parent < last) × Levels parent last scratchpad positions.old }
    ensures { Leaves parent last scratchpad (move parent last positions.old) positions.new result }
{
    let top = top_level(positions, parent, last);
    let mut moved = Written {
        scratchpad,
        changed: false,
    };
    // Mostly one level moves, and the loop would cost a tenth of the walk.
    if top == last {
        return move_level(positions, top, moved);
    }
    for r in top..last + 1 {
        moved = move_level(positions, r, moved);
    }
    moved
}

// The levels over the finest one move, where it asks for that.
pub fn settle(
    positions: &mut [u8; 16],
    scratchpad: u64,
    parent: usize,
    child: usize,
    finest: u8,
) -> Written
    requires { (parent < child) × (child ≤ 15) × (finest < 18) × Levels parent (child - 1) scratchpad positions.old }
    ensures { Leaves parent (child - 1) scratchpad (over_finest parent child finest positions.old) positions.new result }
{
    if parent + 1 < child && need_to_move_to_next(finest, child) {
        return move_levels(positions, scratchpad, parent, child - 1);
    }
    Written {
        scratchpad,
        changed: false,
    }
}
