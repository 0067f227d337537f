// The start of a walk: the positions of its levels, the edge there, and how many edges it has.
ghost use Rattle.std.specs.Prelude.{◌≡◌, ◌*◌, ◌<◌, ◌≤◌, ◌^◌};
ghost use Rattle.walk_levels.specs.Starts.{start_position, StartAsks, Starts};

use crate::{edge_direction, set_digit, walk_digit};

// The position at which level r starts, `past` sides further than the first walk.
fn start_position(parent: usize, r: usize, past: u8) -> u8
    requires { (parent < r) × (r ≤ 15) × (past < 2) }
    ensures { result ≡ start_position past parent r }
{
    if r == parent + 1 {
        return 3 * past;
    }
    if r % 2 == 1 {
        return 14 + 3 * past;
    }
    (16 + 3 * past) % 18
}

// Where a walk starts: the cell, its resolution and the target, and how many sides on from the first walk.
#[derive(Clone, Copy)]
pub struct Start {
    pub cell: u64,
    pub parent: usize,
    pub child: usize,
    pub past: u8,
}

// Every level at its start, and the edge there: the walk goes a level deeper each turn.
pub fn start_levels(positions: &mut [u8; 16], start: Start) -> u64
    requires { StartAsks positions.old start.cell start.parent start.child start.past }
    ensures { Starts positions.new start.cell start.parent start.child start.past result }
{
    let mut scratchpad = start.cell + ((8 + edge_direction(start.past)) << 56);
    for reached in start.parent..start.child {
        let r = reached + 1;
        let p = start_position(start.parent, r, start.past);
        positions[r] = p;
        let written = set_digit(scratchpad, r, walk_digit(p));
        scratchpad = written.scratchpad + 0x0010_0000_0000_0000;
    }
    scratchpad
}

// Each level deeper has three times the edges.
pub fn edge_count(sides: u64, delta: usize) -> u64
    requires { (sides ≤ 6) × (delta ≤ 15) }
    ensures { result ≡ sides * 3 ^ delta }
{
    sides * 3u64.pow(delta as u32)
}
