// The walk for the benchmark: walk_timing_c hands it on, and it is timed beside the Rust's, where both do the same with each edge.
#![tactic(auto)]

ghost use Rattle.std.specs.Prelude.{◌≡◌};
ghost use Rattle.walk_timing.specs.Mixed.{mixed};

use gosper::Gosper;
use index::is_cell;

// All edges of a cell's outline at a target resolution in one number, by exclusive or; 0 where there is no such outline.
pub fn zone_walk(cell: u64, target: usize) -> u64
    ensures { result ≡ mixed cell target }
{
    if !(is_cell(cell) & (target <= 15)) {
        return 0;
    }
    let mut walk = Gosper::new(cell, target);
    let mut edges: u64 = 0;
    while 0 < walk.len() {
        let stepped = walk.step();
        edges ^= stepped.edge;
        walk = stepped.walk;
    }
    edges
}
