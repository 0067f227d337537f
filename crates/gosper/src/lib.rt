// The walk of a cell's outline at a target resolution, edge by edge (h3o's index/iterator/gosper.rs): a state by
// value, `Gosper`, and a step that hands it back with the edge.
//
// Two things differ from the Rust. A pentagon's walk starts past its deleted side, a sixth of the way around,
// where the Rust steps up to there; so no later step is passed over but the one at delta 0. And the finest
// level's position, which moves at every step, stands beside the array: the array is written at every third
// step only, so that copies of the state by value cost little.
#![tactic(auto)]

ghost use Rattle.std.specs.Prelude.{◌≡◌, true, ◌<◌, ◌≤◌, length};
ghost use Rattle.scope.specs.Cells.{resolution_of, valid_cell};
ghost use Rattle.scope.specs.Walk.{step};
ghost use Rattle.walk_levels.specs.Starts.{start_walk};
ghost use Rattle.gosper.specs.Walking.{walk_of, turned, next_walk, gosper_at, moved_to, Walking, rest, Begins, Steps};

use walk_levels::start::{Start, edge_count, start_levels};
use walk_levels::{edge_direction, next_edge, next_position, set_digit, settle, walk_digit};

#[derive(Clone, Copy)]
pub struct Gosper {
    // The next edge, and how many are left.
    scratchpad: u64,
    count: u64,
    // The walk position of each resolution, but 0 for the finest, whose position stands by itself; and the edge position.
    positions: [u8; 16],
    finest: u8,
    facing: u8,
    // The cell's resolution and the target.
    parent: usize,
    child: usize,
    // The step after the next edge is passed over: at its own resolution a pentagon has no edge 1.
    skips: bool,
}

// An edge, and the walk after it.
#[derive(Clone, Copy)]
pub struct Stepped {
    pub edge: u64,
    pub walk: Gosper,
}

impl Gosper {
    // The walk of a valid cell from its start, with so many edges to give.
    fn start(start: Start, skips: bool, count: u64) -> Gosper
        requires { (valid_cell start.cell ≡ true) × (start.parent ≡ resolution_of start.cell) × (start.parent ≤ start.child) × (start.child ≤ 15) × (start.past < 2) }
        ensures { result ≡ gosper_at start.cell start.parent start.child skips count (start_walk start.past start.parent start.child) }
    {
        let mut positions = [0; 16];
        let scratchpad = start_levels(&mut positions, start);
        let finest = positions[start.child];
        positions[start.child] = 0;
        Gosper {
            scratchpad,
            count,
            positions,
            finest,
            facing: start.past,
            parent: start.parent,
            child: start.child,
            skips,
        }
    }

    // The walk of a valid cell's outline at a target resolution: none of it where the target is coarser.
    pub fn new(cell: u64, target: usize) -> Gosper
        requires { (valid_cell cell ≡ true) × (target ≤ 15) }
        ensures { Begins cell target result }
    {
        let parent = index::resolution(cell);
        let first = Start {
            cell,
            parent,
            child: target,
            past: 0,
        };
        if target < parent {
            let none = Start {
                child: parent,
                ..first
            };
            return Gosper::start(none, false, 0);
        }
        if !index::is_pentagon(cell) {
            let count = edge_count(6, target - parent);
            return Gosper::start(first, false, count);
        }
        let count = edge_count(5, target - parent);
        if parent < target {
            return Gosper::start(Start { past: 1, ..first }, false, count);
        }
        Gosper::start(first, true, count)
    }

    // The edge position goes on, after the finest level.
    fn turn(mut self, changed: bool) -> Gosper
        requires { Walking self }
        ensures { result ≡ moved_to self (turned (walk_of self) changed) }
    {
        let facing = next_edge(self.facing, changed);
        self.scratchpad = self.scratchpad % 0x0100_0000_0000_0000
            + ((16 + edge_direction(facing)) << 56);
        self.facing = facing;
        self
    }

    // One step of the walk below the cell's resolution.
    fn advance(mut self) -> Gosper
        requires { Walking self × (self.parent < self.child) }
        ensures { result ≡ moved_to self (step self.parent self.child (walk_of self)) }
    {
        let mut positions = self.positions;
        let over = settle(
            &mut positions,
            self.scratchpad,
            self.parent,
            self.child,
            self.finest,
        );
        let q = next_position(self.finest, over.changed);
        let moved = set_digit(over.scratchpad, self.child, walk_digit(q));
        self.positions = positions;
        self.finest = q;
        self.scratchpad = moved.scratchpad;
        self.turn(moved.changed)
    }

    // One step of the walk at the cell's resolution, and a second one where that is passed over.
    fn face_next(self) -> Gosper
        requires { Walking self × (self.child ≤ self.parent) }
        ensures { result ≡ moved_to self (next_walk self) }
    {
        let turned = self.turn(false);
        if self.skips {
            return turned.turn(false);
        }
        turned
    }

    fn go_on(self) -> Gosper
        requires { Walking self }
        ensures { result ≡ moved_to self (next_walk self) }
    {
        if self.parent < self.child {
            self.advance()
        } else {
            self.face_next()
        }
    }

    // The next edge, and the walk after it. An `Iterator` would keep its state: this one is handed back, so that a walk stays a value.
    pub fn step(mut self) -> Stepped
        requires { Walking self × (0 < length (rest self)) }
        ensures { Steps self result }
    {
        let edge = self.scratchpad;
        self = self.go_on();
        self.count -= 1;
        self.skips = false;
        Stepped { edge, walk: self }
    }

    // How many edges are left.
    pub fn len(self) -> u64
        requires { Walking self }
        ensures { result ≡ length (rest self) }
    {
        self.count
    }
}
