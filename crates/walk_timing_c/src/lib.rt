// The walk for the benchmark, as a static library of its own.
#![tactic(auto)]

ghost use Rattle.std.specs.Prelude.{◌≡◌};
ghost use Rattle.walk_timing.specs.Mixed.{mixed};

// All edges of a cell's outline at a target resolution in one number, by exclusive or; 0 where there is no such outline.
#[unsafe(no_mangle)]
pub extern "C" fn zone_walk(cell: u64, target: usize) -> u64
    ensures { result ≡ mixed cell target }
{
    walk_timing::zone_walk(cell, target)
}
