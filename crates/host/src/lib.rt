// Both ways in on byte slices, for small tables, and the four calls at full size, as host_c exports them for Rust and C. Slices come first
// and numbers last, so that no slice is split between registers and stack.
#![tactic(auto)]

pub mod bytes;
pub mod full;
