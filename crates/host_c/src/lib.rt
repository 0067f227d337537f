// The static library for Rust and C: what host does, under the names that they link. include/zone_outliner.h documents every function.
#![tactic(auto)]

mod bytes;
mod full;
