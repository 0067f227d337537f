// Tables, states and answers as bytes: what the library for Rust and C reads and writes.
#![tactic(auto)]

pub mod columns;
pub mod output;
