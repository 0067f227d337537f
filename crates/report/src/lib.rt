// What the tools print, as text into a lent slice: what a call answered, and files that cannot be taken.
// Every slice is read as far as it goes, and 0 past its end, so that nothing is asked of them.
#![tactic(auto)]

pub mod faults;
pub mod zones;
