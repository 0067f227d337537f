// What is said of a command line, as text by promise: the one line for the first word that cannot be taken, and the help of each tool.
#![tactic(auto)]

pub mod complaint;
pub mod help;
