// The command lines of the three tools, decided the same way for all: what a word means, and what the words come to. All on slices of
// bytes; what is said of a command line is `command_text`'s, and a program reads its arguments and prints.
#![tactic(auto)]

pub mod line;
pub mod tools;
pub mod words;
