// What a word of the command line means, by its text.
ghost use Rattle.std.specs.Prelude.{◌≡◌};
ghost use Rattle.command_line.specs.Words.{begins_as_option, fits as hasFitting, own_option, option_of, name_of, word_of};

use crate::tools::Tool;

// An option that the tool has; a mode, which may be a file's name too; or any other name of a file.
#[derive(Clone, Copy, Debug, PartialEq, Eq)]
pub enum Word {
    Help,
    Rows,
    Mode,
    Even,
    Mixed,
    File,
}

// Whether it is an option, or no word that can be taken.
pub fn begins_as_option(word: &[u8]) -> bool
    ensures { result ≡ begins_as_option word.now }
{
    word.starts_with(b"-")
}

// Neither empty nor longer than a path can be.
fn fits(word: &[u8]) -> bool
    ensures { result ≡ hasFitting word.now }
{
    (0 < word.len()) & (word.len() <= 4096)
}

// An option beside --help, for a tool that has some.
#[tactic(auto, unfolding(crate::specs::Words::own_option))]
fn own_option(word: &[u8]) -> Option<Word>
    ensures { result ≡ own_option word.now }
{
    if word == b"--rows".as_slice() {
        return Some(Word::Rows);
    }
    if word == b"--mode".as_slice() {
        return Some(Word::Mode);
    }
    None
}

#[tactic(auto, unfolding(crate::specs::Words::option_of))]
fn option_of(tool: Tool, word: &[u8]) -> Option<Word>
    ensures { result ≡ option_of tool word.now }
{
    if word == b"--help".as_slice() {
        return Some(Word::Help);
    }
    if tool.takes_options() {
        return own_option(word);
    }
    None
}

#[tactic(auto, unfolding(crate::specs::Words::name_of))]
fn name_of(word: &[u8]) -> Word
    ensures { result ≡ name_of word.now }
{
    if word == b"even".as_slice() {
        return Word::Even;
    }
    if word == b"mixed".as_slice() {
        return Word::Mixed;
    }
    Word::File
}

// None where no tool can take it.
#[tactic(auto, unfolding(crate::specs::Words::word_of))]
pub fn word_of(tool: Tool, word: &[u8]) -> Option<Word>
    ensures { result ≡ word_of tool word.now }
{
    if begins_as_option(word) {
        return option_of(tool, word);
    }
    if fits(word) {
        return Some(name_of(word));
    }
    None
}
