// A command line, taken word by word: options, and files, the table first.
ghost use Rattle.std.specs.Prelude.{◌≡◌};
ghost use Rattle.command_line.specs.Lines.{mode_number, no_words, with_help, with_rows, with_mode, with_mode_wanted, numbered, with_fault, file_taken, mode_taken, word_taken, known_taken, taken, status_of};

use crate::tools::Tool;
use crate::words::{Word, word_of};

// The mode that is meant, of which the words may name none.
#[derive(Clone, Copy, Debug, PartialEq, Eq)]
pub enum Mode {
    Even,
    Mixed,
    Unnamed,
}

impl Mode {
    // The library's number of it.
    pub fn number(self) -> usize
        ensures { result ≡ mode_number self }
    {
        match self {
            Mode::Even => 0,
            Mode::Mixed => 1,
            Mode::Unnamed => 2,
        }
    }
}

// What the words so far come to. `table`, `list` (the first, where a tool takes several) and `fault` are numbers of words, counted from 1;
// a mode is wanted where the next word is to be one.
#[derive(Clone, Copy, Debug, PartialEq, Eq)]
pub struct Line {
    pub help: bool,
    pub rows: bool,
    pub mode: Mode,
    pub mode_wanted: bool,
    pub table: Option<usize>,
    pub list: Option<usize>,
    pub fault: Option<usize>,
}

// All that a tool needs; the files are numbers of words, the table 0 where a line has a list alone.
#[derive(Clone, Copy, Debug, PartialEq, Eq)]
pub struct Command {
    pub rows: bool,
    pub mode: Mode,
    pub table: usize,
    pub list: usize,
}

// Why a tool does not go on: help is asked for; a word cannot be taken; no mode after the last --mode; a file too few.
#[derive(Clone, Copy, Debug, PartialEq, Eq)]
pub enum Stop {
    Help,
    Fault(usize),
    ModeWanted,
    FilesWanted,
}

// The number of a word, which is none where it is 0.
fn numbered(k: usize) -> Option<usize>
    ensures { result ≡ numbered k }
{
    if k == 0 { None } else { Some(k) }
}

impl Line {
    pub fn new() -> Self
        ensures { result ≡ no_words }
    {
        Self {
            help: false,
            rows: false,
            mode: Mode::Unnamed,
            mode_wanted: false,
            table: None,
            list: None,
            fault: None,
        }
    }

    // A word that cannot be taken.
    fn refuse(mut self, k: usize) -> Self
        ensures { result ≡ with_fault self k }
    {
        self.fault = numbered(k);
        self
    }

    fn ask_help(mut self) -> Self
        ensures { result ≡ with_help self }
    {
        self.help = true;
        self
    }

    fn ask_rows(mut self) -> Self
        ensures { result ≡ with_rows self }
    {
        self.rows = true;
        self
    }

    fn want_mode(mut self) -> Self
        ensures { result ≡ with_mode_wanted self }
    {
        self.mode_wanted = true;
        self
    }

    fn set_mode(mut self, mode: Mode) -> Self
        ensures { result ≡ with_mode self mode }
    {
        self.mode = mode;
        self.mode_wanted = false;
        self
    }

    #[tactic(auto, unfolding(crate::specs::Lines::file_taken))]
    fn take_file(mut self, tool: Tool, k: usize) -> Self
        ensures { result ≡ file_taken tool self k }
    {
        if self.table.is_none() {
            self.table = numbered(k);
            return self;
        }
        if self.list.is_none() {
            self.list = numbered(k);
            return self;
        }
        if tool.takes_many() {
            return self;
        }
        self.refuse(k)
    }

    #[tactic(auto, unfolding(crate::specs::Lines::mode_taken))]
    fn take_mode(self, k: usize, word: Option<Word>) -> Self
        ensures { result ≡ mode_taken self k word }
    {
        match word {
            Some(Word::Even) => self.set_mode(Mode::Even),
            Some(Word::Mixed) => self.set_mode(Mode::Mixed),
            _ => self.refuse(k),
        }
    }

    #[tactic(auto, unfolding(crate::specs::Lines::word_taken))]
    fn take_word(self, tool: Tool, k: usize, word: Option<Word>) -> Self
        ensures { result ≡ word_taken tool self k word }
    {
        match word {
            Some(Word::Help) => self.ask_help(),
            Some(Word::Rows) => self.ask_rows(),
            Some(Word::Mode) => self.want_mode(),
            Some(Word::Even | Word::Mixed | Word::File) => self.take_file(tool, k),
            None => self.refuse(k),
        }
    }

    // Help is found anywhere. Once a word could not be taken, no other is.
    #[tactic(auto, unfolding(crate::specs::Lines::known_taken))]
    fn take_known(self, tool: Tool, k: usize, word: Option<Word>) -> Self
        ensures { result ≡ known_taken tool self k word }
    {
        if word == Some(Word::Help) {
            return self.ask_help();
        }
        if self.fault.is_some() {
            return self;
        }
        if self.mode_wanted {
            return self.take_mode(k, word);
        }
        self.take_word(tool, k, word)
    }

    // Word number k, counted from 1.
    pub fn take(self, tool: Tool, k: usize, word: &[u8]) -> Self
        ensures { result ≡ taken tool self k word.now }
    {
        self.take_known(tool, k, word_of(tool, word))
    }

    #[tactic(auto, unfolding(crate::specs::Lines::status_of))]
    pub fn status(self) -> Result<Command, Stop>
        ensures { result ≡ status_of self }
    {
        if self.help {
            return Err(Stop::Help);
        }
        if let Some(k) = self.fault {
            return Err(Stop::Fault(k));
        }
        if self.mode_wanted {
            return Err(Stop::ModeWanted);
        }
        let Some(list) = self.list else {
            return Err(Stop::FilesWanted);
        };
        Ok(Command {
            rows: self.rows,
            mode: self.mode,
            table: self.table.unwrap_or(0),
            list,
        })
    }
}
