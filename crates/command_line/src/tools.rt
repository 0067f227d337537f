// The tools, and how their command lines differ.
ghost use Rattle.std.specs.Prelude.{◌≡◌};
ghost use Rattle.command_line.specs.Tools.{takes_options, takes_many};

#[derive(Clone, Copy, Debug, PartialEq, Eq)]
pub enum Tool {
    Outline,
    TillImport,
    YearAudit,
}

impl Tool {
    // Whether it has options beside --help.
    pub(crate) fn takes_options(self) -> bool
        ensures { result ≡ takes_options self }
    {
        matches!(self, Tool::Outline)
    }

    // Whether it takes more than one list.
    pub(crate) fn takes_many(self) -> bool
        ensures { result ≡ takes_many self }
    {
        matches!(self, Tool::TillImport)
    }
}
