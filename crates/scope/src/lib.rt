// What the calls answer. Everything else in this crate is definitions (specs/) and laws about them (proofs/).
#![tactic(auto)]

ghost use Rattle.std.specs.Prelude.{◌≡◌};
ghost use Rattle.scope.specs.Answers.{refusal_number, refusal_index};

// Why a call is refused, in the order of document 01's numbers, with the index that it returns where there is one.
#[derive(Clone, Copy, Debug, PartialEq, Eq)]
pub enum Refusal {
    BadTable(usize),
    InvalidCell(usize),
    DuplicateInput(usize),
    UnsupportedResolution(usize),
    EdgeNotInTable(usize),
    EdgeTwice(usize),
    PoolFull(usize),
    TooManyCells,
    BrokenState,
    BadLengths,
}

// What read out and dissolve answer: no cells; cells, but no edge stands; or the polygon count,
// the ring count and the first outer area.
#[derive(Clone, Copy, Debug)]
pub enum ReadOut {
    Nothing,
    Closed,
    Outline(usize, usize, f64),
}

impl Refusal {
    // Document 01's number.
    #[tactic(auto, unfolding(crate::specs::Answers::refusal_number))]
    pub fn number(self) -> usize
        ensures { result ≡ refusal_number self }
    {
        match self {
            Refusal::BadTable(_) => 1,
            Refusal::InvalidCell(_) => 2,
            Refusal::DuplicateInput(_) => 3,
            Refusal::UnsupportedResolution(_) => 4,
            Refusal::EdgeNotInTable(_) => 5,
            Refusal::EdgeTwice(_) => 6,
            Refusal::PoolFull(_) => 7,
            Refusal::TooManyCells => 8,
            Refusal::BrokenState => 9,
            Refusal::BadLengths => 10,
        }
    }

    // What it also returns: the row, the cell's place, or 0.
    #[tactic(auto, unfolding(crate::specs::Answers::refusal_index))]
    pub fn index(self) -> usize
        ensures { result ≡ refusal_index self }
    {
        match self {
            Refusal::BadTable(place)
            | Refusal::InvalidCell(place)
            | Refusal::DuplicateInput(place)
            | Refusal::UnsupportedResolution(place)
            | Refusal::EdgeNotInTable(place)
            | Refusal::EdgeTwice(place)
            | Refusal::PoolFull(place) => place,
            Refusal::TooManyCells | Refusal::BrokenState | Refusal::BadLengths => 0,
        }
    }
}
