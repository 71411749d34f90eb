// Why a book is refused, is not sound, or cannot be written: the table of refusals, each with its place.
ghost use Rattle.std.specs.Prelude.{◌≡◌, ◌++◌, Some, codes, decimal};
ghost use Rattle.values.specs.Refusals.{number_of, place_of};

use std::error::Error;
use std::fmt;

// A refusal. What it holds is its place: a block, a field, a row or a buffer; those that hold nothing are at place 0.
#[derive(Clone, Copy, Debug, PartialEq, Eq)]
pub enum Refusal {
    // 1: length not a multiple of 512, or under 512, or over 20,992
    WrongLength,
    // 2: a block's check is wrong
    WrongCheck(u32),
    // 3: letters, edition, block number, counts, unused marks or bytes differ from the layout, or a value marked absent is not zero
    WrongLayout(u32),
    // 4: a parameter is missing; the field
    MissingParameter(u32),
    // 5: a parameter is out of range; the field
    ParameterOutOfRange(u32),
    // 6: an offer has no price; the row
    NoPrice(u32),
    // 7: an offer value is out of range; the row
    OfferOutOfRange(u32),
    // 8: the resource number of a row with step 1 stands in an earlier row; the row
    RepeatedResource(u32),
    // 9: a result buffer has fewer entries than offers; 1 cleared, 2 committed
    ShortBuffer(u32),
    // 10: a row past step 1 breaks the rules of steps; the row
    BrokenSteps(u32),
    // 11: a book that goes to edition 1 has a step of 2 or more; the row
    SeveralSteps(u32),
    // 19: more than 600 rows are to be written
    TooManyRows,
    // 20: the room lent is too small
    ShortRoom,
}

impl Refusal {
    // The number that the table gives it.
    pub fn number(self) -> u32
        ensures { result ≡ number_of self }
    {
        match self {
            Refusal::WrongLength => 1,
            Refusal::WrongCheck(_) => 2,
            Refusal::WrongLayout(_) => 3,
            Refusal::MissingParameter(_) => 4,
            Refusal::ParameterOutOfRange(_) => 5,
            Refusal::NoPrice(_) => 6,
            Refusal::OfferOutOfRange(_) => 7,
            Refusal::RepeatedResource(_) => 8,
            Refusal::ShortBuffer(_) => 9,
            Refusal::BrokenSteps(_) => 10,
            Refusal::SeveralSteps(_) => 11,
            Refusal::TooManyRows => 19,
            Refusal::ShortRoom => 20,
        }
    }

    // Its place.
    pub fn place(self) -> u32
        ensures { result ≡ place_of self }
    {
        match self {
            Refusal::WrongLength | Refusal::TooManyRows | Refusal::ShortRoom => 0,
            Refusal::WrongCheck(block) | Refusal::WrongLayout(block) => block,
            Refusal::MissingParameter(field) | Refusal::ParameterOutOfRange(field) => field,
            Refusal::ShortBuffer(buffer) => buffer,
            Refusal::NoPrice(row)
            | Refusal::OfferOutOfRange(row)
            | Refusal::RepeatedResource(row)
            | Refusal::BrokenSteps(row)
            | Refusal::SeveralSteps(row) => row,
        }
    }
}

// Its number, a space, and its place.
impl fmt::Display for Refusal {
    ghost output = { λ refusal. Some (decimal (number_of refusal) ++ (codes " " ++ decimal (place_of refusal))) };

    fn fmt<W: fmt::Write>(&self, f: &mut fmt::Formatter<W>) -> fmt::Result {
        write!(f, "{} {}", self.number(), self.place())
    }
}

impl Error for Refusal {}
