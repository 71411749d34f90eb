// The first fault of a book, and whether a book is sound.
#![tactic(auto)]

ghost use Rattle.std.specs.Prelude.{◌≡◌};
ghost use Rattle.layout.specs.Form.{length_fault};
ghost use Rattle.book.specs.Faults.{first_fault, sound_fault};
ghost use Rattle.book.specs.inner.Opening.{before_rows, SaidIn, OpensAs};
ghost use Rattle.values.specs.Refusals.{no_fault};

use block::SIZE;
use layout::form::{blocks_fault, form, lengths};
use layout::reader::{edition, offer_count};
use limits::parameters::{missing_in, parameter_fault};
use reading::rows_fault;
use values::Refusal;
use values::head::{Parameters, parameters_in};

// What a book says before its rows: the edition, the parameters, and how many rows follow.
#[derive(Clone, Copy)]
pub struct Opening {
    pub edition: u32,
    pub parameters: Parameters,
    pub rows: u32,
}

// The first fault before the rows of a book, and what the book says there all the same.
#[derive(Clone, Copy)]
pub struct Unopened {
    pub refusal: Refusal,
    pub opening: Opening,
}

// Whoever hands the fault on keeps that alone.
impl From<Unopened> for Refusal {
    ghost from_gives = { λ unopened refusal. refusal ≡ unopened.refusal };

    fn from(unopened: Unopened) -> Refusal {
        unopened.refusal
    }
}

// The first fault before the rows of a book whose length holds, where it is to be cleared: 2, 3, then 4, then 5.
fn before_rows(book: &[u8]) -> Result<(), Refusal>
    requires { length_fault book.now ≡ no_fault }
    ensures { result ≡ before_rows book.now }
{
    blocks_fault(book)?;
    let head = &book[0..SIZE];
    missing_in(head).and(parameter_fault(parameters_in(head)))
}

// What a book says before its rows, refused or not.
fn opening_in(book: &[u8]) -> Opening
    requires { length_fault book.now ≡ no_fault }
    ensures { SaidIn book.now result }
{
    Opening {
        edition: edition(book),
        parameters: parameters_in(&book[0..SIZE]),
        rows: offer_count(book),
    }
}

// What a book whose length holds says before its rows, with the first fault of that where the book is to be cleared.
pub fn opened(book: &[u8]) -> Result<Opening, Unopened>
    requires { length_fault book.now ≡ no_fault }
    ensures { OpensAs book.now result }
{
    match before_rows(book) {
        Ok(()) => Ok(opening_in(book)),
        Err(refusal) => Err(Unopened {
            refusal,
            opening: opening_in(book),
        }),
    }
}

// The first fault of a book that is to be cleared: 1, 2, 3, then 4, then 5, then the rows' 6, 7, 8, 10.
pub fn verdict(book: &[u8]) -> Result<(), Refusal>
    ensures { result ≡ first_fault book.now }
{
    lengths(book)?;
    let head = opened(book)?;
    rows_fault(book, head.edition, head.rows, true)
}

// The first fault by which a book is not sound: 1, 2, 3, then 5, 7, 8 and 10 on what is given.
pub fn soundness(book: &[u8]) -> Result<(), Refusal>
    ensures { result ≡ sound_fault book.now }
{
    form(book)?;
    parameter_fault(parameters_in(&book[0..SIZE]))?;
    rows_fault(book, edition(book), offer_count(book), false)
}
