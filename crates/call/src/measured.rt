// A book whose length holds: what it says before its rows is decoded once, and columns are made for as many rows as it has.
ghost use Rattle.std.specs.Prelude.{◌≡◌};
ghost use Rattle.layout.specs.Form.{length_fault};
ghost use Rattle.book.specs.inner.Opening.{Opened};
ghost use Rattle.call.specs.Answer.{Outcome};
ghost use Rattle.call.specs.inner.None.{none_cleared};
ghost use Rattle.values.specs.Refusals.{no_fault};

use crate::rows::clear_in;
use book::{Opening, opened};
use sale::Clearing;
use values::Refusal;

// What a book of no rows clears: nothing, so there is no price and nothing is paid.
fn clear_none() -> Clearing
    ensures { result ≡ none_cleared }
{
    Clearing {
        total: 0,
        price: None,
        make_whole: 0,
        daily: 0,
        year: 0,
    }
}

// Clears a book whose edition, parameters and number of rows have passed, in columns that are made for as many rows as it has.
fn clear_opened(
    book: &[u8],
    head: Opening,
    cleared: &mut [u32],
    committed: &mut [u32],
) -> Result<Clearing, Refusal>
    requires { Opened book.now head.edition head.parameters head.rows }
    ensures { Outcome book.now cleared.old committed.old result cleared.new committed.new }
{
    match head.rows {
        0 => Ok(clear_none()),
        1..=15 => clear_in::<15>(book, head, cleared, committed),
        _ => clear_in::<600>(book, head, cleared, committed),
    }
}

// An answer, field by field: whoever reads it soon after then finds each field as it was stored, and does not wait for several
// stores that overlap it. Returned as it is, it costs some 12 ns more.
fn by_fields(a: Result<Clearing, Refusal>) -> Result<Clearing, Refusal>
    ensures { result ≡ a }
{
    match a {
        Ok(c) => Ok(Clearing {
            total: c.total,
            price: c.price,
            make_whole: c.make_whole,
            daily: c.daily,
            year: c.year,
        }),
        Err(refusal) => Err(refusal),
    }
}

// Clears a book whose length holds. What it says before its rows is decoded once.
pub(crate) fn clear_measured(
    book: &[u8],
    cleared: &mut [u32],
    committed: &mut [u32],
) -> Result<Clearing, Refusal>
    requires { length_fault book.now ≡ no_fault }
    ensures { Outcome book.now cleared.old committed.old result cleared.new committed.new }
{
    let head = opened(book)?;
    by_fields(clear_opened(book, head, cleared, committed))
}
