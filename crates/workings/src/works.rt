// The workings of an accepted book: where its total stops, its price, a row, the price levels around the one at which the total
// stops, and the contest for the spare tenths of that one.
ghost use Rattle.std.specs.Prelude.{◌≡◌};
ghost use Rattle.layout.specs.Read.{contents_of};
ghost use Rattle.book.specs.Faults.{first_fault};
ghost use Rattle.book.specs.inner.Opening.{Opened};
ghost use Rattle.workings.specs.Works.{works_of, worked_by};

use crate::joined::works_at;
use crate::row::RowWorks;
use crate::spares::Contest;
use book::{Opening, opened};
use columns::Columns;
use ladder::rung::Ladder;
use layout::form::lengths;
use reading::read_columns;
use reasons::share::Share;
use reasons::stop::Stop;
use units::CentsPerMwDay;
use values::Refusal;

// Where the total stops and at which price it sells; the share of one row in its level, and what it works out to; the price
// levels around the one at which the total stops, with one of them; and the contest for the spare tenths of that one.
#[derive(Clone, Copy)]
pub struct Works {
    pub stop: Stop,
    pub price: Option<CentsPerMwDay>,
    pub share: Option<Share>,
    pub row: Option<RowWorks>,
    pub ladder: Ladder,
    pub contest: Contest,
}

// The workings of a book whose edition, parameters and number of rows have passed. Its rows are read once, into columns.
fn works_opened(
    book: &[u8],
    head: Opening,
    row: usize,
    rung: usize,
    place: usize,
) -> Result<Works, Refusal>
    requires { Opened book.now head.edition head.parameters head.rows }
    ensures { result ≡ worked_by (first_fault book.now) (works_of (contents_of book.now) row rung place) }
{
    let mut columns = Columns::<600>::blank();
    read_columns(book, head.edition, 1, head.rows, &mut columns)?;
    let rows = columns.rows(head.rows as usize);
    Ok(works_at(head.parameters, &rows, row, rung, place))
}

// The workings of a book: of a row, of a rung of the ladder of price levels and of a place in the contest, each counted from 0; or
// the book's refusal. Of a row, a rung or a place that isn't there it says so, and the rest is worked all the same.
pub fn workings(book: &[u8], row: usize, rung: usize, place: usize) -> Result<Works, Refusal>
    ensures { result ≡ worked_by (first_fault book.now) (works_of (contents_of book.now) row rung place) }
{
    lengths(book)?;
    let head = opened(book)?;
    works_opened(book, head, row, rung, place)
}
