// All that a book lacks, for one who fills it in.
ghost use Rattle.forms.specs.Shown.{Shows};
ghost use Rattle.readout.specs.Facts.{row_in};
ghost use Rattle.refusing.specs.Missing.{unpriced_row, missing_parts};

use faultlines::missing::{put_missing_parameters, put_missing_price};
use readout::{offer_of, rows_of};
use values::Value;
use values::head::Parameters;

// Puts that a row's price is missing, where it is.
fn put_unpriced(room: &mut [u8], at: usize, book: &[u8], edition: u32, row: usize) -> usize
    ensures { Shows room.old at (unpriced_row edition row (row_in book.now row)) room.new result }
{
    let Some(o) = offer_of(book, row) else {
        return at;
    };
    match o.price {
        Value::Given(_) => at,
        Value::Missing => put_missing_price(room, at, edition, row, o.resource, o.step),
    }
}

// Puts every parameter and every price that is missing.
pub(crate) fn put_missing(
    room: &mut [u8],
    at: usize,
    book: &[u8],
    edition: u32,
    p: Parameters,
) -> usize
    ensures { Shows room.old at (missing_parts book.now edition p) room.new result }
{
    let mut behind = put_missing_parameters(room, at, p);
    for row in 0..rows_of(book) {
        behind = put_unpriced(room, behind, book, edition, row);
    }
    behind
}
