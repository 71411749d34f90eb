// A row of a book that is refused: the offer as the book states it, and its values beside their ranges.
ghost use Rattle.forms.specs.Shown.{Shows};
ghost use Rattle.readout.specs.Facts.{row_in};
ghost use Rattle.refusing.specs.Stated.{stated_row};

use faultlines::wrong::put_values;
use readout::offer_of;
use rowlines::rows::put_offer;

// Puts a row as a book states it, where it is there: its offer, and its values beside their ranges.
pub fn put_stated_row(room: &mut [u8], at: usize, book: &[u8], edition: u32, row: usize) -> usize
    ensures { Shows room.old at (stated_row edition row (row_in book.now row)) room.new result }
{
    let Some(o) = offer_of(book, row) else {
        return at;
    };
    let behind = put_offer(room, at, edition, row, o);
    put_values(room, behind, edition, o)
}
