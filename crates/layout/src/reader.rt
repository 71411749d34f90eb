// The reader of rows: an offer's own 32 bytes, a part of the book that is lent, and no copy.
ghost use Rattle.std.specs.Prelude.{◌≡◌, ◌+◌, ◌*◌, ◌/◌, ◌≤◌, ◌<◌, length};
ghost use Rattle.sections.specs.Blocks.{row_bytes};
ghost use Rattle.layout.specs.Form.{edition_of, offer_count, own_bytes};

use crate::form::form;
use block::SIZE;
use sections::{PLACE_SIZE, PLACES, PLACES_FROM};
use values::head::{edition_in, offers_in};

// The edition that a book states.
pub fn edition(book: &[u8]) -> u32
    requires { 512 ≤ length book.now }
    ensures { (result ≡ edition_of book.now) × (result < 65536) }
{
    edition_in(&book[0..SIZE])
}

// The number of offers that a book states.
pub fn offer_count(book: &[u8]) -> u32
    requires { 512 ≤ length book.now }
    ensures { (result ≡ offer_count book.now) × (result < 65536) }
{
    offers_in(&book[0..SIZE])
}

// A row's own bytes, in a book that has the row's block. The blocks of its section start at `first`; each is as long as sixteen
// places and holds fifteen, so that there are as many places before a row's as rows and blocks.
pub fn row_bytes(book: &[u8], first: usize, row: usize) -> &[u8]
    requires { (first + row / 15) * 512 + 512 ≤ length book.now }
    ensures { (result.now ≡ row_bytes book.now first row) × (length result.now ≡ 32) }
{
    let from = first * SIZE + PLACES_FROM + (row + row / PLACES) * PLACE_SIZE;
    &book[from..from + PLACE_SIZE]
}

// An offer's own bytes; for a row that isn't there, or a book refused by 1 to 3, an empty part.
pub fn own_bytes(book: &[u8], row: usize) -> &[u8]
    ensures { result.now ≡ own_bytes book.now row }
{
    if form(book).is_ok() && row < offer_count(book) as usize {
        row_bytes(book, 1, row)
    } else {
        &book[0..0]
    }
}
