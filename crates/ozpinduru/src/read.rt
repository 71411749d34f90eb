// What a book says, row by row, in a lent array of rows.
//
// There is no branch here: one call says what is answered, one how many entries are filled, and one fills an entry.
ghost use Rattle.listing.specs.Listed.{Read};

use listing::{contents, filled, row_at};
use plain::structs::{OzpContents, OzpRow};

// What a book says: each row has its values in its own entry of the array. Entries past the last row are not touched, and on a
// refusal the array holds what it held.
#[unsafe(no_mangle)]
pub extern "C" fn ozp_read(book: &[u8], rows: &mut [OzpRow]) -> OzpContents
    ensures { Read book.now rows.old result rows.new }
{
    let c = contents(book, rows.len());
    for i in 0..filled(c) {
        rows[i] = row_at(book, i);
    }
    c
}
