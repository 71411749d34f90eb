// The page of one row: in full where the book is accepted, and else the offer as the book states it, with what is wrong with its values.
ghost use Rattle.forms.specs.Shown.{Shows};
ghost use Rattle.page.specs.Page.{row_page_parts};

use readout::head_of;
use refusing::put_stated_row;
use rowpages::put_row_of;
use workings::NO_ROW;
use workings::works::workings;

// Puts the page of a row: nothing where there is no such row, or where the book cannot be read.
pub fn put_row_page(room: &mut [u8], at: usize, book: &[u8], row: usize) -> usize
    ensures { Shows room.old at (row_page_parts book.now row) room.new result }
{
    let Some(head) = head_of(book) else {
        return at;
    };
    match workings(book, NO_ROW, NO_ROW, NO_ROW) {
        Ok(_) => put_row_of(room, at, book, head.edition, row),
        Err(_) => put_stated_row(room, at, book, head.edition, row),
    }
}
