// The page of a book for a desk, in lent room: what stands behind a text is not touched, and no zero ends it.
ghost use Rattle.page.specs.Page.{head_parts, page_parts, row_page_parts};
ghost use Rattle.page.specs.Explained.{Explained};

use page::{explain, explain_head, explain_row};
use plain::structs::OzpText;

// A book's page: how it clears and why, or why it is refused and what it lacks; and its rows.
#[unsafe(no_mangle)]
pub extern "C" fn ozp_explain(book: &[u8], room: &mut [u8]) -> OzpText
    ensures { Explained (page_parts book.now) room.old result room.new }
{
    explain(book, room)
}

// The head of a book's page: all of it but the rows.
#[unsafe(no_mangle)]
pub extern "C" fn ozp_explain_head(book: &[u8], room: &mut [u8]) -> OzpText
    ensures { Explained (head_parts book.now) room.old result room.new }
{
    explain_head(book, room)
}

// The page of one row: none where there is no such row.
#[unsafe(no_mangle)]
pub extern "C" fn ozp_explain_row(book: &[u8], row: usize, room: &mut [u8]) -> OzpText
    ensures { Explained (row_page_parts book.now row) room.old result room.new }
{
    explain_row(book, row, room)
}
