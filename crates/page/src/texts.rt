// The pages of a book as texts in room that a caller lends: what stands behind a text is not touched, and where the room is too small
// it holds what it held. A page is made on the stack first, in 96 KiB, which every page fits.
ghost use Rattle.std.specs.Prelude.{min, take};
ghost use Rattle.page.specs.Page.{head_parts, page_parts, row_page_parts};
ghost use Rattle.page.specs.Explained.{Explained};
ghost use Rattle.words.specs.Texts.{Told};

use crate::row::put_row_page;
use crate::{put_head, put_page};
use plain::structs::OzpText;
use words::put_text;

// How many bytes a page is made in.
const ROOM: usize = 98304;

// Tells what a page comes to that ends at a place of the bytes that it was made in.
fn told(text: &[u8; ROOM], end: usize, room: &mut [u8]) -> OzpText
    ensures { Told (take (min end 98304) text.now) room.old result room.new }
{
    put_text(room, &text[..end.min(ROOM)])
}

// Puts a book's page: how it clears or why it is refused, and its rows.
pub fn explain(book: &[u8], room: &mut [u8]) -> OzpText
    ensures { Explained (page_parts book.now) room.old result room.new }
{
    let mut text = [0u8; ROOM];
    let end = put_page(&mut text, 0, book);
    told(&text, end, room)
}

// Puts the head of a book's page: all of it but the rows.
pub fn explain_head(book: &[u8], room: &mut [u8]) -> OzpText
    ensures { Explained (head_parts book.now) room.old result room.new }
{
    let mut text = [0u8; ROOM];
    let end = put_head(&mut text, 0, book);
    told(&text, end, room)
}

// Puts the page of one row: no text where there is no such row.
pub fn explain_row(book: &[u8], row: usize, room: &mut [u8]) -> OzpText
    ensures { Explained (row_page_parts book.now row) room.old result room.new }
{
    let mut text = [0u8; ROOM];
    let end = put_row_page(&mut text, 0, book, row);
    told(&text, end, room)
}
