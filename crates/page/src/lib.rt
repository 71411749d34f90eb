// Pages of a book for a desk, in lent room: what the book states, its answer and why, and its rows; or why it is refused and all
// that it lacks.
//
// Each function puts its lines over the room from a place on and answers the place behind them. What does not fit is not put, and
// the place goes on all the same, so that it says how long the text is. The lines and their wording are those of crates `lines`,
// `rowlines` and `faultlines`; which numbers a page shows, and in which order, is what is promised here.
#![tactic(auto)]

mod row;
mod texts;

ghost use Rattle.call.specs.Answer.{answer_of};
ghost use Rattle.forms.specs.Shown.{Shows};
ghost use Rattle.page.specs.Page.{answered_parts, head_parts, page_parts};

use call::quote;
use headpage::put_accepted;
use lines::stated::put_stated;
use readout::{Head, head_of};
use refusing::{put_refused, put_unread};
pub use row::put_row_page;
use rowpages::put_rows;
pub use texts::{explain, explain_head, explain_row};

// Puts what a book that can be read answers: why it is refused, or how it clears.
fn put_answered(room: &mut [u8], at: usize, book: &[u8], head: Head) -> usize
    ensures { Shows room.old at (answered_parts book.now head (answer_of book.now)) room.new result }
{
    match quote(book) {
        Ok(k) => put_accepted(room, at, book, head, k),
        Err(refusal) => put_refused(room, at, book, head, refusal),
    }
}

// Puts the head of a book's page: all of it but the rows.
pub fn put_head(room: &mut [u8], at: usize, book: &[u8]) -> usize
    ensures { Shows room.old at (head_parts book.now) room.new result }
{
    let Some(head) = head_of(book) else {
        return put_unread(room, at, book);
    };
    let behind = put_stated(room, at, head.edition, head.parameters, head.offers);
    put_answered(room, behind, book, head)
}

// Puts a book's page: its head, and its rows where it is accepted.
pub fn put_page(room: &mut [u8], at: usize, book: &[u8]) -> usize
    ensures { Shows room.old at (page_parts book.now) room.new result }
{
    let behind = put_head(room, at, book);
    put_rows(room, behind, book)
}
