// A book that cannot be read: refusals 1, 2 and 3.
ghost use Rattle.causes.specs.Cause.{cause_of};
ghost use Rattle.layout.specs.Form.{form_fault};
ghost use Rattle.forms.specs.Shown.{Shows};
ghost use Rattle.refusing.specs.Refused.{layout_parts, unread_parts};

use causes::layout_cause;
use faultlines::refused::{put_check, put_layout, put_length};
use layout::form::form;
use values::Refusal;

// Puts the test of the layout that a block fails first, where one is found.
fn put_cause(room: &mut [u8], at: usize, book: &[u8], block: u32) -> usize
    ensures { Shows room.old at (layout_parts block (cause_of book.now)) room.new result }
{
    match layout_cause(book) {
        Some(cause) => put_layout(room, at, block, cause.test.number(), cause.byte),
        None => at,
    }
}

// Puts why a book cannot be read: its length, the check of a block, or the test of the layout that a block fails first.
pub fn put_unread(room: &mut [u8], at: usize, book: &[u8]) -> usize
    ensures { Shows room.old at (unread_parts book.now (form_fault book.now)) room.new result }
{
    let Err(refusal) = form(book) else {
        return at;
    };
    match refusal {
        Refusal::WrongLength => put_length(room, at, book.len()),
        Refusal::WrongCheck(block) => put_check(room, at, block),
        _ => put_cause(room, at, book, refusal.place()),
    }
}
