// The section of a book's offers.
ghost use Rattle.std.specs.Prelude.{◌≡◌, ◌≤◌, length};
ghost use Rattle.layout.specs.Form.{offers_last, offers_section};

use crate::OFRS;
use block::SIZE;
use sections::section::{LastBytes, Section};
use values::head::{edition_in, offers_in};

// The rule of an offer's last four bytes in an edition.
fn offers_last(edition: u32) -> LastBytes
    ensures { result ≡ offers_last edition }
{
    if edition == 1 {
        LastBytes::OFFERS
    } else {
        LastBytes::STEPS
    }
}

// The section of a book's offers: from block 1 on, as many as the book states, by the rule of its edition.
pub fn offers_section(book: &[u8]) -> Section
    requires { 512 ≤ length book.now }
    ensures { result ≡ offers_section book.now }
{
    let head = &book[0..SIZE];
    Section {
        letters: OFRS,
        first: 1,
        number: 1,
        rows: offers_in(head) as usize,
        last: offers_last(edition_in(head)),
    }
}
