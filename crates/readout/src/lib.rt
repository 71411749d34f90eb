// What can be read of a book whose form is right, whether it is accepted or not: what block 0 states, and the offer of a row.
//
// Every public function takes a book of bytes and looks at its form first, so that it asks nothing of its caller.
#![tactic(auto)]

ghost use Rattle.std.specs.Prelude.{◌≡◌, ◌≤◌, ◌<◌, length};
ghost use Rattle.values.specs.Contents.{offer_at};
ghost use Rattle.layout.specs.Form.{form_fault, edition_of};
ghost use Rattle.layout.specs.Read.{contents_of};
ghost use Rattle.readout.specs.Read.{head_by, offers_by, row_of, earlier_row};

use block::SIZE;
use layout::form::form;
use layout::reader::{edition, offer_count, row_bytes};
use values::head::{Parameters, parameters_in};
use values::place::{Offer, offer_in};

// What block 0 states: the edition, the parameters, and how many offers follow.
#[derive(Clone, Copy)]
pub struct Head {
    pub edition: u32,
    pub parameters: Parameters,
    pub offers: u32,
}

// What block 0 states. In a book refused by 1 to 3 nothing in it is to be trusted, and there is none.
pub fn head_of(book: &[u8]) -> Option<Head>
    ensures { result ≡ head_by (form_fault book.now) (contents_of book.now) }
{
    form(book).ok()?;
    Some(Head {
        edition: edition(book),
        parameters: parameters_in(&book[0..SIZE]),
        offers: offer_count(book),
    })
}

// How many rows can be read: all that a book states, and none of one refused by 1 to 3.
pub fn rows_of(book: &[u8]) -> usize
    ensures { (result ≡ length (offers_by (form_fault book.now) (contents_of book.now))) × (result ≤ 600) }
{
    if form(book).is_ok() {
        offer_count(book) as usize
    } else {
        0
    }
}

// The offer of a row, read from its own bytes.
#[tactic(auto, unfolding(crate::specs::Read::row_of))]
pub fn offer_of(book: &[u8], row: usize) -> Option<Offer>
    ensures { result ≡ row_of (offers_by (form_fault book.now) (contents_of book.now)) row }
{
    if row < rows_of(book) {
        Some(offer_in(row_bytes(book, 1, row), edition(book)))
    } else {
        None
    }
}

// The resource of a row that is there.
fn resource_of(book: &[u8], edition: u32, row: usize) -> u32
    requires { (edition ≡ edition_of book.now) × (row < length (offers_by (form_fault book.now) (contents_of book.now))) }
    ensures { result ≡ (offer_at (offers_by (form_fault book.now) (contents_of book.now)) row).resource }
{
    offer_in(row_bytes(book, 1, row), edition).resource
}

// The first row of a row's resource: the row itself where none before it has the resource, or where it isn't there.
pub fn earlier_row(book: &[u8], row: usize) -> usize
    ensures { result ≡ earlier_row (offers_by (form_fault book.now) (contents_of book.now)) row }
{
    if rows_of(book) <= row {
        return row;
    }
    let stated = edition(book);
    let resource = resource_of(book, stated, row);
    for earlier in 0..row {
        if resource_of(book, stated, earlier) == resource {
            return earlier;
        }
    }
    row
}
