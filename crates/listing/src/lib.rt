// What a book says, in range or not: its edition, its parameters, the number of its rows, and each row.
#![tactic(auto)]

ghost use Rattle.std.specs.Prelude.{◌≡◌};
ghost use Rattle.listing.specs.Listed.{value_out, offer_out, contents_out, contents_refused, read_fault, exported_contents, rows_filled, row_out};
ghost use Rattle.listing.specs.inner.Listed.{HasRow};
ghost use Rattle.values.specs.Refusals.{number_of, place_of};

use block::SIZE;
use layout::form::form;
use layout::reader::{edition, offer_count, row_bytes};
use plain::structs::{NO_VALUE, OzpContents, OzpParameters, OzpRow, OzpValue};
use values::head::{Parameters, parameters_in};
use values::place::{Offer, offer_in};
use values::{Refusal, Value};

// No value.
const NONE: OzpValue = OzpValue {
    kind: 2,
    number: NO_VALUE,
};

// A refusal without its number and its place: nothing is said of what the book holds.
const NO_CONTENTS: OzpContents = OzpContents {
    kind: 3,
    rows: NO_VALUE,
    edition: NO_VALUE,
    number: NO_VALUE,
    place: NO_VALUE,
    parameters: OzpParameters {
        year: NO_VALUE,
        cost: NONE,
        offset: NONE,
        outage: NONE,
        requirement: NONE,
        margin: NONE,
    },
};

// A value as it goes out: one that is missing has no number.
fn value_out(v: Value) -> OzpValue
    ensures { result ≡ value_out v }
{
    match v {
        Value::Given(number) => OzpValue { kind: 1, number },
        Value::Missing => OzpValue {
            kind: 4,
            number: NO_VALUE,
        },
    }
}

// The values of an offer.
fn offer_out(o: Offer) -> OzpRow
    ensures { result ≡ offer_out o }
{
    OzpRow {
        stamp: o.stamp,
        resource: o.resource,
        seller: o.seller,
        quantity: o.quantity,
        price: value_out(o.price),
        block: value_out(o.block),
        step: o.step,
    }
}

// The values of a row that a book has.
pub fn row_at(book: &[u8], row: usize) -> OzpRow
    requires { HasRow book.now row }
    ensures { result ≡ row_out book.now row }
{
    offer_out(offer_in(row_bytes(book, 1, row), edition(book)))
}

// The edition and the parameters as they go out, with the number of rows.
fn contents_out(edition: u32, p: Parameters, rows: u32) -> OzpContents
    ensures { result ≡ contents_out edition p rows }
{
    OzpContents {
        kind: 1,
        rows,
        edition,
        parameters: OzpParameters {
            year: p.year,
            cost: value_out(p.cost),
            offset: value_out(p.offset),
            outage: value_out(p.outage),
            requirement: value_out(p.requirement),
            margin: value_out(p.margin),
        },
        ..NO_CONTENTS
    }
}

// A refusal: nothing is said of what the book holds.
fn contents_refused(refusal: Refusal) -> OzpContents
    ensures { result ≡ contents_refused (number_of refusal) (place_of refusal) }
{
    OzpContents {
        number: refusal.number(),
        place: refusal.place(),
        ..NO_CONTENTS
    }
}

// 1 to 3, and then 9 where the rows do not all have an entry.
fn read_fault(book: &[u8], entries: usize) -> Result<(), Refusal>
    ensures { result ≡ read_fault book.now entries }
{
    form(book)?;
    if entries < offer_count(book) as usize {
        return Err(Refusal::ShortBuffer(1));
    }
    Ok(())
}

// What a book says besides its rows, which are to go into so many entries.
pub fn contents(book: &[u8], entries: usize) -> OzpContents
    ensures { result ≡ exported_contents book.now entries }
{
    if let Err(refusal) = read_fault(book, entries) {
        return contents_refused(refusal);
    }
    contents_out(
        edition(book),
        parameters_in(&book[0..SIZE]),
        offer_count(book),
    )
}

// How many entries are filled: one for each row, and none on a refusal.
pub fn filled(c: OzpContents) -> usize
    ensures { result ≡ rows_filled c }
{
    if c.kind == 1 { c.rows as usize } else { 0 }
}
