// Answers as plain structs of numbers. A field that has no value holds all ones.
#![tactic(auto)]

ghost use Rattle.std.specs.Prelude.{◌≡◌, Ok};
ghost use Rattle.answers.specs.Answers.{clearing_kind, clearing_cents, exported, answer_refused};
ghost use Rattle.answers.specs.inner.Answers.{rows_stated};

use block::SIZE;
use layout::reader::offer_count;
use plain::structs::{NO_AMOUNT, NO_VALUE, OzpAnswer};
use sale::Clearing;
use units::CentsPerMwDay;
use values::Refusal;

// A refusal without its number and its place.
const NO_ANSWER: OzpAnswer = OzpAnswer {
    make_whole: NO_AMOUNT,
    daily: NO_AMOUNT,
    year: NO_AMOUNT,
    kind: 3,
    total: NO_VALUE,
    price: NO_VALUE,
    rows: NO_VALUE,
    number: NO_VALUE,
    place: NO_VALUE,
};

// The number of offers that a book states, where it has a block to state it in.
pub fn rows_stated(book: &[u8]) -> u32
    ensures { result ≡ rows_stated book.now }
{
    if book.len() < SIZE {
        NO_VALUE
    } else {
        offer_count(book)
    }
}

// 1 where a clearing has a price, 2 where it has none.
fn clearing_kind(price: Option<CentsPerMwDay>) -> u32
    ensures { result ≡ clearing_kind price }
{
    match price {
        Some(_) => 1,
        None => 2,
    }
}

// The price in cents.
fn clearing_cents(price: Option<CentsPerMwDay>) -> u32
    ensures { result ≡ clearing_cents price }
{
    match price {
        Some(cents) => cents.0,
        None => NO_VALUE,
    }
}

// A clearing has every value but a refusal's.
fn cleared(c: Clearing, rows: u32) -> OzpAnswer
    ensures { result ≡ exported (Ok c) rows }
{
    OzpAnswer {
        make_whole: c.make_whole,
        daily: c.daily,
        year: c.year,
        kind: clearing_kind(c.price),
        total: c.total,
        price: clearing_cents(c.price),
        rows,
        ..NO_ANSWER
    }
}

// A refusal by any number at any place.
pub fn answer_refused(number: u32, place: u32) -> OzpAnswer
    ensures { result ≡ answer_refused number place }
{
    OzpAnswer {
        number,
        place,
        ..NO_ANSWER
    }
}

// What a call answers for a book of so many rows: a refusal has its number and its place, and no other value.
pub fn answer(a: Result<Clearing, Refusal>, rows: u32) -> OzpAnswer
    ensures { result ≡ exported a rows }
{
    match a {
        Ok(c) => cleared(c, rows),
        Err(refusal) => answer_refused(refusal.number(), refusal.place()),
    }
}
