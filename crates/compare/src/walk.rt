// The offers at or below a price of two books, walked side by side.
ghost use Rattle.std.specs.Prelude.{◌≡◌, ◌≤◌};
ghost use Rattle.layout.specs.Form.{edition_of};
ghost use Rattle.layout.specs.Read.{row_offer, row_offers};
ghost use Rattle.layout.specs.inner.Read.{Inside};
ghost use Rattle.call.specs.Losers.{to_price};
ghost use Rattle.compare.specs.Same.{same_offer};
ghost use Rattle.compare.specs.Comparison.{offers_compared};
ghost use Rattle.compare.specs.inner.Walk.{HasRow, NextTo};

use crate::Comparison;
use layout::reader::{edition, row_bytes};
use values::Value;
use values::place::{Offer, offer_in};

// Whether a price is given and is at or below another.
fn to_price(v: Value, price: u32) -> bool
    ensures { result ≡ to_price price v }
{
    match v {
        Value::Given(cents) => cents <= price,
        Value::Missing => false,
    }
}

// The offer of a row, by the rule of the book's edition.
fn offer_at(book: &[u8], row: usize) -> Offer
    requires { HasRow book.now row }
    ensures { result ≡ row_offer book.now (edition_of book.now) 1 row }
{
    offer_in(row_bytes(book, 1, row), edition(book))
}

// The first row, from a row on, whose offer is at or below the price; n where there is none.
fn next_row(price: u32, book: &[u8], n: usize, from: usize) -> usize
    requires { Inside book.now 1 n × (from ≤ n) }
    ensures { NextTo price (row_offers book.now (edition_of book.now) 1 n) from result }
{
    for row in from..n {
        if to_price(offer_at(book, row).price, price) {
            return row;
        }
    }
    n
}

// Whether a row of one book holds the same offer as a row of another.
fn same_rows(first: &[u8], i: usize, second: &[u8], j: usize) -> bool
    requires { HasRow first.now i × HasRow second.now j }
    ensures { result ≡ same_offer (row_offer first.now (edition_of first.now) 1 i)
        (row_offer second.now (edition_of second.now) 1 j) }
{
    offer_at(first, i) == offer_at(second, j)
}

// Compares the offers at or below the price of two books, of n rows and of m.
// A walk of two sides, which ends where either does: each side goes on from its own row, so no one range counts them.
pub(crate) fn compare_offers(
    price: u32,
    first: &[u8],
    n: usize,
    second: &[u8],
    m: usize,
) -> Comparison
    requires { Inside first.now 1 n × Inside second.now 1 m }
    ensures { result ≡ offers_compared price (row_offers first.now (edition_of first.now) 1 n)
        (row_offers second.now (edition_of second.now) 1 m) }
{
    let mut shared: u32 = 0;
    let mut i = next_row(price, first, n, 0);
    let mut j = next_row(price, second, m, 0);
    while i < n {
        if m <= j {
            return Comparison::OnlyFirst(i as u32);
        }
        if !same_rows(first, i, second, j) {
            return Comparison::OffersDiffer(i as u32, j as u32);
        }
        shared += 1;
        i = next_row(price, first, n, i + 1);
        j = next_row(price, second, m, j + 1);
    }
    if j < m {
        return Comparison::OnlySecond(j as u32);
    }
    Comparison::Applies(price, shared)
}
