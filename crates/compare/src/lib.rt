// Whether losers matter between two books: one function of their bytes, which says that the theorem applies or what comes first that
// keeps it from applying.
#![tactic(auto)]

mod same;
mod walk;

ghost use Rattle.std.specs.Prelude.{◌≡◌};
ghost use Rattle.layout.specs.Read.{contents_of};
ghost use Rattle.book.specs.Faults.{first_fault};
ghost use Rattle.compare.specs.Comparison.{comparison_of, against_by, compared_to};
ghost use Rattle.values.specs.Refusals.{no_fault};

use crate::same::field_apart;
use crate::walk::compare_offers;
use block::SIZE;
use book::verdict;
use call::quote;
use layout::reader::offer_count;
use units::CentsPerMwDay;
use values::Refusal;
use values::head::parameters_in;

// What a comparison of two books says. Rows count from 0.
#[derive(Clone, Copy)]
pub enum Comparison {
    // the theorem applies: the first book's price, and how many offers at or below it both books share
    Applies(u32, u32),
    // a book is refused
    FirstRefused(Refusal),
    SecondRefused(Refusal),
    // nothing clears in the first book, so that it has no price
    NothingClears,
    // the parameters differ: the first field that does
    ParametersDiffer(u32),
    // the first offers at or below the price that differ: their row in the first book, and in the second
    OffersDiffer(u32, u32),
    // all offers before it agree, and then one book has an offer at or below the price more: its row there
    OnlyFirst(u32),
    OnlySecond(u32),
}

// Compares two accepted books up to a price.
fn compare_to(price: u32, first: &[u8], second: &[u8]) -> Comparison
    requires { (first_fault first.now ≡ no_fault) × (first_fault second.now ≡ no_fault) }
    ensures { result ≡ compared_to price (contents_of first.now) (contents_of second.now) }
{
    let apart = field_apart(
        parameters_in(&first[0..SIZE]),
        parameters_in(&second[0..SIZE]),
    );
    if let Some(field) = apart {
        return Comparison::ParametersDiffer(field);
    }
    compare_offers(
        price,
        first,
        offer_count(first) as usize,
        second,
        offer_count(second) as usize,
    )
}

// Compares an accepted book, of which the price is known, with another.
fn compare_against(price: Option<CentsPerMwDay>, first: &[u8], second: &[u8]) -> Comparison
    requires { first_fault first.now ≡ no_fault }
    ensures { result ≡ against_by (first_fault second.now) price (contents_of first.now) (contents_of second.now) }
{
    if let Err(refusal) = verdict(second) {
        return Comparison::SecondRefused(refusal);
    }
    match price {
        Some(cents) => compare_to(cents.0, first, second),
        None => Comparison::NothingClears,
    }
}

// Compares two books.
pub fn compare(first: &[u8], second: &[u8]) -> Comparison
    ensures { result ≡ comparison_of first.now second.now }
{
    match quote(first) {
        Err(refusal) => Comparison::FirstRefused(refusal),
        Ok(c) => compare_against(c.price, first, second),
    }
}
