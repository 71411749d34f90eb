// The comparison of two books as a plain struct of numbers. A field that has no value holds all ones.
ghost use Rattle.std.specs.Prelude.{◌≡◌};
ghost use Rattle.values.specs.Refusals.{number_of, place_of};
ghost use Rattle.compare.specs.Comparison.{comparison_of};
ghost use Rattle.ozpinduru.specs.Compared.{compared_out, applies_out, refused_out, differs_out};

use compare::{Comparison, compare};
use plain::structs::{NO_VALUE, OzpComparison};
use values::Refusal;

// Nothing clears in the first book: no field has a value.
const NOTHING: OzpComparison = OzpComparison {
    kind: 2,
    price: NO_VALUE,
    shared: NO_VALUE,
    field: NO_VALUE,
    row: NO_VALUE,
    other: NO_VALUE,
    book: NO_VALUE,
    number: NO_VALUE,
    place: NO_VALUE,
};

// The theorem applies: the price, and how many offers are shared.
fn applies(price: u32, shared: u32) -> OzpComparison
    ensures { result ≡ applies_out price shared }
{
    OzpComparison {
        kind: 1,
        price,
        shared,
        ..NOTHING
    }
}

// A book is refused: which of both, the number and the place.
fn refused(book: u32, refusal: Refusal) -> OzpComparison
    ensures { result ≡ refused_out book (number_of refusal) (place_of refusal) }
{
    OzpComparison {
        kind: 3,
        book,
        number: refusal.number(),
        place: refusal.place(),
        ..NOTHING
    }
}

// The books differ: in a field of the parameters, or in a row of either.
fn differs(field: u32, row: u32, other: u32) -> OzpComparison
    ensures { result ≡ differs_out field row other }
{
    OzpComparison {
        kind: 5,
        field,
        row,
        other,
        ..NOTHING
    }
}

// A comparison as it goes out.
fn compared(c: Comparison) -> OzpComparison
    ensures { result ≡ compared_out c }
{
    match c {
        Comparison::Applies(price, shared) => applies(price, shared),
        Comparison::FirstRefused(refusal) => refused(1, refusal),
        Comparison::SecondRefused(refusal) => refused(2, refusal),
        Comparison::NothingClears => NOTHING,
        Comparison::ParametersDiffer(field) => differs(field, NO_VALUE, NO_VALUE),
        Comparison::OffersDiffer(row, other) => differs(NO_VALUE, row, other),
        Comparison::OnlyFirst(row) => differs(NO_VALUE, row, NO_VALUE),
        Comparison::OnlySecond(other) => differs(NO_VALUE, NO_VALUE, other),
    }
}

// Whether losers matter between two books.
#[unsafe(no_mangle)]
pub extern "C" fn ozp_compare(first: &[u8], second: &[u8]) -> OzpComparison
    ensures { result ≡ compared_out (comparison_of first.now second.now) }
{
    compared(compare(first, second))
}
