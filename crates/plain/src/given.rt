// Values, parameters and rows that a caller hands in.
ghost use Rattle.std.specs.Prelude.{◌≡◌, cond, eqb};
ghost use Rattle.plain.specs.Structs.{no_value};
ghost use Rattle.plain.specs.Given.{value_in, parameters_in, offer_in};

use crate::structs::{NO_VALUE, OzpParameters, OzpRow, OzpValue};
use values::Value;
use values::head::Parameters;
use values::place::Offer;

// The number of a value that is given, and all ones where its kind is another: no range admits them.
fn number_in(v: OzpValue) -> u32
    ensures { result ≡ cond (eqb v.kind 1) v.number no_value }
{
    if v.kind == 1 { v.number } else { NO_VALUE }
}

// A value of a row by its kind. Its number is chosen before its kind is told, so that a row has no branch for it.
fn row_value(v: OzpValue) -> Value
    ensures { result ≡ value_in v }
{
    let number = number_in(v);
    if v.kind != 4 {
        Value::Given(number)
    } else {
        Value::Missing
    }
}

// A value of the parameters by its kind. Its kind is told first: its caller has only just put the two, and who reads both at once waits
// for both to be stored.
fn value_in(v: OzpValue) -> Value
    ensures { result ≡ value_in v }
{
    match v.kind {
        1 => Value::Given(v.number),
        4 => Value::Missing,
        _ => Value::Given(NO_VALUE),
    }
}

// A row, value by value.
pub fn offer_in(row: OzpRow) -> Offer
    ensures { result ≡ offer_in row }
{
    Offer {
        resource: row.resource,
        seller: row.seller,
        price: row_value(row.price),
        quantity: row.quantity,
        block: row_value(row.block),
        stamp: row.stamp,
        step: row.step,
    }
}

// The parameters, value by value.
pub fn parameters_in(p: OzpParameters) -> Parameters
    ensures { result ≡ parameters_in p }
{
    Parameters {
        year: p.year,
        cost: value_in(p.cost),
        offset: value_in(p.offset),
        outage: value_in(p.outage),
        requirement: value_in(p.requirement),
        margin: value_in(p.margin),
    }
}
