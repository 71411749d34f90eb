// A curve as plain structs of numbers. A field that has no value holds all ones.
ghost use Rattle.std.specs.Prelude.{◌≡◌};
ghost use Rattle.plain.specs.Plotted.{points_of, points_refused, plotted_price, price_refused};

use crate::structs::{NO_VALUE, OzpCurve, OzpPrice};
use curve::Curve;
use curve::exact::ExactPrice;

// A curve without a value.
const NO_CURVE: OzpCurve = OzpCurve {
    kind: 2,
    p1: NO_VALUE,
    p2: NO_VALUE,
    p3: NO_VALUE,
    q1: NO_VALUE,
    q2: NO_VALUE,
    q3: NO_VALUE,
    number: NO_VALUE,
    place: NO_VALUE,
};

// No price.
const NO_PRICE: OzpPrice = OzpPrice {
    kind: 2,
    cents: NO_VALUE,
    remainder: NO_VALUE,
    divisor: NO_VALUE,
    number: NO_VALUE,
    place: NO_VALUE,
};

// The three points of a curve. The last stands at price 0.
pub fn curve(c: Curve) -> OzpCurve
    ensures { result ≡ points_of c }
{
    OzpCurve {
        kind: 1,
        p1: c.p1.0,
        p2: c.p2.0,
        p3: 0,
        q1: c.q1,
        q2: c.q2,
        q3: c.q3,
        ..NO_CURVE
    }
}

// Parameters that are refused make no points.
pub fn curve_refused(number: u32, place: u32) -> OzpCurve
    ensures { result ≡ points_refused number place }
{
    OzpCurve {
        kind: 3,
        number,
        place,
        ..NO_CURVE
    }
}

// The price of a curve at a quantity, between cents, or that there is none.
pub fn price(p: Option<ExactPrice>) -> OzpPrice
    ensures { result ≡ plotted_price p }
{
    match p {
        Some(e) => OzpPrice {
            kind: 1,
            cents: e.cents.0,
            remainder: e.remainder,
            divisor: e.divisor,
            ..NO_PRICE
        },
        None => NO_PRICE,
    }
}

// Parameters that are refused have no price at any quantity.
pub fn price_refused(number: u32, place: u32) -> OzpPrice
    ensures { result ≡ price_refused number place }
{
    OzpPrice {
        kind: 3,
        number,
        place,
        ..NO_PRICE
    }
}
