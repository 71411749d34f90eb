// Where to look next for the price at which the total stops. All of it is guesses: any price inside a bracket would do.
ghost use Rattle.std.specs.Prelude.{◌<◌, ◌≤◌};
ghost use Rattle.curve.specs.Shape.{Shaped};

use crate::bracket::PriceBracket;
use curve::Curve;

// The quantity at a part of the whole way from qa to qb.
fn along(part: u32, whole: u32, qa: u32, qb: u32) -> u32
    requires { (part ≤ whole) × (0 < whole) × (qa ≤ qb) }
    ensures { result ≤ qb }
{
    let way = part as u64 * (qb - qa) as u64 / whole as u64;
    qa + way as u32
}

// How many tenths the curve buys at a price, by its two lines.
pub(crate) fn tenths_at(c: Curve, price: u32) -> u32
    requires { Shaped c }
    ensures { result ≤ c.q3 }
{
    if c.p1.0 < price {
        return 0;
    }
    if c.p2.0 < price {
        return along(c.p1.0 - price, c.p1.0 - c.p2.0, c.q1, c.q2);
    }
    if c.p2.0 == 0 {
        return c.q3;
    }
    along(c.p2.0 - price, c.p2.0, c.q2, c.q3)
}

// A price inside a bracket: its middle, or where offers and curve would meet if both ran straight from end to end.
pub(crate) fn aim(c: Curve, b: PriceBracket, middle: bool) -> u32
    requires { Shaped c × (b.from < b.cap) × (b.cap ≤ 1000000) }
    ensures { (b.from ≤ result) × (result < b.cap) }
{
    let width = b.cap - b.from;
    if middle {
        return b.from + width / 2;
    }
    let short = u64::from(tenths_at(c, b.from).saturating_sub(b.below));
    let long = u64::from(b.over.saturating_sub(tenths_at(c, b.cap)));
    let step = width as u64 * short / (short + long + 1);
    if step < width as u64 {
        b.from + step as u32
    } else {
        b.from
    }
}

// The total stops close over the bracket's lower end: no more than a few tenths are offered between both ends, or are short of
// what the curve buys at the lower one.
pub(crate) fn close(c: Curve, b: PriceBracket, few: u32) -> bool
    requires { Shaped c }
{
    b.over.saturating_sub(b.below) <= few || tenths_at(c, b.from).saturating_sub(b.below) <= few
}
