// The cleared total, and the level at which it stops.
ghost use Rattle.std.specs.Prelude.{◌≤◌, length};
ghost use Rattle.curve.specs.Shape.{Shaped};
ghost use Rattle.levels.specs.inner.Asks.{offers_in};
ghost use Rattle.market.specs.inner.Bracket.{NoneBefore};
ghost use Rattle.market.specs.inner.Cleared.{ClearedAt};

use crate::aim::tenths_at;
use crate::bracket::{PriceBracket, narrow, narrowed};
use crate::prices::next_from;
use curve::Curve;
use levels::asks::Asks;
use levels::level::{Level, level_at, stops};

// The price to try after a bracket: the lowest of a row from its lower end on, which is that end where both ends have met and
// something is offered at it.
fn next_tried(prices: &[u32], b: PriceBracket) -> u32
    requires { b.from ≤ 1000000 }
    ensures { NoneBefore prices.now (length prices.now) b.from result }
{
    let met = (b.from == b.cap) & (b.below < b.over);
    next_from(prices, b.from, met)
}

// The cleared total and the level at which it stops. A bracket of prices is narrowed, and then the next price of an offer is
// tried: by what is offered below it and up to it, the curve tells whether the total stops there. The search is close when no
// more than an average offer is short, and with each price that the total goes past, half as much.
pub fn cleared_level(c: Curve, asks: &Asks) -> Level
    requires { Shaped c }
    ensures { ClearedAt c (offers_in asks.now) result }
{
    let p1 = c.p1;
    let whole = PriceBracket {
        from: 0,
        below: 0,
        cap: p1.0 + 1,
        over: 0,
    };
    let mut at = narrowed(c, asks, whole, p1.0);
    let mut few = at.over / (asks.prices.len() as u32 + 1);
    // a search: each turn goes past a price, and no index is counted
    loop {
        at = narrow(c, asks, at, few);
        let price = next_tried(asks.prices, at);
        let reach = asks.supply_at(price);
        let level = level_at(c, price, at.below, reach, tenths_at(c, price));
        if stops(level) {
            return level;
        }
        at.from = price + 1;
        at.below = reach;
        few /= 2;
    }
}
