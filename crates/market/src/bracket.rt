// Prices between which the total stops.
ghost use Rattle.std.specs.Prelude.{◌≡◌, ◌<◌, ◌≤◌, true, length};
ghost use Rattle.curve.specs.Shape.{Shaped};
ghost use Rattle.curve.specs.Price.{tenth_price, demand_of};
ghost use Rattle.levels.specs.inner.Asks.{offers_in};
ghost use Rattle.market.specs.inner.Bracket.{Under, Narrower, DrawnIn};

use crate::aim::{aim, close};
use crate::prices::{last_price, next_from};
use curve::{Curve, tenth_price};
use levels::asks::Asks;

// A price, with what is offered strictly below it, all of which clears; and a price up to which the total is looked for, with
// how much is offered up to it.
#[derive(Clone, Copy)]
pub struct PriceBracket {
    pub from: u32,
    pub below: u32,
    pub cap: u32,
    pub over: u32,
}

// The curve buys a quantity at a price.
fn bought(c: Curve, quantity: u32, price: u32) -> bool
    requires { Shaped c }
    ensures { result ≡ true → (quantity ≤ c.q3) × (price ≤ tenth_price c quantity) }
{
    if c.q3 < quantity {
        return false;
    }
    let bid = tenth_price(c, quantity);
    price <= bid.0
}

// The part of a bracket on one side of a price inside it.
pub(crate) fn narrowed(c: Curve, asks: &Asks, b: PriceBracket, price: u32) -> PriceBracket
    requires shaped { Shaped c × Under (demand_of c) (offers_in asks.now) b }
    requires from_le_price { (b.from ≤ price) × (price < b.cap) }
    ensures { Under (demand_of c) (offers_in asks.now) result × Narrower b result }
{
    let offered = asks.supply_at(price);
    if bought(c, offered, price) {
        PriceBracket {
            from: price + 1,
            below: offered,
            ..b
        }
    } else {
        PriceBracket {
            cap: price,
            over: offered,
            ..b
        }
    }
}

// As much is offered as before below one end and up to the other: the last price told nothing.
fn as_before(b: PriceBracket, old: PriceBracket) -> bool {
    b.below == old.below && b.over == old.over
}

// A bracket drawn in to the offers inside it, where the last price told nothing: the lower end, if it is the one that moved, to
// the lowest of their prices, and the upper end to the highest. No more is offered below the one, and no less up to the other.
fn drawn_in(prices: &[u32], b: PriceBracket, old: PriceBracket) -> PriceBracket
    requires { b.from ≤ 1000000 }
    ensures { DrawnIn prices.now (length prices.now) b result }
{
    if !as_before(b, old) {
        return b;
    }
    let from = next_from(prices, b.from, b.from == old.from);
    if b.cap <= from {
        return PriceBracket { from, ..b };
    }
    PriceBracket {
        from,
        cap: last_price(prices, from, b.cap),
        ..b
    }
}

// A bracket narrowed until the total stops close over its lower end. After a price that left more than half of it, its middle is
// the next one to try.
pub(crate) fn narrow(c: Curve, asks: &Asks, b: PriceBracket, few: u32) -> PriceBracket
    requires { Shaped c × Under (demand_of c) (offers_in asks.now) b }
    ensures { Under (demand_of c) (offers_in asks.now) result × (b.from ≤ result.from) }
{
    let mut at = b;
    let mut middle = true;
    // a search: both ends move, and no index is counted
    while at.from < at.cap {
        if close(c, at, few) {
            return at;
        }
        let looked = narrowed(c, asks, at, aim(c, at, middle));
        let next = drawn_in(asks.prices, looked, at);
        middle = !middle & ((at.cap - at.from) / 2 < next.cap.saturating_sub(next.from));
        at = next;
    }
    at
}
