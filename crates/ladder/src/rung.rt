// The rungs of the ladder of price levels around the one at which a total stops.
ghost use Rattle.std.specs.Prelude.{◌≡◌};
ghost use Rattle.levels.specs.Stop.{stop_level};
ghost use Rattle.levels.specs.inner.Asks.{offers_in};
ghost use Rattle.ladder.specs.Ladder.{rung_of, rung_at, ladder_at};

use crate::price::{down_from, rung_price};
use levels::asks::Asks;

// A price level: its price, what is offered at it, what it receives of the total, and what is offered at all higher prices.
#[derive(Clone, Copy)]
pub struct Rung {
    pub price: u32,
    pub offered: u32,
    pub receives: u32,
    pub higher: u32,
}

// What is offered below the lowest rung, and one of the rungs.
#[derive(Clone, Copy)]
pub struct Ladder {
    pub lower: u32,
    pub rung: Option<Rung>,
}

// The level at a price, with what it receives of x.
fn rung_of(asks: &Asks, x: u32, price: u32) -> Rung
    ensures { result ≡ rung_of (offers_in asks.now) x price }
{
    let below = asks.supply_below(price);
    let reach = asks.supply_at(price);
    let offered = reach.saturating_sub(below);
    Rung {
        price,
        offered,
        receives: x.saturating_sub(below).min(offered),
        higher: asks.supply_at(1000000).saturating_sub(reach),
    }
}

// The k-th level from a price on, where there is one.
fn rung_at(asks: &Asks, x: u32, k: usize, from: u32) -> Option<Rung>
    ensures { result ≡ rung_at (offers_in asks.now) x k from }
{
    let price = rung_price(asks.prices, k, from)?;
    Some(rung_of(asks, x, price))
}

// The ladder around the price at which x stops, which has six levels at or under that price, and its rung k from the
// lowest.
pub fn ladder_at(asks: &Asks, x: u32, stop: u32, k: usize) -> Ladder
    requires { stop ≡ stop_level (offers_in asks.now) x }
    ensures { result ≡ ladder_at (offers_in asks.now) x k }
{
    let from = down_from(asks.prices, 6, stop + 1);
    Ladder {
        lower: asks.supply_below(from),
        rung: rung_at(asks, x, k, from),
    }
}
