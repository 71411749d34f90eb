// A row's share of its price level.
ghost use Rattle.std.specs.Prelude.{◌≡◌, ◌<◌, get_or, length};
ghost use Rattle.levels.specs.inner.Asks.{offers_in};
ghost use Rattle.reasons.specs.Share.{share_at, row_share_at};
ghost use Rattle.reasons.specs.inner.Share.{Positive, LevelAt};

use levels::asks::Asks;

// What a row's level receives and offers in all, its exact part of that rounded down, and what rounding down leaves: the
// part is (quantity times amount) over sum, and the remainder is over sum too.
#[derive(Clone, Copy)]
pub struct Share {
    pub amount: u32,
    pub sum: u32,
    pub down: u64,
    pub remainder: u64,
}

// What a price level receives of a total, and what is offered at it.
#[derive(Clone, Copy)]
pub struct Received {
    pub amount: u32,
    pub sum: u32,
}

// What the level at a price receives of x, and what is offered at it.
pub fn level_at(asks: &Asks, x: u32, price: u32) -> Received
    ensures { LevelAt (offers_in asks.now) x price result }
{
    let below = asks.supply_below(price);
    let sum = asks.supply_at(price) - below;
    Received {
        amount: x.saturating_sub(below).min(sum),
        sum,
    }
}

// The share of a row that is there.
fn share_at(asks: &Asks, x: u32, row: usize) -> Share
    requires { (row < length asks.now.prices.now) × (0 < get_or asks.now.quantities.now row 0) }
    ensures { result ≡ share_at (offers_in asks.now) x row }
{
    let level = level_at(asks, x, asks.prices[row]);
    let exact = u64::from(asks.quantities[row]) * u64::from(level.amount);
    let sum = u64::from(level.sum);
    Share {
        amount: level.amount,
        sum: level.sum,
        down: exact / sum,
        remainder: exact % sum,
    }
}

// The share of a row, or that it isn't there.
pub fn row_share_at(asks: &Asks, x: u32, row: usize) -> Option<Share>
    requires { Positive asks.now.quantities.now (length asks.now.prices.now) }
    ensures { result ≡ row_share_at (offers_in asks.now) x row }
{
    if row < asks.prices.len() {
        Some(share_at(asks, x, row))
    } else {
        None
    }
}
