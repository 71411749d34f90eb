// A price level, and each row's part of it rounded down.
ghost use Rattle.std.specs.Prelude.{◌≡◌, cond, ◌*◌, ◌/◌, ◌≤◌, ◌<◌, eqb, length};
ghost use Rattle.auction.specs.Shares.{share_down};
ghost use Rattle.levels.specs.inner.Asks.{offers_in};
ghost use Rattle.reasons.specs.inner.Share.{Positive};
ghost use Rattle.turns.specs.inner.Contending.{Parted, parts_in};

use levels::asks::Asks;
use reasons::share::{Received, level_at};

// A row's part of the level at a price, rounded down: nothing where the row has another price.
fn part(price: u32, quantity: u32, at: u32, level: Received) -> u32
    requires { (price ≡ at → 0 < level.sum) × (level.amount ≤ level.sum) × (quantity ≤ 200000) }
    ensures { (result ≡ cond (eqb price at) (quantity * level.amount / level.sum) 0) × (result ≤ quantity) }
{
    if price == at {
        (u64::from(quantity) * u64::from(level.amount) / u64::from(level.sum)) as u32
    } else {
        0
    }
}

// The parts of a level rounded down, together.
pub(crate) fn parts_at(asks: &Asks, price: u32, level: Received) -> u32
    requires { Parted asks.now.prices.now (length asks.now.prices.now) price level }
    ensures { result ≡ parts_in (offers_in asks.now) price level }
{
    let mut sum: u32 = 0;
    for row in 0..asks.prices.len() {
        sum += part(asks.prices[row], asks.quantities[row], price, level);
    }
    sum
}

// A row's part of its level, rounded down.
pub(crate) fn part_at(asks: &Asks, x: u32, row: usize) -> u32
    requires { Positive asks.now.quantities.now (length asks.now.prices.now) × (row < length asks.now.prices.now) }
    ensures { (result ≡ share_down (offers_in asks.now) x row) × (result ≤ 200000) }
{
    let price = asks.prices[row];
    let level = level_at(asks, x, price);
    part(price, asks.quantities[row], price, level)
}
