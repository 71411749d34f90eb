// The spare tenths of a price level, and how many rows contend for them.
ghost use Rattle.std.specs.Prelude.{◌≡◌, [], ◌≤◌, length};
ghost use Rattle.auction.specs.Shares.{spare_tenths};
ghost use Rattle.levels.specs.inner.Asks.{offers_in};
ghost use Rattle.levels.specs.inner.Rows.{listed};
ghost use Rattle.reasons.specs.inner.Share.{Positive};
ghost use Rattle.turns.specs.Order.{contenders};

use crate::level::parts_at;
use levels::asks::Asks;
use reasons::share::level_at;

// What the parts rounded down leave of what the level at a price receives of x.
pub fn spares_at(asks: &Asks, x: u32, price: u32) -> u32
    requires { Positive asks.now.quantities.now (length asks.now.prices.now) }
    ensures { result ≡ spare_tenths (offers_in asks.now) x price }
{
    let level = level_at(asks, x, price);
    level.amount - parts_at(asks, price, level)
}

// How many rows have the price. It looks at prices alone.
pub fn contenders_at(prices: &[u32], price: u32) -> u32
    requires { length prices.now ≤ 600 }
    ensures { result ≡ contenders (listed prices.now [] (length prices.now)) price }
{
    let mut count: u32 = 0;
    for held in prices {
        count += u32::from(*held == price);
    }
    count
}
