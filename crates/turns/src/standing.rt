// A row among those of its level, in the order of spare tenths.
ghost use Rattle.std.specs.Prelude.{◌≡◌, ◌≤◌, ◌<◌};
ghost use Rattle.auction.specs.Shares.{rank};
ghost use Rattle.columns.specs.inner.Sides.{rows_in, offers_in};
ghost use Rattle.turns.specs.Order.{contender_at};
ghost use Rattle.turns.specs.inner.Contending.{Parted, before_in};

use crate::order::{Contender, contender_of, is_before};
use columns::rows::Rows;
use reasons::share::{Received, level_at};

// How many rows of the level at a price stand before a contender.
fn before_in(rows: &Rows, price: u32, level: Received, own: Contender) -> u32
    requires { Parted rows.now.asks.prices.now (rows_in rows.now) price level }
    ensures { (result ≡ before_in (offers_in rows.now) price level own) × (result ≤ 600) }
{
    let mut count: u32 = 0;
    for row in 0..rows.asks.prices.len() {
        count += u32::from(is_before(rows, row, price, level, own));
    }
    count
}

// What a row contends for a spare tenth of its level with.
pub(crate) fn contender_at(rows: &Rows, x: u32, row: usize) -> Contender
    requires { row < rows_in rows.now }
    ensures { result ≡ contender_at (offers_in rows.now) x row }
{
    let level = level_at(&rows.asks, x, rows.asks.prices[row]);
    contender_of(rows, row, level)
}

// How many rows of its level stand before a row.
pub(crate) fn rank_at(rows: &Rows, x: u32, row: usize) -> u32
    requires { row < rows_in rows.now }
    ensures { (result ≡ rank (offers_in rows.now) x row) × (result ≤ 600) }
{
    let price = rows.asks.prices[row];
    let level = level_at(&rows.asks, x, price);
    let own = contender_at(rows, x, row);
    before_in(rows, price, level, own)
}
