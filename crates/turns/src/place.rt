// Who stands at a place of a price level in the order of spare tenths.
ghost use Rattle.std.specs.Prelude.{◌≡◌, ◌&&◌, ◌<◌, get_or, eqb};
ghost use Rattle.auction.specs.Shares.{rank};
ghost use Rattle.columns.specs.inner.Sides.{rows_in, offers_in};
ghost use Rattle.turns.specs.Order.{placed, placed_at};

use crate::order::Contender;
use crate::standing::{contender_at, rank_at};
use columns::rows::Rows;

// A row has the price, and as many of its level stand before it as the place says.
fn stands_at(rows: &Rows, x: u32, price: u32, place: usize, row: usize) -> bool
    requires { row < rows_in rows.now }
    ensures { result ≡ (eqb (get_or rows.now.asks.prices.now row 0) price && eqb (rank (offers_in rows.now) x row) place) }
{
    rows.asks.prices[row] == price && rank_at(rows, x, row) as usize == place
}

// The row at a place of the level at a price, where one stands there.
pub(crate) fn row_at(rows: &Rows, x: u32, price: u32, place: usize) -> Option<usize>
    ensures { result ≡ placed (offers_in rows.now) x price place }
{
    (0..rows.asks.prices.len()).find(|row| { stands_at(rows, x, price, place, *row) })
}

// Who stands at a place, from 0, of the level at a price.
pub fn placed_at(rows: &Rows, x: u32, price: u32, place: usize) -> Option<Contender>
    ensures { result ≡ placed_at (offers_in rows.now) x price place }
{
    let row = row_at(rows, x, price, place)?;
    Some(contender_at(rows, x, row))
}
