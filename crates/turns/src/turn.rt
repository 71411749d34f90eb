// A row's turn for the spare tenths of its level.
ghost use Rattle.std.specs.Prelude.{◌≡◌, ◌<◌, get_or};
ghost use Rattle.auction.specs.Shares.{rank, spare_tenths};
ghost use Rattle.columns.specs.inner.Sides.{rows_in, offers_in};
ghost use Rattle.turns.specs.Turn.{rival_place, rival_row, rival_by, turn_at};

use crate::level::part_at;
use crate::order::{Contender, Key, decided};
use crate::place::row_at;
use crate::spare::{contenders_at, spares_at};
use crate::standing::{contender_at, rank_at};
use columns::rows::Rows;

// The row at the other side of the cut, and what decides against it.
#[derive(Clone, Copy)]
pub struct Rival {
    pub contender: Contender,
    pub decided: Key,
}

// A row's place, from 0, among how many that contend for how many spare tenths, what the row clears, and its rival, where
// any tenth is spare.
#[derive(Clone, Copy)]
pub struct Turn {
    pub place: u32,
    pub contenders: u32,
    pub spares: u32,
    pub cleared: u32,
    pub rival: Option<Rival>,
}

// The place at the other side of the cut.
fn other_side(place: u32, spares: u32) -> u32
    requires { 0 < spares }
    ensures { result ≡ rival_place place spares }
{
    if place < spares { spares } else { spares - 1 }
}

// A row against the one at the other side of the cut.
fn rival_at(rows: &Rows, x: u32, row: usize, place: u32, spares: u32) -> Option<Rival>
    requires row_in_bounds { row < rows_in rows.now }
    requires place_value { place ≡ rank (offers_in rows.now) x row }
    requires spares_value { spares ≡ spare_tenths (offers_in rows.now) x (get_or rows.now.asks.prices.now row 0) }
    ensures { result ≡ rival_by (offers_in rows.now) x row (rival_row (offers_in rows.now) x row) }
{
    if spares == 0 {
        return None;
    }
    let other = row_at(
        rows,
        x,
        rows.asks.prices[row],
        other_side(place, spares) as usize,
    )?;
    let own = contender_at(rows, x, row);
    let contender = contender_at(rows, x, other);
    Some(Rival {
        contender,
        decided: decided(own, contender),
    })
}

// A row's turn.
pub fn turn_at(rows: &Rows, x: u32, row: usize) -> Turn
    requires { row < rows_in rows.now }
    ensures { result ≡ turn_at (offers_in rows.now) x row }
{
    let price = rows.asks.prices[row];
    let place = rank_at(rows, x, row);
    let spares = spares_at(&rows.asks, x, price);
    Turn {
        place,
        contenders: contenders_at(rows.asks.prices, price),
        spares,
        cleared: part_at(&rows.asks, x, row) + u32::from(place < spares),
        rival: rival_at(rows, x, row, place, spares),
    }
}
