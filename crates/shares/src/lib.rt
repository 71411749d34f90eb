// What each row clears of a total: whole under the level at which the total stops, nothing over it, and at it a share.
#![tactic(auto)]

mod spare;

ghost use Rattle.std.specs.Prelude.{◌≡◌, ◌≤◌, length};
ghost use Rattle.auction.specs.Offers.{level_sum};
ghost use Rattle.columns.specs.inner.Sides.{rows_in, offers_in};
ghost use Rattle.levels.specs.inner.Rows.{RowLists, listed};
ghost use Rattle.levels.specs.inner.Asks.{offers_in as asked_in};
ghost use Rattle.levels.specs.inner.Stop.{StopsAt};
ghost use Rattle.shares.specs.inner.Out.{SharedOut};

use crate::spare::give;
use columns::rows::Rows;
use levels::asks::Asks;
use levels::level::Level;
use parts::parts;

// What the rows at a price hold together.
fn held_at(prices: &[u32], shares: &[u32], price: u32) -> u32
    requires { RowLists prices.now shares.now (length prices.now) }
    ensures { result ≡ level_sum (listed prices.now shares.now (length prices.now)) price }
{
    let held = Asks {
        prices,
        quantities: shares,
    };
    held.supply_at(price) - held.supply_below(price)
}

// Writes what each row clears of the total that stops at the level, and leaves what stands past them.
pub fn share_out(rows: &Rows, level: Level, out: &mut [u32])
    requires rows_in_bounds { rows_in rows.now ≤ length out.old }
    requires stops_at { StopsAt (asked_in rows.now.asks) level.total level }
    ensures { SharedOut (offers_in rows.now) level.total out.old out.new }
{
    parts(&rows.asks, level, out);
    let spare = level.amount - held_at(rows.asks.prices, out, level.price);
    if 0 < spare {
        give(rows, level, spare, out);
    }
}
