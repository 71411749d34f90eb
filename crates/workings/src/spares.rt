// The contest for the spare tenths of a price level.
ghost use Rattle.std.specs.Prelude.{◌≡◌};
ghost use Rattle.columns.specs.inner.Sides.{offers_in};
ghost use Rattle.turns.specs.Order.{contenders as contending, placed_at};
ghost use Rattle.workings.specs.Works.{contest_at};

use columns::rows::Rows;
use turns::order::Contender;
use turns::place::placed_at;
use turns::spare::{contenders_at, spares_at};

// How many tenths are spare, how many rows contend for them, and who stands at one place in their order.
#[derive(Clone, Copy)]
pub struct Contest {
    pub spares: u32,
    pub contenders: u32,
    pub placed: Option<Contender>,
}

// Who stands at a place of the level at a price. A place past the last of the contenders is answered without a search.
fn holder_at(rows: &Rows, x: u32, price: u32, place: usize, contenders: u32) -> Option<Contender>
    requires { contenders ≡ contending (offers_in rows.now) price }
    ensures { result ≡ placed_at (offers_in rows.now) x price place }
{
    if contenders as usize <= place {
        return None;
    }
    placed_at(rows, x, price, place)
}

// The contest of the level at a price, and who stands at a place in it.
pub(crate) fn contest_at(rows: &Rows, x: u32, price: u32, place: usize) -> Contest
    ensures { result ≡ contest_at (offers_in rows.now) x price place }
{
    let spares = spares_at(&rows.asks, x, price);
    let contenders = contenders_at(rows.asks.prices, price);
    Contest {
        spares,
        contenders,
        placed: holder_at(rows, x, price, place, contenders),
    }
}
