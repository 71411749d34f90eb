// Where a total stops on the curve, and why.
ghost use Rattle.std.specs.Prelude.{◌≡◌, ◌≤◌};
ghost use Rattle.curve.specs.Shape.{Shaped};
ghost use Rattle.levels.specs.inner.Asks.{offers_in};
ghost use Rattle.reasons.specs.Stop.{tenth_at, next_at, stop_at};

use curve::{Curve, tenth_price};
use levels::asks::Asks;
use levels::level::Level;
use market::total::cleared_level;
use units::CentsPerMwDay;

// A tenth of a megawatt: the curve price there, and everything offered at that price or below.
#[derive(Clone, Copy)]
pub struct Tenth {
    pub price: CentsPerMwDay,
    pub offered: u32,
}

// Where a total stops: the curve, the price level at which it stops, the total's own tenth and the next one.
#[derive(Clone, Copy)]
pub struct Stop {
    pub curve: Curve,
    pub level: Level,
    pub last: Tenth,
    pub next: Option<Tenth>,
}

// The curve price at k, and what is offered at it or below.
fn tenth_at(c: Curve, asks: &Asks, k: u32) -> Tenth
    requires { Shaped c × (k ≤ c.q3) }
    ensures { result ≡ tenth_at c (offers_in asks.now) k }
{
    let price = tenth_price(c, k);
    Tenth {
        price,
        offered: asks.supply_at(price.0),
    }
}

// The tenth past x.
fn next_at(c: Curve, asks: &Asks, x: u32) -> Option<Tenth>
    requires { Shaped c }
    ensures { result ≡ next_at c (offers_in asks.now) x }
{
    if x < c.q3 {
        Some(tenth_at(c, asks, x + 1))
    } else {
        None
    }
}

// Where the cleared total of rows stops on a curve.
pub fn stop_at(c: Curve, asks: &Asks) -> Stop
    requires { Shaped c }
    ensures { result ≡ stop_at c (offers_in asks.now) }
{
    let level = cleared_level(c, asks);
    Stop {
        curve: c,
        level,
        last: tenth_at(c, asks, level.total),
        next: next_at(c, asks, level.total),
    }
}
