// A price level: what is offered below it, the total that the curve reaches at it, and whether that total stops there.
ghost use Rattle.std.specs.Prelude.{◌≡◌, ◌≤◌};
ghost use Rattle.curve.specs.Shape.{Shaped};
ghost use Rattle.curve.specs.Price.{demand_of};
ghost use Rattle.levels.specs.inner.Reach.{LevelBetween, stops_there};

use crate::reach::reached;
use curve::Curve;

// The level at which a total stops: the total, the level's price, what it receives of the total, what is offered at it,
// and what is offered at it or below.
#[derive(Clone, Copy)]
pub struct Level {
    pub total: u32,
    pub price: u32,
    pub amount: u32,
    pub sum: u32,
    pub reach: u32,
}

// The level at a price with the total that the curve reaches there, by what is offered strictly below it and what is offered at
// it or below. Any guess of the total leads to the same level.
pub fn level_at(c: Curve, price: u32, below: u32, reach: u32, guess: u32) -> Level
    requires { Shaped c × (below ≤ reach) × (below ≤ c.q3) }
    ensures { LevelBetween (demand_of c) price below reach result }
{
    let total = reached(c, price, below, reach.min(c.q3), guess);
    Level {
        total,
        price,
        amount: (total - below).min(reach - below),
        sum: reach - below,
        reach,
    }
}

// The total of a level stops there: it leaves something of the level, or no price is higher.
pub fn stops(level: Level) -> bool
    ensures { result ≡ stops_there level }
{
    level.price == 1000000 || level.total < level.reach
}
