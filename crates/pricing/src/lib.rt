// The clearing price, or that there is none.
#![tactic(auto)]

ghost use Rattle.std.specs.Prelude.{◌≡◌, ◌≤◌};
ghost use Rattle.curve.specs.Shape.{Shaped};
ghost use Rattle.curve.specs.Price.{demand_of};
ghost use Rattle.pricing.specs.inner.Price.{price_at};

use curve::{Curve, tenth_price};
use levels::level::Level;
use units::CentsPerMwDay;

// The lesser of the curve price at the total and the price of the level at which it stops, where that level has more.
pub fn clearing_price(c: Curve, level: Level) -> Option<CentsPerMwDay>
    requires { Shaped c × (level.total ≤ c.q3) }
    ensures { result ≡ price_at (demand_of c) level }
{
    if level.total == 0 {
        return None;
    }
    let curve_price = tenth_price(c, level.total);
    if level.total < level.reach {
        Some(CentsPerMwDay(curve_price.0.min(level.price)))
    } else {
        Some(curve_price)
    }
}
