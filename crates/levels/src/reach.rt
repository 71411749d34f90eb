// The quantity up to which the curve asks a price or more.
ghost use Rattle.std.specs.Prelude.{◌≤◌};
ghost use Rattle.curve.specs.Shape.{Shaped};
ghost use Rattle.curve.specs.Price.{demand_of};
ghost use Rattle.levels.specs.inner.Reach.{Reaches};

use curve::{Curve, tenth_price};

// The largest quantity from `below` to `top` at which the curve asks the price or more, or `below`. The guess is where to
// look first.
pub(crate) fn reached(c: Curve, price: u32, below: u32, top: u32, guess: u32) -> u32
    requires { Shaped c × (below ≤ top) × (top ≤ c.q3) }
    ensures { Reaches (demand_of c) price below top result result }
{
    let mut low = below;
    let mut high = top;
    // what is left to look at shrinks from both ends: no index is counted
    while low < high {
        let tenths = guess.clamp(low + 1, high);
        if price <= tenth_price(c, tenths).0 {
            low = tenths;
        } else {
            high = tenths - 1;
        }
    }
    low
}
