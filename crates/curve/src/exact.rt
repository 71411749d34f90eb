// The price of the curve between cents: whole cents, and what rounding down leaves of a cent.
ghost use Rattle.std.specs.Prelude.{◌≡◌, ◌≤◌, ◌<◌};
ghost use Rattle.curve.specs.Shape.{Shaped};
ghost use Rattle.curve.specs.Exact.{exact_line, exact_price, exact_curve_price};

use crate::Curve;
use units::CentsPerMwDay;

// A price between cents: the whole cents and remainder / divisor of a cent.
#[derive(Clone, Copy)]
pub struct ExactPrice {
    pub cents: CentsPerMwDay,
    pub remainder: u32,
    // the width of the line in tenths; 1 where the curve is level
    pub divisor: u32,
}

// The price on the line from (qa, pa) to (qb, pb) at k.
fn between(pa: u32, pb: u32, qa: u32, qb: u32, k: u32) -> ExactPrice
    requires { (pb ≤ pa) × (qa < qb) × (qa ≤ k) × (k ≤ qb) }
    ensures { result ≡ exact_line pa pb qa qb k }
{
    let before = u64::from(pa) * u64::from(qb - k);
    let after = u64::from(pb) * u64::from(k - qa);
    let numerator = before + after;
    let divisor = qb - qa;
    let width = u64::from(divisor);
    let remainder = (numerator % width) as u32;
    ExactPrice {
        cents: CentsPerMwDay((numerator / width) as u32),
        remainder,
        divisor,
    }
}

// The price at a quantity up to Q3. Q1 belongs to the level stretch, and Q2 to the line that ends there.
pub(crate) fn exact_price(c: Curve, k: u32) -> ExactPrice
    requires { Shaped c × (k ≤ c.q3) }
    ensures { result ≡ exact_price c k }
{
    if k <= c.q1 {
        ExactPrice {
            cents: c.p1,
            remainder: 0,
            divisor: 1,
        }
    } else if k <= c.q2 {
        between(c.p1.0, c.p2.0, c.q1, c.q2, k)
    } else {
        between(c.p2.0, 0, c.q2, c.q3, k)
    }
}

// The price at a quantity, or that there is none.
pub fn price_at(c: Curve, k: u32) -> Option<ExactPrice>
    requires { Shaped c }
    ensures { result ≡ exact_curve_price c k }
{
    if k <= c.q3 {
        Some(exact_price(c, k))
    } else {
        None
    }
}
