// The Variable Resource Requirement curve: its three points and its price at a quantity.
#![tactic(auto)]

pub mod exact;

ghost use Rattle.std.specs.Prelude.{◌≡◌, ◌*◌, ◌≤◌, ◌<◌};
ghost use Rattle.laws.specs.Nearest.{nearest};
ghost use Rattle.curve.specs.Points.{net_cost, first_price, curve_of};
ghost use Rattle.curve.specs.inner.Points.{InRange};
ghost use Rattle.curve.specs.Shape.{Shaped};
ghost use Rattle.curve.specs.inner.Shape.{Usable};
ghost use Rattle.curve.specs.Price.{tenth_price};

use crate::exact::exact_price;
use units::{CentsPerMwDay, DollarsPerMwYear};

// What the region's curve is made from, every value given and in range.
#[derive(Clone, Copy)]
pub struct Terms {
    pub cost: DollarsPerMwYear,
    pub offset: DollarsPerMwYear,
    // EFORd, in hundredths of a percent
    pub outage: u32,
    // the reliability requirement, in tenths of a megawatt
    pub requirement: u32,
}

// The weights of an edition of the tariff: what multiplies the net cost at points 1 and 2, in quarters, and how far the
// three quantities stand under and over the requirement, in hundredths of a percent.
#[derive(Clone, Copy)]
pub struct Weights {
    pub first: u32,
    pub second: u32,
    pub under: u32,
    pub over: u32,
    pub last: u32,
}

impl Weights {
    // Delivery years 2022 to 2025: 1.5 and 0.75 times the net cost; 1.2 percent under 100 percent and the reserve margin, 1.9
    // and 7.8 percent over it.
    pub const Y2022: Weights = Weights {
        first: 6,
        second: 3,
        under: 120,
        over: 190,
        last: 780,
    };

    // Delivery years from 2026 on: 1.75 and 0.75 times the net cost; 99, 101.5 and 104.5 percent.
    pub const Y2026: Weights = Weights {
        first: 7,
        second: 3,
        under: 100,
        over: 150,
        last: 450,
    };
}

// 100 percent, in hundredths of a percent.
pub const WHOLE: u32 = 10000;

// The points (Q1, P1) and (Q2, P2), and Q3, at which the price is 0.
#[derive(Clone, Copy)]
pub struct Curve {
    pub p1: CentsPerMwDay,
    pub p2: CentsPerMwDay,
    pub q1: u32,
    pub q2: u32,
    pub q3: u32,
}

// The requirement times weight / whole, to the nearest tenth.
fn quantity(requirement: u32, weight: u32, whole: u32) -> u32
    requires { (requirement ≤ 2000000) × (10 * weight ≤ 11 * whole) × (0 < whole) }
    ensures { result ≡ nearest (requirement * weight) whole }
{
    let exact = u64::from(requirement) * u64::from(weight);
    let over = u64::from(whole);
    let tenths = (2 * exact + over) / (2 * over);
    tenths as u32
}

// C minus E.
fn net_cost(t: Terms) -> DollarsPerMwYear
    requires { InRange t }
    ensures { result.0 ≡ net_cost t }
{
    DollarsPerMwYear(t.cost.0 - t.offset.0)
}

// P1: the greater of C and the first weight times the net cost, by the day.
fn first_price(w: Weights, t: Terms) -> CentsPerMwDay
    requires { (w.first ≤ 7) × InRange t }
    ensures { result.0 ≡ first_price w t }
{
    let net = net_cost(t);
    if t.cost.0 * 4 < net.0 * w.first {
        units::daily(net, w.first, t.outage)
    } else {
        units::daily(t.cost, 4, t.outage)
    }
}

// The curve of a region by the weights of an edition; `whole` stands for the requirement, in hundredths of a percent.
pub fn points(w: Weights, whole: u32, t: Terms) -> Curve
    requires { Usable w whole × InRange t }
    ensures { (result ≡ curve_of w whole t) × Shaped result }
{
    Curve {
        p1: first_price(w, t),
        p2: units::daily(net_cost(t), w.second, t.outage),
        q1: quantity(t.requirement, whole - w.under, whole),
        q2: quantity(t.requirement, whole + w.over, whole),
        q3: quantity(t.requirement, whole + w.last, whole),
    }
}

// The price at a quantity up to Q3, in whole cents.
pub fn tenth_price(c: Curve, k: u32) -> CentsPerMwDay
    requires { Shaped c × (k ≤ c.q3) }
    ensures { (result.0 ≡ tenth_price c k) × (result.0 ≤ c.p1.0) }
{
    exact_price(c, k).cents
}
