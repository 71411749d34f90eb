// Which edition of the curve a delivery year selects, and how its points come of the parameters.
ghost use Rattle.std.specs.Prelude.{◌≡◌, ◌≤◌};
ghost use Rattle.forms.specs.Shown.{Shown};
ghost use Rattle.lines.specs.Points.{net_cents, first_cents, prices_numbers, quantities_numbers};
ghost use Rattle.lines.specs.inner.Points.{Selected, Whole};

use curve::{Curve, WHOLE, Weights};
use forms::put_form;
use limits::parameters::by_margin;
use values::head::Parameters;
use values::number_held;

// The weights of an edition of the curve: the early one goes by the margin.
#[tactic(auto, unfolding(crate::specs::Points::weights_of))]
fn weights_of(early: bool) -> Weights
    ensures { Selected early result }
{
    if early {
        Weights::Y2022
    } else {
        Weights::Y2026
    }
}

// What stands for the requirement, in hundredths of a percent.
#[tactic(auto, unfolding(crate::specs::Points::whole_of))]
fn whole_of(early: bool, margin: u32) -> u64
    ensures { Whole early margin result }
{
    let whole = u64::from(WHOLE);
    if early {
        whole + u64::from(margin)
    } else {
        whole
    }
}

// So many quarters of the net cost, in cents.
#[tactic(auto, unfolding(crate::specs::Points::net_cents))]
fn net_cents(cost: u32, offset: u32, quarters: u32) -> u64
    requires { quarters ≤ 7 }
    ensures { result ≡ net_cents cost offset quarters }
{
    u64::from(cost.saturating_sub(offset)) * u64::from(quarters) * 25
}

// The greater of C and so many quarters of the net cost, in cents.
#[tactic(auto, unfolding(crate::specs::Points::first_cents))]
fn first_cents(cost: u32, offset: u32, quarters: u32) -> u64
    requires { quarters ≤ 7 }
    ensures { result ≡ first_cents cost offset quarters }
{
    (u64::from(cost) * 100).max(net_cents(cost, offset, quarters))
}

// Puts the edition and how the prices of points 1 and 2 come of the parameters.
#[tactic(auto, using(wording::proofs::Showing::showing), unfolding(crate::specs::Points::prices_numbers))]
pub fn put_prices(room: &mut [u8], at: usize, p: Parameters, c: Curve) -> usize
    ensures { Shown room.old at (prices_numbers p c) room.new result }
{
    let early = by_margin(p.year);
    let weights = weights_of(early);
    let cost = number_held(p.cost);
    let offset = number_held(p.offset);
    let left = u64::from(WHOLE.saturating_sub(number_held(p.outage)));
    put_form(
        room,
        at,
        b"
The curve is that of delivery years [from 2026 on|2022 to 2025, by the margin],
rounded to whole cents and tenths of a MW, a half up
  P1 = max(C, [1.75|1.5] x (C - E)) / 365 / (1 - F)
     = $ / 365 / $ percent = $ dollars per MW-day
  P2 = 0.75 x (C - E) / 365 / (1 - F)
     = $ / 365 / $ percent = $ dollars per MW-day
  P3 = 0.00: the curve ends at a price of zero
",
        &[
            u64::from(early),
            u64::from(early),
            first_cents(cost, offset, weights.first),
            left,
            u64::from(c.p1.0),
            net_cents(cost, offset, weights.second),
            left,
            u64::from(c.p2.0),
        ],
    )
}

// Puts how the quantities of the three points come of the requirement.
#[tactic(auto, using(wording::proofs::Showing::showing), unfolding(crate::specs::Points::quantities_numbers))]
pub fn put_quantities(room: &mut [u8], at: usize, p: Parameters, c: Curve) -> usize
    ensures { Shown room.old at (quantities_numbers p c) room.new result }
{
    let early = by_margin(p.year);
    let weights = weights_of(early);
    let whole = whole_of(early, number_held(p.margin));
    put_form(
        room,
        at,
        b"  Q1 = R x @ / @ = ~ MW
  Q2 = R x @ / @ = ~ MW
  Q3 = R x @ / @ = ~ MW; past it nothing is bought
[|  @ is 100 percent and the margin in hundredths; 1.2 less, 1.9 and 7.8 more
]",
        &[
            whole - u64::from(weights.under),
            whole,
            u64::from(c.q1),
            whole + u64::from(weights.over),
            whole,
            u64::from(c.q2),
            whole + u64::from(weights.last),
            whole,
            u64::from(c.q3),
            u64::from(early),
            whole,
        ],
    )
}
