// The two units of money, kept apart, and the one conversion between them.
#![tactic(auto)]

ghost use Rattle.std.specs.Prelude.{◌≡◌, ◌*◌, ◌≤◌};
ghost use Rattle.units.specs.Conversion.{daily_cents};

// Whole dollars per MW-year of installed capacity: a cost of new entry, a revenue offset.
#[derive(Clone, Copy)]
pub struct DollarsPerMwYear(pub u32);

// Whole cents per MW-day of unforced capacity: an offer's price, a clearing price.
#[derive(Clone, Copy)]
pub struct CentsPerMwDay(pub u32);

// `quarters` fourths of a yearly amount as a daily price, at an outage rate in hundredths of a percent. Rounded once.
pub fn daily(amount: DollarsPerMwYear, quarters: u32, outage: u32) -> CentsPerMwDay
    requires { (amount.0 ≤ 1000000) × (quarters ≤ 7) × (outage ≤ 5000) }
    ensures { (result.0 ≡ daily_cents (amount.0 * quarters) outage) × (result.0 ≤ 958904) }
{
    let exact = u64::from(amount.0) * u64::from(quarters) * 100 * 10000;
    let over = 4 * 365 * (10000 - u64::from(outage));
    let nearest = (2 * exact + over) / (2 * over);
    CentsPerMwDay(nearest as u32)
}
