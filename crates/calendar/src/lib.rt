// The calendar of delivery years.
#![tactic(auto)]

ghost use Rattle.std.specs.Prelude.{◌≡◌, ◌≤◌};
ghost use Rattle.calendar.specs.Year.{leap, days_of};

// Whether a calendar year has a 29 February, by the Gregorian rule.
fn leap(year: u64) -> bool
    ensures { result ≡ leap year }
{
    (year % 4 == 0) & ((year % 100 != 0) | (year % 400 == 0))
}

// The number of days of the delivery year that starts in a calendar year.
pub fn days_of(year: u32) -> u64
    ensures { (result ≡ days_of year) × (result ≤ 366) }
{
    if leap(u64::from(year) + 1) { 366 } else { 365 }
}
