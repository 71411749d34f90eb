// Refusals 4 and 5: a parameter that is missing, or out of range.
ghost use Rattle.std.specs.Prelude.{◌≡◌, ◌≤◌, length};
ghost use Rattle.values.specs.Head.{parameters_of};
ghost use Rattle.values.specs.Refusals.{unless, parameter_out_of_range};
ghost use Rattle.limits.specs.Parameters.{within, given_within, by_margin, offset_most, margin_within, missing_fault, range_fault};
ghost use Rattle.limits.specs.inner.Parameters.{values_needed, missing_marks};

use block::bytes::u16_at;
use values::head::Parameters;
use values::{Refusal, Value};

// Whether the curve of a delivery year goes by the reserve margin.
#[tactic(auto, unfolding(crate::specs::Parameters::by_margin))]
pub fn by_margin(year: u32) -> bool
    ensures { result ≡ by_margin year }
{
    within(2022, 2025, year)
}

// How many of the values a year needs, in the order of their marks: the margin, the last, in the years that go by it.
fn values_needed(year: u32) -> u32
    ensures { (result ≡ values_needed (by_margin year)) × (result ≤ 5) }
{
    if by_margin(year) { 5 } else { 4 }
}

// 4 by the marks: trailing zeros of the inverted marks, plus two, give the first missing field, where the year needs it.
pub fn missing(year: u32, marks: u8) -> Result<(), Refusal>
    ensures { result ≡ missing_marks (by_margin year) marks }
{
    let gap = (!marks).trailing_zeros();
    if gap < values_needed(year) {
        Err(Refusal::MissingParameter(gap + 2))
    } else {
        Ok(())
    }
}

// 4, of the parameters that a block 0 holds.
pub fn missing_in(s: &[u8]) -> Result<(), Refusal>
    requires { 512 ≤ length s.now }
    ensures { result ≡ missing_fault (parameters_of s.now) }
{
    missing(u16_at(s, 6), s[26])
}

// Whether a number is from a least to a most.
pub fn within(least: u32, most: u32, number: u32) -> bool
    ensures { result ≡ within least most number }
{
    (least <= number) & (number <= most)
}

// Whether a value is missing, or given from a least to a most.
pub fn given_within(least: u32, most: u32, v: Value) -> bool
    ensures { result ≡ given_within least most v }
{
    match v {
        Value::Given(number) => within(least, most, number),
        Value::Missing => true,
    }
}

// The most that an offset can be: C, and where C is missing 1,000,000.
pub fn offset_most(cost: Value) -> u32
    ensures { result ≡ offset_most cost }
{
    match cost {
        Value::Given(number) => number,
        Value::Missing => 1000000,
    }
}

// Whether a year can have this margin: 0 to 5,000 where its curve goes by the margin, and none in any other year.
fn margin_within(year: u32, margin: Value) -> bool
    ensures { result ≡ margin_within year margin }
{
    match margin {
        Value::Given(number) => by_margin(year) & within(0, 5000, number),
        Value::Missing => true,
    }
}

// 5 of a field, where its value does not hold.
fn ranged(holds: bool, field: u32) -> Result<(), Refusal>
    ensures { result ≡ unless holds (parameter_out_of_range field) }
{
    if holds {
        Ok(())
    } else {
        Err(Refusal::ParameterOutOfRange(field))
    }
}

// 5: the first field whose value is given and out of range.
#[tactic(auto, using(values::proofs::Firsts::in_turn), unfolding(crate::specs::Parameters::range_fault))]
pub fn parameter_fault(p: Parameters) -> Result<(), Refusal>
    ensures { result ≡ range_fault p }
{
    ranged(within(2022, 2099, p.year), 1)?;
    ranged(given_within(1, 1000000, p.cost), 2)?;
    ranged(given_within(0, offset_most(p.cost), p.offset), 3)?;
    ranged(given_within(0, 5000, p.outage), 4)?;
    ranged(given_within(1000, 2000000, p.requirement), 5)?;
    ranged(margin_within(p.year, p.margin), 6)
}
