// The region's parameters, as block 0 holds them.
ghost use Rattle.std.specs.Prelude.{◌≡◌, ◌≤◌, ◌<◌, length};
ghost use Rattle.values.specs.Head.{parameters_of, edition_in, offers_in};

use crate::{Value, value_at};
use block::bytes::u16_at;

// The parameters of a book, each but the year given or missing.
#[derive(Clone, Copy, PartialEq, Eq)]
pub struct Parameters {
    // the delivery year's first calendar year
    pub year: u32,
    // the cost of new entry and the revenue offset, in dollars per MW-year
    pub cost: Value,
    pub offset: Value,
    // EFORd, in hundredths of a percent
    pub outage: Value,
    // the reliability requirement, in tenths of a megawatt
    pub requirement: Value,
    // the installed reserve margin, in hundredths of a percent
    pub margin: Value,
}

// The parameters that a block 0 holds.
pub fn parameters_in(s: &[u8]) -> Parameters
    requires { 512 ≤ length s.now }
    ensures { result ≡ parameters_of s.now }
{
    let marks = s[26];
    Parameters {
        year: u16_at(s, 6),
        cost: value_at(s, 8, marks, 1),
        offset: value_at(s, 12, marks, 2),
        outage: value_at(s, 16, marks, 4),
        requirement: value_at(s, 20, marks, 8),
        margin: value_at(s, 28, marks, 16),
    }
}

// The edition that a block 0 states.
pub fn edition_in(s: &[u8]) -> u32
    requires { 512 ≤ length s.now }
    ensures { (result ≡ edition_in s.now) × (result < 65536) }
{
    u16_at(s, 4)
}

// The number of offers that a block 0 states.
pub fn offers_in(s: &[u8]) -> u32
    requires { 512 ≤ length s.now }
    ensures { (result ≡ offers_in s.now) × (result < 65536) }
{
    u16_at(s, 24)
}
