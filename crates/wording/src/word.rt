// Which of a form's words fit: the parts of a choice are counted from 0.
ghost use Rattle.std.specs.Prelude.{◌≡◌, cond};
ghost use Rattle.values.specs.Values.{held};
ghost use Rattle.wording.specs.Words.{first_true, given, valued, yearly, margined, cents_of, price_word};
ghost use Rattle.wording.specs.inner.Told.{Tells};

use units::CentsPerMwDay;
use values::{Value, number_held};

// The words for a value and its number, which they show or not.
#[derive(Clone, Copy, PartialEq, Eq)]
pub struct Told {
    pub word: u64,
    pub number: u64,
}

// One of two numbers, by a test. A function, since in the list of a form an `if` takes five lines and its call one.
pub fn either(test: bool, yes: u64, no: u64) -> u64
    ensures { result ≡ cond test yes no }
{
    if test { yes } else { no }
}

// The first of two tests that holds, 0 or 1, and 2 where neither does.
pub fn first_true(first: bool, second: bool) -> u64
    ensures { result ≡ first_true first second }
{
    match (first, second) {
        (true, _) => 0,
        (false, true) => 1,
        (false, false) => 2,
    }
}

// Whether a value is given.
pub fn given(v: Value) -> bool
    ensures { result ≡ given v }
{
    matches!(v, Value::Given(_))
}

// A value: missing, zero, or another number.
pub fn valued(v: Value) -> Told
    ensures { Tells (valued v) (held v) result }
{
    let word = match v {
        Value::Missing => 0,
        Value::Given(0) => 1,
        Value::Given(_) => 2,
    };
    Told {
        word,
        number: u64::from(number_held(v)),
    }
}

// Dollars per MW-year: missing, zero, one dollar, or another number of them.
pub fn yearly(v: Value) -> Told
    ensures { Tells (yearly v) (held v) result }
{
    let word = match v {
        Value::Missing => 0,
        Value::Given(0) => 1,
        Value::Given(1) => 2,
        Value::Given(_) => 3,
    };
    Told {
        word,
        number: u64::from(number_held(v)),
    }
}

// The margin of a year: none where the year needs none, missing, zero, or another number.
pub fn margined(needed: bool, v: Value) -> Told
    ensures { Tells (margined needed v) (held v) result }
{
    let word = match v {
        Value::Missing => u64::from(needed),
        Value::Given(0) => 2,
        Value::Given(_) => 3,
    };
    Told {
        word,
        number: u64::from(number_held(v)),
    }
}

// A price in cents, and all ones where there is none.
pub fn cents_of(price: Option<CentsPerMwDay>) -> u64
    ensures { result ≡ cents_of price }
{
    price.map_or(u64::MAX, |cents| u64::from(cents.0))
}

// A price: over zero, zero, or none.
pub fn priced(price: Option<CentsPerMwDay>) -> Told
    ensures { Tells (price_word price) (cents_of price) result }
{
    let word = match price {
        Some(CentsPerMwDay(0)) => 1,
        Some(_) => 0,
        None => 2,
    };
    Told {
        word,
        number: cents_of(price),
    }
}
