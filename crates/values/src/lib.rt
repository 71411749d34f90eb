// What a book holds once its bytes are read: values that are given or missing, the region's parameters, an offer; and
// what a test of a book answers.
#![tactic(auto)]

pub mod head;
pub mod place;
mod refusal;

ghost use Rattle.std.specs.Prelude.{◌≡◌, ◌+◌, ◌/◌, ◌%◌, ◌≤◌, ◌<◌, length, eqb};
ghost use Rattle.block.specs.Bytes.{u32_at};
ghost use Rattle.values.specs.Values.{value_of, held};
ghost use Rattle.values.specs.inner.Values.{least_of};

use block::bytes::u32_at;
pub use refusal::Refusal;

// A value that the book can leave out. What is missing is no number.
#[derive(Clone, Copy, PartialEq, Eq)]
pub enum Value {
    Given(u32),
    Missing,
}

// The value at a place of a part, given where the bit of this weight is set in the marks. The bytes are read in either case,
// so that a row takes one path.
pub fn value_at(s: &[u8], at: usize, marks: u8, weight: u8) -> Value
    requires { (at + 4 ≤ length s.now) × (0 < weight) }
    ensures { result ≡ value_of (eqb (marks / weight % 2) 1) (u32_at s.now at) }
{
    let number = u32_at(s, at);
    if marks / weight % 2 == 1 {
        Value::Given(number)
    } else {
        Value::Missing
    }
}

// The number that is held, and all ones where there is none: asked only of values that are given.
pub fn number_held(v: Value) -> u32
    ensures { result ≡ held v }
{
    match v {
        Value::Given(number) => number,
        Value::Missing => 4294967295,
    }
}

// The least that an offer with this minimum block commits, once any of it clears: the block. A flexible offer commits what
// clears, and the least that clears at all is one tenth.
pub fn least_of(block: Value) -> u32
    ensures { result ≡ least_of block }
{
    match block {
        Value::Given(tenths) => tenths,
        Value::Missing => 1,
    }
}
