// The order of spare tenths: the larger remainder, then the earlier stamp, then the lower resource, then the lower step.
ghost use Rattle.std.specs.Prelude.{◌≡◌, ◌&&◌, ◌<◌, get_or, eqb};
ghost use Rattle.columns.specs.inner.Sides.{rows_in, offers_in};
ghost use Rattle.turns.specs.Order.{number_of};
ghost use Rattle.turns.specs.inner.Contending.{contender_in, ahead_of, decided_of};

use columns::rows::Rows;
use reasons::share::Received;

// What a row contends for a spare tenth of its level with.
#[derive(Clone, Copy)]
pub struct Contender {
    pub remainder: u64,
    pub stamp: u64,
    pub resource: u32,
    pub step: u32,
}

// What two contenders are told apart by: their remainders, their stamps, their resources or their steps.
#[derive(Clone, Copy, PartialEq, Eq)]
pub enum Key {
    Remainder,
    Stamp,
    Resource,
    Step,
}

impl Key {
    // Its place among the keys, from 0.
    pub fn number(self) -> u32
        ensures { result ≡ number_of self }
    {
        match self {
            Key::Remainder => 0,
            Key::Stamp => 1,
            Key::Resource => 2,
            Key::Step => 3,
        }
    }
}

// The first stands before the second: of remainders the larger is first, of all other keys the lower. It is asked of each two
// rows of a level, and leaves at the first key that differs.
fn ahead(a: Contender, b: Contender) -> bool
    ensures { result ≡ ahead_of a b }
{
    match decided(a, b) {
        Key::Remainder => b.remainder < a.remainder,
        Key::Stamp => a.stamp < b.stamp,
        Key::Resource => a.resource < b.resource,
        Key::Step => a.step < b.step,
    }
}

// What decides between two contenders: the first key in which they differ.
pub(crate) fn decided(a: Contender, b: Contender) -> Key
    ensures { result ≡ decided_of a b }
{
    if a.remainder != b.remainder {
        Key::Remainder
    } else if a.stamp != b.stamp {
        Key::Stamp
    } else if a.resource != b.resource {
        Key::Resource
    } else {
        Key::Step
    }
}

// What a row of a level contends with: what rounding down leaves of its part, and its other keys.
pub(crate) fn contender_of(rows: &Rows, row: usize, level: Received) -> Contender
    requires { (row < rows_in rows.now) × (0 < level.sum) }
    ensures { result ≡ contender_in (offers_in rows.now) row level }
{
    let exact = u64::from(rows.asks.quantities[row]) * u64::from(level.amount);
    Contender {
        remainder: exact % u64::from(level.sum),
        stamp: rows.stamps[row],
        resource: rows.resources[row],
        step: rows.steps[row],
    }
}

// A row has the price, and stands before the contender.
pub(crate) fn is_before(
    rows: &Rows,
    row: usize,
    price: u32,
    level: Received,
    own: Contender,
) -> bool
    requires { (row < rows_in rows.now) × (get_or rows.now.asks.prices.now row 0 ≡ price → 0 < level.sum) }
    ensures { result ≡ (eqb (get_or rows.now.asks.prices.now row 0) price && ahead_of (contender_in (offers_in rows.now) row level) own) }
{
    rows.asks.prices[row] == price && ahead(contender_of(rows, row, level), own)
}
