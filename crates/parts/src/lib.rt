// Each row's part of a total, rounded down.
#![tactic(auto)]

ghost use Rattle.std.specs.Prelude.{◌≡◌, ◌*◌, ◌/◌, ◌≤◌, ◌<◌, length};
ghost use Rattle.laws.specs.Filled.{filled};
ghost use Rattle.parts.specs.inner.Parts.{part_of, row_part};
ghost use Rattle.parts.specs.inner.Divides.{Divides, DividesRows};

use levels::asks::Asks;
use levels::level::Level;

// A quantity times a level's amount: its exact part of the level, once it is divided by the level's sum.
pub fn exact(quantity: u32, amount: u32) -> u64
    requires { (quantity ≤ 200000) × (amount ≤ 120000000) }
    ensures { (result ≡ quantity * amount) × (result ≤ 24000000000000) }
{
    u64::from(quantity) * u64::from(amount)
}

// An exact part, rounded down.
fn rounded(exact: u64, sum: u32) -> u64
    requires { (exact ≤ 24000000000000) × (0 < sum) × (sum ≤ 120000000) }
    ensures { result ≡ exact / sum }
{
    exact / u64::from(sum)
}

// A row's part: all it offers under the level, nothing over it, and at it its exact part rounded down.
fn part(price: u32, quantity: u32, level: Level) -> u32
    requires { Divides level price quantity }
    ensures { result ≡ part_of level price quantity }
{
    if price < level.price {
        quantity
    } else if level.price < price {
        0
    } else {
        rounded(exact(quantity, level.amount), level.sum) as u32
    }
}

// Writes each row's part.
pub fn parts(asks: &Asks, level: Level, out: &mut [u32])
    requires divides_rows { DividesRows level asks.now.prices.now asks.now.quantities.now (length asks.now.prices.now) }
    requires out_in_bounds { length asks.now.prices.now ≤ length out.old }
    ensures { out.new ≡ filled (row_part level asks.now.prices.now asks.now.quantities.now) (length asks.now.prices.now) out.old }
{
    // named before the loop: read through `asks`, each list's place and length would be fetched again after every row that is written
    let prices = asks.prices;
    let quantities = asks.quantities;
    for row in 0..prices.len() {
        out[row] = part(prices[row], quantities[row], level);
    }
}
