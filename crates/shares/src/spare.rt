// The spare tenths of the level at which a total stops: one each to the first in the order.
ghost use Rattle.std.specs.Prelude.{◌≡◌, cond, ◌+◌, ◌/◌, ◌%◌, ◌≤◌, length, get_or, eqb};
ghost use Rattle.laws.specs.Filled.{filled};
ghost use Rattle.auction.specs.Shares.{cleared};
ghost use Rattle.columns.specs.inner.Sides.{rows_in, offers_in};
ghost use Rattle.shares.specs.inner.Halves.{high_half, low_half};
ghost use Rattle.parts.specs.inner.Parts.{part_of, key_of, row_key, row_standing};
ghost use Rattle.parts.specs.inner.Divides.{Divides, DividesRows};
ghost use Rattle.shares.specs.inner.Stages.{HoldsParts, SparesDue, Adds};

use columns::rows::Rows;
use contest::award;
use levels::asks::Asks;
use levels::level::Level;
use parts::exact;

// A row's key in the order of spare tenths: the lower the more rounding down left, 0 away from the level.
fn key(price: u32, quantity: u32, share: u32, level: Level) -> u32
    requires divides { Divides level price quantity }
    requires share_value { share ≡ part_of level price quantity }
    ensures { result ≡ key_of level price quantity }
{
    if price == level.price {
        let left = exact(quantity, level.amount) - u64::from(share) * u64::from(level.sum);
        level.sum - left as u32
    } else {
        0
    }
}

// 1 for a row at the level, else 0.
fn standing(price: u32, level: u32) -> u32
    ensures { result ≡ cond (eqb price level) 1 0 }
{
    u32::from(price == level)
}

// Lines the rows of the level up for its spare tenths: each row's key, and who contends.
fn line_up(asks: &Asks, shares: &[u32], level: Level, keys: &mut [u32], standings: &mut [u32])
    requires divides_rows { DividesRows level asks.now.prices.now asks.now.quantities.now (length asks.now.prices.now) }
    requires holds_parts { HoldsParts level asks.now.prices.now asks.now.quantities.now (length asks.now.prices.now) shares.now }
    requires in_bounds { (length asks.now.prices.now ≤ length keys.old) × (length asks.now.prices.now ≤ length standings.old) }
    ensures keys_after { keys.new ≡ filled (row_key level asks.now.prices.now asks.now.quantities.now) (length asks.now.prices.now) keys.old }
    ensures standings_after { standings.new ≡ filled (row_standing level asks.now.prices.now) (length asks.now.prices.now) standings.old }
{
    // named before the loop: read through `asks`, each list's place and length would be fetched again after every row that is written
    let prices = asks.prices;
    let quantities = asks.quantities;
    for row in 0..prices.len() {
        keys[row] = key(prices[row], quantities[row], shares[row], level);
        standings[row] = standing(prices[row], level.price);
    }
}

// Adds to each row the tenths that it won.
fn add(tenths: &[u32], out: &mut [u32])
    requires { Adds tenths.now (length tenths.now) out.old }
    ensures { out.new ≡ filled (λ i. get_or out.old i 0 + get_or tenths.now i 0) (length tenths.now) out.old }
{
    for row in 0..tenths.len() {
        out[row] += tenths[row];
    }
}

// How many numbers a half of a time stamp can be.
const HALF: u64 = 4294967296;

// The upper half of a time stamp.
fn high_half(stamp: u64) -> u32
    ensures { result ≡ stamp / 4294967296 }
{
    (stamp / HALF) as u32
}

// The lower half of a time stamp.
fn low_half(stamp: u64) -> u32
    ensures { result ≡ stamp % 4294967296 }
{
    (stamp % HALF) as u32
}

// Parts the time stamps of n rows into their halves, the upper of which is compared first.
fn halve(stamps: &[u64], n: usize, highs: &mut [u32], lows: &mut [u32])
    requires { (n ≤ length stamps.now) × (n ≤ length highs.old) × (n ≤ length lows.old) }
    ensures highs_after { highs.new ≡ filled (high_half stamps.now) n highs.old }
    ensures lows_after { lows.new ≡ filled (low_half stamps.now) n lows.old }
{
    for row in 0..n {
        highs[row] = high_half(stamps[row]);
        lows[row] = low_half(stamps[row]);
    }
}

// Gives the level's spare tenths, one each to the first in the order.
pub fn give(rows: &Rows, level: Level, spare: u32, out: &mut [u32])
    requires { SparesDue rows.now.asks.prices.now rows.now.asks.quantities.now rows.now.stamps.now rows.now.resources.now rows.now.steps.now
        (rows_in rows.now) level spare out.old }
    ensures { out.new ≡ filled (cleared (offers_in rows.now) level.total) (rows_in rows.now) out.old }
{
    let n = rows.asks.prices.len();
    let mut highs = [0u32; 600];
    let mut lows = [0u32; 600];
    let mut keys = [0u32; 600];
    let mut standings = [0u32; 600];
    let standings = &mut standings[..n];
    halve(rows.stamps, n, &mut highs, &mut lows);
    line_up(&rows.asks, out, level, &mut keys, standings);
    award(
        &keys,
        &highs,
        &lows,
        rows.resources,
        rows.steps,
        standings,
        spare,
    );
    add(standings, out);
}
