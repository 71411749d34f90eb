// What a row commits and what is paid, in mills a day.
#![tactic(auto)]

ghost use Rattle.std.specs.Prelude.{◌≡◌, ◌-◌, ◌≤◌, length};
ghost use Rattle.laws.specs.Filled.{filled};
ghost use Rattle.laws.specs.Sum.{sum_to};
ghost use Rattle.auction.specs.Settlement.{mills};
ghost use Rattle.settle.specs.inner.Read.{quoted};
ghost use Rattle.settle.specs.inner.Rows.{committed_from, Committable, row_commits, row_past};

use units::CentsPerMwDay;

// The cleared quantity, or the least that the row commits if that is larger and the cleared quantity is not 0.
pub fn committed_of(least: u32, cleared: u32) -> u32
    ensures { (result ≡ committed_from least cleared) × (cleared ≤ result) }
{
    if cleared == 0 { 0 } else { cleared.max(least) }
}

// Writes what each row commits of what it clears, and returns the tenths committed past what cleared.
pub fn commit(leasts: &[u32], cleared: &[u32], out: &mut [u32]) -> u32
    requires { Committable leasts.now cleared.now (length leasts.now) × (length leasts.now ≤ length out.old) }
    ensures out_after { out.new ≡ filled (row_commits leasts.now cleared.now) (length leasts.now) out.old }
    ensures value { (result ≡ sum_to (row_past leasts.now cleared.now) (length leasts.now)) × (result ≤ 120000000) }
{
    let mut past: u32 = 0;
    for row in 0..leasts.len() {
        let committed = committed_of(leasts[row], cleared[row]);
        out[row] = committed;
        past += committed - cleared[row];
    }
    past
}

// A price times tenths of a megawatt; nothing where there is no price.
pub fn mills_of(price: Option<CentsPerMwDay>, tenths: u32) -> u64
    ensures { result ≡ mills (quoted price) tenths }
{
    match price {
        Some(cents) => u64::from(cents.0) * u64::from(tenths),
        None => 0,
    }
}

// Make-whole: the price times what is committed past what cleared.
pub fn make_whole(price: Option<CentsPerMwDay>, cleared: u32, committed: u32) -> u64
    ensures { result ≡ mills (quoted price) (committed - cleared) }
{
    mills_of(price, committed.saturating_sub(cleared))
}
