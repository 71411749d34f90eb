// The prices of rows as a ladder: the next one up, the next one down.
ghost use Rattle.std.specs.Prelude.{◌≡◌, length};
ghost use Rattle.ladder.specs.Prices.{lowest_from, highest_under, down, rung_price};
ghost use Rattle.ladder.specs.inner.Found.{price_at, Cheap};

// The lowest price that is not under `from`. The difference to a price under `from` wraps round to more than that to any price from
// there on, so that no price is tested on its way, and the loop runs in lanes.
fn lowest_from(prices: &[u32], from: u32) -> Option<u32>
    ensures { result ≡ lowest_from (price_at prices.now) (length prices.now) from }
{
    let over = prices.iter().map(|price| price.wrapping_sub(from)).min()?;
    from.checked_add(over)
}

// The highest price that is under a limit. The difference from the number before the limit down to a price at the limit or over it
// wraps round too.
fn highest_under(prices: &[u32], limit: u32) -> Option<u32>
    ensures { result ≡ highest_under (price_at prices.now) (length prices.now) limit }
{
    let last = limit.checked_sub(1)?;
    let under = prices.iter().map(|price| last.wrapping_sub(*price)).min()?;
    last.checked_sub(under)
}

// The price that lies k prices under a limit; the lowest of them where there are fewer.
pub(crate) fn down_from(prices: &[u32], k: usize, limit: u32) -> u32
    ensures { result ≡ down (price_at prices.now) (length prices.now) k limit }
{
    let mut at = limit;
    for _ in 0..k {
        match highest_under(prices, at) {
            Some(price) => at = price,
            None => return at,
        }
    }
    at
}

// The price that lies k prices over the lowest that is not under `from`.
pub(crate) fn rung_price(prices: &[u32], k: usize, from: u32) -> Option<u32>
    requires { Cheap prices.now (length prices.now) }
    ensures { result ≡ rung_price (price_at prices.now) (length prices.now) k from }
{
    let mut at = from;
    for _ in 0..k {
        at = lowest_from(prices, at)? + 1;
    }
    lowest_from(prices, at)
}
