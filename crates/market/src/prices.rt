// The next and the last price at which something is offered.
ghost use Rattle.std.specs.Prelude.{◌≤◌, length};
ghost use Rattle.market.specs.inner.Bracket.{NoneBefore};

// The lowest price of a row at `from` or over it, or 1,000,000. The difference to a price below `from` wraps round to more
// than any other, so that this loop runs in lanes too.
fn next_price(prices: &[u32], from: u32) -> u32
    requires { from ≤ 1000000 }
    ensures { NoneBefore prices.now (length prices.now) from result }
{
    let mut step: u32 = 1000000 - from;
    for price in prices {
        step = step.min(price.wrapping_sub(from));
    }
    from + step
}

// The same, or `from` itself where that is the one to take.
pub(crate) fn next_from(prices: &[u32], from: u32, stay: bool) -> u32
    requires { from ≤ 1000000 }
    ensures { NoneBefore prices.now (length prices.now) from result }
{
    if stay {
        return from;
    }
    next_price(prices, from)
}

// The highest price of a row up to `top`, or `from`. The difference to a price over `top` wraps round too.
pub(crate) fn last_price(prices: &[u32], from: u32, top: u32) -> u32
    requires { from ≤ top }
    ensures { (from ≤ result) × (result ≤ top) }
{
    let mut step = top - from;
    for price in prices {
        step = step.min(top.wrapping_sub(*price));
    }
    top - step
}
