// Rows that stand in columns, tested for 6, 7 and 10. No loop has a branch, so that each runs in lanes.
ghost use Rattle.std.specs.Prelude.{◌≡◌, ◌≤◌, length};
ghost use Rattle.reading.specs.inner.Lanes.{row_holds, step_kept, Long, values_hold, steps_hold, columns_hold};

// Whether a row's own columns are in range.
fn row_holds(price: u32, quantity: u32, least: u32, resource: u32, step: u32) -> bool
    ensures { result ≡ row_holds price quantity least resource step }
{
    (price <= 1000000)
        & (1 <= quantity)
        & (quantity <= 200000)
        & (1 <= least)
        & (least <= quantity)
        & (1 <= resource)
        & (1 <= step)
        & (step <= 10)
}

// Whether the columns of each of n rows are in range.
fn values_hold(
    prices: &[u32],
    quantities: &[u32],
    leasts: &[u32],
    resources: &[u32],
    steps: &[u32],
    n: usize,
) -> bool
    requires { Long prices.now quantities.now leasts.now resources.now steps.now n }
    ensures { result ≡ values_hold prices.now quantities.now leasts.now resources.now steps.now n }
{
    let mut all = true;
    for row in 0..n {
        all = all
            & row_holds(
                prices[row],
                quantities[row],
                leasts[row],
                resources[row],
                steps[row],
            );
    }
    all
}

// Whether a row has step 1 or stands behind the step before it, told from the prices, the resource numbers and the steps of both.
fn step_kept(least: u32, price: u32, other: u32, resource: u32, last: u32, step: u32) -> bool
    ensures { result ≡ step_kept least price other resource last step }
{
    (step == 1) | ((resource == other) & (step == last % 256 + 1) & (least <= price))
}

// Whether each of n rows has step 1 or stands behind the step before it.
fn steps_hold(prices: &[u32], resources: &[u32], steps: &[u32], n: usize) -> bool
    requires { (n ≤ length prices.now) × ((n ≤ length resources.now) × (n ≤ length steps.now)) }
    ensures { result ≡ steps_hold prices.now resources.now steps.now n }
{
    if n == 0 {
        return true;
    }
    let mut all = steps[0] == 1;
    for row in 1..n {
        let before = row - 1;
        all = all
            & step_kept(
                prices[before],
                prices[row],
                resources[before],
                resources[row],
                steps[before],
                steps[row],
            );
    }
    all
}

// Whether n rows of a book of this edition pass by their columns. In edition 1 each has step 1.
pub(crate) fn columns_hold(
    edition: u32,
    prices: &[u32],
    quantities: &[u32],
    leasts: &[u32],
    resources: &[u32],
    steps: &[u32],
    n: usize,
) -> bool
    requires { Long prices.now quantities.now leasts.now resources.now steps.now n }
    ensures { result ≡ columns_hold edition prices.now quantities.now leasts.now resources.now steps.now n }
{
    let values = values_hold(prices, quantities, leasts, resources, steps, n);
    if edition == 1 {
        return values;
    }
    values & steps_hold(prices, resources, steps, n)
}
