// The rules of steps: a row past step 1 follows the row before it.
#![tactic(auto)]

ghost use Rattle.std.specs.Prelude.{◌≡◌};
ghost use Rattle.steps.specs.Steps.{not_cheaper, flexible, step_follows};

use values::Value;
use values::place::Offer;

// Whether a price does not fall from the one before it, where both are given.
pub fn not_cheaper(before: Value, price: Value) -> bool
    ensures { result ≡ not_cheaper before price }
{
    match (before, price) {
        (Value::Given(least), Value::Given(cents)) => least <= cents,
        _ => true,
    }
}

// Whether there is no minimum block.
pub fn is_flexible(block: Value) -> bool
    ensures { result ≡ flexible block }
{
    matches!(block, Value::Missing)
}

// Whether an offer follows the one before it. Steps are compared in 64 bits, where one more than a step fits.
pub fn step_follows(before: Offer, o: Offer) -> bool
    ensures { result ≡ step_follows before o }
{
    (o.resource == before.resource)
        & (u64::from(o.step) == u64::from(before.step) + 1)
        & not_cheaper(before.price, o.price)
        & is_flexible(o.block)
}
