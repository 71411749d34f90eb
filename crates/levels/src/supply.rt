// What is offered at a price or below.
ghost use Rattle.std.specs.Prelude.{◌≡◌, cond, ◌≤◌, leb};
ghost use Rattle.levels.specs.inner.Asks.{offers_in, OfferedAt, OfferedBelow};

use crate::asks::Asks;

// A row's quantity where its price is at or below the limit, and else nothing.
fn taken(price: u32, quantity: u32, limit: u32) -> u32
    ensures { (result ≡ cond (leb price limit) quantity 0) × (result ≤ quantity) }
{
    if price <= limit { quantity } else { 0 }
}

impl Asks<'_> {
    // Everything offered at the limit or below. The loop has no branch of its own, so that it runs in lanes.
    pub fn supply_at(&self, limit: u32) -> u32
        ensures { OfferedAt (offers_in self.now) limit result }
    {
        let mut sum: u32 = 0;
        for row in 0..self.prices.len() {
            sum += taken(self.prices[row], self.quantities[row], limit);
        }
        sum
    }

    // Everything offered strictly below a price.
    pub fn supply_below(&self, price: u32) -> u32
        ensures { OfferedBelow (offers_in self.now) price result }
    {
        if price == 0 {
            return 0;
        }
        self.supply_at(price - 1)
    }
}
