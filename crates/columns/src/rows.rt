// Rows side by side, as a total and its division look at them.
ghost use Rattle.std.specs.Prelude.{◌≡◌, length};
ghost use Rattle.columns.specs.inner.Ordered.{Ordered};

use levels::asks::Asks;

// What each row asks and offers, the least that it commits, and what orders it among the rows of its price.
#[derive(Clone, Copy)]
pub struct Rows<'a> {
    pub asks: Asks<'a>,
    pub leasts: &'a [u32],
    pub resources: &'a [u32],
    pub stamps: &'a [u64],
    pub steps: &'a [u32],
    pub ghost committing: { length leasts.now ≡ length asks.prices.now },
    pub ghost ordered: { Ordered asks.quantities.now stamps.now resources.now steps.now (length asks.prices.now) },
}
