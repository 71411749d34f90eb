// What rows ask and offer: a price and a quantity for each, side by side.
ghost use Rattle.std.specs.Prelude.{length};
ghost use Rattle.levels.specs.inner.Rows.{RowLists};

// At most 600 rows, with a quantity for each price, no price over 1,000,000 and no quantity over 200,000.
#[derive(Clone, Copy)]
pub struct Asks<'a> {
    pub prices: &'a [u32],
    pub quantities: &'a [u32],
    pub ghost listed: { RowLists prices.now quantities.now (length prices.now) },
}
