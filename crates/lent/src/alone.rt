// Rows that pass whatever stands before them, told from a caller's numbers alone: most rows of most books.
ghost use Rattle.std.specs.Prelude.{◌≡◌};
ghost use Rattle.lent.specs.inner.Alone.{price_passes, block_passes, passes_alone};

use plain::structs::{OzpRow, OzpValue};

// Whether a price is given and in range.
fn price_passes(price: OzpValue) -> bool
    ensures { result ≡ price_passes price }
{
    (price.kind == 1) & (price.number <= 1000000)
}

// Whether a minimum block is missing, or given from 1 to the quantity.
fn block_passes(block: OzpValue, quantity: u32) -> bool
    ensures { result ≡ block_passes block quantity }
{
    (block.kind == 4) | ((block.kind == 1) & (1 <= block.number) & (block.number <= quantity))
}

// Whether a row has step 1 and a price, with every value in range. No test has a branch of its own.
pub(crate) fn passes_alone(row: OzpRow) -> bool
    ensures { result ≡ passes_alone row }
{
    (1 <= row.resource)
        & (1 <= row.seller)
        & price_passes(row.price)
        & (1 <= row.quantity)
        & (row.quantity <= 200000)
        & block_passes(row.block, row.quantity)
        & (row.step == 1)
}
