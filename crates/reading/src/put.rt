// The rows of a section put into columns, all of them, whatever they hold.
ghost use Rattle.std.specs.Prelude.{◌≡◌};
ghost use Rattle.columns.specs.inner.Columns.{columns_of, Room};
ghost use Rattle.layout.specs.Read.{row_offers};
ghost use Rattle.layout.specs.inner.Read.{Inside};
ghost use Rattle.reading.specs.inner.Lanes.{rest_holds, RowsPut};

use layout::reader::row_bytes;
use steps::is_flexible;
use values::place::{Offer, offer_in};
use values::{least_of, number_held};

// Whether an offer holds by what no column tells: it has a seller, and past step 1 no minimum block.
fn rest_holds(o: Offer) -> bool
    ensures { result ≡ rest_holds o }
{
    (1 <= o.seller) & ((o.step == 1) | is_flexible(o.block))
}

// Puts n rows that stand from the block `first` on into the columns, and answers whether each holds by what no column tells. No row
// ends the loop.
pub(crate) fn put_rows(
    book: &[u8],
    edition: u32,
    first: usize,
    n: u32,
    prices: &mut [u32],
    quantities: &mut [u32],
    leasts: &mut [u32],
    resources: &mut [u32],
    stamps: &mut [u64],
    steps: &mut [u32],
) -> bool
    requires { Inside book.now first n × Room n (columns_of prices.old quantities.old leasts.old resources.old stamps.old steps.old) }
    ensures { RowsPut (row_offers book.now edition first n) n result
        (columns_of prices.old quantities.old leasts.old resources.old stamps.old steps.old)
        (columns_of prices.new quantities.new leasts.new resources.new stamps.new steps.new) }
{
    let mut told = true;
    for row in 0..n as usize {
        let o = offer_in(row_bytes(book, first, row), edition);
        prices[row] = number_held(o.price);
        quantities[row] = o.quantity;
        leasts[row] = least_of(o.block);
        resources[row] = o.resource;
        stamps[row] = o.stamp;
        steps[row] = o.step;
        told = told & rest_holds(o);
    }
    told
}
