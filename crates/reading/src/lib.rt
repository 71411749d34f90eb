// The rows of a section: read once into columns, with their values' faults and a repeated resource among those before.
#![tactic(auto)]

mod lanes;
mod put;
mod tested;

ghost use Rattle.std.specs.Prelude.{◌≡◌, ◌≤◌};
ghost use Rattle.columns.specs.inner.Columns.{columns_of, Room};
ghost use Rattle.columns.specs.inner.Sides.{lists_in};
ghost use Rattle.limits.specs.Offers.{rows_fault};
ghost use Rattle.values.specs.Contents.{offer_at};
ghost use Rattle.layout.specs.Read.{row_offers};
ghost use Rattle.layout.specs.inner.Read.{Inside};
ghost use Rattle.reading.specs.inner.Rows.{RowsRead};

use crate::lanes::columns_hold;
use crate::put::put_rows;
use crate::tested::values_tested;
use columns::Columns;
use limits::repeated::with_repeats;
use values::Refusal;

// The first fault of n rows that stand from the block `first` on, each tested for 6, 7, 8 and 10. All of them are put into the columns,
// where they are tested; only where one fails are they gone through for the first fault. It is inlined: columns that stand together are
// then reached from one pointer, at distances that are known, where six pointers cost more than a nanosecond a row.
#[inline(always)]
pub fn read_rows(
    book: &[u8],
    edition: u32,
    first: usize,
    n: u32,
    prices: &mut [u32],
    quantities: &mut [u32],
    leasts: &mut [u32],
    resources: &mut [u32],
    stamps: &mut [u64],
    steps: &mut [u32],
) -> Result<(), Refusal>
    requires { Inside book.now first n × Room n (columns_of prices.old quantities.old leasts.old resources.old stamps.old steps.old) }
    ensures { RowsRead edition (row_offers book.now edition first n) result
        (columns_of prices.old quantities.old leasts.old resources.old stamps.old steps.old)
        (columns_of prices.new quantities.new leasts.new resources.new stamps.new steps.new) }
{
    let told = put_rows(
        book, edition, first, n, prices, quantities, leasts, resources, stamps, steps,
    );
    let held = columns_hold(
        edition, prices, quantities, leasts, resources, steps, n as usize,
    );
    let found = if told & held {
        Ok(())
    } else {
        values_tested(book, edition, first, n, true, resources, steps)
    };
    with_repeats(found, resources, steps, n)
}

// The same of rows that are put into columns which stand together.
pub fn read_columns<const N: usize>(
    book: &[u8],
    edition: u32,
    first: usize,
    n: u32,
    columns: &mut Columns<N>,
) -> Result<(), Refusal>
    requires { Inside book.now first n × (n ≤ N) × Room n (lists_in columns.old) }
    ensures { RowsRead edition (row_offers book.now edition first n) result (lists_in columns.old) (lists_in columns.new) }
{
    read_rows(
        book,
        edition,
        first,
        n,
        &mut columns.prices,
        &mut columns.quantities,
        &mut columns.leasts,
        &mut columns.resources,
        &mut columns.stamps,
        &mut columns.steps,
    )
}

// The first fault of the n offers of a book alone, of which only the resource numbers and the steps are kept.
fn some_rows_fault(book: &[u8], edition: u32, n: u32, needed: bool) -> Result<(), Refusal>
    requires { Inside book.now 1 n }
    ensures { result ≡ rows_fault needed edition (offer_at (row_offers book.now edition 1 n)) n }
{
    let mut resources = [0u32; 600];
    let mut steps = [0u32; 600];
    let found = values_tested(book, edition, 1, n, needed, &mut resources, &mut steps);
    with_repeats(found, &resources, &steps, n)
}

// The same fault. Where there are no rows, no columns are cleared for them.
pub fn rows_fault(book: &[u8], edition: u32, n: u32, needed: bool) -> Result<(), Refusal>
    requires { Inside book.now 1 n }
    ensures { result ≡ rows_fault needed edition (offer_at (row_offers book.now edition 1 n)) n }
{
    if n == 0 {
        return Ok(());
    }
    some_rows_fault(book, edition, n, needed)
}
