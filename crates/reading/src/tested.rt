// The rows of a section gone through for their first fault by 6, 7 or 10, with what the search for a repeated resource needs of them.
ghost use Rattle.std.specs.Prelude.{◌≡◌, ◌-◌, ◌≤◌, length};
ghost use Rattle.limits.specs.inner.Rows.{row_fault};
ghost use Rattle.layout.specs.Read.{row_offer, row_offers};
ghost use Rattle.layout.specs.inner.Read.{Inside};
ghost use Rattle.reading.specs.inner.Rows.{RowAt, ValuesTested};

use layout::reader::row_bytes;
use limits::offers::{offer_fault, past_fault};
use steps::step_follows;
use values::Refusal;
use values::place::{Offer, offer_in};

// 6, where prices are needed, 7 and 10 of a row, whose own offer is at hand. Past step 1 the row before it is read, for which row 0
// stands itself, since it does not follow itself.
fn row_tested(
    book: &[u8],
    edition: u32,
    first: usize,
    needed: bool,
    o: Offer,
    row: u32,
) -> Result<(), Refusal>
    requires { RowAt book.now edition first o row }
    ensures { result ≡ row_fault needed edition (row_offer book.now edition first (row - 1)) o row }
{
    if o.step == 1 {
        return offer_fault(needed, edition, o, row);
    }
    let before = row_bytes(book, first, row.saturating_sub(1) as usize);
    let follows = step_follows(offer_in(before, edition), o);
    past_fault(needed, edition, o, follows, row)
}

// The first fault by 6, 7 or 10 among n rows that stand from the block `first` on, with the resource numbers and the steps of the
// rows up to it.
pub(crate) fn values_tested(
    book: &[u8],
    edition: u32,
    first: usize,
    n: u32,
    needed: bool,
    resources: &mut [u32],
    steps: &mut [u32],
) -> Result<(), Refusal>
    requires { Inside book.now first n × ((n ≤ length resources.old) × (n ≤ length steps.old)) }
    ensures { ValuesTested needed edition (row_offers book.now edition first n) n result
        resources.old steps.old resources.new steps.new }
{
    for row in 0..n {
        let at = row as usize;
        let o = offer_in(row_bytes(book, first, at), edition);
        resources[at] = o.resource;
        steps[at] = o.step;
        row_tested(book, edition, first, needed, o, row)?;
    }
    Ok(())
}
