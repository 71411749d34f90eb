// A row of a book that is to be written, tested for 7 and 10.
ghost use Rattle.std.specs.Prelude.{◌≡◌, false, ◌<◌};
ghost use Rattle.limits.specs.inner.Rows.{row_fault};
ghost use Rattle.plain.specs.Given.{offer_in};
ghost use Rattle.lent.specs.inner.Drafts.{offer_before, tested_row};

use crate::alone::passes_alone;
use crate::tested::{Before, Draft};
use limits::offers::{offer_fault, past_fault};
use limits::repeated::rows_before;
use plain::given::offer_in;
use plain::structs::OzpRow;
use steps::step_follows;
use values::place::Offer;
use values::{Refusal, Value};

// What is kept of a row, as an offer: the rest of it is none's, since no test of the next row looks at it.
fn offer_before(before: Before) -> Offer
    ensures { result ≡ offer_before before }
{
    Offer {
        resource: before.resource,
        seller: 0,
        price: before.price,
        quantity: 0,
        block: Value::Missing,
        stamp: 0,
        step: before.step,
    }
}

// 7 and 10 of a row, with what is kept of the row before it.
fn row_fault(edition: u32, before: Before, o: Offer, row: u32) -> Result<(), Refusal>
    ensures { result ≡ row_fault false edition (offer_before before) o row }
{
    if o.step == 1 {
        return offer_fault(false, edition, o, row);
    }
    let follows = (0 < row) & step_follows(offer_before(before), o);
    past_fault(false, edition, o, follows, row)
}

// The draft past row i, tested. Its offer is made only where its numbers do not show that it passes.
pub(crate) fn past_row(d: Draft, edition: u32, i: usize, row: OzpRow) -> Draft
    requires { i < 600 }
    ensures { result ≡ tested_row edition d i (offer_in row) }
{
    if passes_alone(row) {
        return Draft {
            fault: Ok(()),
            rows: d.rows,
            before: Before {
                resource: row.resource,
                price: Value::Given(row.price.number),
                step: row.step,
            },
        };
    }
    let o = offer_in(row);
    let fault = row_fault(edition, d.before, o, i as u32);
    Draft {
        fault,
        rows: rows_before(fault, d.rows),
        before: Before {
            resource: o.resource,
            price: o.price,
            step: o.step,
        },
    }
}
