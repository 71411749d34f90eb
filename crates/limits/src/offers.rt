// Refusals 6, 7 and 10: an offer with no price, with a value out of range, or past step 1 and not behind the step before it.
ghost use Rattle.std.specs.Prelude.{◌≡◌};
ghost use Rattle.limits.specs.Offers.{step_within, offer_in_range, offer_fault};
ghost use Rattle.limits.specs.inner.Offers.{is_given};
ghost use Rattle.limits.specs.inner.Rows.{past_fault};

use crate::parameters::{given_within, within};
use values::place::Offer;
use values::{Refusal, Value};

// Whether a value is given.
fn is_given(v: Value) -> bool
    ensures { result ≡ is_given v }
{
    matches!(v, Value::Given(_))
}

// Whether an offer can have this step in a book of this edition: 1 to 10, and in edition 1 only 1.
pub fn step_within(edition: u32, step: u32) -> bool
    ensures { result ≡ step_within edition step }
{
    if edition == 1 {
        step == 1
    } else {
        within(1, 10, step)
    }
}

// Whether every value that the offer gives is within its range.
fn offer_in_range(edition: u32, o: Offer) -> bool
    ensures { result ≡ offer_in_range edition o }
{
    (1 <= o.resource)
        & (1 <= o.seller)
        & given_within(0, 1000000, o.price)
        & within(1, 200000, o.quantity)
        & given_within(1, o.quantity, o.block)
        & step_within(edition, o.step)
}

// 6, where prices are needed, and 7.
pub fn offer_fault(needed: bool, edition: u32, o: Offer, row: u32) -> Result<(), Refusal>
    ensures { result ≡ offer_fault needed edition o row }
{
    if needed & !is_given(o.price) {
        return Err(Refusal::NoPrice(row));
    }
    if !offer_in_range(edition, o) {
        return Err(Refusal::OfferOutOfRange(row));
    }
    Ok(())
}

// 6, where prices are needed, 7 and 10 of a row past step 1, which follows the row before it or does not. The offer is tested in either
// case: a row that follows then leaves at the first test that fails, as a row of step 1 does.
#[tactic(auto, using(values::proofs::Firsts::in_turn), unfolding(crate::specs::inner::Rows::past_fault))]
pub fn past_fault(
    needed: bool,
    edition: u32,
    o: Offer,
    follows: bool,
    row: u32,
) -> Result<(), Refusal>
    ensures { result ≡ past_fault needed edition o follows row }
{
    if follows {
        return offer_fault(needed, edition, o, row);
    }
    offer_fault(needed, edition, o, row)?;
    Err(Refusal::BrokenSteps(row))
}
