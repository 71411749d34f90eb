// An offer, as its own 32 bytes hold it.
ghost use Rattle.std.specs.Prelude.{◌≡◌, ◌≤◌, length};
ghost use Rattle.values.specs.Place.{step_of, offer_of};

use crate::{Value, value_at};
use block::bytes::{u32_at, u64_at};

// The offer of a row.
#[derive(Clone, Copy, PartialEq, Eq)]
pub struct Offer {
    pub resource: u32,
    pub seller: u32,
    // in cents per MW-day
    pub price: Value,
    // in tenths of a megawatt
    pub quantity: u32,
    // the minimum block, in tenths of a megawatt; where it is missing the offer is flexible
    pub block: Value,
    pub stamp: u64,
    // from 1 to 10: which of its resource's steps the offer is
    pub step: u32,
}

// The step that a place's byte says: 1 throughout in edition 1.
fn step_of(edition: u32, number: u8) -> u32
    ensures { result ≡ step_of edition number }
{
    if edition == 1 { 1 } else { number as u32 }
}

// The offer that a place of 32 bytes holds, in a book of this edition.
pub fn offer_in(s: &[u8], edition: u32) -> Offer
    requires { 32 ≤ length s.now }
    ensures { result ≡ offer_of edition s.now }
{
    let marks = s[28];
    let number = s[29];
    Offer {
        resource: u32_at(s, 0),
        seller: u32_at(s, 4),
        price: value_at(s, 8, marks, 1),
        quantity: u32_at(s, 12),
        block: value_at(s, 16, marks, 2),
        stamp: u64_at(s, 20),
        step: step_of(edition, number),
    }
}
