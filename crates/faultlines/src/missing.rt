// Everything that a refused book misses, each named: what is missing is not zero.
ghost use Rattle.forms.specs.Shown.{Shown};
ghost use Rattle.faultlines.specs.Missing.{missing_parameters_numbers, missing_price_numbers};

use forms::put_form;
use limits::parameters::by_margin;
use values::head::Parameters;
use wording::word::{either, given};

// Puts a line for each parameter that is missing, the margin only in a year that needs it.
#[tactic(auto, using(wording::proofs::Showing::showing), unfolding(crate::specs::Missing::missing_parameters_numbers))]
pub fn put_missing_parameters(room: &mut [u8], at: usize, p: Parameters) -> usize
    ensures { Shown room.old at (missing_parameters_numbers p) room.new result }
{
    put_form(
        room,
        at,
        b"[|missing: C, the cost of new entry
][|missing: E, the revenue offset
][|missing: F, the outage rate
][|missing: R, the requirement
][|missing: the reserve margin, which the year's curve needs
]",
        &[
            u64::from(!given(p.cost)),
            u64::from(!given(p.offset)),
            u64::from(!given(p.outage)),
            u64::from(!given(p.requirement)),
            either(given(p.margin), 0, u64::from(by_margin(p.year))),
        ],
    )
}

// Puts a row whose price is missing, and in edition 2 which of its resource's steps it is.
#[tactic(auto, using(wording::proofs::Showing::showing), unfolding(crate::specs::Missing::missing_price_numbers))]
pub fn put_missing_price(
    room: &mut [u8],
    at: usize,
    edition: u32,
    row: usize,
    resource: u32,
    step: u32,
) -> usize
    ensures { Shown room.old at (missing_price_numbers edition row resource step) room.new result }
{
    put_form(
        room,
        at,
        b"missing: the price of row #, resource #[|, step #]
",
        &[
            row as u64,
            u64::from(resource),
            u64::from(edition == 2),
            u64::from(step),
        ],
    )
}
