// What is wrong with a row: its values beside their ranges, and the rule of steps that it breaks.
ghost use Rattle.std.specs.Prelude.{◌≡◌};
ghost use Rattle.forms.specs.Shown.{Shown};
ghost use Rattle.faultlines.specs.Wrong.{step_word, values_numbers, rules_numbers};
ghost use Rattle.faultlines.specs.inner.Ranged.{Ranges};

use forms::put_form;
use limits::offers::step_within;
use limits::parameters::{given_within, within};
use values::place::Offer;
use values::{Value, number_held};
use wording::word::given;

// A value beside its range, as the numbers that are shown: whether it is given, its number, and 1 where it is out of the range.
#[derive(Clone, Copy)]
struct Ranged {
    given: u64,
    number: u64,
    out: u64,
}

// A value that may be left out, beside its range.
fn beside(low: u32, high: u32, v: Value) -> Ranged
    ensures { Ranges low high v result }
{
    Ranged {
        given: u64::from(given(v)),
        number: u64::from(number_held(v)),
        out: u64::from(!given_within(low, high, v)),
    }
}

// A step: 0 none is told in edition 1, 1 it is within its range, 2 it is not.
fn step_word(edition: u32, step: u32) -> u64
    ensures { result ≡ step_word edition step }
{
    if edition == 1 {
        0
    } else if step_within(edition, step) {
        1
    } else {
        2
    }
}

// Puts the values of a row, each with its range, and which are out of it.
#[tactic(auto, using(wording::proofs::Showing::showing), unfolding(crate::specs::Wrong::values_numbers))]
pub fn put_values(room: &mut [u8], at: usize, edition: u32, o: Offer) -> usize
    ensures { Shown room.old at (values_numbers edition o) room.new result }
{
    let price = beside(0, 1000000, o.price);
    let block = beside(1, o.quantity, o.block);
    let step = u64::from(o.step);
    put_form(
        room,
        at,
        b"    resource #, from 1[| <- out of range]
    seller #, from 1[| <- out of range]
    price [not entered|$ dollars, from 0.00 to 10,000.00][| <- out of range]
    quantity ~ MW, from 0.1 to 20,000.0 MW[| <- out of range]
    minimum block [not given|~ MW, from 0.1 MW to the quantity][| <- out of range]
[|    step #, from 1 to 10
|    step #, from 1 to 10 <- out of range
]",
        &[
            u64::from(o.resource),
            u64::from(o.resource < 1),
            u64::from(o.seller),
            u64::from(o.seller < 1),
            price.given,
            price.number,
            price.out,
            u64::from(o.quantity),
            u64::from(!within(1, 200000, o.quantity)),
            block.given,
            block.number,
            block.out,
            step_word(edition, o.step),
            step,
            step,
        ],
    )
}

// Puts the rule of steps that a row breaks first, by its number, which picks the form's part.
#[tactic(auto, using(wording::proofs::Showing::showing), unfolding(crate::specs::Wrong::rules_numbers))]
pub fn put_rules(room: &mut [u8], at: usize, cause: u32) -> usize
    ensures { Shown room.old at (rules_numbers cause) room.new result }
{
    put_form(
        room,
        at,
        b"    [|there is no row before it to be the step before\
    |the row before is of another resource\
    |the row before is not the step before\
    |the price is under that of the row before\
    |only step 1 may have a minimum block]
",
        &[u64::from(cause)],
    )
}
