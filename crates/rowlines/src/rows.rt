// A row in full: its offer, its part of its price level, what it clears, commits and is paid; and what a resource's steps clear
// together.
ghost use Rattle.forms.specs.Shown.{Shown};
ghost use Rattle.rowlines.specs.Rows.{rows_head_numbers, offer_numbers, part_numbers, settled_numbers, together_numbers};

use crate::row_word::reason;
use forms::put_form;
use reasons::share::Share;
use units::CentsPerMwDay;
use values::number_held;
use values::place::Offer;
use wording::word::{cents_of, first_true, given, valued};

// Puts that the rows follow.
#[tactic(auto, using(wording::proofs::Showing::showing), unfolding(crate::specs::Rows::rows_head_numbers))]
pub fn put_rows_head(room: &mut [u8], at: usize) -> usize
    ensures { Shown room.old at rows_head_numbers room.new result }
{
    put_form(
        room,
        at,
        b"
The rows
",
        &[],
    )
}

// Puts a row's offer, and in edition 2 which of its resource's steps it is.
#[tactic(auto, using(wording::proofs::Showing::showing), unfolding(crate::specs::Rows::offer_numbers))]
pub fn put_offer(room: &mut [u8], at: usize, edition: u32, row: usize, o: Offer) -> usize
    ensures { Shown room.old at (offer_numbers edition row o) room.new result }
{
    let price = valued(o.price);
    put_form(
        room,
        at,
        b"row #, [|step # of ]resource #: ~ MW[, no price entered| at zero, a price| at $]
  seller #, [flexible|minimum block ~ MW], stamp #
",
        &[
            row as u64,
            u64::from(edition == 2),
            u64::from(o.step),
            u64::from(o.resource),
            u64::from(o.quantity),
            price.word,
            price.number,
            u64::from(o.seller),
            u64::from(given(o.block)),
            u64::from(number_held(o.block)),
            o.stamp,
        ],
    )
}

// Puts what the row's level receives of what is offered at it, and the row's part.
#[tactic(auto, using(wording::proofs::Showing::showing), unfolding(crate::specs::Rows::part_numbers))]
pub fn put_part(room: &mut [u8], at: usize, quantity: u32, s: Share) -> usize
    ensures { Shown room.old at (part_numbers quantity s) room.new result }
{
    put_form(
        room,
        at,
        b"  its level receives ~ MW of ~ MW
  [X leaves nothing for it, so nothing of the row clears\
    |that is all, so the row clears whole\
    |its part is @ x @ / @ tenths
    = @, remainder @]
",
        &[
            u64::from(s.amount),
            u64::from(s.sum),
            first_true(s.amount == 0, s.amount == s.sum),
            u64::from(quantity),
            u64::from(s.amount),
            u64::from(s.sum),
            s.down,
            s.remainder,
        ],
    )
}

// Puts what a row clears and commits, and its make-whole or why there is none.
#[tactic(auto, using(wording::proofs::Showing::showing), unfolding(crate::specs::Rows::settled_numbers))]
pub fn put_settled(
    room: &mut [u8],
    at: usize,
    price: Option<CentsPerMwDay>,
    cleared: u32,
    committed: u32,
    mills: u64,
) -> usize
    ensures { Shown room.old at (settled_numbers price cleared committed mills) room.new result }
{
    put_form(
        room,
        at,
        b"  cleared ~ MW, committed ~ MW[|, its minimum block]
  make-whole [0: nothing of the row cleared, so it commits nothing\
    |0: it commits what cleared\
    |0: it commits more than cleared, and the price is zero\
    |& dollars a day
    = $ x ~ MW committed past what cleared]
",
        &[
            u64::from(cleared),
            u64::from(committed),
            u64::from(cleared < committed),
            reason(0 < mills, cleared == 0, cleared < committed),
            mills,
            cents_of(price),
            u64::from(committed.saturating_sub(cleared)),
        ],
    )
}

// Puts what the steps of a resource clear together, of what they offer.
#[tactic(auto, using(wording::proofs::Showing::showing), unfolding(crate::specs::Rows::together_numbers))]
pub fn put_together(
    room: &mut [u8],
    at: usize,
    resource: u32,
    steps: u32,
    cleared: u64,
    offered: u64,
) -> usize
    ensures { Shown room.old at (together_numbers resource steps cleared offered) room.new result }
{
    put_form(
        room,
        at,
        b"resource #, steps 1 to #: cleared ~ MW of ~ MW
",
        &[u64::from(resource), u64::from(steps), cleared, offered],
    )
}
