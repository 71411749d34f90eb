// The level that is divided, and the contest for its spare tenths around the place where they end.
ghost use Rattle.forms.specs.Shown.{Shown};
ghost use Rattle.rowlines.specs.Division.{division_numbers, left_before_numbers, place_numbers, left_behind_numbers};

use forms::put_form;
use turns::order::Contender;
use wording::word::first_true;

// Puts how the level at a price is divided, and what the columns of the contest are where any tenth is spare.
#[tactic(auto, using(wording::proofs::Showing::showing), unfolding(crate::specs::Division::division_numbers))]
pub fn put_division(
    room: &mut [u8],
    at: usize,
    edition: u32,
    price: u32,
    amount: u32,
    sum: u32,
    spares: u32,
) -> usize
    ensures { Shown room.old at (division_numbers edition price amount sum spares) room.new result }
{
    let amount = u64::from(amount);
    let sum = u64::from(sum);
    let some = u64::from(0 < spares);
    put_form(
        room,
        at,
        b"
The level at $ is divided: it receives ~ MW of ~ MW
  the part of a row is its tenths x @ / @, rounded down
  [that leaves no spare tenth|that leaves 1 spare tenth, for the first in this order\
    |that leaves @ spare tenths, one each for the first in this order]
[|   place    remainder                stamp   resource][|  step][|
]",
        &[
            u64::from(price),
            amount,
            sum,
            amount,
            sum,
            first_true(spares == 0, spares == 1),
            u64::from(spares),
            some,
            u64::from(0 < spares && edition == 2),
            some,
        ],
    )
}

// Puts how many places are left out before those shown, of which the last is given.
#[tactic(auto, using(wording::proofs::Showing::showing), unfolding(crate::specs::Division::left_before_numbers))]
pub fn put_left_before(room: &mut [u8], at: usize, last: u32) -> usize
    ensures { Shown room.old at (left_before_numbers last) room.new result }
{
    put_form(
        room,
        at,
        b"[|  place 1 is left out: it gets one
|  places 1 to @ are left out: each gets one
]",
        &[first_true(last == 0, last == 1), u64::from(last)],
    )
}

// Puts who stands at a place, counted from 0, and whether that gets a spare tenth; before the first that gets none, that they end.
#[tactic(auto, using(wording::proofs::Showing::showing), unfolding(crate::specs::Division::place_numbers))]
pub fn put_place(
    room: &mut [u8],
    at: usize,
    edition: u32,
    k: usize,
    spares: u32,
    c: Contender,
) -> usize
    ensures { Shown room.old at (place_numbers edition k spares c) room.new result }
{
    let first = spares as usize;
    put_form(
        room,
        at,
        b"[|  ---------- the spare tenths end here
]_______# ___________@ ___________________# _________#[| ____#]  [gets one|gets none]
",
        &[
            u64::from(k == first),
            k.saturating_add(1) as u64,
            c.remainder,
            c.stamp,
            u64::from(c.resource),
            u64::from(edition == 2),
            u64::from(c.step),
            u64::from(first <= k),
        ],
    )
}

// Puts how many places are left out behind those shown.
#[tactic(auto, using(wording::proofs::Showing::showing), unfolding(crate::specs::Division::left_behind_numbers))]
pub fn put_left_behind(room: &mut [u8], at: usize, spares: u32, contenders: u32) -> usize
    ensures { Shown room.old at (left_behind_numbers spares contenders) room.new result }
{
    let last = u64::from(spares) + 5;
    let next = last + 1;
    let all = u64::from(contenders);
    put_form(
        room,
        at,
        b"[|  place @ is left out: it gets none
|  places @ to @ are left out: each gets none
]",
        &[first_true(all <= last, all == next), all, next, all],
    )
}
