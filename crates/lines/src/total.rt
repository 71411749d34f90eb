// The cleared total and why it stops where it does, the price and what sets it.
ghost use Rattle.std.specs.Prelude.{◌≡◌};
ghost use Rattle.forms.specs.Shown.{Shown};
ghost use Rattle.lines.specs.Total.{next_numbers, setter, total_numbers, price_numbers};

use crate::sold::total_word;
use forms::put_form;
use reasons::stop::{Stop, Tenth};
use std::cmp::Ordering;
use units::CentsPerMwDay;
use wording::word::priced;

// The tenth past a total, as the numbers that are shown: whether there is none, the curve price there and what is offered up to
// it, with all ones for the numbers of one that is not there.
fn next_numbers(next: Option<Tenth>) -> [u64; 3]
    ensures { result ≡ next_numbers next }
{
    match next {
        Some(tenth) => [0, u64::from(tenth.price.0), u64::from(tenth.offered)],
        None => [1, u64::MAX, u64::MAX],
    }
}

// Puts the total, the curve price there, what is offered up to it, and why it is no tenth more.
#[tactic(auto, using(wording::proofs::Showing::showing), unfolding(crate::specs::Total::total_numbers))]
pub fn put_total(room: &mut [u8], at: usize, s: Stop, offers: u32) -> usize
    ensures { Shown room.old at (total_numbers s offers) room.new result }
{
    let [none, price, offered] = next_numbers(s.next);
    put_form(
        room,
        at,
        b"
The cleared total X is ~ MW[|: there are no offers|: no offer is at or under
  the curve's highest price, $]
  at X the curve price is $; offered up to it: ~ MW
[  one tenth further it is $; offered up to it: ~ MW
  that is less than X and one tenth, so X stops here\
    |  X is Q3, the last point of the curve, so X stops here]
",
        &[
            u64::from(s.level.total),
            total_word(s.level.total, offers),
            u64::from(s.curve.p1.0),
            u64::from(s.last.price.0),
            u64::from(s.last.offered),
            none,
            price,
            offered,
        ],
    )
}

// What sets a price: 0 the curve, as no price has more than the total; else the next price is 1 under the curve price, 2 over
// it, 3 the same.
#[tactic(auto, unfolding(crate::specs::Total::setter))]
fn setter(more: bool, price: u32, curve_price: u32) -> u64
    ensures { result ≡ setter more price curve_price }
{
    match price.cmp(&curve_price) {
        _ if !more => 0,
        Ordering::Less => 1,
        Ordering::Greater => 2,
        Ordering::Equal => 3,
    }
}

// Puts the price, of the level at which the total stops and the curve price there, and what sets it.
#[tactic(auto, using(wording::proofs::Showing::showing), unfolding(crate::specs::Total::price_numbers))]
pub fn put_price(room: &mut [u8], at: usize, price: Option<CentsPerMwDay>, s: Stop) -> usize
    ensures { Shown room.old at (price_numbers price s) room.new result }
{
    let told = priced(price);
    let more = s.level.total < s.level.reach;
    let (further, sets) = match price {
        None => (2, 4),
        Some(_) => (u64::from(more), setter(more, s.level.price, s.last.price.0)),
    };
    put_form(
        room,
        at,
        b"
[The price is $ dollars per MW-day|The price is 0.00 dollars per MW-day: a price, and it is zero\
    |Nothing cleared, so there is no price; no price is not a price of zero]
[  no more than X is offered at any price
|  the lowest price with more than X up to it is $ (~ MW)
|][  so the curve sets the price
|  that is under the curve price at X, so an offer sets the price
|  that is over the curve price at X, so the curve sets the price
|  that is the curve price at X too, so both set the price
|]",
        &[
            told.word,
            told.number,
            further,
            u64::from(s.level.price),
            u64::from(s.level.reach),
            sets,
        ],
    )
}
