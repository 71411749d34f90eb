// What a book sells: its price, its totals of a day and of the year, each zero with its reason.
ghost use Rattle.std.specs.Prelude.{◌≡◌};
ghost use Rattle.forms.specs.Shown.{Shown};
ghost use Rattle.lines.specs.Sold.{daily_word, paid_word, sold_numbers, total_word, year_numbers};
ghost use Rattle.wording.specs.Words.{price_word};

use forms::put_form;
use sale::Clearing;
use units::CentsPerMwDay;
use wording::word::{first_true, priced};

// What clears: 0 anything, 1 nothing as there are no offers, 2 nothing as none is at or under the curve's highest price.
pub(crate) fn total_word(total: u32, offers: u32) -> u64
    ensures { result ≡ total_word total offers }
{
    first_true(0 < total, offers == 0)
}

// A make-whole: 0 there is one, 1 there is no price, 2 the price is zero, 3 no row commits more than it cleared.
fn paid_word(price: Option<CentsPerMwDay>, make_whole: u64) -> u64
    ensures { result ≡ paid_word (price_word price) make_whole }
{
    match price {
        _ if 0 < make_whole => 0,
        None => 1,
        Some(CentsPerMwDay(0)) => 2,
        Some(_) => 3,
    }
}

// A daily total: 0 of a price over zero, 1 there is no price, 2 the price is zero.
fn daily_word(price: Option<CentsPerMwDay>) -> u64
    ensures { result ≡ daily_word (price_word price) }
{
    match price {
        None => 1,
        Some(CentsPerMwDay(0)) => 2,
        Some(_) => 0,
    }
}

// Puts the price, what clears, the make-whole and the daily total.
#[tactic(auto, using(wording::proofs::Showing::showing), unfolding(crate::specs::Sold::sold_numbers))]
pub fn put_sold(room: &mut [u8], at: usize, k: Clearing, offers: u32) -> usize
    ensures { Shown room.old at (sold_numbers k offers) room.new result }
{
    let price = priced(k.price);
    let total = u64::from(k.total);
    put_form(
        room,
        at,
        b"
The answer
  price        [$ dollars per MW-day|0.00 dollars per MW-day: a price, and it is zero\
    |none: nothing cleared, and no price is not a price of zero]
  cleared      ~ MW[|: there are no offers|: no offer is at or under the curve's highest price]
  make-whole   & dollars a day[|: nothing cleared, so nothing is paid|: the price is zero\
    |: no row commits more than it cleared]
  daily total  & dollars
               [$ x ~ MW, and the make-whole|nothing cleared, so nothing is paid|the price is zero]
",
        &[
            price.word,
            price.number,
            total,
            total_word(k.total, offers),
            k.make_whole,
            paid_word(k.price, k.make_whole),
            k.daily,
            daily_word(k.price),
            price.number,
            total,
        ],
    )
}

// Puts the total of the delivery year that starts in a calendar year, of so many days, and why it has so many.
#[tactic(auto, using(wording::proofs::Showing::showing), unfolding(crate::specs::Sold::year_numbers))]
pub fn put_year(room: &mut [u8], at: usize, year: u32, days: u64, daily: u64, total: u64) -> usize
    ensures { Shown room.old at (year_numbers year days daily total) room.new result }
{
    let next = u64::from(year) + 1;
    put_form(
        room,
        at,
        b"  year total   & dollars
               # x &, as [no 29 February|29 February #] lies between
               1 June # and 31 May #
",
        &[
            total,
            days,
            daily,
            u64::from(days == 366),
            next,
            u64::from(year),
            next,
        ],
    )
}
