// How an accepted book clears: its answer, the curve, where the total stops, the price, the price levels, and the level that is divided.
ghost use Rattle.forms.specs.Shown.{Shows};
ghost use Rattle.headpage.specs.Accepted.{market_parts, accepted_parts};

use crate::division::put_divided;
use crate::rungs::put_levels;
use calendar::days_of;
use lines::points::{put_prices, put_quantities};
use lines::sold::{put_sold, put_year};
use lines::total::{put_price, put_total};
use readout::Head;
use reasons::stop::Stop;
use sale::Clearing;
use workings::NO_ROW;
use workings::works::workings;

// Puts the answer, the curve, the total and the price.
fn put_market(room: &mut [u8], at: usize, head: Head, k: Clearing, stop: Stop) -> usize
    ensures { Shows room.old at (market_parts head k stop) room.new result }
{
    let p = head.parameters;
    let sold = put_sold(room, at, k, head.offers);
    let year = put_year(room, sold, p.year, days_of(p.year), k.daily, k.year);
    let prices = put_prices(room, year, p, stop.curve);
    let quantities = put_quantities(room, prices, p, stop.curve);
    let total = put_total(room, quantities, stop, head.offers);
    put_price(room, total, k.price, stop)
}

// Puts how an accepted book clears: the market, the price levels, and how the level at which the total stops is divided.
pub fn put_accepted(room: &mut [u8], at: usize, book: &[u8], head: Head, k: Clearing) -> usize
    ensures { Shows room.old at (accepted_parts book.now head k) room.new result }
{
    let Ok(w) = workings(book, NO_ROW, NO_ROW, NO_ROW) else {
        return at;
    };
    let market = put_market(room, at, head, k, w.stop);
    let levels = put_levels(room, market, book);
    put_divided(room, levels, book, head.edition, w.stop.level, w.contest)
}
