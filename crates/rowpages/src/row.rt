// A row in full: its offer, its part of its price level, its turn in the contest, and what it clears, commits and is paid.
ghost use Rattle.forms.specs.Shown.{Shows};
ghost use Rattle.readout.specs.Facts.{row_in};
ghost use Rattle.workings.specs.Works.{worked};
ghost use Rattle.rowpages.specs.Row.{turn_parts, full_parts, worked_parts, row_parts};

use readout::offer_of;
use reasons::share::Share;
use rowlines::rows::{put_offer, put_part, put_settled};
use rowlines::turn::put_turn;
use units::CentsPerMwDay;
use values::place::Offer;
use workings::NO_ROW;
use workings::row::RowWorks;
use workings::works::{Works, workings};

// Puts a row's turn in the contest, where its level is divided.
fn put_turn_of(room: &mut [u8], at: usize, edition: u32, s: Share, w: RowWorks) -> usize
    ensures { Shows room.old at (turn_parts edition s w) room.new result }
{
    if (s.amount == 0) | (s.amount == s.sum) {
        return at;
    }
    put_turn(room, at, edition, w.turn)
}

// Puts a row in full.
fn put_full(
    room: &mut [u8],
    at: usize,
    edition: u32,
    row: usize,
    o: Offer,
    price: Option<CentsPerMwDay>,
    s: Share,
    w: RowWorks,
) -> usize
    ensures { Shows room.old at (full_parts edition row o price s w) room.new result }
{
    let offer = put_offer(room, at, edition, row, o);
    let part = put_part(room, offer, o.quantity, s);
    let turned = put_turn_of(room, part, edition, s, w);
    put_settled(
        room,
        turned,
        price,
        w.turn.cleared,
        w.committed,
        w.make_whole,
    )
}

// Puts a row in full by its workings, where they are there.
fn put_worked(room: &mut [u8], at: usize, edition: u32, row: usize, o: Offer, w: Works) -> usize
    ensures { Shows room.old at (worked_parts edition row o w.price w.share w.row) room.new result }
{
    let Some(share) = w.share else {
        return at;
    };
    match w.row {
        Some(own) => put_full(room, at, edition, row, o, w.price, share, own),
        None => at,
    }
}

// Puts a row of a book in full, where it is there and the book is accepted.
pub fn put_row_of(room: &mut [u8], at: usize, book: &[u8], edition: u32, row: usize) -> usize
    ensures { Shows room.old at (row_parts edition row (row_in book.now row) (worked book.now row 600 600)) room.new result }
{
    let Some(o) = offer_of(book, row) else {
        return at;
    };
    match workings(book, row, NO_ROW, NO_ROW) {
        Ok(w) => put_worked(room, at, edition, row, o, w),
        Err(_) => at,
    }
}
