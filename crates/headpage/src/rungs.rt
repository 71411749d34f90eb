// The price levels around the one at which the total stops, as a ladder of at most eleven rungs.
ghost use Rattle.forms.specs.Shown.{Shows};
ghost use Rattle.workings.specs.Works.{worked};
ghost use Rattle.headpage.specs.Facts.{ladder_in};
ghost use Rattle.headpage.specs.Levels.{ladder_parts, rung_parts, levels_parts};

use crate::facts::ladder_of;
use rowlines::rungs::{put_ladder, put_rung};

// Puts the ladder's head, where there is a rung.
fn put_ladder_head(room: &mut [u8], at: usize, book: &[u8]) -> usize
    ensures { Shows room.old at (ladder_parts (ladder_in (worked book.now 600 0 600))) room.new result }
{
    let ladder = ladder_of(book, 0);
    match ladder.rung {
        Some(_) => put_ladder(room, at, ladder.lower),
        None => at,
    }
}

// Puts rung k, where it is there.
fn put_rung_of(room: &mut [u8], at: usize, book: &[u8], k: usize) -> usize
    ensures { Shows room.old at (rung_parts k (ladder_in (worked book.now 600 k 600))) room.new result }
{
    match ladder_of(book, k).rung {
        Some(rung) => put_rung(room, at, k, rung),
        None => at,
    }
}

// Puts the price levels.
pub(crate) fn put_levels(room: &mut [u8], at: usize, book: &[u8]) -> usize
    ensures { Shows room.old at (levels_parts book.now) room.new result }
{
    let mut behind = put_ladder_head(room, at, book);
    for k in 0..11 {
        behind = put_rung_of(room, behind, book, k);
    }
    behind
}
