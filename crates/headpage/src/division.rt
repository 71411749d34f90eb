// The level that is divided: how it is, and the contest for its spare tenths around the place where they end.
ghost use Rattle.forms.specs.Shown.{Shows};
ghost use Rattle.workings.specs.Works.{worked};
ghost use Rattle.headpage.specs.Facts.{placed_in};
ghost use Rattle.headpage.specs.Division.{place_parts, places_parts, contest_parts, divided_parts};

use crate::facts::placed_of;
use levels::level::Level;
use rowlines::division::{put_division, put_left_before, put_left_behind, put_place};
use workings::spares::Contest;

// How many places are shown before the one where the spare tenths end, and from it on.
const NEAR: u32 = 5;

// Puts who holds place k in the contest, where someone does.
fn put_place_of(
    room: &mut [u8],
    at: usize,
    book: &[u8],
    edition: u32,
    spares: u32,
    k: usize,
) -> usize
    ensures { Shows room.old at (place_parts edition spares k (placed_in (worked book.now 600 600 k))) room.new result }
{
    match placed_of(book, k) {
        Some(c) => put_place(room, at, edition, k, spares, c),
        None => at,
    }
}

// Puts the places around the one where the spare tenths end: five before it and five from it on.
fn put_places(room: &mut [u8], at: usize, book: &[u8], edition: u32, spares: u32) -> usize
    ensures { Shows room.old at (places_parts book.now edition spares) room.new result }
{
    let first = spares.saturating_sub(NEAR) as usize;
    let count = (spares.min(NEAR) + NEAR) as usize;
    let mut behind = at;
    for j in 0..count {
        behind = put_place_of(room, behind, book, edition, spares, first + j);
    }
    behind
}

// Puts the contest for spare tenths.
fn put_contest(room: &mut [u8], at: usize, book: &[u8], edition: u32, contest: Contest) -> usize
    ensures { Shows room.old at (contest_parts book.now edition contest.spares contest.contenders) room.new result }
{
    let spares = contest.spares;
    let before = put_left_before(room, at, spares.saturating_sub(NEAR));
    let places = put_places(room, before, book, edition, spares);
    put_left_behind(room, places, spares, contest.contenders)
}

// Puts how a level is divided, where it is: one that receives something and not all.
pub(crate) fn put_divided(
    room: &mut [u8],
    at: usize,
    book: &[u8],
    edition: u32,
    level: Level,
    contest: Contest,
) -> usize
    ensures { Shows room.old at (divided_parts book.now edition level contest.spares contest.contenders) room.new result }
{
    if (level.amount == 0) | (level.amount == level.sum) {
        return at;
    }
    let divided = put_division(
        room,
        at,
        edition,
        level.price,
        level.amount,
        level.sum,
        contest.spares,
    );
    if contest.spares == 0 {
        return divided;
    }
    put_contest(room, divided, book, edition, contest)
}
