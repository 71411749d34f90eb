// What a page asks of the workings of a book: a rung of the ladder, and who holds a place in the contest.
ghost use Rattle.std.specs.Prelude.{◌≡◌};
ghost use Rattle.workings.specs.Works.{worked};
ghost use Rattle.headpage.specs.Facts.{ladder_in, placed_in};

use ladder::rung::Ladder;
use turns::order::Contender;
use workings::NO_ROW;
use workings::works::workings;

// The ladder of a book with rung k: it has no rung where the book is not accepted.
pub(crate) fn ladder_of(book: &[u8], k: usize) -> Ladder
    ensures { result ≡ ladder_in (worked book.now 600 k 600) }
{
    match workings(book, NO_ROW, k, NO_ROW) {
        Ok(w) => w.ladder,
        Err(_) => Ladder {
            lower: 0,
            rung: None,
        },
    }
}

// Who holds place k in the contest of a book: no one where the book is not accepted.
pub(crate) fn placed_of(book: &[u8], k: usize) -> Option<Contender>
    ensures { result ≡ placed_in (worked book.now 600 600 k) }
{
    match workings(book, NO_ROW, NO_ROW, k) {
        Ok(w) => w.contest.placed,
        Err(_) => None,
    }
}
