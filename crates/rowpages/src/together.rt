// The steps of a resource, taken together.
ghost use Rattle.std.specs.Prelude.{◌≡◌, ◌+◌, ◌*◌, ◌≤◌, ◌<◌};
ghost use Rattle.laws.specs.Sum.{sum_to};
ghost use Rattle.forms.specs.Shown.{Shows};
ghost use Rattle.readout.specs.Facts.{row_in};
ghost use Rattle.workings.specs.Works.{worked};
ghost use Rattle.rowpages.specs.Together.{cleared_in, offered_in, further_step, together_parts};

use readout::offer_of;
use rowlines::rows::put_together;
use workings::NO_ROW;
use workings::works::workings;

// What a row clears: nothing where it is not there.
fn cleared_of(book: &[u8], row: usize) -> u32
    ensures { result ≡ cleared_in (worked book.now row 600 600) }
{
    let Ok(w) = workings(book, row, NO_ROW, NO_ROW) else {
        return 0;
    };
    w.row.map_or(0, |own| own.turn.cleared)
}

// What a row offers: nothing where it is not there.
fn offered_of(book: &[u8], row: usize) -> u32
    ensures { result ≡ offered_in (row_in book.now row) }
{
    offer_of(book, row).map_or(0, |o| o.quantity)
}

// What rows clear and what they offer together: so many, from `first` on.
fn sums_from(book: &[u8], first: usize, count: usize) -> (u64, u64)
    requires { first + count ≤ 600 }
    ensures clears { result.0 ≡ sum_to (λ j. cleared_in (worked book.now (first + j) 600 600)) count }
    ensures offers { result.1 ≡ sum_to (λ j. offered_in (row_in book.now (first + j))) count }
{
    let mut cleared: u64 = 0;
    let mut offered: u64 = 0;
    for j in 0..count {
        cleared += u64::from(cleared_of(book, first + j));
        offered += u64::from(offered_of(book, first + j));
    }
    (cleared, offered)
}

// Whether a row is a further step.
fn goes_on(book: &[u8], row: usize) -> bool
    ensures { result ≡ further_step (row_in book.now row) }
{
    offer_of(book, row).is_some_and(|o| 1 < o.step)
}

// Puts what the steps of a resource clear together, behind the last of several.
pub(crate) fn put_together_of(room: &mut [u8], at: usize, book: &[u8], row: usize) -> usize
    requires { row < 600 }
    ensures { Shows room.old at (together_parts book.now row (row_in book.now row)) room.new result }
{
    let Some(o) = offer_of(book, row) else {
        return at;
    };
    let steps = o.step as usize;
    let end = row + 1;
    if end < steps {
        return at;
    }
    if (steps < 2) | goes_on(book, end) {
        return at;
    }
    let (cleared, offered) = sums_from(book, end - steps, steps);
    put_together(room, at, o.resource, o.step, cleared, offered)
}
