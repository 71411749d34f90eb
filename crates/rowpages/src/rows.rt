// The rows of an accepted book: few in full, many as a table.
ghost use Rattle.std.specs.Prelude.{◌≡◌, ◌≤◌};
ghost use Rattle.book.specs.Faults.{first_fault};
ghost use Rattle.forms.specs.Shown.{Shows};
ghost use Rattle.readout.specs.Facts.{head_in, rows_in};
ghost use Rattle.workings.specs.Works.{worked};
ghost use Rattle.rowpages.specs.Rows.{rows_by, rows_parts};
ghost use Rattle.values.specs.Refusals.{no_fault};

use crate::few::put_few;
use crate::table::put_table;
use levels::level::Level;
use readout::{head_of, rows_of};
use rowlines::rows::put_rows_head;
use rowlines::table::put_table_head;
use workings::NO_ROW;
use workings::works::workings;

// The most rows that are shown in full: as many as fill a block.
const FEW: usize = 15;

// Puts the n rows of an accepted book: in full, or as a table where there are many.
fn put_some(room: &mut [u8], at: usize, book: &[u8], edition: u32, n: usize, level: Level) -> usize
    requires { (first_fault book.now ≡ no_fault) × (n ≡ rows_in book.now) × (n ≤ 600) }
    ensures { Shows room.old at (rows_by book.now edition level.amount level.sum n) room.new result }
{
    if n == 0 {
        return at;
    }
    if n <= FEW {
        let head = put_rows_head(room, at);
        return put_few(room, head, book, edition, n);
    }
    let head = put_table_head(room, at);
    put_table(room, head, book, n, level)
}

// Puts the rows of a book, where it is accepted.
pub fn put_rows(room: &mut [u8], at: usize, book: &[u8]) -> usize
    ensures { Shows room.old at (rows_parts book.now (head_in book.now) (worked book.now 600 600 600)) room.new result }
{
    let Some(head) = head_of(book) else {
        return at;
    };
    let Ok(w) = workings(book, NO_ROW, NO_ROW, NO_ROW) else {
        return at;
    };
    put_some(room, at, book, head.edition, rows_of(book), w.stop.level)
}
