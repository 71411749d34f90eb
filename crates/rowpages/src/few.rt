// Few rows, each in full, and behind the last of a resource's steps what they clear together.
ghost use Rattle.std.specs.Prelude.{◌≤◌};
ghost use Rattle.forms.specs.Shown.{Shows};
ghost use Rattle.rowpages.specs.Rows.{few_parts};

use crate::row::put_row_of;
use crate::together::put_together_of;

// Puts n rows of a book in full.
pub(crate) fn put_few(room: &mut [u8], at: usize, book: &[u8], edition: u32, n: usize) -> usize
    requires { n ≤ 600 }
    ensures { Shows room.old at (few_parts book.now edition n) room.new result }
{
    let mut behind = at;
    for row in 0..n {
        let own = put_row_of(room, behind, book, edition, row);
        behind = put_together_of(room, own, book, row);
    }
    behind
}
