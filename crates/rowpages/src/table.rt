// Rows as a table: one line each. What all rows clear and commit is worked out once, into two buffers.
ghost use Rattle.std.specs.Prelude.{◌≡◌, ◌≤◌, ◌-◌, length};
ghost use Rattle.auction.specs.Settlement.{mills};
ghost use Rattle.settle.specs.inner.Read.{quoted};
ghost use Rattle.book.specs.Faults.{first_fault};
ghost use Rattle.forms.specs.Shown.{Shows};
ghost use Rattle.forms.specs.Parts.{parts_of};
ghost use Rattle.readout.specs.Facts.{row_in, rows_in};
ghost use Rattle.rowpages.specs.Table.{line_parts, table_parts};
ghost use Rattle.rowpages.specs.inner.Table.{line_by};
ghost use Rattle.values.specs.Refusals.{no_fault};

use call::clear;
use levels::level::Level;
use readout::offer_of;
use rowlines::table::put_line;
use settle::make_whole;
use units::CentsPerMwDay;

// Puts the line of a row, where it is there.
fn put_line_of(
    room: &mut [u8],
    at: usize,
    book: &[u8],
    row: usize,
    price: Option<CentsPerMwDay>,
    cleared: u32,
    committed: u32,
    amount: u32,
    sum: u32,
) -> usize
    ensures { Shows room.old at (line_parts row (row_in book.now row) cleared committed (mills (quoted price) (committed - cleared)) amount sum) room.new result }
{
    match offer_of(book, row) {
        Some(o) => put_line(
            room,
            at,
            row,
            o,
            cleared,
            committed,
            make_whole(price, cleared, committed),
            amount,
            sum,
        ),
        None => at,
    }
}

// Puts the lines of n rows, by lists of what each clears and commits.
fn put_lines(
    room: &mut [u8],
    at: usize,
    book: &[u8],
    n: usize,
    price: Option<CentsPerMwDay>,
    cleared: &[u32],
    committed: &[u32],
    amount: u32,
    sum: u32,
) -> usize
    requires { (n ≤ length cleared.now) × (n ≤ length committed.now) }
    ensures { Shows room.old at (parts_of (line_by book.now (quoted price) cleared.now committed.now amount sum) n) room.new result }
{
    let mut behind = at;
    for row in 0..n {
        behind = put_line_of(
            room,
            behind,
            book,
            row,
            price,
            cleared[row],
            committed[row],
            amount,
            sum,
        );
    }
    behind
}

// Puts the lines of the n rows of an accepted book, by the level at which its total stops.
pub(crate) fn put_table(room: &mut [u8], at: usize, book: &[u8], n: usize, level: Level) -> usize
    requires { (first_fault book.now ≡ no_fault) × (n ≡ rows_in book.now) × (n ≤ 600) }
    ensures { Shows room.old at (table_parts book.now level.amount level.sum n) room.new result }
{
    let mut cleared = [0u32; 600];
    let mut committed = [0u32; 600];
    let Ok(k) = clear(book, &mut cleared, &mut committed) else {
        return at;
    };
    put_lines(
        room,
        at,
        book,
        n,
        k.price,
        &cleared,
        &committed,
        level.amount,
        level.sum,
    )
}
