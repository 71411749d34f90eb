// A book of either edition written into lent room, of parameters and of rows in an array.
//
// Little is done here: calls say how many rows are tested and how many are put, and do both with one row. Of few rows, as one block
// holds, less room is cleared for what is kept of them.
ghost use Rattle.std.specs.Prelude.{◌≡◌, map, ◌/◌, ◌≤◌, ◌<◌, length, take};
ghost use Rattle.making.specs.inner.Made.{bytes_for};
ghost use Rattle.places.specs.inner.Rows.{put_rows};
ghost use Rattle.plain.specs.Given.{offer_in, contents_in};
ghost use Rattle.lent.specs.Wrote.{Wrote};
ghost use Rattle.lent.specs.inner.Drafts.{RowsTested, Searched};
ghost use Rattle.values.specs.Refusals.{no_fault};

use lent::tested::{Draft, begin, test_row, unrepeated};
use lent::{close_room, open_room, put_row};
use plain::structs::{OzpParameters, OzpRow, OzpText};

// Tests the rows of a draft, up to the first that is refused.
fn test_rows(d: Draft, edition: u32, rows: &[OzpRow], kept: &mut [u32]) -> Draft
    requires { (d.rows ≤ length rows.now) × (d.rows ≤ length kept.old / 2) × (d.rows ≤ 600) × (0 < d.rows → d.fault ≡ no_fault) }
    ensures { RowsTested edition (map offer_in rows.now) d kept.old result kept.new }
{
    let mut t = d;
    let mut i = 0;
    // A search: a row that is refused leaves no row behind it to be tested.
    while i < t.rows {
        t = test_row(t, edition, i, rows[i], kept);
        i += 1;
    }
    t
}

// The draft with its rows tested for 7, 10 and 8. What is kept of them stands in N entries meanwhile.
fn tested_in<const N: usize>(d: Draft, edition: u32, rows: &[OzpRow]) -> Draft
    requires { (d.rows ≤ length rows.now) × (d.rows ≤ N / 2) × (N ≤ 1200) × (0 < d.rows → d.fault ≡ no_fault) }
    ensures { Searched edition (map offer_in rows.now) d result }
{
    let mut kept = [0u32; N];
    let found = test_rows(d, edition, rows, &mut kept);
    unrepeated(found, &kept)
}

// Puts the first n rows into their places of the room.
fn put_rows(room: &mut [u8], edition: u32, rows: &[OzpRow], n: usize)
    requires { (n ≤ length rows.now) × (n ≤ 600) × (0 < n → bytes_for n ≤ length room.old) }
    ensures { room.new ≡ put_rows room.old edition 0 (take n (map offer_in rows.now)) }
{
    for i in 0..n {
        put_row(room, edition, i, rows[i]);
    }
}

// Writes the book of this edition that says these parameters and rows into the room. What stands behind it is not touched, and on
// a refusal the room holds what it held.
#[unsafe(no_mangle)]
pub extern "C" fn ozp_write(
    edition: u32,
    parameters: OzpParameters,
    rows: &[OzpRow],
    room: &mut [u8],
) -> OzpText
    ensures { Wrote (contents_in edition parameters rows.now) room.old result room.new }
{
    let begun = begin(edition, parameters, rows.len());
    let tested = if rows.len() < 16 {
        tested_in::<30>(begun, edition, rows)
    } else {
        tested_in::<1200>(begun, edition, rows)
    };
    let opened = open_room(tested, room);
    put_rows(room, edition, rows, opened.rows);
    close_room(opened, edition, parameters, room)
}
