// A book of either edition written from plain structs into room that a caller lends. The rows are tested one by one; where nothing
// refuses them the room's first block is cleared, each row is put into its place, and the book is made around them.
#![tactic(auto)]

mod alone;
mod row;
pub mod tested;

ghost use Rattle.std.specs.Prelude.{◌≡◌, ◌+◌, ◌*◌, ◌/◌, ◌≤◌, ◌<◌, length};
ghost use Rattle.making.specs.inner.Made.{bytes_for};
ghost use Rattle.places.specs.inner.Rows.{put_row};
ghost use Rattle.plain.specs.Given.{parameters_in, offer_in};
ghost use Rattle.lent.specs.inner.Rooms.{Opened, Closed};
ghost use Rattle.values.specs.Refusals.{no_fault};

use crate::tested::{Draft, drafted};
use block::SIZE;
use making::{bytes_for, put_zeros};
use plain::given::{offer_in, parameters_in};
use plain::structs::{OzpParameters, OzpRow, OzpText};
use values::Refusal;
use words::{given, refused};

// The last refusal of a book whose rows are tested: 20. Where nothing refuses it the first block, in which no row stands, is cleared,
// and the rows are to be put.
pub fn open_room(d: Draft, room: &mut [u8]) -> Draft
    requires { d.rows ≤ 600 }
    ensures { Opened d room.old result room.new }
{
    if d.fault.is_err() {
        return drafted(d.fault, d.rows, d.before);
    }
    // Named for the wrong program room_touched_before_20, which tests the room against another number.
    let bytes = bytes_for(d.rows);
    if room.len() < bytes {
        return drafted(Err(Refusal::ShortRoom), d.rows, d.before);
    }
    put_zeros(room, 0, SIZE);
    d
}

// Puts a row into its place of the room.
pub fn put_row(room: &mut [u8], edition: u32, i: usize, row: OzpRow)
    requires { ((1 + i / 15) * 512 + 512 ≤ length room.old) × (i < 600) }
    ensures { room.new ≡ put_row room.old edition i (offer_in row) }
{
    places::place::put_row(room, edition, i, offer_in(row));
}

// Makes the book around the rows that stand in the room, where nothing refuses it, and answers how many bytes it has.
pub fn close_room(d: Draft, edition: u32, parameters: OzpParameters, room: &mut [u8]) -> OzpText
    requires { (d.rows ≤ 600) × (d.fault ≡ no_fault → bytes_for d.rows ≤ length room.old) }
    ensures { Closed edition (parameters_in parameters) d room.old result room.new }
{
    if let Err(refusal) = d.fault {
        return refused(refusal.number(), refusal.place());
    }
    making::put_book(room, edition, parameters_in(parameters), d.rows);
    given(bytes_for(d.rows) as u64)
}
