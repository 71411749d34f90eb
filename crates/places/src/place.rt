// A row in its own place of its own block.
ghost use Rattle.std.specs.Prelude.{◌≡◌, ◌+◌, ◌*◌, ◌/◌, ◌%◌, ◌≤◌, ◌<◌, length};
ghost use Rattle.encoding.specs.Encode.{place_marks, step_byte, place_bytes};
ghost use Rattle.places.specs.inner.Put.{put, weighed};
ghost use Rattle.places.specs.inner.Rows.{put_row};

use crate::bytes::{put_u32, put_u64, put_value};
use block::SIZE;
use limits::offers::step_within;
use sections::{PLACE_SIZE, PLACES, PLACES_FROM};
use values::Value;
use values::place::Offer;

// The bit of this weight where a value is given.
pub fn mark_of(v: Value, weight: u32) -> u32
    ensures { (result ≡ weighed weight v) × (result ≤ weight) }
{
    match v {
        Value::Given(_) => weight,
        Value::Missing => 0,
    }
}

// The marks of a place.
fn place_marks(o: Offer) -> u32
    ensures { (result ≡ place_marks o) × (result ≤ 3) }
{
    mark_of(o.price, 1) + mark_of(o.block, 2)
}

// The byte of a step: edition 1 has none, and a zero in its stead.
fn step_byte(edition: u32, step: u32) -> u32
    ensures { result ≡ step_byte edition step }
{
    if edition == 1 { 0 } else { step }
}

// An offer in a place of 32 bytes. The marks are the first of the last four bytes, the step is the second, and the others are zero.
fn put_place(b: &mut [u8], at: usize, edition: u32, o: Offer)
    requires { (at + 32 ≤ length b.old) × (step_byte edition o.step < 256) }
    ensures { b.new ≡ put b.old at (place_bytes edition o) }
{
    put_u32(b, at, o.resource);
    put_u32(b, at + 4, o.seller);
    put_value(b, at + 8, o.price);
    put_u32(b, at + 12, o.quantity);
    put_value(b, at + 16, o.block);
    put_u64(b, at + 20, o.stamp);
    put_u32(
        b,
        at + 28,
        place_marks(o) + step_byte(edition, o.step) * 256,
    );
}

// An offer as row i of a book of this edition. One with a step that the edition does not have leaves the place as it was. A block
// is one place longer than those that it holds.
pub fn put_row(book: &mut [u8], edition: u32, i: usize, o: Offer)
    requires { ((1 + i / 15) * 512 + 512 ≤ length book.old) × (i < 600) }
    ensures { book.new ≡ put_row book.old edition i o }
{
    if !step_within(edition, o.step) {
        return;
    }
    let at = SIZE + PLACES_FROM + (i + i / PLACES) * PLACE_SIZE;
    put_place(book, at, edition, o);
}
