// A sound book in the other edition, in room that a caller lends. The room's first block is cleared once nothing refuses the book; its
// rows are put into their places there, in the other edition, and the book is made around them as the writer makes it.
#![tactic(auto)]

ghost use Rattle.std.specs.Prelude.{◌≡◌, cond, ◌≤◌, eqb, length};
ghost use Rattle.layout.specs.Read.{row_offers, contents_of};
ghost use Rattle.layout.specs.inner.Read.{Inside};
ghost use Rattle.book.specs.Faults.{sound_fault};
ghost use Rattle.places.specs.inner.Rows.{put_rows};
ghost use Rattle.convert.specs.Convert.{other_edition, steps_fault, convert_fault};
ghost use Rattle.convert.specs.Converted.{Converted};
ghost use Rattle.convert.specs.inner.Converts.{own_fault, other_made};
ghost use Rattle.values.specs.Refusals.{no_fault};

use block::SIZE;
use book::soundness;
use layout::reader::{edition, offer_count, row_bytes};
use making::{put_book, put_zeros};
use places::place::put_row;
use plain::structs::OzpText;
use values::Refusal;
use values::head::parameters_in;
use values::place::offer_in;
use words::{given, refused};

// The other of the two editions.
fn other_edition(edition: u32) -> u32
    ensures { result ≡ other_edition edition }
{
    if edition == 1 { 2 } else { 1 }
}

// 11: the first of n rows of a book of this edition that has a step of 2 or more.
fn steps_fault(book: &[u8], edition: u32, n: u32) -> Result<(), Refusal>
    requires { Inside book.now 1 n }
    ensures { result ≡ steps_fault (row_offers book.now edition 1 n) }
{
    for row in 0..n {
        let o = offer_in(row_bytes(book, 1, row as usize), edition);
        if 1 < o.step {
            return Err(Refusal::SeveralSteps(row));
        }
    }
    Ok(())
}

// Puts n rows of a book of this edition into their places of a book of the other, which has as many bytes.
fn put_rows(book: &[u8], edition: u32, other: u32, n: usize, room: &mut [u8])
    requires { Inside book.now 1 n × (length book.now ≤ length room.old) }
    ensures { room.new ≡ put_rows room.old other 0 (row_offers book.now edition 1 n) }
{
    for row in 0..n {
        put_row(room, other, row, offer_in(row_bytes(book, 1, row), edition));
    }
}

// 11, of a book of edition 2.
fn down_fault(book: &[u8], edition: u32, n: u32) -> Result<(), Refusal>
    requires { Inside book.now 1 n }
    ensures { result ≡ cond (eqb edition 1) no_fault (steps_fault (row_offers book.now edition 1 n)) }
{
    if edition == 1 {
        return Ok(());
    }
    steps_fault(book, edition, n)
}

// Why a book cannot be converted: its own fault where it is not sound, and then 11.
fn own_fault(book: &[u8]) -> Result<(), Refusal>
    ensures { result ≡ own_fault book.now }
{
    soundness(book)?;
    down_fault(book, edition(book), offer_count(book))
}

// Makes a sound book in the other edition, in room whose first block is cleared.
fn put_other(book: &[u8], room: &mut [u8])
    requires { (sound_fault book.now ≡ no_fault) × (length book.now ≤ length room.old) }
    ensures { room.new ≡ other_made (contents_of book.now) room.old }
{
    let own = edition(book);
    let other = other_edition(own);
    let n = offer_count(book) as usize;
    put_rows(book, own, other, n, room);
    put_book(room, other, parameters_in(&book[0..SIZE]), n);
}

// Why a book cannot be converted into a room: its own fault, and then 20.
fn convert_fault(book: &[u8], room: &[u8]) -> Result<(), Refusal>
    ensures { result ≡ convert_fault book.now (length room.now) }
{
    own_fault(book)?;
    if room.len() < book.len() {
        return Err(Refusal::ShortRoom);
    }
    Ok(())
}

// Converts a book into the room, where nothing refuses it: in the other edition it has as many bytes.
pub fn put_converted(book: &[u8], room: &mut [u8]) -> OzpText
    ensures { Converted book.now room.old result room.new }
{
    if let Err(refusal) = convert_fault(book, room) {
        return refused(refusal.number(), refusal.place());
    }
    put_zeros(room, 0, SIZE);
    put_other(book, room);
    given(book.len() as u64)
}
