// The refusals in words, and texts in room that a caller lends: what stands behind a text is not touched, and no zero ends it.
#![tactic(auto)]

ghost use Rattle.std.specs.Prelude.{◌≡◌, ◌≤◌, ◌<◌};
ghost use Rattle.words.specs.Texts.{text_given, text_refused, Told};
ghost use Rattle.words.specs.Words.{bytes_of, words_of};

use plain::structs::{NO_AMOUNT, NO_VALUE, OzpText};
use text::put_bytes;

// No text.
const NO_TEXT: OzpText = OzpText {
    bytes: 0,
    kind: 2,
    number: NO_VALUE,
    place: NO_VALUE,
};

// A text of so many bytes.
pub fn given(bytes: u64) -> OzpText
    ensures { result ≡ text_given bytes }
{
    OzpText {
        bytes,
        kind: 1,
        ..NO_TEXT
    }
}

// A refusal.
pub fn refused(number: u32, place: u32) -> OzpText
    ensures { result ≡ text_refused number place }
{
    OzpText {
        bytes: NO_AMOUNT,
        kind: 3,
        number,
        place,
    }
}

// Puts a text at the front of the room, where it fits.
pub fn put_text(room: &mut [u8], text: &[u8]) -> OzpText
    ensures { Told text.now room.old result room.new }
{
    if text.len() == 0 {
        return NO_TEXT;
    }
    if room.len() < text.len() {
        return refused(20, 0);
    }
    let end = put_bytes(room, 0, text);
    given(end as u64)
}

// What refusals 1 to 5 say, of a book's length, its blocks and its parameters. Each is put by a call of its own and not out of a table:
// so the compiler knows how long each text is, and the library asks for no more of C than memcpy and memset, as the header says.
fn book_words(number: u32, room: &mut [u8]) -> OzpText
    requires { number ≤ 5 }
    ensures { Told (bytes_of (words_of number)) room.old result room.new }
{
    match number {
        1 => put_text(
            room,
            b"length not a multiple of 512, or under 512, or over 20,992; 0",
        ),
        2 => put_text(room, b"a block's check is wrong; the block"),
        3 => put_text(
            room,
            b"letters, edition, block number, counts, unused marks or bytes differ from the layout, or a value marked absent is not zero; the block",
        ),
        4 => put_text(room, b"a parameter is missing; the field"),
        5 => put_text(room, b"a parameter is out of range; the field"),
        _ => NO_TEXT,
    }
}

// What refusals 6 to 11 say, of its rows and of the buffers for what they clear and commit.
fn offer_words(number: u32, room: &mut [u8]) -> OzpText
    requires { (5 < number) × (number ≤ 11) }
    ensures { Told (bytes_of (words_of number)) room.old result room.new }
{
    match number {
        6 => put_text(room, b"an offer has no price; the row"),
        7 => put_text(room, b"an offer value is out of range; the row"),
        8 => put_text(room, b"a resource number stands in an earlier row; the row"),
        9 => put_text(
            room,
            b"a result buffer has fewer entries than offers; 1 cleared, 2 committed",
        ),
        10 => put_text(
            room,
            b"a resource's steps do not stand in neighbouring rows counted up from 1, their prices fall, or a step past 1 has a minimum block; the row",
        ),
        _ => put_text(
            room,
            b"a row has a step of 2 or more, which edition 1 cannot hold; the row",
        ),
    }
}

// What a refusal's number says, and what its place is.
pub fn words(number: u32, room: &mut [u8]) -> OzpText
    ensures { Told (bytes_of (words_of number)) room.old result room.new }
{
    if number <= 5 {
        return book_words(number, room);
    }
    if number <= 11 {
        return offer_words(number, room);
    }
    match number {
        19 => put_text(room, b"more than 600 rows; 0"),
        20 => put_text(room, b"the room lent is too small; 0"),
        _ => NO_TEXT,
    }
}
