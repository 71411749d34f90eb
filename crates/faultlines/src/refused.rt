// A refusal in the words of the table, with its place named and what is wrong there.
ghost use Rattle.forms.specs.Shown.{Shown};
ghost use Rattle.faultlines.specs.Refused.{length_numbers, check_numbers, layout_numbers, refused_row_numbers};

use forms::put_form;
use wording::word::either;

// The most bytes that a book has: `layout::MOST_BYTES`, said again here as this crate does not stand on `layout`.
const MOST: usize = 20992;

// Puts refusal 1: the length.
#[tactic(auto, using(wording::proofs::Showing::showing), unfolding(crate::specs::Refused::length_numbers))]
pub fn put_length(room: &mut [u8], at: usize, bytes: usize) -> usize
    ensures { Shown room.old at (length_numbers bytes) room.new result }
{
    put_form(
        room,
        at,
        b"refused 1 at 0
  the length is [@ bytes|1 byte|over 20,992 bytes]
  it has to be a multiple of 512, from 512 to 20,992
",
        &[either(MOST < bytes, 2, u64::from(bytes == 1)), bytes as u64],
    )
}

// Puts refusal 2: the check of a block.
#[tactic(auto, using(wording::proofs::Showing::showing), unfolding(crate::specs::Refused::check_numbers))]
pub fn put_check(room: &mut [u8], at: usize, block: u32) -> usize
    ensures { Shown room.old at (check_numbers block) room.new result }
{
    put_form(
        room,
        at,
        b"refused 2 at block #
  the check of block # is wrong, so nothing of the book is read
",
        &[u64::from(block), u64::from(block)],
    )
}

// Puts refusal 3: the layout of a block, by the byte that fails it and the number of the test that it fails first, which picks the
// form's part.
#[tactic(auto, using(wording::proofs::Showing::showing), unfolding(crate::specs::Refused::layout_numbers))]
pub fn put_layout(room: &mut [u8], at: usize, block: u32, test: u32, byte: u32) -> usize
    ensures { Shown room.old at (layout_numbers block test byte) room.new result }
{
    put_form(
        room,
        at,
        b"refused 3 at block #
  block #, byte #: [|the letters are not those of its kind\
    |the edition is neither 1 nor 2\
    |the block's number is not its place\
    |the number of offers does not fit\
    |a mark that has no meaning is set\
    |a value marked absent is not zero\
    |it has to be zero]
  so nothing of the book is read
",
        &[
            u64::from(block),
            u64::from(block),
            u64::from(byte),
            u64::from(test),
        ],
    )
}

// Puts the first lines of refusals 6, 7, 8 and 10: the row, and for 8 the earlier row with its resource number.
#[tactic(auto, using(wording::proofs::Showing::showing), unfolding(crate::specs::Refused::refused_row_numbers))]
pub fn put_refused_row(
    room: &mut [u8],
    at: usize,
    number: u32,
    row: usize,
    resource: u32,
    first: usize,
) -> usize
    ensures { Shown room.old at (refused_row_numbers number row resource first) room.new result }
{
    put_form(
        room,
        at,
        b"
refused # at row #
  row # (resource #) has [||||||no price; a missing price is not zero\
    |a value out of range\
    |the resource number of the earlier row #\
    ||a step that breaks the rules of steps]
",
        &[
            u64::from(number),
            row as u64,
            row as u64,
            u64::from(resource),
            u64::from(number),
            first as u64,
        ],
    )
}
