// A section of a book: the rows of one kind, in blocks of their own that stand one after another.
ghost use Rattle.std.specs.Prelude.{◌≡◌, ◌*◌, ◌≤◌};
ghost use Rattle.sections.specs.Section.{blocks_for, rows_here};

use crate::PLACES;

// The rule of a used place's last four bytes, of which the last is zero in every kind of row.
#[derive(Clone, Copy)]
pub struct LastBytes {
    // byte 28, the marks, is at most this: the bits above the marks of the kind are zero
    pub marks: u8,
    // byte 29, the step, is at most this
    pub step: u8,
    // byte 30, what an event does, lies from the lowest to the highest
    pub lowest: u8,
    pub highest: u8,
}

impl LastBytes {
    // An offer of edition 1: a price and a minimum block may be given, and the other bits and bytes are zero.
    pub const OFFERS: LastBytes = LastBytes {
        marks: 3,
        step: 0,
        lowest: 0,
        highest: 0,
    };

    // An offer of edition 2: its step stands in byte 29.
    pub const STEPS: LastBytes = LastBytes {
        marks: 3,
        step: 255,
        lowest: 0,
        highest: 0,
    };
}

// Rows of one kind: where they stand, how many there are, and what their blocks and places look like.
#[derive(Clone, Copy)]
pub struct Section {
    // the four letters that open each of its blocks
    pub letters: [u8; 4],
    // where its first block stands, counted in blocks from 0, and the number that this block has
    pub first: usize,
    pub number: usize,
    // how many rows it has
    pub rows: usize,
    // the rule of a used place's last bytes
    pub last: LastBytes,
}

// As many blocks as so many rows need.
pub fn blocks_for(rows: usize) -> usize
    requires { rows ≤ 65535 }
    ensures { result ≡ blocks_for rows }
{
    rows.div_ceil(PLACES)
}

// How many of so many rows stand in block j of theirs, from 0.
pub fn rows_here(rows: usize, j: usize) -> usize
    requires { j * 15 ≤ rows }
    ensures { result ≡ rows_here rows j }
{
    PLACES.min(rows - j * PLACES)
}
