// The form of a book of bytes: its length, its checks and its layout, refusals 1, 2 and 3; and the reader of a row's own
// bytes.
#![tactic(auto)]

pub mod form;
pub mod head;
pub mod offers;
pub mod reader;

// The four letters that open a book, and those that open an offer block.
pub const RPMB: [u8; 4] = *b"RPMB";

pub const OFRS: [u8; 4] = *b"OFRS";

// The most bytes that a book has, block 0 and forty offer blocks, and the most offers.
pub const MOST_BYTES: usize = 20992;

pub const MOST_OFFERS: u32 = 600;
