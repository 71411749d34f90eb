// Sections of a book: the rows of one kind, in blocks of their own, and refusal 3 of those blocks.
#![tactic(auto)]

pub mod marks;
pub mod rows;
pub mod section;

// A block of rows has fifteen places of 32 bytes, from byte 28 on.
pub const PLACES: usize = 15;

pub const PLACE_SIZE: usize = 32;

pub const PLACES_FROM: usize = 28;
