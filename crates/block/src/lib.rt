// A block of 512 bytes, and the numbers, letters and sums in it.
#![tactic(auto)]

pub mod bytes;
pub mod check;
mod columns;
mod running;

pub use running::Running;

// How many bytes a block has.
pub const SIZE: usize = 512;
