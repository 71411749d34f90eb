// Numbers, letters and values put into bytes, and offers in their places of a book.
#![tactic(auto)]

pub mod bytes;
pub mod place;
