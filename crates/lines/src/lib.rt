// The lines of a page on how a book clears: what it states, what it sells, its curve, its total and its price. Each function puts a
// form with its numbers into room that a caller lends, and answers the place behind them; what does not fit is not put.
//
// The forms stand here as they are read, with marks for the numbers (crate `forms`). Every zero has its reason beside it, what
// is missing has words and no number, and no line is longer than 80 letters. A contract says which numbers are shown; how they
// are worded is for tests to say.
#![tactic(auto)]

pub mod points;
pub mod sold;
pub mod stated;
pub mod total;
