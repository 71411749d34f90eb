// The lines of a page on rows and price levels: a row in full or in a table, the level that is divided, and the ladder of levels. Each
// function puts a form with its numbers into room that a caller lends; its contract says which numbers are shown.
#![tactic(auto)]

pub mod division;
mod row_word;
pub mod rows;
pub mod rungs;
pub mod table;
pub mod turn;
