// The rows of an accepted book on its page: few in full, many as a table; and one row in full.
//
// Each function puts its lines over lent room from a place on and answers the place behind them; what does not fit is not put, and
// the place goes on all the same. The lines and their wording are those of crate `rowlines`; which numbers are shown, and in which
// order, is what is promised here.
#![tactic(auto)]

mod few;
mod row;
mod rows;
mod table;
mod together;

pub use row::put_row_of;
pub use rows::put_rows;
