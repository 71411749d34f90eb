// Who gets the spare tenths of a price level, in order, and why, over columns of rows.
#![tactic(auto)]

mod level;
pub mod order;
pub mod place;
pub mod spare;
mod standing;
pub mod turn;
