// The total that the rows of a book clear against the curve: the search, which is tuned to the curve.
#![tactic(auto)]

mod aim;
mod bracket;
mod prices;
pub mod total;
