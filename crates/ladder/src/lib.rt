// The price levels around the one at which a total stops, over columns of rows.
#![tactic(auto)]

mod price;
pub mod rung;
