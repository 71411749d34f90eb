// The reasons of a clearing, over columns of rows: where the total stops on the curve and why, and each row's share of its price
// level.
#![tactic(auto)]

pub mod share;
pub mod stop;
