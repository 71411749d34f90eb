// The limits that the outline sets: refusals 4 to 8 and 10, on values that are read already.
#![tactic(auto)]

pub mod given;
pub mod offers;
pub mod parameters;
pub mod repeated;
