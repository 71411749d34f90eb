// The lines of a page on a refused book: the refusal, what is wrong at its place, and what is missing. Each function puts a form with
// its numbers into room that a caller lends; its contract says which numbers are shown.
#![tactic(auto)]

pub mod missing;
pub mod parameter;
pub mod refused;
pub mod wrong;
