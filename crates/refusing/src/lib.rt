// The part of a page that says why a book is refused, and all that it lacks.
//
// Each function puts its lines over lent room from a place on and answers the place behind them; what does not fit is not put, and
// the place goes on all the same. The lines and their wording are those of crates `faultlines` and `rowlines`; which numbers are
// shown, and in which order, is what is promised here.
#![tactic(auto)]

mod missing;
mod refused;
mod stated;
mod unread;

pub use refused::put_refused;
pub use stated::put_stated_row;
pub use unread::put_unread;
