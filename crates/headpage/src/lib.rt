// How an accepted book clears, on the head of its page: its answer, the curve, where the total stops, the price, the price levels
// around that, and the level that is divided.
//
// The lines are put over lent room from a place on, and the place behind them is answered; what does not fit is not put, and the
// place goes on all the same. The lines and their wording are those of crates `lines` and `rowlines`; which numbers are shown, and in
// which order, is what is promised here.
#![tactic(auto)]

mod accepted;
mod division;
mod facts;
mod rungs;

pub use accepted::put_accepted;
