// What an analyst works by hand on the way to a clearing: where the total of a book stops on the curve and why, the price levels
// around that, and each row's share of its level, its turn for the spare tenths, and what it commits and is paid.
//
// The public function takes a book of bytes and looks at its faults first, so that it asks nothing of its caller. It is the work of
// one page for one reader: nothing is kept from call to call.
#![tactic(auto)]

mod joined;
pub mod row;
pub mod spares;
pub mod works;

// No row: every row of a book is under it, and so is every rung of the ladder and every place in a contest.
pub const NO_ROW: usize = 600;
