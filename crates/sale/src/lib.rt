// What the rows of a book sell, what they commit and what is paid, told from their columns and the parameters. No function here
// takes the book.
#![tactic(auto)]

pub mod payment;
pub mod sell;

use units::CentsPerMwDay;

// What a book clears. Quantities are tenths of a megawatt, amounts mills.
#[derive(Clone, Copy)]
pub struct Clearing {
    // X
    pub total: u32,
    // in cents per MW-day; where nothing clears there is none
    pub price: Option<CentsPerMwDay>,
    pub make_whole: u64,
    pub daily: u64,
    pub year: u64,
}
