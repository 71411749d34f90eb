// What callers in other languages link.
#![tactic(auto)]

pub mod compared;
pub mod converted;
pub mod explained;
pub mod export;
pub mod read;
pub mod texts;
pub mod write;
