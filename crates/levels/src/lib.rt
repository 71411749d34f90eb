// What rows offer at their price levels, and where the curve leaves a total among them.
#![tactic(auto)]

pub mod asks;
pub mod level;
mod reach;
mod supply;
