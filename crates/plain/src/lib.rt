// What goes in and out of the exported functions, as plain structs of numbers: the structs, what a caller hands in, and curves.
#![tactic(auto)]

pub mod given;
pub mod plotted;
pub mod structs;
