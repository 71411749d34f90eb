// Which words of a form fit a value, a price or a count, for the lines of a page: the parts of a choice are counted from 0.
#![tactic(auto)]

pub mod word;
