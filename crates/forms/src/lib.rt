// Forms: words with numbers in them, put into room that a caller lends.
//
// A form is bytes with marks for numbers. `#` shows a number plainly, `@` with its thousands separated, `~`, `$` and `&` so with
// one, two and three digits behind a point; `_` widens the next of them by a letter, which is then put to the right of its field.
// `[a|b|c]` shows the part that its number picks, the first for 0. Every mark of a number and every `[` takes the next number,
// shown or not, so that a form has one list of numbers; one that the list lacks is shown as `?`.
#![tactic(auto)]

mod form;
mod mark;
mod number;
mod put;

pub use form::put_form;
