// A form filled with its numbers.
ghost use Rattle.std.specs.Prelude.{◌≡◌, ◌+◌, ◌≤◌, ◌<◌, drop};
ghost use Rattle.forms.specs.Put.{Put};
ghost use Rattle.forms.specs.Form.{form_text, taken, turn_after, width_after};

use crate::mark::{is_number, put_mark};

// Puts a form with its numbers.
pub fn put_form(room: &mut [u8], at: usize, form: &[u8], numbers: &[u64]) -> usize
    ensures { Put room.old at (form_text form.now numbers.now) room.new result }
{
    let mut place = at;
    let mut left = numbers;
    let mut width = 0;
    let mut turn = 0;
    for &mark in form {
        place = put_mark(room, place, turn == 0, mark, width, left);
        turn = turn_after(mark, turn, left);
        width = width_after(mark, width);
        left = numbers_after(mark, left);
    }
    place
}

// How many parts of a choice stand before the one that is shown: all ones behind it, as `specs/Form` counts them.
#[tactic(auto, unfolding(crate::specs::Form::turn_after))]
fn turn_after(mark: u8, turn: u64, numbers: &[u64]) -> u64
    ensures { result ≡ turn_after mark turn numbers.now }
{
    match mark {
        b'[' => numbers.first().copied().unwrap_or(u64::MAX),
        b']' => 0,
        b'|' if turn == 0 => u64::MAX,
        b'|' => turn - 1,
        _ => turn,
    }
}

// How many letters the next number is widened by.
#[tactic(auto, unfolding(crate::specs::Form::width_after))]
fn width_after(mark: u8, width: usize) -> usize
    requires { width < 18446744073709551615 }
    ensures { (result ≡ width_after mark width) × (result ≤ width + 1) }
{
    match mark {
        b'_' => width + 1,
        _ if is_number(mark) => 0,
        _ => width,
    }
}

// The numbers that a byte leaves: all but the next where it takes one.
#[tactic(auto, unfolding(crate::specs::Form::taken))]
fn numbers_after(mark: u8, numbers: &[u64]) -> &[u64]
    ensures { result.now ≡ drop (taken mark) numbers.now }
{
    match numbers {
        [_, left @ ..] if is_number(mark) || mark == b'[' => left,
        _ => numbers,
    }
}
