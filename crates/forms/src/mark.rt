// What a byte of a form shows.
ghost use Rattle.std.specs.Prelude.{◌≡◌, cond, [], ◌≤◌, ◌<◌};
ghost use Rattle.text.specs.Put.{right_text};
ghost use Rattle.forms.specs.Put.{Put};
ghost use Rattle.forms.specs.Mark.{byte_text, is_number, is_silent, mark_text, next_text, places};
ghost use Rattle.forms.specs.inner.Plain.{wholes};

use crate::number::{put_separated, spell};
use crate::put::{put_byte, put_right};

// Whether a byte is the mark of a number.
#[tactic(auto, unfolding(crate::specs::Mark::is_number))]
pub(crate) fn is_number(mark: u8) -> bool
    ensures { result ≡ is_number mark }
{
    matches!(mark, b'#' | b'@' | b'~' | b'$' | b'&')
}

// Whether a byte shows nothing itself.
#[tactic(auto, unfolding(crate::specs::Mark::is_silent))]
fn is_silent(mark: u8) -> bool
    ensures { result ≡ is_silent mark }
{
    matches!(mark, b'_' | b'[' | b'|' | b']')
}

// How many digits a mark shows behind the point.
#[tactic(auto, unfolding(crate::specs::Mark::places))]
fn places_of(mark: u8) -> usize
    ensures { (result ≡ places mark) × (result ≤ 3) }
{
    match mark {
        b'~' => 1,
        b'$' => 2,
        b'&' => 3,
        _ => 0,
    }
}

// How many letters of a number's text are digits whose thousands a mark separates.
#[tactic(auto, unfolding(crate::specs::inner::Plain::wholes))]
fn wholes_of(mark: u8, places: usize, end: usize) -> usize
    requires { places ≤ 3 }
    ensures { result ≡ wholes mark places end }
{
    match places {
        _ if mark == b'#' => 0,
        0 => end,
        _ => end.saturating_sub(places + 1),
    }
}

// Puts a number as a mark shows it.
fn put_text(room: &mut [u8], at: usize, mark: u8, n: u64) -> usize
    ensures { Put room.old at (mark_text mark n) room.new result }
{
    let places = places_of(mark);
    let mut text = [0u8; 41];
    let end = spell(&mut text, n, places);
    put_separated(room, at, &text[..end], wholes_of(mark, places, end))
}

// Puts the next number to the right of its field, or a question mark where none is left.
fn put_next(room: &mut [u8], at: usize, mark: u8, width: usize, numbers: &[u64]) -> usize
    ensures { Put room.old at (right_text width 32 (next_text mark numbers.now)) room.new result }
{
    let [next, ..] = numbers else {
        return put_right(room, at, b"?", width);
    };
    let mut text = [0u8; 64];
    let end = put_text(&mut text, 0, mark, *next);
    put_right(room, at, &text[..end], width)
}

// Puts what a byte of a form shows: nothing in a part of a choice that is not shown.
pub(crate) fn put_mark(
    room: &mut [u8],
    at: usize,
    shown: bool,
    mark: u8,
    width: usize,
    numbers: &[u64],
) -> usize
    requires { width < 18446744073709551615 }
    ensures { Put room.old at (cond shown (byte_text width mark numbers.now) []) room.new result }
{
    if !shown || is_silent(mark) {
        at
    } else if is_number(mark) {
        put_next(room, at, mark, width + 1, numbers)
    } else {
        put_byte(room, at, mark)
    }
}
