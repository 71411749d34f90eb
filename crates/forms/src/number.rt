// A number's text, with its thousands separated.
ghost use Rattle.std.specs.Prelude.{◌∷◌, ◌≤◌};
ghost use Rattle.text.specs.Put.{Written};
ghost use Rattle.forms.specs.Put.{Put};
ghost use Rattle.forms.specs.Number.{comma};
ghost use Rattle.forms.specs.inner.Plain.{plain_text, separated};

use crate::put::put_byte;
use text::{put_decimal, put_number};

// Spells a number, with a point where there are places.
pub(crate) fn spell(out: &mut [u8], n: u64, places: usize) -> usize
    requires { places ≤ 3 }
    ensures { Written out.old 0 (plain_text places n) out.new result }
{
    if places == 0 {
        put_number(out, 0, n)
    } else {
        put_decimal(out, 0, n, places)
    }
}

// Puts a digit, and a comma where a multiple of three digits follows.
fn put_digit(room: &mut [u8], at: usize, digit: u8, left: usize) -> usize
    ensures { Put room.old at (digit ∷ comma left) room.new result }
{
    let place = put_byte(room, at, digit);
    if 0 < left && left % 3 == 0 {
        put_byte(room, place, b',')
    } else {
        place
    }
}

// Puts letters, the first `whole` of which are digits, with their thousands separated.
pub(crate) fn put_separated(room: &mut [u8], at: usize, letters: &[u8], whole: usize) -> usize
    ensures { Put room.old at (separated whole letters.now) room.new result }
{
    let mut place = at;
    let mut left = whole;
    for &letter in letters {
        left = left.saturating_sub(1);
        place = put_digit(room, place, letter, left);
    }
    place
}
