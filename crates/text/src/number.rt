// Numbers as text, in decimal digits.
ghost use Rattle.std.specs.Prelude.{◌≡◌, ◌^◌, ◌≤◌, ◌<◌, min};
ghost use Rattle.text.specs.Put.{Written, right_text};
ghost use Rattle.text.specs.Number.{number_text};
ghost use Rattle.text.specs.inner.Number.{decimal_text};

use crate::{put_byte, put_bytes, put_right};

// Puts a number's digits.
pub fn put_number(out: &mut [u8], at: usize, n: u64) -> usize
    ensures { Written out.old at (number_text n) out.new result }
{
    put_filled(out, at, n, 0, b' ')
}

// Puts n parts, of which 10 to the power of `places` make one whole, with a point and `places` digits behind it. More than 19
// places count as 19.
pub fn put_decimal(out: &mut [u8], at: usize, n: u64, places: usize) -> usize
    ensures { Written out.old at (decimal_text (min places 19) n) out.new result }
{
    let p = places.min(19);
    let unit = 10u64.pow(p as u32);
    let mut text = [0u8; 41];
    let point = put_number(&mut text, 0, n / unit);
    let rest = put_byte(&mut text, point, b'.');
    let end = put_filled(&mut text, rest, n % unit, p, b'0');
    put_bytes(out, at, &text[..end])
}

// Puts a number's digits with as many of `fill` in front as make them `width` bytes.
fn put_filled(out: &mut [u8], at: usize, n: u64, width: usize, fill: u8) -> usize
    ensures { Written out.old at (right_text width fill (number_text n)) out.new result }
{
    let mut digits = [0u8; 20];
    let k = io::decimal(n, &mut digits);
    put_right(out, at, &digits[..k], width, fill)
}
