// Lines of text in one buffer, so that a program writes once.
//
// Each function puts a text at a place, all of it where it fits from there to the end and else nothing, and answers the place
// behind it. No place that is answered lies past the end, so a caller goes on from it, and lends `&out[..at]`, with no test.
#![tactic(auto)]

mod number;

ghost use Rattle.std.specs.Prelude.{[], ◌∷◌};
ghost use Rattle.text.specs.Put.{Written, right_text};

pub use number::{put_decimal, put_number};

// Puts bytes.
pub fn put_bytes(out: &mut [u8], at: usize, bytes: &[u8]) -> usize
    ensures { Written out.old at bytes.now out.new result }
{
    if at > out.len() {
        return out.len();
    }
    if bytes.len() > out.len() - at {
        return at;
    }
    let end = at + bytes.len();
    out[at..end].copy_from_slice(bytes);
    end
}

// Puts one byte.
pub fn put_byte(out: &mut [u8], at: usize, byte: u8) -> usize
    ensures { Written out.old at (byte ∷ []) out.new result }
{
    put_bytes(out, at, &[byte])
}

// Puts bytes with as many of `fill` in front as make them `width` bytes.
pub fn put_right(out: &mut [u8], at: usize, bytes: &[u8], width: usize, fill: u8) -> usize
    ensures { Written out.old at (right_text width fill bytes.now) out.new result }
{
    let gap = width.saturating_sub(bytes.len());
    let place = at.min(out.len());
    if gap + bytes.len() > out.len() - place {
        return place;
    }
    let behind = place + gap;
    out[place..behind].fill(fill);
    put_bytes(out, behind, bytes)
}
