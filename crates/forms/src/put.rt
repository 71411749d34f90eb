// Bytes put into lent room: as many as fit, and the place behind all of them.
ghost use Rattle.std.specs.Prelude.{[], ◌∷◌, replicate};
ghost use Rattle.text.specs.Put.{right_text};
ghost use Rattle.forms.specs.Put.{Put};

// Puts one byte.
pub(crate) fn put_byte(room: &mut [u8], at: usize, byte: u8) -> usize
    ensures { Put room.old at (byte ∷ []) room.new result }
{
    if at < room.len() {
        room[at] = byte;
    }
    at.saturating_add(1)
}

// Puts so many spaces.
fn put_spaces(room: &mut [u8], at: usize, spaces: usize) -> usize
    ensures { Put room.old at (replicate spaces 32) room.new result }
{
    let mut place = at;
    for _ in 0..spaces {
        place = put_byte(room, place, b' ');
    }
    place
}

// Puts bytes.
fn put_bytes(room: &mut [u8], at: usize, bytes: &[u8]) -> usize
    ensures { Put room.old at bytes.now room.new result }
{
    let mut place = at;
    for &byte in bytes {
        place = put_byte(room, place, byte);
    }
    place
}

// Puts bytes with as many spaces in front as make them `width` bytes.
pub(crate) fn put_right(room: &mut [u8], at: usize, bytes: &[u8], width: usize) -> usize
    ensures { Put room.old at (right_text width 32 bytes.now) room.new result }
{
    let begin = put_spaces(room, at, width.saturating_sub(bytes.len()));
    put_bytes(room, begin, bytes)
}
