// A book in the other edition, in lent room.
ghost use Rattle.convert.specs.Converted.{Converted};

use convert::put_converted;
use plain::structs::OzpText;

// Converts a sound book to the other edition, into the room. What stands behind it is not touched, and on a refusal the room holds
// what it held.
#[unsafe(no_mangle)]
pub extern "C" fn ozp_convert(book: &[u8], room: &mut [u8]) -> OzpText
    ensures { Converted book.now room.old result room.new }
{
    put_converted(book, room)
}
