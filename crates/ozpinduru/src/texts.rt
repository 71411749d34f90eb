// Texts in room that the caller lends: what stands behind a text is not touched, and no zero ends it.
ghost use Rattle.report.specs.Report.{report_text};
ghost use Rattle.words.specs.Texts.{Told};
ghost use Rattle.words.specs.Words.{bytes_of, words_of};

use plain::structs::OzpText;
use report::put_report;
use words::{put_text, words};

// What a refusal's number says, and what its place is.
#[unsafe(no_mangle)]
pub extern "C" fn ozp_words(number: u32, room: &mut [u8]) -> OzpText
    ensures { Told (bytes_of (words_of number)) room.old result room.new }
{
    words(number, room)
}

// What the call answers for a book, as the program `clear` prints it. The text is made on the stack, where it takes 32 KiB.
#[unsafe(no_mangle)]
pub extern "C" fn ozp_report(book: &[u8], room: &mut [u8]) -> OzpText
    ensures { Told (report_text book.now) room.old result room.new }
{
    let mut out = [0u8; 32768];
    let end = put_report(&mut out, 0, book);
    put_text(room, &out[..end])
}
