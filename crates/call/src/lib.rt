// The call: a book of bytes and two result buffers go in; cleared megawatts, the price and the payments come out.
#![tactic(auto)]

mod measured;
mod rows;

ghost use Rattle.std.specs.Prelude.{◌≡◌};
ghost use Rattle.call.specs.Answer.{Outcome, answer_of};

use crate::measured::clear_measured;
use layout::form::lengths;
use sale::Clearing;
use values::Refusal;

// Clears a book. On a clearing the two buffers receive each row's cleared and committed tenths, and entries past the last
// row are not touched; on a refusal both hold what they held. A wrong length is told before any other work.
pub fn clear(book: &[u8], cleared: &mut [u32], committed: &mut [u32]) -> Result<Clearing, Refusal>
    ensures { Outcome book.now cleared.old committed.old result cleared.new committed.new }
{
    lengths(book)?;
    clear_measured(book, cleared, committed)
}

// What a book clears, with no result buffers: the answer that `clear` gives where its buffers are long enough.
pub fn quote(book: &[u8]) -> Result<Clearing, Refusal>
    ensures { result ≡ answer_of book.now }
{
    lengths(book)?;
    let mut cleared = [0u32; 600];
    let mut committed = [0u32; 600];
    clear_measured(book, &mut cleared, &mut committed)
}
