// The rows of a book: read once, into columns, and cleared.
ghost use Rattle.std.specs.Prelude.{◌≡◌, ◌≤◌};
ghost use Rattle.book.specs.inner.Opening.{Opened};
ghost use Rattle.call.specs.Answer.{Outcome, buffer_fault};

use book::Opening;
use columns::Columns;
use reading::read_columns;
use sale::Clearing;
use sale::payment::clearing;
use values::Refusal;

// 9: the result buffer that is too short, the cleared one first.
fn buffer_fault(offers: usize, cleared: usize, committed: usize) -> Result<(), Refusal>
    ensures { result ≡ buffer_fault offers cleared committed }
{
    if cleared < offers {
        return Err(Refusal::ShortBuffer(1));
    }
    if committed < offers {
        return Err(Refusal::ShortBuffer(2));
    }
    Ok(())
}

// Clears a book of at most N rows whose edition, parameters and number of rows have passed. Its rows are read once, into columns of N.
pub(crate) fn clear_in<const N: usize>(
    book: &[u8],
    head: Opening,
    cleared: &mut [u32],
    committed: &mut [u32],
) -> Result<Clearing, Refusal>
    requires { Opened book.now head.edition head.parameters head.rows × ((head.rows ≤ N) × (N ≤ 600)) }
    ensures { Outcome book.now cleared.old committed.old result cleared.new committed.new }
{
    let mut columns = Columns::<N>::blank();
    let n = head.rows as usize;
    read_columns(book, head.edition, 1, head.rows, &mut columns)?;
    buffer_fault(n, cleared.len(), committed.len())?;
    Ok(clearing(head.parameters, &columns.rows(n), cleared, committed))
}
