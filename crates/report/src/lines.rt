// The lines of a report: a price, a refusal, a row, and a word with a number.
ghost use Rattle.std.specs.Prelude.{◌+◌, ◌≤◌, length};
ghost use Rattle.settle.specs.inner.Read.{quoted};
ghost use Rattle.report.specs.Lines.{ended_text, word_text, price_text, refusal_text, row_text, Fitted};

use text::{put_byte, put_bytes, put_number};
use units::CentsPerMwDay;
use values::Refusal;

// Puts a number and one byte behind it.
fn put_ended(out: &mut [u8], at: usize, number: u64, end: u8) -> usize
    requires { at + 21 ≤ length out.old }
    ensures { Fitted out.old at (ended_text number end) out.new result × (result ≤ at + 21) }
{
    let behind = put_number(out, at, number);
    put_byte(out, behind, end)
}

// Puts a number of 32 bits and one byte behind it: at most 11 bytes.
fn put_short(out: &mut [u8], at: usize, number: u32, end: u8) -> usize
    requires { at + 21 ≤ length out.old }
    ensures { Fitted out.old at (ended_text number end) out.new result × (result ≤ at + 11) }
{
    put_ended(out, at, u64::from(number), end)
}

// Puts a word, a number and one byte behind it.
pub(crate) fn put_word(out: &mut [u8], at: usize, word: &[u8], number: u64, end: u8) -> usize
    requires { at + length word.now + 21 ≤ length out.old }
    ensures { Fitted out.old at (word_text word.now number end) out.new result × (result ≤ at + length word.now + 21) }
{
    let behind = put_bytes(out, at, word);
    put_ended(out, behind, number, end)
}

// Puts the line of the price, and of no price.
pub(crate) fn put_price(out: &mut [u8], at: usize, price: Option<CentsPerMwDay>) -> usize
    requires { at + 27 ≤ length out.old }
    ensures { Fitted out.old at (price_text (quoted price)) out.new result × (result ≤ at + 27) }
{
    match price {
        Some(cents) => put_word(out, at, b"price ", u64::from(cents.0), b'\n'),
        None => put_bytes(out, at, b"price -\n"),
    }
}

// Puts the line of a refusal.
pub(crate) fn put_refusal(out: &mut [u8], at: usize, refusal: Refusal) -> usize
    requires { at + 50 ≤ length out.old }
    ensures { Fitted out.old at (refusal_text refusal) out.new result }
{
    let behind = put_word(out, at, b"refused ", u64::from(refusal.number()), b' ');
    put_short(out, behind, refusal.place(), b'\n')
}

// Puts the line of a row: its resource, what it clears, what it commits and its make-whole.
pub(crate) fn put_row(
    out: &mut [u8],
    at: usize,
    resource: u32,
    cleared: u32,
    committed: u32,
    paid: u64,
) -> usize
    requires { at + 54 ≤ length out.old }
    ensures { Fitted out.old at (row_text resource cleared committed paid) out.new result × (result ≤ at + 54) }
{
    let first = put_short(out, at, resource, b' ');
    let second = put_short(out, first, cleared, b' ');
    let third = put_short(out, second, committed, b' ');
    put_ended(out, third, paid, b'\n')
}
