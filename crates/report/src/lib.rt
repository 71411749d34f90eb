// What the call answers for a book, as lines of text in one buffer.
#![tactic(auto)]

mod lines;

ghost use Rattle.std.specs.Prelude.{◌≡◌, ◌+◌, ◌*◌, ◌/◌, ◌-◌, ◌≤◌, length};
ghost use Rattle.io.specs.Counts.{IsPrefixLen};
ghost use Rattle.auction.specs.Settlement.{mills};
ghost use Rattle.settle.specs.inner.Read.{quoted};
ghost use Rattle.layout.specs.Form.{edition_of};
ghost use Rattle.layout.specs.Read.{row_offer};
ghost use Rattle.layout.specs.inner.Read.{Inside};
ghost use Rattle.book.specs.Faults.{first_fault};
ghost use Rattle.report.specs.Lines.{row_text, rows_text, Fitted};
ghost use Rattle.report.specs.Report.{report_text};
ghost use Rattle.report.specs.inner.Report.{sold_line, sold_text};
ghost use Rattle.values.specs.Refusals.{no_fault};

use crate::lines::{put_price, put_refusal, put_row, put_word};
use call::clear;
use layout::reader::{edition, offer_count, row_bytes};
use sale::Clearing;
use settle::make_whole;
use units::CentsPerMwDay;
use values::place::offer_in;

// Puts the line of a row of a book at a price.
fn put_offer(
    out: &mut [u8],
    at: usize,
    book: &[u8],
    row: usize,
    price: Option<CentsPerMwDay>,
    cleared: u32,
    committed: u32,
) -> usize
    requires row_in_bounds { (1 + row / 15) * 512 + 512 ≤ length book.now }
    requires at_in_bounds { at + 54 ≤ length out.old }
    ensures { Fitted out.old at (row_text (row_offer book.now (edition_of book.now) 1 row).resource cleared committed (mills (quoted price) (committed - cleared))) out.new result × (result ≤ at + 54) }
{
    let o = offer_in(row_bytes(book, 1, row), edition(book));
    put_row(
        out,
        at,
        o.resource,
        cleared,
        committed,
        make_whole(price, cleared, committed),
    )
}

// Puts the lines of n rows.
fn put_rows(
    out: &mut [u8],
    at: usize,
    book: &[u8],
    n: usize,
    price: Option<CentsPerMwDay>,
    cleared: &[u32],
    committed: &[u32],
) -> usize
    requires inside { Inside book.now 1 n × (n ≤ length cleared.now) × (n ≤ length committed.now) }
    requires n_in_bounds { at + 54 * n ≤ length out.old }
    ensures { Fitted out.old at (rows_text (sold_line book.now (quoted price) cleared.now committed.now) n) out.new result × (result ≤ at + 54 * n) }
{
    let mut behind = at;
    for row in 0..n {
        behind = put_offer(out, behind, book, row, price, cleared[row], committed[row]);
    }
    behind
}

// Puts the lines of a clearing.
fn put_clearing(
    out: &mut [u8],
    at: usize,
    book: &[u8],
    c: Clearing,
    cleared: &[u32],
    committed: &[u32],
) -> usize
    requires book_value { first_fault book.now ≡ no_fault }
    requires in_bounds { (600 ≤ length cleared.now) × (600 ≤ length committed.now) }
    requires at_in_bounds { at + 32768 ≤ length out.old }
    ensures { Fitted out.old at (sold_text book.now c cleared.now committed.now) out.new result }
{
    let n = offer_count(book) as usize;
    let first = put_word(out, at, b"cleared ", u64::from(c.total), b'\n');
    let second = put_price(out, first, c.price);
    let third = put_rows(out, second, book, n, c.price, cleared, committed);
    let fourth = put_word(out, third, b"daily ", c.daily, b'\n');
    put_word(out, fourth, b"year ", c.year, b'\n')
}

// Puts what the call answers for a book.
pub fn put_report(out: &mut [u8], at: usize, book: &[u8]) -> usize
    requires { at + 32768 ≤ length out.old }
    ensures fitted { Fitted out.old at (report_text book.now) out.new result }
    ensures prefix_len { IsPrefixLen result out.new }
{
    let mut cleared = [0u32; 600];
    let mut committed = [0u32; 600];
    match clear(book, &mut cleared, &mut committed) {
        Ok(c) => put_clearing(out, at, book, c, &cleared, &committed),
        Err(refusal) => put_refusal(out, at, refusal),
    }
}
