// A book made in room that is lent, around rows that were put into their places: what block 0 says, which was cleared before, what
// opens each block of rows, zeros in the places that no row has, and both sums of each block.
#![tactic(auto)]

ghost use Rattle.std.specs.Prelude.{◌≡◌, ◌+◌, ◌*◌, ◌≤◌, length};
ghost use Rattle.sections.specs.Section.{blocks_for};
ghost use Rattle.encoding.specs.Numbers.{zeros};
ghost use Rattle.encoding.specs.Encode.{head_marks};
ghost use Rattle.places.specs.inner.Put.{put};
ghost use Rattle.making.specs.inner.Made.{bytes_for, four_values, opening, sealed_at, unused_at, block_made, blocks_made, book_made};

use block::SIZE;
use block::check::check_sums;
use layout::{OFRS, RPMB};
use places::bytes::{put_letters, put_u16, put_value};
use places::place::mark_of;
use sections::section::{blocks_for, rows_here};
use sections::{PLACE_SIZE, PLACES, PLACES_FROM};
use values::head::Parameters;

// How many bytes the book of so many rows has.
pub fn bytes_for(rows: usize) -> usize
    requires { rows ≤ 600 }
    ensures { (result ≡ bytes_for rows) × (result ≤ 20992) }
{
    SIZE * (1 + blocks_for(rows))
}

// Zeros in n bytes from a place on.
pub fn put_zeros(b: &mut [u8], at: usize, n: usize)
    requires { at + n ≤ length b.old }
    ensures { b.new ≡ put b.old at (zeros n) }
{
    b[at..at + n].fill(0);
}

// Zeros in the places behind so many rows of the block that starts at a place. Where all are used there is nothing to do, which is
// told first.
fn put_unused(b: &mut [u8], at: usize, here: usize)
    requires { (at + 512 ≤ length b.old) × (here ≤ 15) }
    ensures { b.new ≡ unused_at b.old at here }
{
    // Zeros in no places would change nothing: the test stays for the wrong program room_left_in_unused_places, which turns it.
    if here == PLACES {
        return;
    }
    let used = here * PLACE_SIZE;
    put_zeros(b, at + PLACES_FROM + used, PLACES * PLACE_SIZE - used);
}

// Both sums in the last four bytes of the block that starts at a place.
fn seal(b: &mut [u8], at: usize)
    requires { at + 512 ≤ length b.old }
    ensures { b.new ≡ sealed_at b.old at }
{
    let sums = check_sums(&b[at..at + SIZE]);
    put_u16(b, at + 508, u32::from(sums.sum));
    put_u16(b, at + 510, u32::from(sums.total));
}

// The marks of block 0.
fn head_marks(p: Parameters) -> u32
    ensures { (result ≡ head_marks p) × (result ≤ 31) }
{
    mark_of(p.cost, 1)
        + mark_of(p.offset, 2)
        + mark_of(p.outage, 4)
        + mark_of(p.requirement, 8)
        + mark_of(p.margin, 16)
}

// C, E, F and R.
fn put_values(b: &mut [u8], p: Parameters)
    requires { 512 ≤ length b.old }
    ensures { b.new ≡ put b.old 8 (four_values p) }
{
    put_value(b, 8, p.cost);
    put_value(b, 12, p.offset);
    put_value(b, 16, p.outage);
    put_value(b, 20, p.requirement);
}

// What block 0 says, in its first 32 bytes.
fn put_opening(b: &mut [u8], edition: u32, p: Parameters, rows: u32)
    requires { 512 ≤ length b.old }
    ensures { b.new ≡ put b.old 0 (opening edition p rows) }
{
    put_letters(b, 0, &RPMB);
    put_u16(b, 4, edition);
    put_u16(b, 6, p.year);
    put_values(b, p);
    put_u16(b, 24, rows);
    put_u16(b, 26, head_marks(p));
    put_value(b, 28, p.margin);
}

// Block number k, in whose places stand so many rows.
fn put_block(b: &mut [u8], k: usize, here: usize)
    requires { (k * 512 + 512 ≤ length b.old) × (k ≤ 40) × (here ≤ 15) }
    ensures { b.new ≡ block_made b.old k here }
{
    let at = k * SIZE;
    put_letters(b, at, &OFRS);
    put_u16(b, at + 4, k as u32);
    put_u16(b, at + 6, here as u32);
    put_zeros(b, at + 8, 20);
    put_unused(b, at, here);
    seal(b, at);
}

// The blocks of so many rows.
fn put_blocks(b: &mut [u8], rows: usize)
    requires { (bytes_for rows ≤ length b.old) × (rows ≤ 600) }
    ensures { b.new ≡ blocks_made b.old rows (blocks_for rows) }
{
    for j in 0..blocks_for(rows) {
        put_block(b, j + 1, rows_here(rows, j));
    }
}

// The book whose rows stand in their places.
pub fn put_book(b: &mut [u8], edition: u32, p: Parameters, rows: usize)
    requires { (bytes_for rows ≤ length b.old) × (rows ≤ 600) }
    ensures { b.new ≡ book_made edition p rows b.old }
{
    put_opening(b, edition, p, rows as u32);
    seal(b, 0);
    put_blocks(b, rows);
}
