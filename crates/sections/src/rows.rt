// The layout of a section's blocks: refusal 3 of blocks of rows.
ghost use Rattle.std.specs.Prelude.{◌≡◌, ◌≤◌, length, ltb};
ghost use Rattle.laws.specs.Sum.{every};
ghost use Rattle.sections.specs.Blocks.{place_of};
ghost use Rattle.sections.specs.Section.{last_holds, used_holds, places_hold, rows_hold, section_fault};
ghost use Rattle.sections.specs.inner.Section.{used_only, Fits};

use crate::marks::absent_holds;
use crate::section::{LastBytes, Section, blocks_for, rows_here};
use crate::{PLACE_SIZE, PLACES, PLACES_FROM};
use block::SIZE;
use block::bytes::{is_blank, opens_with, u16_at, u32_at};
use values::Refusal;

// Whether the last four bytes of a used place follow the rule, byte by byte.
#[tactic(auto, unfolding(crate::specs::Section::last_holds))]
fn bytes_hold(p: &[u8], last: LastBytes) -> bool
    requires { 32 ≤ length p.now }
    ensures { result ≡ last_holds last p.now }
{
    p[28] <= last.marks
        && p[29] <= last.step
        && last.lowest <= p[30]
        && p[30] <= last.highest
        && p[31] == 0
}

// Whether the last four bytes of a used place follow the rule, one that admits a step. Where it admits marks and any step
// alone, the other three as one number are at most the highest marks, which is one test.
fn stepped_holds(p: &[u8], last: LastBytes) -> bool
    requires { 32 ≤ length p.now }
    ensures { result ≡ last_holds last p.now }
{
    if u32::from(last.step) != 255 + u32::from(last.lowest) + u32::from(last.highest) {
        return bytes_hold(p, last);
    }
    let number = u32_at(p, 28);
    number % 256 + number / 65536 * 65536 <= u32::from(last.marks)
}

// Whether the last four bytes of a used place follow the rule. Where it admits marks alone, the four as one number are at most
// the highest marks, which is one test.
fn last_holds(p: &[u8], last: LastBytes) -> bool
    requires { 32 ≤ length p.now }
    ensures { result ≡ last_holds last p.now }
{
    if u32::from(last.step) + u32::from(last.lowest) + u32::from(last.highest) != 0 {
        return stepped_holds(p, last);
    }
    u32_at(p, 28) <= u32::from(last.marks)
}

// Whether the last bytes of a used place follow the rule, and a value not given has zero bytes.
#[tactic(auto, unfolding(crate::specs::Section::used_holds, values::specs::Values::marked))]
fn used_holds(p: &[u8], last: LastBytes) -> bool
    requires { 32 ≤ length p.now }
    ensures { result ≡ used_holds last p.now }
{
    last_holds(p, last) && absent_holds(p, 8, p[28], 1) && absent_holds(p, 16, p[28], 2)
}

// Whether a place is laid out as a used one, if it is used.
#[tactic(auto, unfolding(crate::specs::inner::Section::used_only))]
fn used_only(p: &[u8], last: LastBytes, used: bool) -> bool
    requires { 32 ≤ length p.now }
    ensures { result ≡ used_only last used p.now }
{
    !used || used_holds(p, last)
}

// Whether the used places of a block, its first so many, are laid out as such. Each is a part of the block. All fifteen are
// gone through, so that the loop has a constant count.
fn used_hold(s: &[u8], last: LastBytes, here: usize) -> bool
    requires { 512 ≤ length s.now }
    ensures { result ≡ every (λ i. used_only last (ltb i here) (place_of s.now i)) 15 }
{
    for i in 0..PLACES {
        let at = PLACES_FROM + i * PLACE_SIZE;
        if !used_only(&s[at..at + PLACE_SIZE], last, i < here) {
            return false;
        }
    }
    true
}

// Whether all fifteen places of a block hold, of which the first are used and the bytes from the first unused one on are zero.
fn places_hold(s: &[u8], last: LastBytes, here: usize) -> bool
    requires { 512 ≤ length s.now }
    ensures { result ≡ places_hold last s.now here }
{
    let used = here.min(PLACES);
    used_hold(s, last, here)
        && is_blank(
            s,
            PLACES_FROM + used * PLACE_SIZE,
            (PLACES - used) * PLACE_SIZE,
        )
}

// Whether the part is laid out as block number k of a section, with so many rows in it.
#[tactic(auto, unfolding(crate::specs::Section::rows_hold))]
fn rows_hold(s: &[u8], section: Section, k: usize, here: usize) -> bool
    requires { 512 ≤ length s.now }
    ensures { result ≡ rows_hold section s.now k here }
{
    opens_with(s, &section.letters)
        && u16_at(s, 4) as usize == k
        && u16_at(s, 6) as usize == here
        && is_blank(s, 8, 20)
        && places_hold(s, section.last, here)
}

// 3 at the blocks of a section, lowest first.
pub fn section_fault(book: &[u8], section: Section) -> Result<(), Refusal>
    requires { Fits book.now section }
    ensures { result ≡ section_fault book.now section }
{
    for j in 0..blocks_for(section.rows) {
        let k = section.number + j;
        let at = (section.first + j) * SIZE;
        if !rows_hold(&book[at..at + SIZE], section, k, rows_here(section.rows, j)) {
            return Err(Refusal::WrongLayout(k as u32));
        }
    }
    Ok(())
}
