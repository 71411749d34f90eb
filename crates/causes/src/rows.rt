// The first test that a block of rows fails, and the first such block of a section.
ghost use Rattle.std.specs.Prelude.{◌≡◌, ◌+◌, ◌≤◌, length};
ghost use Rattle.sections.specs.inner.Section.{Fits};
ghost use Rattle.causes.specs.Cause.{last_cause, used_cause, place_cause, places_cause, rows_cause, section_cause};

use crate::tests::{absent_cause, letters_cause, told, zeros_cause};
use crate::{Cause, Test};
use block::SIZE;
use block::bytes::u16_at;
use sections::section::{LastBytes, Section, blocks_for, rows_here};
use sections::{PLACE_SIZE, PLACES, PLACES_FROM};

// The last four bytes of a used place that starts at a byte: the marks, the step, what an event does, zero.
#[tactic(auto, using(values::proofs::Firsts::in_turn), unfolding(crate::specs::Cause::last_cause))]
fn last_cause(s: &[u8], last: LastBytes, at: usize) -> Result<(), Cause>
    requires { (at + 32 ≤ 512) × (512 ≤ length s.now) }
    ensures { result ≡ last_cause last s.now at }
{
    let byte = at as u32;
    let effect = s[at + 30];
    told(s[at + 28] <= last.marks, Test::Mark, byte + 28)?;
    told(s[at + 29] <= last.step, Test::Zero, byte + 29)?;
    told(last.lowest <= effect, Test::Zero, byte + 30)?;
    told(effect <= last.highest, Test::Zero, byte + 30)?;
    told(s[at + 31] == 0, Test::Zero, byte + 31)
}

// A used place that starts at a byte: its last bytes, and the values that its marks say are not given.
#[tactic(auto, using(values::proofs::Firsts::in_turn), unfolding(crate::specs::Cause::used_cause, values::specs::Values::marked))]
fn used_cause(s: &[u8], last: LastBytes, at: usize) -> Result<(), Cause>
    requires { (at + 32 ≤ 512) × (512 ≤ length s.now) }
    ensures { result ≡ used_cause last s.now at }
{
    let marks = s[at + 28];
    last_cause(s, last, at)?;
    absent_cause(s, at + 8, marks, 1)?;
    absent_cause(s, at + 16, marks, 2)
}

// A place that starts at a byte; an unused one is all zero.
#[tactic(auto, unfolding(crate::specs::Cause::place_cause))]
fn place_cause(s: &[u8], last: LastBytes, used: bool, at: usize) -> Result<(), Cause>
    requires { (at + 32 ≤ 512) × (512 ≤ length s.now) }
    ensures { result ≡ place_cause last used s.now at }
{
    if used {
        used_cause(s, last, at)
    } else {
        zeros_cause(s, at, PLACE_SIZE)
    }
}

// The fifteen places of a block, of which so many are used.
#[tactic(auto, using(values::proofs::Firsts::in_rows), unfolding(crate::specs::Cause::places_cause))]
fn places_cause(s: &[u8], last: LastBytes, here: usize) -> Result<(), Cause>
    requires { 512 ≤ length s.now }
    ensures { result ≡ places_cause last s.now here }
{
    for i in 0..PLACES {
        place_cause(s, last, i < here, PLACES_FROM + i * PLACE_SIZE)?;
    }
    Ok(())
}

// The first test that block number k of a section fails, with so many rows in it.
#[tactic(auto, using(values::proofs::Firsts::in_turn), unfolding(crate::specs::Cause::rows_cause))]
fn rows_cause(s: &[u8], section: Section, k: usize, here: usize) -> Result<(), Cause>
    requires { 512 ≤ length s.now }
    ensures { result ≡ rows_cause section s.now k here }
{
    letters_cause(s, &section.letters)?;
    told(u16_at(s, 4) as usize == k, Test::Number, 4)?;
    told(u16_at(s, 6) as usize == here, Test::Count, 6)?;
    zeros_cause(s, 8, 20)?;
    places_cause(s, section.last, here)
}

// The first test that a block of a section fails, lowest block first.
#[tactic(auto, using(values::proofs::Firsts::in_rows), unfolding(crate::specs::Cause::section_cause, crate::specs::Cause::block_cause))]
pub fn section_cause(book: &[u8], section: Section) -> Result<(), Cause>
    requires { Fits book.now section }
    ensures { result ≡ section_cause book.now section }
{
    for j in 0..blocks_for(section.rows) {
        let at = (section.first + j) * SIZE;
        let here = rows_here(section.rows, j);
        rows_cause(&book[at..at + SIZE], section, section.number + j, here)?;
    }
    Ok(())
}
