// The first fault among refusals 1, 2 and 3: the length, the check of every block, the layout of every block. Each block is
// a part of the book, lent to the test of it.
ghost use Rattle.std.specs.Prelude.{◌≡◌, ◌≤◌};
ghost use Rattle.values.specs.Refusals.{and_then, no_fault};
ghost use Rattle.sections.specs.Blocks.{block_count};
ghost use Rattle.layout.specs.Form.{length_fault, check_fault, layout_fault, form_fault};

use crate::MOST_BYTES;
use crate::head::head_holds;
use crate::offers::offers_section;
use block::SIZE;
use block::check::check_holds;
use sections::rows::section_fault;
use values::Refusal;

// 1: whole blocks, one at least, and no more bytes than the most.
#[tactic(auto, unfolding(crate::specs::Form::length_fault))]
pub fn lengths(book: &[u8]) -> Result<(), Refusal>
    ensures { result ≡ length_fault book.now }
{
    let bytes = book.len();
    if bytes % SIZE == 0 && SIZE <= bytes && bytes <= MOST_BYTES {
        Ok(())
    } else {
        Err(Refusal::WrongLength)
    }
}

// 2: the check of every block, lowest first.
fn checks(book: &[u8], blocks: usize) -> Result<(), Refusal>
    requires { (blocks ≡ block_count book.now) × (blocks ≤ 41) }
    ensures { result ≡ check_fault book.now }
{
    for k in 0..blocks {
        let at = k * SIZE;
        if !check_holds(&book[at..at + SIZE]) {
            return Err(Refusal::WrongCheck(k as u32));
        }
    }
    Ok(())
}

// 3: the layout of block 0, then of the offer blocks.
fn layouts(book: &[u8], blocks: usize) -> Result<(), Refusal>
    requires { (blocks ≡ block_count book.now) × (1 ≤ blocks) }
    ensures { result ≡ layout_fault book.now }
{
    if !head_holds(&book[0..SIZE], blocks) {
        return Err(Refusal::WrongLayout(0));
    }
    section_fault(book, offers_section(book))
}

// The first fault among 2 and 3, of a book whose length holds.
pub fn blocks_fault(book: &[u8]) -> Result<(), Refusal>
    requires { length_fault book.now ≡ no_fault }
    ensures { result ≡ and_then (check_fault book.now) (layout_fault book.now) }
{
    let blocks = book.len() / SIZE;
    checks(book, blocks)?;
    layouts(book, blocks)
}

// The first fault among 1, 2 and 3.
#[tactic(auto, unfolding(crate::specs::Form::form_fault))]
pub fn form(book: &[u8]) -> Result<(), Refusal>
    ensures { result ≡ form_fault book.now }
{
    lengths(book)?;
    blocks_fault(book)
}
