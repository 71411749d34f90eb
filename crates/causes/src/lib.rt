// Why refusal 3 refused a block: which test of its layout fails first, and at which byte. And which rule of steps a row breaks.
#![tactic(auto)]

mod head;
mod rows;
pub mod rules;
mod tests;

ghost use Rattle.std.specs.Prelude.{◌≡◌};
ghost use Rattle.values.specs.Refusals.{no_fault};
ghost use Rattle.layout.specs.Form.{length_fault};
ghost use Rattle.causes.specs.Cause.{number_of, blocks_cause, cause_of};

use block::SIZE;
use head::head_cause;
use layout::form::lengths;
use layout::offers::offers_section;
use rows::section_cause;

// A test of a block's layout.
#[derive(Clone, Copy, Debug, PartialEq, Eq)]
pub enum Test {
    // 1: one of the four letters
    Letters,
    // 2: the edition
    Edition,
    // 3: the block's number
    Number,
    // 4: the count
    Count,
    // 5: a mark that has no meaning
    Mark,
    // 6: a value marked absent that is not zero
    Absent,
    // 7: a byte that has to be zero
    Zero,
}

impl Test {
    // Its number, in the order of the layout.
    pub fn number(self) -> u32
        ensures { result ≡ number_of self }
    {
        match self {
            Test::Letters => 1,
            Test::Edition => 2,
            Test::Number => 3,
            Test::Count => 4,
            Test::Mark => 5,
            Test::Absent => 6,
            Test::Zero => 7,
        }
    }
}

// Why a block is not laid out as it has to be: the test that fails first, and the byte of the block that it fails at.
#[derive(Clone, Copy, Debug, PartialEq, Eq)]
pub struct Cause {
    pub test: Test,
    pub byte: u32,
}

// The first cause in a book whose length holds: block 0 first, then the offer blocks.
#[tactic(auto, using(values::proofs::Firsts::in_turn), unfolding(crate::specs::Cause::blocks_cause))]
fn blocks_cause(book: &[u8]) -> Result<(), Cause>
    requires { length_fault book.now ≡ no_fault }
    ensures { result ≡ blocks_cause book.now }
{
    head_cause(&book[0..SIZE], book.len() / SIZE)?;
    section_cause(book, offers_section(book))
}

// The cause in the first block that refusal 3 finds. None where the length is wrong, of which refusal 1 tells.
#[tactic(auto, unfolding(crate::specs::Cause::cause_of))]
pub fn layout_cause(book: &[u8]) -> Option<Cause>
    ensures { result ≡ cause_of book.now }
{
    if lengths(book).is_err() {
        return None;
    }
    blocks_cause(book).err()
}
