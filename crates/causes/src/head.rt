// The first test of block 0 that fails.
ghost use Rattle.std.specs.Prelude.{◌≡◌, ◌≤◌, length};
ghost use Rattle.causes.specs.Cause.{head_marks_cause, head_cause};

use crate::tests::{absent_cause, letters_cause, told, zeros_cause};
use crate::{Cause, Test};
use layout::RPMB;
use layout::head::{count_fits, edition_known};
use values::head::edition_in;

// The marks, and the values that they say are not given.
#[tactic(auto, using(values::proofs::Firsts::in_turn), unfolding(crate::specs::Cause::head_marks_cause, values::specs::Values::marked))]
fn head_marks_cause(s: &[u8]) -> Result<(), Cause>
    requires { 512 ≤ length s.now }
    ensures { result ≡ head_marks_cause s.now }
{
    let marks = s[26];
    told(marks < 32, Test::Mark, 26)?;
    absent_cause(s, 8, marks, 1)?;
    absent_cause(s, 12, marks, 2)?;
    absent_cause(s, 16, marks, 4)?;
    absent_cause(s, 20, marks, 8)?;
    absent_cause(s, 28, marks, 16)
}

// The first test that block 0 of a book of so many blocks fails.
#[tactic(auto, using(values::proofs::Firsts::in_turn), unfolding(crate::specs::Cause::head_cause))]
pub fn head_cause(s: &[u8], blocks: usize) -> Result<(), Cause>
    requires { 512 ≤ length s.now }
    ensures { result ≡ head_cause s.now blocks }
{
    letters_cause(s, &RPMB)?;
    told(edition_known(edition_in(s)), Test::Edition, 4)?;
    told(count_fits(s, blocks), Test::Count, 24)?;
    head_marks_cause(s)?;
    zeros_cause(s, 27, 1)?;
    zeros_cause(s, 32, 476)
}
