// The tests of bytes of a block: letters, values not given, zero bytes. Each tells the byte that it fails at.
ghost use Rattle.std.specs.Prelude.{◌≡◌, ◌+◌, ◌/◌, ◌%◌, ◌≤◌, ◌<◌, length, eqb};
ghost use Rattle.values.specs.Refusals.{unless};
ghost use Rattle.causes.specs.Cause.{failed, letters_cause, absent_cause, zeros_cause};

use crate::{Cause, Test};
use sections::marks::absent_holds;

// A test that holds, or else its cause.
pub fn told(holds: bool, test: Test, byte: u32) -> Result<(), Cause>
    ensures { result ≡ unless holds (failed test byte) }
{
    if holds {
        Ok(())
    } else {
        Err(Cause { test, byte })
    }
}

// The first of a block's four letters that is not its kind's.
#[tactic(auto, using(values::proofs::Firsts::in_rows), unfolding(crate::specs::Cause::letters_cause))]
pub fn letters_cause(s: &[u8], letters: &[u8; 4]) -> Result<(), Cause>
    requires { 512 ≤ length s.now }
    ensures { result ≡ letters_cause s.now letters.now }
{
    for i in 0..4 {
        told(s[i] == letters[i], Test::Letters, i as u32)?;
    }
    Ok(())
}

// A value at a place of a block, by the bit of this weight in the marks: it is given, or its bytes are zero.
pub fn absent_cause(s: &[u8], at: usize, marks: u8, weight: u8) -> Result<(), Cause>
    requires { (at + 4 ≤ 512) × (512 ≤ length s.now) × (0 < weight) }
    ensures { result ≡ absent_cause (eqb (marks / weight % 2) 1) s.now at }
{
    told(absent_holds(s, at, marks, weight), Test::Absent, at as u32)
}

// The first of the n bytes from a place of a block on that is not zero.
#[tactic(auto, using(values::proofs::Firsts::in_rows), unfolding(crate::specs::Cause::zeros_cause))]
pub fn zeros_cause(s: &[u8], from: usize, n: usize) -> Result<(), Cause>
    requires { (from + n ≤ 512) × (512 ≤ length s.now) }
    ensures { result ≡ zeros_cause s.now from n }
{
    for i in 0..n {
        let at = from + i;
        told(s[at] == 0, Test::Zero, at as u32)?;
    }
    Ok(())
}
