// Marks that say which values are given.
ghost use Rattle.std.specs.Prelude.{◌≡◌, ◌+◌, ◌/◌, ◌%◌, ◌≤◌, ◌<◌, length, eqb};
ghost use Rattle.block.specs.Bytes.{u32_at};
ghost use Rattle.values.specs.Values.{absent_is_zero};

use block::bytes::u32_at;

// Whether the value at a place of a part is given, by the bit of this weight in the marks, or has zero bytes.
pub fn absent_holds(s: &[u8], at: usize, marks: u8, weight: u8) -> bool
    requires { (at + 4 ≤ length s.now) × (0 < weight) }
    ensures { result ≡ absent_is_zero (eqb (marks / weight % 2) 1) (u32_at s.now at) }
{
    marks / weight % 2 == 1 || u32_at(s, at) == 0
}
