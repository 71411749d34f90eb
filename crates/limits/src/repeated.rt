// Refusal 8: a resource number that stands in an earlier row, among the rows before the one that 6, 7 or 10 refuses.
ghost use Rattle.std.specs.Prelude.{◌≡◌, ◌≤◌, length, get_or};
ghost use Rattle.limits.specs.inner.Rows.{rows_before, with_repeats};

use repeats::first_repeat;
use values::Refusal;

// How many rows stand before the one that is refused: all n where none is.
pub fn rows_before(found: Result<(), Refusal>, n: usize) -> usize
    ensures { result ≡ rows_before found n }
{
    match found {
        Ok(()) => n,
        Err(refusal) => refusal.place() as usize,
    }
}

// The first fault of n rows, where `found` is the first by 6, 7 or 10: a repeat before that row comes first.
pub fn with_repeats(
    found: Result<(), Refusal>,
    resources: &[u32],
    steps: &[u32],
    n: u32,
) -> Result<(), Refusal>
    requires { (rows_before found n ≤ length resources.now) × (rows_before found n ≤ length steps.now) }
    ensures { result ≡ with_repeats found (λ row. get_or resources.now row 0) (λ row. get_or steps.now row 0) n }
{
    let limit = rows_before(found, n as usize);
    let repeat = first_repeat(resources, steps, limit);
    if repeat < limit {
        Err(Refusal::RepeatedResource(repeat as u32))
    } else {
        found
    }
}
