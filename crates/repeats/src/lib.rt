// The first row with step 1 whose resource number stands in an earlier row.
#![tactic(auto)]

mod flags;

ghost use Rattle.std.specs.Prelude.{◌≡◌, ◌≤◌, length, get_or};
ghost use Rattle.repeats.specs.inner.Repeats.{first_repeat};

use flags::unrepeated_rows;

// The first of n rows with step 1 whose resource number stands in an earlier row, and n where there is none. The search starts
// past the rows that a table of flags shows to be no repeats.
pub fn first_repeat(resources: &[u32], steps: &[u32], n: usize) -> usize
    requires { (n ≤ length resources.now) × (n ≤ length steps.now) }
    ensures { (result ≡ first_repeat (λ row. get_or resources.now row 0) (λ row. get_or steps.now row 0) n) × (result ≤ n) }
{
    // nested loops over earlier and later rows, left by a label: the form that the outline names
    let mut found = n;
    'rows: for row in unrepeated_rows(resources, steps, n)..n {
        for earlier in 0..row {
            if (steps[row] == 1) & (resources[earlier] == resources[row]) {
                found = row;
                break 'rows;
            }
        }
    }
    found
}
