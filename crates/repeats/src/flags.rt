// Rows that are no repeats are passed quickly by a table of flags, of which each resource number has two.
//
// Where one of a number's flags is not set, the number was not met. Where both are, other numbers may have set them: there the
// earlier rows are looked through.
ghost use Rattle.std.specs.Prelude.{◌≡◌, true, not, ◌&&◌, ◌-◌, ◌≤◌, ◌<◌, eqb, ltb, length, get_or};
ghost use Rattle.laws.specs.Sum.{every};
ghost use Rattle.repeats.specs.inner.Flags.{flag_of_sum, flag_of_product};
ghost use Rattle.repeats.specs.Repeats.{no_repeat};

// Whether a number stands in none of the first n rows. The loop has no branch, so that it runs in lanes.
pub(crate) fn absent(resources: &[u32], n: usize, number: u32) -> bool
    requires { n ≤ length resources.now }
    ensures { result ≡ every (λ row. not (eqb (get_or resources.now row 0) number)) n }
{
    let mut none = true;
    for row in 0..n {
        none = none & (resources[row] != number);
    }
    none
}

// A number's first flag: its low and its high half added.
fn flag_of_sum(number: u32) -> usize
    ensures { (result ≡ flag_of_sum number) × (result < 8192) }
{
    ((number % 65536 + number / 65536) % 8192) as usize
}

// A number's second flag: its low and its high half, each moved on, multiplied.
fn flag_of_product(number: u32) -> usize
    ensures { (result ≡ flag_of_product number) × (result < 8192) }
{
    let low = u64::from(number % 65536 + 40503);
    let high = u64::from(number / 65536 + 12345);
    (low * high / 128 % 8192) as usize
}

// Whether a row has the resource number of the row before it. Row 0 has none before it.
fn as_before(resources: &[u32], row: usize) -> bool
    requires { row < length resources.now }
    ensures { result ≡ (ltb 0 row && eqb (get_or resources.now row 0) (get_or resources.now (row - 1) 0)) }
{
    0 < row && resources[row] == resources[row - 1]
}

// Fewer rows than this are looked through sooner than a table of flags is cleared.
const FEW: usize = 40;

// A row before which no row is a repeat: the first that is one, or n. Of few rows it says nothing: 0. A row past step 1 whose number
// the row before it has is no repeat, and its flags are set already.
pub fn unrepeated_rows(resources: &[u32], steps: &[u32], n: usize) -> usize
    requires { (n ≤ length resources.now) × (n ≤ length steps.now) }
    ensures { (result ≤ n)
        × (every (no_repeat (λ row. get_or resources.now row 0) (λ row. get_or steps.now row 0)) result ≡ true) }
{
    if n < FEW {
        return 0;
    }
    let mut met = [false; 8192];
    for row in 0..n {
        let number = resources[row];
        if (steps[row] == 1) | !as_before(resources, row) {
            let by_sum = flag_of_sum(number);
            let by_product = flag_of_product(number);
            if (steps[row] == 1) & met[by_sum] & met[by_product] {
                if !absent(resources, row, number) {
                    return row;
                }
            }
            met[by_sum] = true;
            met[by_product] = true;
        }
    }
    n
}
