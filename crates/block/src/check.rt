// The two sums of a block, taken as running sums from byte 507 back to byte 0, and the check that they make.
ghost use Rattle.std.specs.Prelude.{◌≡◌, ◌%◌, ◌≤◌, length};
ghost use Rattle.block.specs.Running.{block_sum, block_total};
ghost use Rattle.block.specs.Check.{check_holds};

use crate::bytes::u16_at;
use crate::columns::{column_sums, over_columns};
use crate::running::{Running, over_first};

// Both sums of bytes 0 to 507: over each column, then over the columns, then over the bytes before them. From row to row are
// sixteen places, so that the columns' totals count sixteen times.
pub fn check_sums(s: &[u8]) -> Running
    requires { 512 ≤ length s.now }
    ensures sum_value { result.sum ≡ block_sum s.now % 65536 }
    ensures total_value { result.total ≡ block_total s.now % 65536 }
{
    let mut sums = [0u16; 16];
    let totals = column_sums(s, &mut sums);
    let first = over_first(s, over_columns(&sums));
    Running {
        sum: first.sum,
        total: first.total.wrapping_add(totals.wrapping_mul(16)),
    }
}

// Whether the last four bytes hold both sums.
pub fn check_holds(s: &[u8]) -> bool
    requires { 512 ≤ length s.now }
    ensures { result ≡ check_holds s.now }
{
    let sums = check_sums(s);
    u32::from(sums.sum) == u16_at(s, 508) && u32::from(sums.total) == u16_at(s, 510)
}
