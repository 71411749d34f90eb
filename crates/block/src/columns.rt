// Running sums of bytes 12 to 507 by columns: each of sixteen columns is run over from its last row back, side by side with the
// others, and then their sums from the last column back.
ghost use Rattle.std.specs.Prelude.{◌≡◌, ◌+◌, ◌%◌, ◌≤◌, ◌<◌, length, get_or};
ghost use Rattle.laws.specs.Sum.{sum_to};
ghost use Rattle.laws.specs.Filled.{filled};
ghost use Rattle.block.specs.Running.{running_sum, running_total};
ghost use Rattle.block.specs.inner.Columns.{in_column, column_sum, column_total};

use crate::running::{Running, step};

// Runs over one column of bytes 28 to 507, from the last of its thirty rows back.
fn over_rows(s: &[u8], column: usize) -> Running
    requires { (512 ≤ length s.now) × (column < 16) }
    ensures sum_value { result.sum ≡ running_sum (in_column s.now column) 30 30 % 65536 }
    ensures total_value { result.total ≡ running_total (in_column s.now column) 30 30 % 65536 }
{
    let mut board = Running { sum: 0, total: 0 };
    for row in (0..30).rev() {
        board = step(board, u16::from(s[row * 16 + column + 28]));
    }
    board
}

// Runs over each column. Stores the columns' sums, each with the byte before its rows, and returns their totals, added up.
pub fn column_sums(s: &[u8], sums: &mut [u16; 16]) -> u16
    requires { 512 ≤ length s.now }
    ensures value { result ≡ sum_to (column_total s.now) 16 % 65536 }
    ensures sums_after { sums.new ≡ filled (column_sum s.now) 16 sums.old }
{
    let mut totals: u16 = 0;
    for column in 0..16 {
        let rows = over_rows(s, column);
        sums[column] = rows.sum.wrapping_add(u16::from(s[column + 12]));
        totals = totals.wrapping_add(rows.total);
    }
    totals
}

// Runs over the sums of the columns, from the last column back.
pub fn over_columns(sums: &[u16; 16]) -> Running
    ensures sum_value { result.sum ≡ running_sum (λ i. get_or sums.now i 0) 16 16 % 65536 }
    ensures total_value { result.total ≡ running_total (λ i. get_or sums.now i 0) 16 16 % 65536 }
{
    let mut board = Running { sum: 0, total: 0 };
    for i in (0..16).rev() {
        board = step(board, sums[i]);
    }
    board
}
