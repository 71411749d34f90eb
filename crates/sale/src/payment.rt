// What rows clear and commit, and what is paid.
ghost use Rattle.std.specs.Prelude.{◌≤◌, length};
ghost use Rattle.columns.specs.inner.Sides.{rows_in, lists_behind};
ghost use Rattle.sale.specs.inner.Sale.{SomeStand, ClearsColumns};

use crate::Clearing;
use crate::sell::sell;
use calendar::days_of;
use columns::rows::Rows;
use region::region_curve;
use settle::{commit, mills_of};
use values::head::Parameters;

// What rows clear under parameters, with each row's cleared and committed tenths: the clearing of whatever contents stand in them.
pub fn clearing(p: Parameters, rows: &Rows, cleared: &mut [u32], committed: &mut [u32]) -> Clearing
    requires some_stand { SomeStand p (rows_in rows.now) (lists_behind rows.now) }
    requires rows_in_bounds { (rows_in rows.now ≤ length cleared.old) × (rows_in rows.now ≤ length committed.old) }
    ensures { ClearsColumns p (rows_in rows.now) (lists_behind rows.now) cleared.old committed.old result cleared.new committed.new }
{
    let sale = sell(region_curve(p), rows, cleared);
    let past = commit(rows.leasts, cleared, committed);
    let make_whole = mills_of(sale.price, past);
    let daily = mills_of(sale.price, sale.total) + make_whole;
    Clearing {
        total: sale.total,
        price: sale.price,
        make_whole,
        daily,
        year: days_of(p.year) * daily,
    }
}
