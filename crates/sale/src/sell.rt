// What rows sell on a curve: the total, the price, and each row's amount.
ghost use Rattle.std.specs.Prelude.{◌≤◌, length};
ghost use Rattle.curve.specs.Shape.{Shaped};
ghost use Rattle.columns.specs.inner.Sides.{rows_in, offers_in};
ghost use Rattle.sale.specs.inner.Sale.{SoldColumns};

use columns::rows::Rows;
use curve::Curve;
use market::total::cleared_level;
use pricing::clearing_price;
use shares::share_out;
use units::CentsPerMwDay;

// The total and the price of a sale.
#[derive(Clone, Copy)]
pub struct Sale {
    pub total: u32,
    pub price: Option<CentsPerMwDay>,
}

// The sale of rows on a curve, with what each row clears.
pub(crate) fn sell(c: Curve, rows: &Rows, amounts: &mut [u32]) -> Sale
    requires { Shaped c × (rows_in rows.now ≤ length amounts.old) }
    ensures { SoldColumns c (offers_in rows.now) amounts.old result amounts.new }
{
    let level = cleared_level(c, &rows.asks);
    share_out(rows, level, amounts);
    Sale {
        total: level.total,
        price: clearing_price(c, level),
    }
}
