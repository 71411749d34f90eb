// The workings of rows, put together.
ghost use Rattle.std.specs.Prelude.{◌≡◌};
ghost use Rattle.limits.specs.Ranges.{Ranged};
ghost use Rattle.region.specs.Region.{region_curve};
ghost use Rattle.columns.specs.inner.Sides.{offers_in};
ghost use Rattle.workings.specs.inner.Works.{works_at};

use crate::row::worked_row;
use crate::spares::contest_at;
use crate::works::Works;
use columns::rows::Rows;
use ladder::rung::ladder_at;
use pricing::clearing_price;
use reasons::share::row_share_at;
use reasons::stop::stop_at;
use region::region_curve;
use values::head::Parameters;

// The workings of rows on the curve that parameters select: of a row, of a rung, and of a place.
pub(crate) fn works_at(p: Parameters, rows: &Rows, row: usize, rung: usize, place: usize) -> Works
    requires { Ranged p }
    ensures { result ≡ works_at (region_curve p) (offers_in rows.now) rows.now.leasts.now row rung place }
{
    let stop = stop_at(region_curve(p), &rows.asks);
    let level = stop.level;
    let x = level.total;
    let price = clearing_price(stop.curve, level);
    Works {
        stop,
        price,
        share: row_share_at(&rows.asks, x, row),
        row: worked_row(rows, x, price, row),
        ladder: ladder_at(&rows.asks, x, level.price, rung),
        contest: contest_at(rows, x, level.price, place),
    }
}
