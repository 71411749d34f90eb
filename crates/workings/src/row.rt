// What a row works out to: its turn for the spare tenths, what it commits and what it is paid.
ghost use Rattle.std.specs.Prelude.{◌≡◌, ◌<◌, get_or};
ghost use Rattle.columns.specs.inner.Sides.{rows_in, offers_in};
ghost use Rattle.workings.specs.inner.Works.{row_works_by, worked_row_by};

use columns::rows::Rows;
use settle::{committed_of, make_whole};
use turns::turn::{Turn, turn_at};
use units::CentsPerMwDay;

// A row's turn, with what it clears; what it commits, in tenths; and its make-whole, in mills a day.
#[derive(Clone, Copy)]
pub struct RowWorks {
    pub turn: Turn,
    pub committed: u32,
    pub make_whole: u64,
}

// A row that is there, at a price.
fn row_works(rows: &Rows, x: u32, price: Option<CentsPerMwDay>, row: usize) -> RowWorks
    requires { row < rows_in rows.now }
    ensures { result ≡ row_works_by (offers_in rows.now) x price (get_or rows.now.leasts.now row 0) row }
{
    let turn = turn_at(rows, x, row);
    let committed = committed_of(rows.leasts[row], turn.cleared);
    RowWorks {
        turn,
        committed,
        make_whole: make_whole(price, turn.cleared, committed),
    }
}

// A row, or that it isn't there.
pub(crate) fn worked_row(
    rows: &Rows,
    x: u32,
    price: Option<CentsPerMwDay>,
    row: usize,
) -> Option<RowWorks>
    ensures { result ≡ worked_row_by (offers_in rows.now) x price rows.now.leasts.now row }
{
    if row < rows.asks.prices.len() {
        Some(row_works(rows, x, price, row))
    } else {
        None
    }
}
