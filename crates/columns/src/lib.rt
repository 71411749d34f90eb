// The offers of a book as columns, side by side: room for rows, and the rows that stand in it.
#![tactic(auto)]

pub mod rows;

ghost use Rattle.std.specs.Prelude.{◌≡◌, ◌≤◌, ◌<◌};
ghost use Rattle.levels.specs.inner.Rows.{RowLists};
ghost use Rattle.columns.specs.inner.Columns.{empty};
ghost use Rattle.columns.specs.inner.Ordered.{Ordered};
ghost use Rattle.columns.specs.inner.Sides.{lists_in, lists_behind, with_row, first_rows};

use crate::rows::Rows;
use levels::asks::Asks;
use values::place::Offer;
use values::{least_of, number_held};

// Room for N rows. Six arrays and no array of rows: each test and each sum goes over one or two of them, and runs in lanes.
#[derive(Drop)]
pub struct Columns<const N: usize> {
    pub prices: [u32; N],
    pub quantities: [u32; N],
    pub leasts: [u32; N],
    pub resources: [u32; N],
    pub stamps: [u64; N],
    pub steps: [u32; N],
}

impl<const N: usize> Columns<N> {
    // Columns of zeros.
    pub fn blank() -> Self
        ensures { lists_in result ≡ empty N }
    {
        Columns {
            prices: [0; N],
            quantities: [0; N],
            leasts: [0; N],
            resources: [0; N],
            stamps: [0; N],
            steps: [0; N],
        }
    }

    // Puts an offer as a row: the price that it holds, and the least that it commits.
    pub fn put(&mut self, row: usize, o: Offer)
        requires { row < N }
        ensures { lists_in self.new ≡ with_row (lists_in self.old) row o }
    {
        self.prices[row] = number_held(o.price);
        self.quantities[row] = o.quantity;
        self.leasts[row] = least_of(o.block);
        self.resources[row] = o.resource;
        self.stamps[row] = o.stamp;
        self.steps[row] = o.step;
    }

    // The first n rows, of which each asks and offers what a row can.
    pub fn rows(&self, n: usize) -> Rows<'_>
        requires listed { (n ≤ N) × RowLists self.now.prices self.now.quantities n }
        requires ordered { Ordered self.now.quantities self.now.stamps self.now.resources self.now.steps n }
        ensures { lists_behind result ≡ first_rows n (lists_in self.now) }
    {
        Rows {
            asks: Asks {
                prices: &self.prices[..n],
                quantities: &self.quantities[..n],
            },
            leasts: &self.leasts[..n],
            resources: &self.resources[..n],
            stamps: &self.stamps[..n],
            steps: &self.steps[..n],
        }
    }
}
