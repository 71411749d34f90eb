// The rows of a book that is to be written, tested one by one before any of them is put.
ghost use Rattle.std.specs.Prelude.{◌≡◌, ◌+◌, ◌/◌, ◌≤◌, ◌<◌, length};
ghost use Rattle.plain.specs.Given.{parameters_in, offer_in};
ghost use Rattle.lent.specs.inner.Drafts.{rows_where, draft_by, draft_of, tested_row, kept_row, repeated_in};

use crate::row::past_row;
use plain::given::parameters_in;
use plain::structs::{OzpParameters, OzpRow};
use repeats::first_repeat;
use values::{Refusal, Value};
use writer::opening_fault;

// What the next row is tested against: the number, the price and the step of the row before it.
#[derive(Clone, Copy)]
pub struct Before {
    pub resource: u32,
    pub price: Value,
    pub step: u32,
}

// A book that is to be written: the first fault found so far; how many rows are to be tested or put, which are none where it is
// refused before its rows are looked at, and where a row is refused are those before it; what the next row is tested against.
#[derive(Clone, Copy)]
pub struct Draft {
    pub fault: Result<(), Refusal>,
    pub rows: usize,
    pub before: Before,
}

// So many rows where nothing is refused, and else none.
fn rows_where(fault: Result<(), Refusal>, rows: usize) -> usize
    ensures { result ≡ rows_where fault rows }
{
    match fault {
        Ok(()) => rows,
        Err(_) => 0,
    }
}

// A draft with this fault, of whose rows none are left where there is one.
pub(crate) fn drafted(fault: Result<(), Refusal>, rows: usize, before: Before) -> Draft
    ensures { result ≡ draft_by fault rows before }
{
    Draft {
        fault,
        rows: rows_where(fault, rows),
        before,
    }
}

// A book of so many rows before they are looked at, with 3 of its edition, 19 or 5.
pub fn begin(edition: u32, parameters: OzpParameters, rows: usize) -> Draft
    ensures { result ≡ draft_of edition (parameters_in parameters) rows }
{
    let none = Before {
        resource: 0,
        price: Value::Given(0),
        step: 0,
    };
    let fault = opening_fault(edition, parameters_in(parameters), rows);
    drafted(fault, rows, none)
}

// Tests row i, and keeps its resource number in the first half of what is kept and its step in the second.
pub fn test_row(d: Draft, edition: u32, i: usize, row: OzpRow, kept: &mut [u32]) -> Draft
    requires { (i < length kept.old / 2) × (i < 600) }
    ensures { (result ≡ tested_row edition d i (offer_in row)) × (kept.new ≡ kept_row kept.old i (offer_in row)) }
{
    let half = kept.len() / 2;
    kept[i] = row.resource;
    kept[half + i] = row.step;
    past_row(d, edition, i, row)
}

// The first fault of a book whose rows are tested for 7 and 10: a repeat among the rows before the one refused comes first.
fn repeat_fault(d: Draft, kept: &[u32]) -> Result<(), Refusal>
    requires { (d.rows ≤ length kept.now / 2) × (d.rows ≤ 600) }
    ensures { result ≡ repeated_in d kept.now }
{
    let half = kept.len() / 2;
    let repeat = first_repeat(&kept[0..half], &kept[half..], d.rows);
    if repeat < d.rows {
        return Err(Refusal::RepeatedResource(repeat as u32));
    }
    d.fault
}

// A book whose rows are tested, with 8 of what was kept of them.
pub fn unrepeated(d: Draft, kept: &[u32]) -> Draft
    requires { (d.rows ≤ length kept.now / 2) × (d.rows ≤ 600) }
    ensures { result ≡ draft_by (repeated_in d kept.now) d.rows d.before }
{
    drafted(repeat_fault(d, kept), d.rows, d.before)
}
