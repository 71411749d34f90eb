// The rows of a book as a table.
ghost use Rattle.forms.specs.Shown.{Shown};
ghost use Rattle.rowlines.specs.Table.{table_head_numbers, line_numbers};

use crate::row_word::line_word;
use forms::put_form;
use values::number_held;
use values::place::Offer;

// Puts what the columns are, and what the words of the last one mean.
#[tactic(auto, using(wording::proofs::Showing::showing), unfolding(crate::specs::Table::table_head_numbers))]
pub fn put_table_head(room: &mut [u8], at: usize) -> usize
    ensures { Shown room.old at table_head_numbers room.new result }
{
    put_form(
        room,
        at,
        b"
The rows, in MW, dollars per MW-day and dollars a day
  part: rounded down; spare: one tenth more; block: commits its minimum block
row resource seller     price  offered  cleared  commits      make-whole
",
        &[],
    )
}

// Puts a row in one line: its offer, what it clears, commits and is paid, and in a word why it clears that. The level at which
// the total stops receives `amount` of `sum`: what a row clears past its exact part of that is a spare tenth.
#[tactic(auto, using(wording::proofs::Showing::showing), unfolding(crate::specs::Table::line_numbers))]
pub fn put_line(
    room: &mut [u8],
    at: usize,
    row: usize,
    o: Offer,
    cleared: u32,
    committed: u32,
    mills: u64,
    amount: u32,
    sum: u32,
) -> usize
    ensures { Shown room.old at (line_numbers row o cleared committed mills amount sum) room.new result }
{
    // Tried with `||`: the proof of the numbers below does not close where the two ways of a test join.
    let wide = (100000000 <= o.resource) | (1000000 <= o.seller);
    let offered = u64::from(o.quantity);
    let sold = u64::from(cleared);
    let exact = offered * u64::from(amount);
    let taken = sold * u64::from(sum);
    put_form(
        room,
        at,
        b"__# [_______#| step _#] _____#[ |
                    ]________$ _______~ _______~ _______~ ______________& [nothing|whole|part|spare|block]
",
        &[
            row as u64,
            u64::from(1 < o.step),
            u64::from(o.resource),
            u64::from(o.step),
            u64::from(o.seller),
            u64::from(wide),
            u64::from(number_held(o.price)),
            offered,
            sold,
            u64::from(committed),
            mills,
            line_word(
                cleared == 0,
                cleared < committed,
                sold == offered,
                exact < taken,
            ),
        ],
    )
}
