// The price levels around the one at which the total stops, as a ladder.
ghost use Rattle.forms.specs.Shown.{Shown};
ghost use Rattle.rowlines.specs.Levels.{ladder_numbers, rung_numbers};

use forms::put_form;
use ladder::rung::Rung;
use wording::word::either;

// Puts what the columns are, and what is offered below the lowest rung.
#[tactic(auto, using(wording::proofs::Showing::showing), unfolding(crate::specs::Levels::ladder_numbers))]
pub fn put_ladder(room: &mut [u8], at: usize, lower: u32) -> usize
    ensures { Shown room.old at (ladder_numbers lower) room.new result }
{
    put_form(
        room,
        at,
        b"
Price levels around the one at which X stops
        price            offered           receives
[|        lower  _____________~ MW                     all
]",
        &[u64::from(0 < lower), u64::from(lower)],
    )
}

// Puts a rung, counted from 0; behind the eleventh also what is offered at higher prices.
#[tactic(auto, using(wording::proofs::Showing::showing), unfolding(crate::specs::Levels::rung_numbers))]
pub fn put_rung(room: &mut [u8], at: usize, k: usize, rung: Rung) -> usize
    ensures { Shown room.old at (rung_numbers k rung) room.new result }
{
    put_form(
        room,
        at,
        b"____________$  _____________~ MW  _____________~ MW  [all|a part|nothing]
[|       higher  _____________~ MW                     nothing
]",
        &[
            u64::from(rung.price),
            u64::from(rung.offered),
            u64::from(rung.receives),
            either(
                rung.receives == 0,
                2,
                u64::from(rung.receives < rung.offered),
            ),
            u64::from(k == 10 && 0 < rung.higher),
            u64::from(rung.higher),
        ],
    )
}
