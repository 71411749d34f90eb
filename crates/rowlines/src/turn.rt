// A row's turn in the contest for the spare tenths of its level, and the row at the other side of the cut.
ghost use Rattle.std.specs.Prelude.{◌≡◌};
ghost use Rattle.forms.specs.Shown.{Shown};
ghost use Rattle.rowlines.specs.Turn.{turn_numbers};
ghost use Rattle.rowlines.specs.inner.Rival.{Faces};

use forms::put_form;
use turns::turn::{Rival, Turn};
use wording::word::{either, first_true};

// What is said of the row at the other side of the cut: how it is named, its resource and its step, and what decides.
#[derive(Clone, Copy)]
struct Facing {
    named: u64,
    resource: u64,
    step: u64,
    decided: u64,
}

// The row at the other side of the cut, for one that gets a spare tenth or for one that gets none; with all ones for the
// numbers of a row that is not there.
fn across(edition: u32, gets: bool, rival: Option<Rival>) -> Facing
    ensures { Faces edition gets rival result }
{
    match rival {
        Some(Rival { contender, decided }) => Facing {
            named: either(edition == 2, 2, 1),
            resource: u64::from(contender.resource),
            step: u64::from(contender.step),
            decided: u64::from(decided.number()) + either(gets, 1, 5),
        },
        None => Facing {
            named: 0,
            resource: u64::MAX,
            step: u64::MAX,
            decided: 0,
        },
    }
}

// A row's turn, as the numbers that are shown: the words for the spare tenths, the row's place and among how many, the tenths that
// are spare, whether it gets one, and the row at the other side of the cut.
#[tactic(auto, unfolding(crate::specs::Turn::turn_numbers))]
fn turn_numbers(edition: u32, t: Turn) -> [u64; 12]
    ensures { result ≡ turn_numbers edition t }
{
    let gets = t.place < t.spares;
    let other = across(edition, gets, t.rival);
    [
        first_true(t.spares == 0, t.spares == 1),
        u64::from(t.place) + 1,
        u64::from(t.contenders),
        u64::from(t.place) + 1,
        u64::from(t.contenders),
        u64::from(t.spares),
        first_true(t.spares == 0, gets),
        other.named,
        other.resource,
        other.step,
        other.resource,
        other.decided,
    ]
}

// Puts a row's place in the contest for the spare tenths of its level, and against whom it gets one or gets none.
#[tactic(auto, using(wording::proofs::Showing::showing), unfolding(crate::specs::Turn::turn_numbers))]
pub fn put_turn(room: &mut [u8], at: usize, edition: u32, t: Turn) -> usize
    ensures { Shown room.old at (turn_numbers edition t) room.new result }
{
    put_form(
        room,
        at,
        b"  [there is no spare tenth: the parts come out even|place @ of @ for 1 spare tenth|place @ of @ for @ spare tenths]
[|  it gets one; the first that gets none is |  it gets none; the last that gets one is ][|resource #|step # of resource #][|:
    the remainder here is larger
|:
    the remainders are the same, and the stamp here is earlier
|:
    remainders and stamps are the same, and the resource number here is lower
|:
    only the steps differ, and the step here is lower
|:
    the remainder here is smaller
|:
    the remainders are the same, and the stamp here is later
|:
    remainders and stamps are the same, and the resource number here is higher
|:
    only the steps differ, and the step here is higher
]",
        &turn_numbers(edition, t),
    )
}
