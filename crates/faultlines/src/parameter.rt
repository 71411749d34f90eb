// Refusals 4 and 5 in the words of the table: a parameter that is missing or out of range, beside its range.
ghost use Rattle.std.specs.Prelude.{◌≡◌};
ghost use Rattle.forms.specs.Shown.{Shown};
ghost use Rattle.faultlines.specs.Refused.{field_number, parameter_numbers};

use forms::put_form;
use limits::parameters::offset_most;
use values::head::Parameters;
use values::number_held;
use wording::word::either;

// The number of a field of the parameters, and all ones where there is none.
#[tactic(auto, unfolding(crate::specs::Refused::field_number))]
fn field_number(p: Parameters, field: u32) -> u64
    ensures { result ≡ field_number p field }
{
    u64::from(match field {
        1 => p.year,
        2 => number_held(p.cost),
        3 => number_held(p.offset),
        4 => number_held(p.outage),
        5 => number_held(p.requirement),
        _ => number_held(p.margin),
    })
}

// Puts refusals 4 and 5: a parameter that is missing or out of range, and its range.
#[tactic(auto, using(wording::proofs::Showing::showing), unfolding(crate::specs::Refused::parameter_numbers))]
pub fn put_parameter(room: &mut [u8], at: usize, number: u32, field: u32, p: Parameters) -> usize
    ensures { Shown room.old at (parameter_numbers number field p) room.new result }
{
    let ranged = u64::from(number == 5);
    let value = field_number(p, field);
    put_form(
        room,
        at,
        b"
refused # at field #
  [|the delivery year|C, the cost of new entry,|E, the revenue offset,|F, the outage rate,\
    |R, the requirement,|the reserve margin] is [missing; a missing value is not zero|]\
    [|#|@ dollars per MW-year|@ dollars per MW-year|$ percent|~ MW|$ percent][|, out of range]
  its range is [|2022 to 2099|1 to 1,000,000 dollars per MW-year|0 to C, which is @\
    |0.00 to 50.00 percent|100.0 to 200,000.0 MW\
    |0.00 to 50.00 percent in 2022 to 2025; later years have none]
",
        &[
            u64::from(number),
            u64::from(field),
            u64::from(field),
            ranged,
            either(number == 5, u64::from(field), 0),
            value,
            value,
            value,
            value,
            value,
            value,
            ranged,
            u64::from(field),
            u64::from(offset_most(p.cost)),
        ],
    )
}
