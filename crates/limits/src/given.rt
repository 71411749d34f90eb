// Refusals 4 and 5 on parameters that stand in no book: what is missing is told by the values and not by marks.
ghost use Rattle.std.specs.Prelude.{◌≡◌};
ghost use Rattle.limits.specs.Parameters.{field_fault, margin_fault, missing_fault};
ghost use Rattle.limits.specs.Given.{parameters_fault};

use crate::parameters::{by_margin, parameter_fault};
use values::head::Parameters;
use values::{Refusal, Value};

// 4 of a field: its value is missing.
fn field_fault(field: u32, v: Value) -> Result<(), Refusal>
    ensures { result ≡ field_fault field v }
{
    match v {
        Value::Given(_) => Ok(()),
        Value::Missing => Err(Refusal::MissingParameter(field)),
    }
}

// 4 of the margin: it is missing in a year whose curve goes by it.
fn margin_fault(year: u32, margin: Value) -> Result<(), Refusal>
    ensures { result ≡ margin_fault year margin }
{
    if by_margin(year) {
        field_fault(6, margin)
    } else {
        Ok(())
    }
}

// 4: the first field whose value is missing.
#[tactic(auto, using(values::proofs::Firsts::in_turn), unfolding(crate::specs::Parameters::missing_fault))]
fn missing_value(p: Parameters) -> Result<(), Refusal>
    ensures { result ≡ missing_fault p }
{
    field_fault(2, p.cost)?;
    field_fault(3, p.offset)?;
    field_fault(4, p.outage)?;
    field_fault(5, p.requirement)?;
    margin_fault(p.year, p.margin)
}

// 4, and then 5 by field.
#[tactic(auto, using(values::proofs::Firsts::in_turn), unfolding(crate::specs::Given::parameters_fault))]
pub fn parameters_verdict(p: Parameters) -> Result<(), Refusal>
    ensures { result ≡ parameters_fault p }
{
    missing_value(p)?;
    parameter_fault(p)
}
