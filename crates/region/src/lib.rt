// The region's requirement curve: the one that its parameters select.
#![tactic(auto)]

ghost use Rattle.std.specs.Prelude.{◌≡◌};
ghost use Rattle.curve.specs.Shape.{Shaped};
ghost use Rattle.limits.specs.Ranges.{Ranged};
ghost use Rattle.region.specs.Region.{terms_of, region_curve};

use curve::{Curve, Terms, WHOLE, Weights, points};
use limits::parameters::by_margin;
use units::DollarsPerMwYear;
use values::head::Parameters;
use values::number_held;

// The terms that parameters with every value given state.
fn terms_of(p: Parameters) -> Terms
    ensures { result ≡ terms_of p }
{
    Terms {
        cost: DollarsPerMwYear(number_held(p.cost)),
        offset: DollarsPerMwYear(number_held(p.offset)),
        outage: number_held(p.outage),
        requirement: number_held(p.requirement),
    }
}

// The curve that the year of parameters selects, each that it needs given and within its range.
pub fn region_curve(p: Parameters) -> Curve
    requires { Ranged p }
    ensures { (result ≡ region_curve p) × Shaped result }
{
    let terms = terms_of(p);
    if by_margin(p.year) {
        points(Weights::Y2022, WHOLE + number_held(p.margin), terms)
    } else {
        points(Weights::Y2026, WHOLE, terms)
    }
}
