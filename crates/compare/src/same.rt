// The first field in which two sets of parameters differ.
ghost use Rattle.std.specs.Prelude.{◌≡◌};
ghost use Rattle.compare.specs.Same.{field_apart};

use values::head::Parameters;

// The first field in which two sets of parameters differ, from 1 to 6; none where they are the same.
pub(crate) fn field_apart(p: Parameters, other: Parameters) -> Option<u32>
    ensures { result ≡ field_apart p other }
{
    if p.year != other.year {
        return Some(1);
    }
    if p.cost != other.cost {
        return Some(2);
    }
    if p.offset != other.offset {
        return Some(3);
    }
    if p.outage != other.outage {
        return Some(4);
    }
    if p.requirement != other.requirement {
        return Some(5);
    }
    if p.margin != other.margin {
        return Some(6);
    }
    None
}
