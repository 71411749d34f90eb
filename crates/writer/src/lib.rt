// When the writer of books refuses before it looks at a row. What is made of rows that pass is proved here to be the book that says
// them.
#![tactic(auto)]

ghost use Rattle.std.specs.Prelude.{◌≡◌};
ghost use Rattle.writer.specs.inner.Opening.{opening_fault};

use layout::head::edition_known;
use limits::parameters::parameter_fault;
use values::Refusal;
use values::head::Parameters;

// The first fault of an edition, parameters and a count of rows: 3 of an edition that no book has; 19; 5 by field.
pub fn opening_fault(edition: u32, p: Parameters, rows: usize) -> Result<(), Refusal>
    ensures { result ≡ opening_fault edition p rows }
{
    if !edition_known(edition) {
        return Err(Refusal::WrongLayout(0));
    }
    if 600 < rows {
        return Err(Refusal::TooManyRows);
    }
    parameter_fault(p)
}
