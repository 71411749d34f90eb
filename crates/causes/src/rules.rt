// The rule of steps that a row breaks.
ghost use Rattle.std.specs.Prelude.{◌≡◌};
ghost use Rattle.causes.specs.Rules.{rule_number, follow_cause, step_cause};

use steps::{is_flexible, not_cheaper};
use values::place::Offer;

// A rule of steps that a row past step 1 can break.
#[derive(Clone, Copy, Debug, PartialEq, Eq)]
pub enum Rule {
    // 1: there is a row before it
    Before,
    // 2: that row is of the same resource
    Resource,
    // 3: it is one step more
    Step,
    // 4: its price is not under the one before
    Price,
    // 5: it has no minimum block
    Block,
}

impl Rule {
    // Its number, in the order of the tests.
    pub fn number(self) -> u32
        ensures { result ≡ rule_number self }
    {
        match self {
            Rule::Before => 1,
            Rule::Resource => 2,
            Rule::Step => 3,
            Rule::Price => 4,
            Rule::Block => 5,
        }
    }
}

// The first rule that an offer breaks past the one before it, if it breaks one. Steps are compared in 64 bits, where one more than a
// step fits.
#[tactic(auto, unfolding(crate::specs::Rules::follow_cause))]
fn follow_cause(before: Offer, o: Offer) -> Option<Rule>
    ensures { result ≡ follow_cause before o }
{
    if o.resource != before.resource {
        return Some(Rule::Resource);
    }
    if u64::from(o.step) != u64::from(before.step) + 1 {
        return Some(Rule::Step);
    }
    if !not_cheaper(before.price, o.price) {
        return Some(Rule::Price);
    }
    if !is_flexible(o.block) {
        return Some(Rule::Block);
    }
    None
}

// The first rule of steps that a row breaks, if it breaks one: past step 1 there is a row before it, and its offer follows the one
// before.
#[tactic(auto, unfolding(crate::specs::Rules::step_cause))]
pub fn step_cause(before: Offer, o: Offer, row: usize) -> Option<Rule>
    ensures { result ≡ step_cause before o row }
{
    if o.step == 1 {
        return None;
    }
    if row == 0 {
        return Some(Rule::Before);
    }
    follow_cause(before, o)
}
