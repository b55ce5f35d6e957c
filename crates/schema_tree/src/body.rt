//! The triple expression of a Shape.

ghost use Rattle.std.specs.Prelude.{◌≡◌};
ghost use Rattle.tally.specs.Plan.{plan_of, sym};

use std::marker::Model;
use tally::Count;

/// The triple expression of a Shape over the numbers of its occurrences (ShEx 2.1, section 5.5), which contracts see as
/// a plain tree.
#[derive(Debug, Drop)]
pub struct Body {
    count: Count,
}

impl Model for Body {
    ghost use Rattle.schema_tree.specs.PlanCodes.{coded_plan};
    ghost use Rattle.tally.specs.Plan.{Plan, plan_of};

    ghost Value = { Plan };

    ghost coded = { coded_plan };

    ghost view = { λ b. plan_of b.count };
}

impl Body {
    /// That of one occurrence, which comes once.
    pub fn once(occurrence: u16) -> Body
        ensures { result ≡ sym occurrence }
    {
        Body::of(Count::Sym(occurrence))
    }

    /// That of an expression over counts, without taking memory.
    pub fn of(count: Count) -> Body
        ensures { result ≡ plan_of count }
    {
        Body { count }
    }

    /// The expression over counts.
    pub fn count(&self) -> &Count
        ensures { plan_of result.now ≡ self.now }
    {
        &self.count
    }
}
