//! Parts that meet the requirements.

ghost use Rattle.std.specs.Prelude.{List, IfErr, IfOk};
ghost use Rattle.rdf_terms.specs.declared.terms.Term.{Term};
ghost use Rattle.schema_load.specs.Faults.{IsFault};
ghost use Rattle.schema_load.specs.Given.{AreNames};
ghost use Rattle.schema_load.specs.Refusals.{Explain};
ghost use Rattle.schema_load.specs.Requirements.{HasOne, IsCircle, IsIncludeCircle, IsMissing, IsTwice, NoneIs};
ghost use Rattle.schema_load.specs.Steps.{AreFine};
ghost use Rattle.schema_load.specs.Surveys.{IsSurveyOf};

use crate::checks::{given_label, take_part};
use crate::error::LoadError;
use crate::given::Names;
use crate::heads::holder;
use crate::limits::{Fault, circle_fault, depths_within};
use crate::nexts::targets_of;
use crate::part::Part;
use crate::sorting::sort;
use schema_documents::Label;
use std::alloc::Global;

/// The places to which parts lead, an order in which each place stands behind those to which it leads, and the depths.
#[derive(Drop)]
pub struct Survey {
    /// The target of each part.
    pub targets: Vec<usize>,
    /// The places in order.
    pub order: Vec<usize>,
    /// The depth of each part.
    pub depths: Vec<usize>,
}

/// The label of a shape expression that leads to itself.
fn circle_at(parts: Vec<Part>, place: usize) -> Label
    requires { HasOne (IsCircle parts.items) place }
    ensures { IsCircle parts.items place result }
{
    given_label(take_part(parts, place))
}

/// The label of a triple expression that leads to itself.
fn include_circle_at(parts: Vec<Part>, place: usize) -> Label
    requires { HasOne (IsIncludeCircle parts.items) place }
    ensures { IsIncludeCircle parts.items place result }
{
    given_label(take_part(parts, place))
}

/// The error that a fault is.
pub fn error_of(parts: Vec<Part>, fault: Fault) -> LoadError
    requires once { NoneIs (HasOne (IsTwice parts.items)) }
    requires there { NoneIs (HasOne (IsMissing parts.items)) }
    requires fine { AreFine parts.items }
    requires fault { IsFault parts.items fault }
    ensures { (terms : List Term) → Explain parts.items terms result }
{
    match fault {
        Fault::Circle(place) => LoadError::Circle(circle_at(parts, place)),
        Fault::IncludeCircle(place) => LoadError::IncludeCircle(include_circle_at(parts, place)),
        Fault::Deep(place) => LoadError::Deep(holder(parts, place)),
        Fault::Occurrences(place) => LoadError::Occurrences(holder(parts, place)),
        Fault::Shapes => LoadError::Shapes,
        Fault::Memory => LoadError::Memory,
    }
}

/// The survey of parts that meet the requirements.
pub fn survey_of(alloc: Global, parts: &[Part], names: &Names) -> Result<Survey, Fault>
    requires names { AreNames parts.now names.now }
    requires once { NoneIs (HasOne (IsTwice parts.now)) }
    requires there { NoneIs (HasOne (IsMissing parts.now)) }
    requires fine { AreFine parts.now }
    ensures survey { IfOk result (IsSurveyOf parts.now) }
    ensures refused { IfErr result (IsFault parts.now) }
{
    let targets = targets_of(alloc, parts, names)?;
    let order = sort(alloc, parts, targets.as_slice())?;
    if order.len() != parts.len() {
        return Err(circle_fault(alloc, parts, targets.as_slice()));
    }
    let depths = depths_within(alloc, parts, targets.as_slice(), order.as_slice())?;
    Ok(Survey {
        targets,
        order,
        depths,
    })
}
