//! Documents that meet the requirements.

ghost use Rattle.std.specs.Prelude.{List, ◌≡◌, IfErr, IfOk, map};
ghost use Rattle.rdf_terms.specs.declared.terms.Term.{Term};
ghost use Rattle.schema_documents.specs.Tree.{document_of};
ghost use Rattle.schema_load.specs.Given.{AreNames};
ghost use Rattle.schema_load.specs.Reading.{parts_of};
ghost use Rattle.schema_load.specs.Refusals.{Explain, Explains};
ghost use Rattle.schema_load.specs.Requirements.{HasOne, IsMissing, IsTwice, NoneIs};
ghost use Rattle.schema_load.specs.Steps.{AreFine};
ghost use Rattle.schema_load.specs.Surveys.{IsSurveyOf};

use crate::checks::{Named, checked_parts};
use crate::error::LoadError;
use crate::given::Names;
use crate::part::Part;
use crate::survey::{Survey, error_of, survey_of};
use schema_documents::Doc;
use std::alloc::Global;

/// The parts of documents with their survey.
#[derive(Drop)]
pub struct Surveyed {
    /// The parts in reading order.
    pub parts: Vec<Part>,
    /// Their survey.
    pub survey: Survey,
}

/// The parts with their survey, where they meet the requirements.
fn survey_named(alloc: Global, parts: Vec<Part>, names: &Names) -> Result<Surveyed, LoadError>
    requires names { AreNames parts.items names.now }
    requires once { NoneIs (HasOne (IsTwice parts.items)) }
    requires there { NoneIs (HasOne (IsMissing parts.items)) }
    requires fine { AreFine parts.items }
    ensures parts { IfOk result (λ s. s.parts.items ≡ parts.items) }
    ensures survey { IfOk result (λ s. IsSurveyOf s.parts.items s.survey) }
    ensures refused { (terms : List Term) → IfErr result (Explain parts.items terms) }
{
    match survey_of(alloc, parts.as_slice(), names) {
        Ok(survey) => Ok(Surveyed { parts, survey }),
        Err(fault) => Err(error_of(parts, fault)),
    }
}

/// The parts of documents that meet the requirements, with their survey.
pub fn parts_surveyed(alloc: Global, docs: Vec<Doc>) -> Result<Surveyed, LoadError>
    ensures parts { IfOk result (λ s. s.parts.items ≡ parts_of (map document_of docs.items)) }
    ensures survey { IfOk result (λ s. IsSurveyOf s.parts.items s.survey) }
    ensures refused { (terms : List Term) → IfErr result (Explains (map document_of docs.items) terms) }
{
    let Named { parts, names } = checked_parts(alloc, docs)?;
    survey_named(alloc, parts, &names)
}
