//! The schema of parts that meet the requirements.

ghost use Rattle.std.specs.Prelude.{List, ◌≡◌, ◌≤◌, IfOk, filter, length};
ghost use Rattle.schema_documents.specs.Tree.{Document};
ghost use Rattle.schema_load.specs.Building.{HasPredicates, number_in};
ghost use Rattle.schema_load.specs.Parts.{is_entry};
ghost use Rattle.schema_load.specs.Reading.{parts_of};
ghost use Rattle.schema_load.specs.Stands.{Stands};
ghost use Rattle.schema_load.specs.Surveys.{IsNumbering, IsOutline, IsSurveyOf};

use crate::entries::entries_of;
use crate::exprs::exprs_of;
use crate::labels::{labels_of, start_of};
use crate::numbers::numbers_of;
use crate::part::Part;
use crate::survey::Survey;
use crate::surveyed::Surveyed;
use crate::unfolding::Unfolder;
use rdf_terms::items::Items;
use rdf_terms::table::TermTable;
use schema_tree::labels::Labels;
use schema_tree::schema::{ExprId, Schema, Shape};
use std::alloc::{AllocError, Global};

/// The order of the entries, and the number of the expression at each place.
#[derive(Drop)]
pub struct Numbering {
    /// The places of the entries.
    pub entries: Vec<usize>,
    /// The numbers.
    pub numbers: Vec<u32>,
}

/// The numbers of the expressions.
fn numbering_of(alloc: Global, parts: &[Part], survey: &Survey) -> Result<Numbering, AllocError>
    requires survey { IsSurveyOf parts.now survey.now }
    requires few { length (filter is_entry parts.now) ≤ 4294967295 }
    ensures { IfOk result (IsNumbering parts.now survey.now.depths.items) }
{
    let entries = entries_of(alloc, parts, survey.depths.as_slice())?;
    let numbers = numbers_of(
        alloc,
        parts,
        survey.targets.as_slice(),
        survey.order.as_slice(),
        entries.as_slice(),
    )?;
    Ok(Numbering { entries, numbers })
}

/// What of a schema is made before its entries.
#[derive(Drop)]
pub struct Outline {
    /// The Shapes.
    pub shapes: Vec<Shape>,
    /// The labels.
    pub labels: Labels,
    /// The start.
    pub start: Option<ExprId>,
}

/// The Shapes, the labels and the start.
fn outline_of(
    alloc: Global,
    parts: &[Part],
    survey: &Survey,
    numbers: &[u32],
    terms: &TermTable,
) -> Result<Outline, AllocError>
    requires survey { IsSurveyOf parts.now survey.now }
    requires size { length numbers.now ≡ length parts.now }
    requires predicates { HasPredicates parts.now terms.now }
    ensures { IfOk result (IsOutline terms.now parts.now (number_in numbers.now)) }
{
    let unfolder = Unfolder {
        parts,
        targets: survey.targets.as_slice(),
        depths: survey.depths.as_slice(),
        numbers,
        terms,
    };
    let shapes = unfolder.shapes(alloc)?;
    let labels = labels_of(alloc, parts, numbers)?;
    Ok(Outline {
        shapes,
        labels,
        start: start_of(parts, numbers),
    })
}

/// The schema of parts that meet the requirements and whose predicates are in the table.
pub fn schema_of(alloc: Global, surveyed: Surveyed, terms: &TermTable) -> Result<Schema, AllocError>
    requires survey { IsSurveyOf surveyed.parts.items surveyed.survey }
    requires few { length (filter is_entry surveyed.parts.items) ≤ 4294967295 }
    requires predicates { HasPredicates surveyed.parts.items terms.now }
    ensures { (docs : List Document) → surveyed.parts.items ≡ parts_of docs → IfOk result (Stands docs terms.now) }
{
    let Surveyed { parts, survey } = surveyed;
    let numbering = numbering_of(alloc, parts.as_slice(), &survey)?;
    let outline = outline_of(
        alloc,
        parts.as_slice(),
        &survey,
        numbering.numbers.as_slice(),
        terms,
    )?;
    let exprs = exprs_of(
        alloc,
        parts,
        numbering.numbers.as_slice(),
        numbering.entries.as_slice(),
    )?;
    let Outline {
        shapes,
        labels,
        start,
    } = outline;
    Ok(Schema {
        exprs: Items::of(exprs),
        shapes: Items::of(shapes),
        labels,
        start,
    })
}
