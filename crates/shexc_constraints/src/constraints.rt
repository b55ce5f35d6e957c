//! Node constraints (ShEx 2.1, section 5.4).

ghost use Rattle.std.specs.Prelude.{◌≡◌, IfOk, IfErr, true};
ghost use Rattle.node_constraint.specs.Making.{IsSound};
ghost use Rattle.rdf_cursor.specs.Cursors.{ahead, source_in};
ghost use Rattle.schema_documents.specs.Tree.{expr_of, node};
ghost use Rattle.term_tokens.specs.Scopes.{scope_in};
ghost use Rattle.shexc_constraints.specs.Meanings.{kind_by};
ghost use Rattle.shexc_constraints.specs.Reading.{of_kind, of_texts, non_literal, any_literal, of_datatype, of_values, of_numbers, literal_constraint};
ghost use Rattle.shexc_constraints.specs.Stops.{Gives};
ghost use Rattle.shexc_constraints.specs.Values.{constraint};
ghost use Rattle.shexc_constraints.specs.declared.faults.Stop.TheVariants as stop;

use crate::classes::{at_iri, at_node_kind};
use crate::facets::{FacetKind, all_facets, facet_of, facets};
use crate::faults::Stop;
use crate::parts::iri;
use crate::tokens::{take, take_one};
use crate::values::value_set;
use node_constraint::{Facet, Kind4, MakeError, NodeConstraint};
use rdf_cursor::{Cursor, Symbol};
use rdf_terms::text::Text;
use schema_documents::DocExpr;
use std::alloc::Global;
use term_tokens::Names;
use value_sets::ValueSet;

/// The kind that a word names.
fn kind_of(symbol: Symbol) -> Kind4
    ensures { result ≡ kind_by symbol }
{
    match symbol {
        Symbol::Iri => Kind4::Iri,
        Symbol::Bnode => Kind4::Bnode,
        Symbol::NonLiteral => Kind4::NonLiteral,
        _ => Kind4::Literal,
    }
}

/// The constraint that asks for these, of which a facet refuses none.
fn made(
    alloc: Global,
    kind: Option<Kind4>,
    datatype: Option<Text>,
    facets: Vec<Facet>,
    values: Option<ValueSet>,
) -> Result<DocExpr, Stop>
    requires { IsSound datatype facets.items }
    ensures ok { IfOk result (λ e. expr_of e ≡ node (constraint kind datatype facets.items values)) }
    ensures memory { IfErr result (λ e. e ≡ stop.Memory) }
{
    match NodeConstraint::make(alloc, kind, datatype, facets, values) {
        Ok(constraint) => Ok(DocExpr::Node(constraint)),
        Err(MakeError::Memory) => Err(Stop::Memory),
        Err(MakeError::FloatFacet | MakeError::FacetNumber | MakeError::Pattern(_)) =>
            unreachable!(),
    }
}

/// A kind but LITERAL with facets on texts.
#[tactic(auto, unfolding(crate::specs::Reading::of_kind, crate::specs::Reading::text_facets_behind))]
fn of_kind(c: &mut Cursor<'_>, names: &Names<'_>) -> Result<DocExpr, Stop>
    ensures gives { Gives expr_of result (ahead c.new) (of_kind true (scope_in names.now) (ahead c.old)) }
    ensures source { source_in c.new ≡ source_in c.old }
{
    let symbol = take_one(c, &[Symbol::Iri, Symbol::Bnode, Symbol::NonLiteral])?;
    let fs = all_facets(c, names, FacetKind::Text, None)?;
    made(names.alloc, Some(kind_of(symbol)), None, fs, None)
}

/// Facets on texts alone.
#[tactic(auto, unfolding(crate::specs::Reading::of_texts, crate::specs::Reading::text_facets_behind))]
fn of_texts(c: &mut Cursor<'_>, names: &Names<'_>) -> Result<DocExpr, Stop>
    ensures gives { Gives expr_of result (ahead c.new) (of_texts true (scope_in names.now) (ahead c.old)) }
    ensures source { source_in c.new ≡ source_in c.old }
{
    let mut fs = Vec::new(names.alloc);
    facet_of(c, names, FacetKind::Text, None, &mut fs)?;
    facets(c, names, FacetKind::Text, None, &mut fs)?;
    made(names.alloc, None, None, fs, None)
}

/// A constraint that leaves literals out or looks at texts alone.
#[tactic(auto, unfolding(crate::specs::Reading::non_literal))]
pub fn non_literal(c: &mut Cursor<'_>, names: &Names<'_>) -> Result<DocExpr, Stop>
    ensures gives { Gives expr_of result (ahead c.new) (non_literal true (scope_in names.now) (ahead c.old)) }
    ensures source { source_in c.new ≡ source_in c.old }
{
    if at_node_kind(c) {
        of_kind(c, names)
    } else {
        of_texts(c, names)
    }
}

/// LITERAL with facets.
#[tactic(auto, unfolding(crate::specs::Reading::any_literal, crate::specs::Reading::facets_behind))]
fn any_literal(c: &mut Cursor<'_>, names: &Names<'_>) -> Result<DocExpr, Stop>
    ensures gives { Gives expr_of result (ahead c.new) (any_literal true (scope_in names.now) (ahead c.old)) }
    ensures source { source_in c.new ≡ source_in c.old }
{
    take(c, Symbol::Literal)?;
    let fs = all_facets(c, names, FacetKind::Any, None)?;
    made(names.alloc, Some(Kind4::Literal), None, fs, None)
}

/// A datatype with facets.
#[tactic(auto, unfolding(crate::specs::Reading::of_datatype, crate::specs::Reading::facets_behind))]
fn of_datatype(c: &mut Cursor<'_>, names: &Names<'_>) -> Result<DocExpr, Stop>
    ensures gives { Gives expr_of result (ahead c.new) (of_datatype true (scope_in names.now) (ahead c.old)) }
    ensures source { source_in c.new ≡ source_in c.old }
{
    let datatype = Text::from_string(iri(c, names)?);
    let fs = all_facets(c, names, FacetKind::Any, Some(&datatype))?;
    made(names.alloc, None, Some(datatype), fs, None)
}

/// A value set with facets.
#[tactic(auto, unfolding(crate::specs::Reading::of_values, crate::specs::Reading::facets_behind))]
fn of_values(c: &mut Cursor<'_>, names: &Names<'_>) -> Result<DocExpr, Stop>
    ensures gives { Gives expr_of result (ahead c.new) (of_values true (scope_in names.now) (ahead c.old)) }
    ensures source { source_in c.new ≡ source_in c.old }
{
    let xs = value_set(c, names)?;
    let fs = all_facets(c, names, FacetKind::Any, None)?;
    let set = ValueSet::of(names.alloc, xs)?;
    made(names.alloc, None, None, fs, Some(set))
}

/// Facets on numbers alone.
#[tactic(auto, unfolding(crate::specs::Reading::of_numbers, crate::specs::Reading::number_facets_behind))]
fn of_numbers(c: &mut Cursor<'_>, names: &Names<'_>) -> Result<DocExpr, Stop>
    ensures gives { Gives expr_of result (ahead c.new) (of_numbers true (scope_in names.now) (ahead c.old)) }
    ensures source { source_in c.new ≡ source_in c.old }
{
    let mut fs = Vec::new(names.alloc);
    facet_of(c, names, FacetKind::Number, None, &mut fs)?;
    facets(c, names, FacetKind::Number, None, &mut fs)?;
    made(names.alloc, None, None, fs, None)
}

/// Another constraint.
#[tactic(auto, unfolding(crate::specs::Reading::literal_constraint))]
pub fn literal_constraint(c: &mut Cursor<'_>, names: &Names<'_>) -> Result<DocExpr, Stop>
    ensures gives { Gives expr_of result (ahead c.new) (literal_constraint true (scope_in names.now) (ahead c.old)) }
    ensures source { source_in c.new ≡ source_in c.old }
{
    if c.is_at(Symbol::Literal) {
        any_literal(c, names)
    } else if at_iri(c) {
        of_datatype(c, names)
    } else if c.is_at(Symbol::OpenBracket) {
        of_values(c, names)
    } else {
        of_numbers(c, names)
    }
}
