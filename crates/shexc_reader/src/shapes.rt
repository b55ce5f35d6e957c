//! Shapes and shape expressions (ShEx 2.1, sections 5.3 and 5.5).

ghost use Rattle.std.specs.Prelude.{◌≡◌, ℕ, unwrap_or, option_map, IfOk, IfErr, true, false};
ghost use Rattle.rdf_cursor.specs.Cursors.{ahead, source_in};
ghost use Rattle.rdf_cursor.specs.Readers.{loop};
ghost use Rattle.rdf_cursor.specs.Symbols.{is_among, is_symbol};
ghost use Rattle.schema_documents.specs.Tree.{expr_of, neg};
ghost use Rattle.term_tokens.specs.Scopes.{scope_in};
ghost use Rattle.shexc_constraints.specs.declared.faults.Stop.TheVariants as stop;
ghost use Rattle.shexc_constraints.specs.Stops.{Gives};
ghost use Rattle.shexc_constraints.specs.Symbols.{predicates};
ghost use Rattle.shexc_reader.specs.Reading as reading;
ghost use Rattle.shexc_reader.specs.Reading.{opens, level};
ghost use Rattle.shexc_reader.specs.Symbols.{qualifiers};
ghost use Rattle.shexc_reader.specs.Trees.{both, empty_shape};

use crate::classes::at_qualifier;
use crate::held::{noted, with_constraint};
use rdf_cursor::{Cursor, Symbol};
use rdf_terms::items::Items;
use rdf_terms::text::Text;
use schema_documents::{DocExpr, DocShape};
use shexc_constraints::classes::at_predicate;
use shexc_constraints::constraints::literal_constraint;
use shexc_constraints::parts::predicate;
use shexc_constraints::tokens::take;
use shexc_constraints::{Fault, Stop};
use std::alloc::{AllocError, Global};
use term_tokens::Names;

/// Both expressions as one.
pub fn both(alloc: Global, first: DocExpr, second: DocExpr) -> Result<DocExpr, AllocError>
    ensures { IfOk result (λ e. expr_of e ≡ both (expr_of first) (expr_of second)) }
{
    Ok(DocExpr::And(vec![in alloc; first, second]?))
}

/// An expression with the one that stands beside it, where there is one, and whether a brace is open behind them, as it is given.
pub fn joined(
    alloc: Global,
    first: DocExpr,
    second: Option<DocExpr>,
    counted: bool,
) -> Result<(DocExpr, bool), Stop>
    ensures ok { IfOk result (λ p. (expr_of p.0 ≡ unwrap_or (option_map (λ e. both (expr_of first) (expr_of e)) second) (expr_of first)) × (p.1 ≡ counted)) }
    ensures memory { IfErr result (λ e. e ≡ stop.Memory) }
{
    match second {
        Some(second) => Ok((both(alloc, first, second)?, counted)),
        None => Ok((first, counted)),
    }
}

/// An expression that is not to be satisfied.
pub fn negation(alloc: Global, inner: (DocExpr, bool)) -> Result<(DocExpr, bool), Stop>
    ensures ok { IfOk result (λ p. (expr_of p.0 ≡ neg (expr_of inner.0)) × (p.1 ≡ inner.1)) }
    ensures memory { IfErr result (λ e. e ≡ stop.Memory) }
{
    Ok((DocExpr::Not(Box::new(alloc, inner.0)?), inner.1))
}

/// A Shape with nothing.
pub fn empty_shape(alloc: Global) -> DocExpr
    ensures { expr_of result ≡ empty_shape }
{
    DocExpr::Shape(DocShape {
        closed: false,
        extra: Items::of(Vec::new(alloc)),
        expression: None,
    })
}

/// A predicate of EXTRA.
#[tactic(auto, unfolding(crate::specs::Reading::extra_behind))]
fn extra_behind(c: &mut Cursor<'_>, names: &Names<'_>, ps: &mut Vec<Text>) -> Result<(), Stop>
    ensures gives { Gives (λ x. ps.new.items) result (ahead c.new) (reading.extra_behind (scope_in names.now) ps.old.items (ahead c.old)) }
    ensures source { source_in c.new ≡ source_in c.old }
{
    let predicate = predicate(c, names)?;
    ps.push(Text::from_string(predicate))?;
    Ok(())
}

/// All further ones.
fn extras_behind(c: &mut Cursor<'_>, names: &Names<'_>, ps: &mut Vec<Text>) -> Result<(), Stop>
    ensures gives { Gives (λ x. ps.new.items) result (ahead c.new) (loop (is_among predicates) (reading.extra_behind (scope_in names.now)) ps.old.items (ahead c.old)) }
    ensures source { source_in c.new ≡ source_in c.old }
{
    while at_predicate(c) {
        extra_behind(c, names, ps)?;
    }
    Ok(())
}

/// EXTRA and its predicates.
#[tactic(auto, unfolding(crate::specs::Reading::extras))]
fn extras(c: &mut Cursor<'_>, names: &Names<'_>, ps: &mut Vec<Text>) -> Result<(), Stop>
    ensures gives { Gives (λ x. ps.new.items) result (ahead c.new) (reading.extras (scope_in names.now) ps.old.items (ahead c.old)) }
    ensures source { source_in c.new ≡ source_in c.old }
{
    take(c, Symbol::Extra)?;
    extra_behind(c, names, ps)?;
    extras_behind(c, names, ps)
}

/// EXTRA or CLOSED.
#[tactic(auto, unfolding(crate::specs::Reading::qualifier))]
fn qualifier(
    c: &mut Cursor<'_>,
    names: &Names<'_>,
    closed: bool,
    ps: &mut Vec<Text>,
) -> Result<bool, Stop>
    ensures gives { Gives (λ closed. (closed, ps.new.items)) result (ahead c.new) (reading.qualifier (scope_in names.now) (closed, ps.old.items) (ahead c.old)) }
    ensures source { source_in c.new ≡ source_in c.old }
{
    if c.is_at(Symbol::Extra) {
        extras(c, names, ps)?;
        Ok(closed)
    } else {
        take(c, Symbol::Closed)?;
        Ok(true)
    }
}

/// All that stands before a brace.
pub fn qualifiers(c: &mut Cursor<'_>, names: &Names<'_>, ps: &mut Vec<Text>) -> Result<bool, Stop>
    ensures gives { Gives (λ closed. (closed, ps.new.items)) result (ahead c.new) (loop (is_among qualifiers) (reading.qualifier (scope_in names.now)) (false, ps.old.items) (ahead c.old)) }
    ensures source { source_in c.new ≡ source_in c.old }
{
    let mut closed = false;
    while at_qualifier(c) {
        closed = qualifier(c, names, closed, ps)?;
    }
    Ok(closed)
}

/// A bracket that opens, where so many may open.
#[tactic(auto, unfolding(crate::specs::Reading::opens))]
pub fn opens(c: &mut Cursor<'_>, sought: Symbol, depth: u32) -> Result<(), Stop>
    ensures gives { Gives (λ x. tt) result (ahead c.new) (opens sought depth (ahead c.old)) }
    ensures source { source_in c.new ≡ source_in c.old }
{
    if depth == 0 && c.is_at(sought) {
        return Err(Stop::Fault(Fault::Deep));
    }
    if depth == 0 {
        return Err(Stop::Fault(Fault::Syntax));
    }
    take(c, sought)?;
    Ok(())
}

/// An atom that is a constraint.
#[tactic(auto, unfolding(crate::specs::Reading::literal_only))]
pub fn literal_only(
    c: &mut Cursor<'_>,
    names: &Names<'_>,
    whole: bool,
) -> Result<(DocExpr, bool), Stop>
    ensures gives { (depth : ℕ) → Gives (λ p. (expr_of p.0, p.1)) result (ahead c.new) (reading.literal_only true (scope_in names.now) depth (level true (scope_in names.now) depth) whole (ahead c.old)) }
    ensures source { source_in c.new ≡ source_in c.old }
{
    let constraint = literal_constraint(c, names)?;
    noted(c, names, whole, (constraint, false))
}

/// A constraint behind a Shape.
pub fn constraint_behind(
    c: &mut Cursor<'_>,
    names: &Names<'_>,
    whole: bool,
    shape: DocExpr,
) -> Result<(DocExpr, bool), Stop>
    ensures gives { (depth : ℕ) → Gives (λ p. (expr_of p.0, p.1)) result (ahead c.new) (reading.constraint_behind true (scope_in names.now) depth (level true (scope_in names.now) depth) whole (expr_of shape) (ahead c.old)) }
    ensures source { source_in c.new ≡ source_in c.old }
{
    let (shape, constraint) = with_constraint(c, names, whole, shape)?;
    joined(names.alloc, shape, Some(constraint), false)
}

/// `.`
#[tactic(auto, unfolding(crate::specs::Reading::dot))]
pub fn dot(c: &mut Cursor<'_>, names: &Names<'_>) -> Result<(DocExpr, bool), Stop>
    ensures gives { (depth : ℕ) → Gives (λ p. (expr_of p.0, p.1)) result (ahead c.new) (reading.dot true (scope_in names.now) depth (level true (scope_in names.now) depth) (ahead c.old)) }
    ensures source { source_in c.new ≡ source_in c.old }
{
    take(c, Symbol::Dot)?;
    Ok((empty_shape(names.alloc), false))
}
