//! Cardinalities, inclusions, and how triple expressions are put together (ShEx 2.1, section 5.5).

ghost use Rattle.std.specs.Prelude.{◌≡◌, ℕ, unwrap_or, option_map, IfOk, IfErr, true};
ghost use Rattle.rdf_cursor.specs.Cursors.{ahead, source_in};
ghost use Rattle.rdf_cursor.specs.Readers.{one};
ghost use Rattle.schema_documents.specs.Tree.{arc, expr_of, maybe_expr, one_expr, triple_of};
ghost use Rattle.term_tokens.specs.Scopes.{Scope, scope_in};
ghost use Rattle.shexc_constraints.specs.declared.faults.Fault.TheVariants.{Syntax};
ghost use Rattle.shexc_constraints.specs.declared.faults.Stop.TheVariants as stop;
ghost use Rattle.shexc_constraints.specs.Meanings.{limit_of};
ghost use Rattle.shexc_constraints.specs.Stops.{Gives};
ghost use Rattle.shexc_reader.specs.Reading as reading;
ghost use Rattle.shexc_reader.specs.Reading.{level};
ghost use Rattle.shexc_reader.specs.Trees.{bracketed, labelled, is_bare, once, with};

use crate::members::{once, single};
use crate::shapes::opens;
use rdf_cursor::{Cursor, Symbol};
use rdf_terms::text::Text;
use schema_documents::{DocArc, DocBody, DocExpr, DocTriple, Label};
use shexc_constraints::parts::label;
use shexc_constraints::tokens::take;
use shexc_constraints::{Fault, Stop, numbers};
use std::alloc::{AllocFailed, Global};
use tally::{Bound, is_once};
use term_tokens::Names;

/// A triple constraint.
pub fn arc_of(
    label: Option<Label>,
    cardinality: Option<(u32, Bound)>,
    inverse: bool,
    predicate: Text,
    value: Option<Box<DocExpr>>,
) -> DocTriple
    ensures { triple_of result ≡ with label (unwrap_or cardinality once) (arc inverse predicate (maybe_expr (option_map (λ b. expr_of b.value) value))) }
{
    let (min, max) = match cardinality {
        Some(limits) => limits,
        None => (1, Bound::Upto(1)),
    };
    DocTriple {
        label,
        min,
        max,
        body: DocBody::Arc(DocArc {
            inverse,
            predicate,
            value,
        }),
    }
}

/// Whether a triple expression can take a label and a cardinality itself.
fn is_bare(triple: &DocTriple) -> bool
    ensures { result ≡ is_bare (triple_of triple.now) }
{
    if triple.label.is_some() {
        return false;
    }
    match &triple.body {
        DocBody::Include(_) => false,
        DocBody::Each(_) => is_once(triple.min, triple.max),
        DocBody::One(_) => is_once(triple.min, triple.max),
        DocBody::Arc(_) => is_once(triple.min, triple.max),
    }
}

/// A triple expression with a label and a cardinality, or an Each of it that has them.
fn labelled(
    alloc: Global,
    label: Option<Label>,
    limits: (u32, Bound),
    inner: DocTriple,
) -> Result<DocTriple, AllocFailed<DocTriple>>
    ensures { IfOk result (λ t. triple_of t ≡ labelled label limits (triple_of inner)) }
{
    if is_bare(&inner) {
        return Ok(DocTriple {
            label,
            min: limits.0,
            max: limits.1,
            body: inner.body,
        });
    }
    let members = single(alloc, inner)?;
    Ok(DocTriple {
        label,
        min: limits.0,
        max: limits.1,
        body: DocBody::Each(members),
    })
}

/// A triple expression in round brackets.
pub fn bracketed(
    alloc: Global,
    label: Option<Label>,
    cardinality: Option<(u32, Bound)>,
    inner: DocTriple,
) -> Result<DocTriple, Stop>
    ensures ok { IfOk result (λ t. triple_of t ≡ bracketed label cardinality (triple_of inner)) }
    ensures memory { IfErr result (λ e. e ≡ stop.Memory) }
{
    match cardinality {
        Some(limits) => Ok(labelled(alloc, label, limits, inner)?),
        None => match label {
            Some(label) => Ok(labelled(alloc, Some(label), (1, Bound::Upto(1)), inner)?),
            None => Ok(inner),
        },
    }
}

/// The number of a cardinality, which is not below another one.
fn limit(c: &mut Cursor<'_>, least: u32) -> Result<u32, Stop>
    ensures gives { Gives (λ x. x) result (ahead c.new) (one Syntax (limit_of least) (ahead c.old)) }
    ensures source { source_in c.new ≡ source_in c.old }
{
    let Some(token) = c.peek() else {
        return Err(Stop::Fault(Fault::Syntax));
    };
    let value = numbers::limit(least, token)?;
    c.advance();
    Ok(value)
}

/// Behind the least number a comma, and perhaps a greatest number.
#[tactic(auto, unfolding(crate::specs::Reading::most))]
fn most(c: &mut Cursor<'_>, least: u32) -> Result<Bound, Stop>
    ensures gives { (scope : Scope) (depth : ℕ) → Gives (λ x. x) result (ahead c.new) (reading.most true scope depth (level true scope depth) least (ahead c.old)) }
    ensures source { source_in c.new ≡ source_in c.old }
{
    take(c, Symbol::Comma)?;
    if c.is_at(Symbol::Star) {
        take(c, Symbol::Star)?;
        return Ok(Bound::Free);
    }
    if c.is_at(Symbol::Integer) {
        let most = limit(c, least)?;
        return Ok(Bound::Upto(most));
    }
    Ok(Bound::Free)
}

/// A cardinality behind its brace.
#[tactic(auto, unfolding(crate::specs::Reading::limits))]
fn limits(c: &mut Cursor<'_>) -> Result<(u32, Bound), Stop>
    ensures gives { (scope : Scope) (depth : ℕ) → Gives (λ x. x) result (ahead c.new) (reading.limits true scope depth (level true scope depth) (ahead c.old)) }
    ensures source { source_in c.new ≡ source_in c.old }
{
    let least = limit(c, 0)?;
    if c.is_at(Symbol::Comma) {
        let bound = most(c, least)?;
        take(c, Symbol::CloseBrace)?;
        return Ok((least, bound));
    }
    take(c, Symbol::CloseBrace)?;
    Ok((least, Bound::Upto(least)))
}

/// A cardinality of one sign.
#[tactic(auto, unfolding(crate::specs::Reading::short))]
fn short(
    c: &mut Cursor<'_>,
    sign: Symbol,
    limits: (u32, Bound),
) -> Result<Option<(u32, Bound)>, Stop>
    ensures gives { (scope : Scope) (depth : ℕ) → Gives (λ x. x) result (ahead c.new) (reading.short true scope depth (level true scope depth) sign limits (ahead c.old)) }
    ensures source { source_in c.new ≡ source_in c.old }
{
    take(c, sign)?;
    Ok(Some(limits))
}

/// A cardinality, or none.
#[tactic(auto, unfolding(crate::specs::Reading::cardinality))]
pub fn cardinality(c: &mut Cursor<'_>, depth: u32) -> Result<Option<(u32, Bound)>, Stop>
    ensures gives { (scope : Scope) → Gives (λ x. x) result (ahead c.new) (reading.cardinality true scope depth (level true scope depth) (ahead c.old)) }
    ensures source { source_in c.new ≡ source_in c.old }
{
    if c.is_at(Symbol::Star) {
        return short(c, Symbol::Star, (0, Bound::Free));
    }
    if c.is_at(Symbol::Plus) {
        return short(c, Symbol::Plus, (1, Bound::Free));
    }
    if c.is_at(Symbol::Question) {
        return short(c, Symbol::Question, (0, Bound::Upto(1)));
    }
    if c.is_at(Symbol::OpenBrace) {
        opens(c, Symbol::OpenBrace, depth)?;
        let limits = limits(c)?;
        return Ok(Some(limits));
    }
    Ok(None)
}

/// A cardinality whose brace may be taken already.
#[tactic(auto, unfolding(crate::specs::Reading::cardinality_behind))]
pub fn cardinality_behind(
    c: &mut Cursor<'_>,
    depth: u32,
    counted: bool,
) -> Result<Option<(u32, Bound)>, Stop>
    ensures gives { (scope : Scope) → Gives (λ x. x) result (ahead c.new) (reading.cardinality_behind true scope depth (level true scope depth) counted (ahead c.old)) }
    ensures source { source_in c.new ≡ source_in c.old }
{
    if counted {
        let limits = limits(c)?;
        return Ok(Some(limits));
    }
    cardinality(c, depth)
}

/// An expression in a box, and the flag beside it. It fails where memory runs out.
pub fn boxed(alloc: Global, value: (DocExpr, bool)) -> Result<(Option<Box<DocExpr>>, bool), Stop>
    ensures ok { IfOk result (λ p. (maybe_expr (option_map (λ b. expr_of b.value) p.0) ≡ one_expr (expr_of value.0)) × (p.1 ≡ value.1)) }
    ensures memory { IfErr result (λ e. e ≡ stop.Memory) }
{
    Ok((Some(Box::new(alloc, value.0)?), value.1))
}

/// A value that is held, with the cardinality behind it where there is one.
pub fn with_cardinality<T: Drop>(
    c: &mut Cursor<'_>,
    depth: u32,
    held: T,
) -> Result<(T, Option<(u32, Bound)>), Stop>
    ensures gives { (scope : Scope) → Gives (λ p. p.1) result (ahead c.new) (reading.cardinality true scope depth (level true scope depth) (ahead c.old)) }
    ensures held { IfOk result (λ p. p.0 ≡ held) }
    ensures source { source_in c.new ≡ source_in c.old }
{
    let cardinality = cardinality(c, depth)?;
    Ok((held, cardinality))
}

/// `^`, or nothing.
#[tactic(auto, unfolding(crate::specs::Reading::direction))]
pub fn direction(c: &mut Cursor<'_>) -> Result<bool, Stop>
    ensures gives { (scope : Scope) (depth : ℕ) → Gives (λ x. x) result (ahead c.new) (reading.direction true scope depth (level true scope depth) (ahead c.old)) }
    ensures source { source_in c.new ≡ source_in c.old }
{
    if c.is_at(Symbol::Caret) {
        take(c, Symbol::Caret)?;
        return Ok(true);
    }
    Ok(false)
}

/// An inclusion.
#[tactic(auto, unfolding(crate::specs::Reading::inclusion))]
pub fn inclusion(c: &mut Cursor<'_>, names: &Names<'_>) -> Result<DocTriple, Stop>
    ensures gives { (depth : ℕ) → Gives triple_of result (ahead c.new) (reading.inclusion true (scope_in names.now) depth (level true (scope_in names.now) depth) (ahead c.old)) }
    ensures source { source_in c.new ≡ source_in c.old }
{
    take(c, Symbol::Ampersand)?;
    let label = label(c, names)?;
    Ok(once(DocBody::Include(label)))
}
