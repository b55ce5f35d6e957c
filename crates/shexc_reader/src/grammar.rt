//! Shape expressions and triple expressions (ShEx 2.1, sections 5.3 and 5.5). Each function has a bound on how many brackets may
//! still open.

ghost use Rattle.std.specs.Prelude.{◌≡◌, map, unwrap_or, option_map, [], ◌∷◌, true, false};
ghost use Rattle.rdf_cursor.specs.Cursors.{ahead, source_in};
ghost use Rattle.rdf_cursor.specs.Readers.{loop};
ghost use Rattle.rdf_cursor.specs.Symbols.{is_symbol};
ghost use Rattle.rdf_cursor.specs.declared.symbols.Symbol.TheVariants.{And, Or, Semicolon, Bar};
ghost use Rattle.schema_documents.specs.Tree.{ShapeExpr, expr_of, maybe_expr, maybe_triple, triple_of};
ghost use Rattle.term_tokens.specs.Scopes.{scope_in};
ghost use Rattle.shexc_constraints.specs.Stops.{Gives};
ghost use Rattle.shexc_reader.specs.Reading as reading;
ghost use Rattle.shexc_reader.specs.Reading.{level};
ghost use Rattle.shexc_reader.specs.Trees.{both, empty_shape};

use crate::classes::{at_connective, at_shape, at_unbraced, at_unit};
use crate::held::{annotated, followed_by, noted};
use crate::members::{all_of, any_of, each_of, one_of, push, push_triple, single};
use crate::shapes::{
    constraint_behind, dot, empty_shape, joined, literal_only, negation, opens, qualifiers,
};
use crate::triples::{
    arc_of, boxed, bracketed, cardinality_behind, direction, inclusion, with_cardinality,
};
use rdf_cursor::{Cursor, Symbol};
use rdf_terms::items::Items;
use rdf_terms::text::Text;
use schema_documents::{DocExpr, DocShape, DocTriple, Label};
use shexc_constraints::classes::{at_literal_constraint, at_non_literal, at_reference};
use shexc_constraints::constraints::non_literal;
use shexc_constraints::parts::{annotations, label, predicate, reference};
use shexc_constraints::tokens::take;
use shexc_constraints::{Fault, Stop};
use term_tokens::Names;

/// What stands in the braces of a Shape.
#[cycle(grammar)]
#[tactic(auto, unfolding(crate::specs::Reading::maybe_triple))]
fn maybe_triple(
    c: &mut Cursor<'_>,
    names: &Names<'_>,
    depth: u32,
) -> Result<Option<DocTriple>, Stop>
    ensures gives { Gives (λ o. maybe_triple (option_map triple_of o)) result (ahead c.new) (reading.maybe_triple true (scope_in names.now) depth (level true (scope_in names.now) depth) (ahead c.old)) }
    ensures source { source_in c.new ≡ source_in c.old }
{
    if c.is_at(Symbol::CloseBrace) {
        return Ok(None);
    }
    let triple = inside_triple(c, names, depth)?;
    Ok(Some(triple))
}

/// A Shape behind its brace.
#[cycle(grammar)]
#[tactic(auto, unfolding(crate::specs::Reading::shape_behind))]
fn shape_behind(
    c: &mut Cursor<'_>,
    names: &Names<'_>,
    depth: u32,
    closed: bool,
    ps: Vec<Text>,
) -> Result<DocExpr, Stop>
    ensures gives { Gives expr_of result (ahead c.new) (reading.shape_behind true (scope_in names.now) depth (level true (scope_in names.now) depth) (closed, ps.items) (ahead c.old)) }
    ensures source { source_in c.new ≡ source_in c.old }
{
    let expression = maybe_triple(c, names, depth)?;
    let (expression, _) = followed_by(c, Symbol::CloseBrace, expression)?;
    Ok(DocExpr::Shape(DocShape {
        closed,
        extra: Items::of(ps),
        expression,
    }))
}

/// A Shape.
#[cycle(grammar)]
#[tactic(auto, unfolding(crate::specs::Reading::a_shape, crate::specs::Reading::all_qualifiers))]
fn a_shape(c: &mut Cursor<'_>, names: &Names<'_>, depth: u32, whole: bool) -> Result<DocExpr, Stop>
    ensures gives { Gives expr_of result (ahead c.new) (reading.a_shape true (scope_in names.now) depth (level true (scope_in names.now) depth) whole (ahead c.old)) }
    ensures source { source_in c.new ≡ source_in c.old }
{
    let mut ps = Vec::new(names.alloc);
    let closed = qualifiers(c, names, &mut ps)?;
    opens(c, Symbol::OpenBrace, depth)?;
    let shape = shape_behind(c, names, depth, closed, ps)?;
    noted(c, names, whole, shape)
}

/// A Shape or a reference.
#[cycle(grammar)]
#[tactic(auto, unfolding(crate::specs::Reading::shape_or_reference))]
fn shape_or_reference(
    c: &mut Cursor<'_>,
    names: &Names<'_>,
    depth: u32,
    whole: bool,
) -> Result<DocExpr, Stop>
    ensures gives { Gives expr_of result (ahead c.new) (reading.shape_or_reference true (scope_in names.now) depth (level true (scope_in names.now) depth) whole (ahead c.old)) }
    ensures source { source_in c.new ≡ source_in c.old }
{
    if at_reference(c) {
        reference(c, names)
    } else {
        a_shape(c, names, depth, whole)
    }
}

/// Behind a constraint of an arc a Shape in braces, or the start of a cardinality.
#[cycle(grammar)]
#[tactic(auto, unfolding(crate::specs::Reading::braced))]
fn braced(
    c: &mut Cursor<'_>,
    names: &Names<'_>,
    depth: u32,
) -> Result<(Option<DocExpr>, bool), Stop>
    ensures gives { (first : ShapeExpr) → Gives (λ p. (unwrap_or (option_map (λ e. both first (expr_of e)) p.0) first, p.1)) result (ahead c.new) (reading.braced true (scope_in names.now) depth (level true (scope_in names.now) depth) first (ahead c.old)) }
    ensures source { source_in c.new ≡ source_in c.old }
{
    opens(c, Symbol::OpenBrace, depth)?;
    if c.is_at(Symbol::Integer) {
        return Ok((None, true));
    }
    let shape = shape_behind(c, names, depth, false, Vec::new(names.alloc))?;
    Ok((Some(shape), false))
}

/// The Shape or the reference behind a constraint.
#[cycle(grammar)]
#[tactic(auto, unfolding(crate::specs::Reading::joined_with))]
fn joined_with(
    c: &mut Cursor<'_>,
    names: &Names<'_>,
    depth: u32,
    whole: bool,
) -> Result<(Option<DocExpr>, bool), Stop>
    ensures gives { (first : ShapeExpr) → Gives (λ p. (unwrap_or (option_map (λ e. both first (expr_of e)) p.0) first, p.1)) result (ahead c.new) (reading.joined_with true (scope_in names.now) depth (level true (scope_in names.now) depth) whole first (ahead c.old)) }
    ensures source { source_in c.new ≡ source_in c.old }
{
    let shape = shape_or_reference(c, names, depth, whole)?;
    Ok((Some(shape), false))
}

/// What may stand behind a constraint.
#[cycle(grammar)]
#[tactic(auto, unfolding(crate::specs::Reading::behind_constraint))]
fn behind_constraint(
    c: &mut Cursor<'_>,
    names: &Names<'_>,
    depth: u32,
    whole: bool,
) -> Result<(Option<DocExpr>, bool), Stop>
    ensures gives { (first : ShapeExpr) → Gives (λ p. (unwrap_or (option_map (λ e. both first (expr_of e)) p.0) first, p.1)) result (ahead c.new) (reading.behind_constraint true (scope_in names.now) depth (level true (scope_in names.now) depth) whole first (ahead c.old)) }
    ensures source { source_in c.new ≡ source_in c.old }
{
    if whole {
        if at_shape(c) {
            return joined_with(c, names, depth, true);
        }
        return Ok((None, false));
    }
    if c.is_at(Symbol::OpenBrace) {
        return braced(c, names, depth);
    }
    if at_unbraced(c) {
        return joined_with(c, names, depth, false);
    }
    Ok((None, false))
}

/// An atom that begins with a constraint.
#[cycle(grammar)]
#[tactic(auto, unfolding(crate::specs::Reading::constraint_first))]
fn constraint_first(
    c: &mut Cursor<'_>,
    names: &Names<'_>,
    depth: u32,
    whole: bool,
) -> Result<(DocExpr, bool), Stop>
    ensures gives { Gives (λ p. (expr_of p.0, p.1)) result (ahead c.new) (reading.constraint_first true (scope_in names.now) depth (level true (scope_in names.now) depth) whole (ahead c.old)) }
    ensures source { source_in c.new ≡ source_in c.old }
{
    let constraint = non_literal(c, names)?;
    let constraint = noted(c, names, whole, constraint)?;
    let (shape, counted) = behind_constraint(c, names, depth, whole)?;
    joined(names.alloc, constraint, shape, counted)
}

/// An atom that begins with a Shape or a reference.
#[cycle(grammar)]
#[tactic(auto, unfolding(crate::specs::Reading::shape_first))]
fn shape_first(
    c: &mut Cursor<'_>,
    names: &Names<'_>,
    depth: u32,
    whole: bool,
) -> Result<(DocExpr, bool), Stop>
    ensures gives { Gives (λ p. (expr_of p.0, p.1)) result (ahead c.new) (reading.shape_first true (scope_in names.now) depth (level true (scope_in names.now) depth) whole (ahead c.old)) }
    ensures source { source_in c.new ≡ source_in c.old }
{
    let shape = shape_or_reference(c, names, depth, whole)?;
    if at_non_literal(c) {
        return constraint_behind(c, names, whole, shape);
    }
    Ok((shape, false))
}

/// An expression in round brackets.
#[cycle(grammar)]
#[tactic(auto, unfolding(crate::specs::Reading::parenthesised))]
fn parenthesised(c: &mut Cursor<'_>, names: &Names<'_>, depth: u32) -> Result<(DocExpr, bool), Stop>
    ensures gives { Gives (λ p. (expr_of p.0, p.1)) result (ahead c.new) (reading.parenthesised true (scope_in names.now) depth (level true (scope_in names.now) depth) (ahead c.old)) }
    ensures source { source_in c.new ≡ source_in c.old }
{
    opens(c, Symbol::OpenParenthesis, depth)?;
    let inner = inside_expression(c, names, depth)?;
    let (inner, _) = followed_by(c, Symbol::CloseParenthesis, inner.0)?;
    Ok((inner, false))
}

/// An atom.
#[cycle(grammar)]
#[tactic(auto, unfolding(crate::specs::Reading::atom))]
fn atom(
    c: &mut Cursor<'_>,
    names: &Names<'_>,
    depth: u32,
    whole: bool,
) -> Result<(DocExpr, bool), Stop>
    ensures gives { Gives (λ p. (expr_of p.0, p.1)) result (ahead c.new) (reading.atom true (scope_in names.now) depth (level true (scope_in names.now) depth) whole (ahead c.old)) }
    ensures source { source_in c.new ≡ source_in c.old }
{
    if at_non_literal(c) {
        constraint_first(c, names, depth, whole)
    } else if at_literal_constraint(c) {
        literal_only(c, names, whole)
    } else if at_shape(c) {
        shape_first(c, names, depth, whole)
    } else if c.is_at(Symbol::OpenParenthesis) {
        parenthesised(c, names, depth)
    } else {
        dot(c, names)
    }
}

/// NOT and an atom, or an atom.
#[cycle(grammar)]
#[tactic(auto, unfolding(crate::specs::Reading::negated))]
fn negated(
    c: &mut Cursor<'_>,
    names: &Names<'_>,
    depth: u32,
    whole: bool,
) -> Result<(DocExpr, bool), Stop>
    ensures gives { Gives (λ p. (expr_of p.0, p.1)) result (ahead c.new) (reading.negated true (scope_in names.now) depth (level true (scope_in names.now) depth) whole (ahead c.old)) }
    ensures source { source_in c.new ≡ source_in c.old }
{
    if !c.is_at(Symbol::Not) {
        return atom(c, names, depth, whole);
    }
    take(c, Symbol::Not)?;
    let inner = atom(c, names, depth, whole)?;
    negation(names.alloc, inner)
}

/// AND and a further member.
#[cycle(grammar)]
#[tactic(auto, unfolding(crate::specs::Reading::and_behind))]
fn and_behind(
    c: &mut Cursor<'_>,
    names: &Names<'_>,
    depth: u32,
    whole: bool,
    xs: &mut Vec<DocExpr>,
    counted: bool,
) -> Result<bool, Stop>
    ensures gives { Gives (λ flag. (map expr_of xs.new.items, flag)) result (ahead c.new) (reading.and_behind true (scope_in names.now) depth (level true (scope_in names.now) depth) whole (map expr_of xs.old.items, counted) (ahead c.old)) }
    ensures source { source_in c.new ≡ source_in c.old }
{
    take(c, Symbol::And)?;
    let member = negated(c, names, depth, whole)?;
    push(xs, member.0)?;
    Ok(member.1)
}

/// All further members.
#[cycle(grammar)]
fn ands(
    c: &mut Cursor<'_>,
    names: &Names<'_>,
    depth: u32,
    whole: bool,
    xs: &mut Vec<DocExpr>,
    counted: bool,
) -> Result<bool, Stop>
    ensures gives { Gives (λ flag. (map expr_of xs.new.items, flag)) result (ahead c.new) (loop (is_symbol And) (reading.and_behind true (scope_in names.now) depth (level true (scope_in names.now) depth) whole) (map expr_of xs.old.items, counted) (ahead c.old)) }
    ensures source { source_in c.new ≡ source_in c.old }
{
    let mut flag = counted;
    while c.is_at(Symbol::And) {
        flag = and_behind(c, names, depth, whole, xs, flag)?;
    }
    Ok(flag)
}

/// Members, of which the first is read.
#[cycle(grammar)]
#[tactic(auto, unfolding(crate::specs::Reading::conjunction_from))]
fn conjunction_from(
    c: &mut Cursor<'_>,
    names: &Names<'_>,
    depth: u32,
    whole: bool,
    first: (DocExpr, bool),
) -> Result<(DocExpr, bool), Stop>
    ensures gives { Gives (λ p. (expr_of p.0, p.1)) result (ahead c.new) (reading.conjunction_from true (scope_in names.now) depth (level true (scope_in names.now) depth) whole (expr_of first.0, first.1) (ahead c.old)) }
    ensures source { source_in c.new ≡ source_in c.old }
{
    let mut xs = single(names.alloc, first.0)?;
    let flag = ands(c, names, depth, whole, &mut xs, first.1)?;
    Ok((all_of(xs), flag))
}

/// A conjunction.
#[cycle(grammar)]
#[tactic(auto, unfolding(crate::specs::Reading::conjunction))]
fn conjunction(
    c: &mut Cursor<'_>,
    names: &Names<'_>,
    depth: u32,
    whole: bool,
) -> Result<(DocExpr, bool), Stop>
    ensures gives { Gives (λ p. (expr_of p.0, p.1)) result (ahead c.new) (reading.conjunction true (scope_in names.now) depth (level true (scope_in names.now) depth) whole (ahead c.old)) }
    ensures source { source_in c.new ≡ source_in c.old }
{
    let first = negated(c, names, depth, whole)?;
    conjunction_from(c, names, depth, whole, first)
}

/// OR and a further member.
#[cycle(grammar)]
#[tactic(auto, unfolding(crate::specs::Reading::or_behind))]
fn or_behind(
    c: &mut Cursor<'_>,
    names: &Names<'_>,
    depth: u32,
    whole: bool,
    xs: &mut Vec<DocExpr>,
    counted: bool,
) -> Result<bool, Stop>
    ensures gives { Gives (λ flag. (map expr_of xs.new.items, flag)) result (ahead c.new) (reading.or_behind true (scope_in names.now) depth (level true (scope_in names.now) depth) whole (map expr_of xs.old.items, counted) (ahead c.old)) }
    ensures source { source_in c.new ≡ source_in c.old }
{
    take(c, Symbol::Or)?;
    let member = conjunction(c, names, depth, whole)?;
    push(xs, member.0)?;
    Ok(member.1)
}

/// All further members.
#[cycle(grammar)]
fn ors(
    c: &mut Cursor<'_>,
    names: &Names<'_>,
    depth: u32,
    whole: bool,
    xs: &mut Vec<DocExpr>,
    counted: bool,
) -> Result<bool, Stop>
    ensures gives { Gives (λ flag. (map expr_of xs.new.items, flag)) result (ahead c.new) (loop (is_symbol Or) (reading.or_behind true (scope_in names.now) depth (level true (scope_in names.now) depth) whole) (map expr_of xs.old.items, counted) (ahead c.old)) }
    ensures source { source_in c.new ≡ source_in c.old }
{
    let mut flag = counted;
    while c.is_at(Symbol::Or) {
        flag = or_behind(c, names, depth, whole, xs, flag)?;
    }
    Ok(flag)
}

/// Members, of which the first is read.
#[cycle(grammar)]
#[tactic(auto, unfolding(crate::specs::Reading::disjunction_from))]
fn disjunction_from(
    c: &mut Cursor<'_>,
    names: &Names<'_>,
    depth: u32,
    whole: bool,
    first: (DocExpr, bool),
) -> Result<(DocExpr, bool), Stop>
    ensures gives { Gives (λ p. (expr_of p.0, p.1)) result (ahead c.new) (reading.disjunction_from true (scope_in names.now) depth (level true (scope_in names.now) depth) whole (expr_of first.0, first.1) (ahead c.old)) }
    ensures source { source_in c.new ≡ source_in c.old }
{
    let mut xs = single(names.alloc, first.0)?;
    let flag = ors(c, names, depth, whole, &mut xs, first.1)?;
    Ok((any_of(xs), flag))
}

/// A shape expression.
#[cycle(grammar)]
#[tactic(auto, unfolding(crate::specs::Reading::expression))]
pub fn expression(
    c: &mut Cursor<'_>,
    names: &Names<'_>,
    depth: u32,
    whole: bool,
) -> Result<(DocExpr, bool), Stop>
    ensures gives { Gives (λ p. (expr_of p.0, p.1)) result (ahead c.new) (reading.expression true (scope_in names.now) depth (level true (scope_in names.now) depth) whole (ahead c.old)) }
    ensures source { source_in c.new ≡ source_in c.old }
{
    let first = conjunction(c, names, depth, whole)?;
    disjunction_from(c, names, depth, whole, first)
}

/// A shape expression in brackets.
#[cycle(grammar)]
#[tactic(auto, unfolding(crate::specs::Reading::level))]
fn inside_expression(
    c: &mut Cursor<'_>,
    names: &Names<'_>,
    depth: u32,
) -> Result<(DocExpr, bool), Stop>
    ensures gives { Gives (λ p. (expr_of p.0, p.1)) result (ahead c.new) ((level true (scope_in names.now) depth).expr (ahead c.old)) }
    ensures source { source_in c.new ≡ source_in c.old }
{
    if depth == 0 {
        return Err(Stop::Fault(Fault::Deep));
    }
    expression(c, names, depth - 1, true)
}

/// A triple expression in brackets.
#[cycle(grammar)]
#[tactic(auto, unfolding(crate::specs::Reading::level))]
fn inside_triple(c: &mut Cursor<'_>, names: &Names<'_>, depth: u32) -> Result<DocTriple, Stop>
    ensures gives { Gives triple_of result (ahead c.new) ((level true (scope_in names.now) depth).triple_expr (ahead c.old)) }
    ensures source { source_in c.new ≡ source_in c.old }
{
    if depth == 0 {
        return Err(Stop::Fault(Fault::Deep));
    }
    alternatives(c, names, depth - 1)
}

/// What goes on behind the first member of a value.
#[cycle(grammar)]
#[tactic(auto, unfolding(crate::specs::Reading::further_from))]
fn further(
    c: &mut Cursor<'_>,
    names: &Names<'_>,
    depth: u32,
    first: (DocExpr, bool),
) -> Result<(DocExpr, bool), Stop>
    ensures gives { Gives (λ p. (expr_of p.0, p.1)) result (ahead c.new) (reading.further_from true (scope_in names.now) depth (level true (scope_in names.now) depth) (expr_of first.0, first.1) (ahead c.old)) }
    ensures source { source_in c.new ≡ source_in c.old }
{
    let all = conjunction_from(c, names, depth, false, first)?;
    disjunction_from(c, names, depth, false, all)
}

/// A value that begins with `.`.
#[cycle(grammar)]
#[tactic(auto, unfolding(crate::specs::Reading::dot_value, crate::specs::Reading::further))]
fn dot_value(
    c: &mut Cursor<'_>,
    names: &Names<'_>,
    depth: u32,
) -> Result<(Option<Box<DocExpr>>, bool), Stop>
    ensures gives { Gives (λ p. (maybe_expr (option_map (λ b. expr_of b.value) p.0), p.1)) result (ahead c.new) (reading.dot_value true (scope_in names.now) depth (level true (scope_in names.now) depth) (ahead c.old)) }
    ensures source { source_in c.new ≡ source_in c.old }
{
    take(c, Symbol::Dot)?;
    if !at_connective(c) {
        return Ok((None, false));
    }
    let all = further(c, names, depth, (empty_shape(names.alloc), false))?;
    boxed(names.alloc, all)
}

/// The value of an arc.
#[cycle(grammar)]
#[tactic(auto, unfolding(crate::specs::Reading::arc_value))]
fn arc_value(
    c: &mut Cursor<'_>,
    names: &Names<'_>,
    depth: u32,
) -> Result<(Option<Box<DocExpr>>, bool), Stop>
    ensures gives { Gives (λ p. (maybe_expr (option_map (λ b. expr_of b.value) p.0), p.1)) result (ahead c.new) (reading.arc_value true (scope_in names.now) depth (level true (scope_in names.now) depth) (ahead c.old)) }
    ensures source { source_in c.new ≡ source_in c.old }
{
    if c.is_at(Symbol::Dot) {
        return dot_value(c, names, depth);
    }
    let all = expression(c, names, depth, false)?;
    boxed(names.alloc, all)
}

/// An arc.
#[cycle(grammar)]
#[tactic(auto, unfolding(crate::specs::Reading::an_arc))]
fn an_arc(
    c: &mut Cursor<'_>,
    names: &Names<'_>,
    depth: u32,
    label: Option<Label>,
) -> Result<DocTriple, Stop>
    ensures gives { Gives triple_of result (ahead c.new) (reading.an_arc true (scope_in names.now) depth (level true (scope_in names.now) depth) label (ahead c.old)) }
    ensures source { source_in c.new ≡ source_in c.old }
{
    let inverse = direction(c)?;
    let predicate = predicate(c, names)?;
    let value = arc_value(c, names, depth)?;
    let cardinality = cardinality_behind(c, depth, value.1)?;
    annotations(c, names)?;
    Ok(arc_of(
        label,
        cardinality,
        inverse,
        Text::from_string(predicate),
        value.0,
    ))
}

/// A triple expression in round brackets.
#[cycle(grammar)]
#[tactic(auto, unfolding(crate::specs::Reading::grouped))]
fn grouped(
    c: &mut Cursor<'_>,
    names: &Names<'_>,
    depth: u32,
    label: Option<Label>,
) -> Result<DocTriple, Stop>
    ensures gives { Gives triple_of result (ahead c.new) (reading.grouped true (scope_in names.now) depth (level true (scope_in names.now) depth) label (ahead c.old)) }
    ensures source { source_in c.new ≡ source_in c.old }
{
    opens(c, Symbol::OpenParenthesis, depth)?;
    let inner = inside_triple(c, names, depth)?;
    let (inner, _) = followed_by(c, Symbol::CloseParenthesis, inner)?;
    let (inner, cardinality) = with_cardinality(c, depth, inner)?;
    let inner = annotated(c, names, inner)?;
    bracketed(names.alloc, label, cardinality, inner)
}

/// What may have a label.
#[cycle(grammar)]
#[tactic(auto, unfolding(crate::specs::Reading::unlabelled))]
fn unlabelled(
    c: &mut Cursor<'_>,
    names: &Names<'_>,
    depth: u32,
    label: Option<Label>,
) -> Result<DocTriple, Stop>
    ensures gives { Gives triple_of result (ahead c.new) (reading.unlabelled true (scope_in names.now) depth (level true (scope_in names.now) depth) label (ahead c.old)) }
    ensures source { source_in c.new ≡ source_in c.old }
{
    if c.is_at(Symbol::OpenParenthesis) {
        grouped(c, names, depth, label)
    } else {
        an_arc(c, names, depth, label)
    }
}

/// A triple expression without `;` and `|`.
#[cycle(grammar)]
#[tactic(auto, unfolding(crate::specs::Reading::unary))]
fn unary(c: &mut Cursor<'_>, names: &Names<'_>, depth: u32) -> Result<DocTriple, Stop>
    ensures gives { Gives triple_of result (ahead c.new) (reading.unary true (scope_in names.now) depth (level true (scope_in names.now) depth) (ahead c.old)) }
    ensures source { source_in c.new ≡ source_in c.old }
{
    if c.is_at(Symbol::Ampersand) {
        return inclusion(c, names);
    }
    if c.is_at(Symbol::Dollar) {
        take(c, Symbol::Dollar)?;
        let label = label(c, names)?;
        return unlabelled(c, names, depth, Some(label));
    }
    unlabelled(c, names, depth, None)
}

/// `;` and a further member, or the last `;`.
#[cycle(grammar)]
#[tactic(auto, unfolding(crate::specs::Reading::semicolon))]
fn semicolon(
    c: &mut Cursor<'_>,
    names: &Names<'_>,
    depth: u32,
    xs: &mut Vec<DocTriple>,
    ended: bool,
) -> Result<bool, Stop>
    ensures gives { Gives (λ ended. (map triple_of xs.new.items, ended)) result (ahead c.new) (reading.semicolon true (scope_in names.now) depth (level true (scope_in names.now) depth) (map triple_of xs.old.items, ended) (ahead c.old)) }
    ensures source { source_in c.new ≡ source_in c.old }
{
    if ended {
        return Err(Stop::Fault(Fault::Syntax));
    }
    take(c, Symbol::Semicolon)?;
    if !at_unit(c) {
        return Ok(true);
    }
    let member = unary(c, names, depth)?;
    push_triple(xs, member)?;
    Ok(false)
}

/// All further members.
#[cycle(grammar)]
fn semicolons(
    c: &mut Cursor<'_>,
    names: &Names<'_>,
    depth: u32,
    xs: &mut Vec<DocTriple>,
) -> Result<bool, Stop>
    ensures gives { Gives (λ ended. (map triple_of xs.new.items, ended)) result (ahead c.new) (loop (is_symbol Semicolon) (reading.semicolon true (scope_in names.now) depth (level true (scope_in names.now) depth)) (map triple_of xs.old.items, false) (ahead c.old)) }
    ensures source { source_in c.new ≡ source_in c.old }
{
    let mut ended = false;
    while c.is_at(Symbol::Semicolon) {
        ended = semicolon(c, names, depth, xs, ended)?;
    }
    Ok(ended)
}

/// Members with `;` between them.
#[cycle(grammar)]
#[tactic(auto, unfolding(crate::specs::Reading::group))]
fn group(c: &mut Cursor<'_>, names: &Names<'_>, depth: u32) -> Result<DocTriple, Stop>
    ensures gives { Gives triple_of result (ahead c.new) (reading.group true (scope_in names.now) depth (level true (scope_in names.now) depth) (ahead c.old)) }
    ensures source { source_in c.new ≡ source_in c.old }
{
    let first = unary(c, names, depth)?;
    let mut xs = single(names.alloc, first)?;
    semicolons(c, names, depth, &mut xs)?;
    Ok(each_of(xs))
}

/// `|` and a further alternative.
#[cycle(grammar)]
#[tactic(auto, unfolding(crate::specs::Reading::bar))]
fn bar(
    c: &mut Cursor<'_>,
    names: &Names<'_>,
    depth: u32,
    xs: &mut Vec<DocTriple>,
) -> Result<(), Stop>
    ensures gives { Gives (λ x. map triple_of xs.new.items) result (ahead c.new) (reading.bar true (scope_in names.now) depth (level true (scope_in names.now) depth) (map triple_of xs.old.items) (ahead c.old)) }
    ensures source { source_in c.new ≡ source_in c.old }
{
    take(c, Symbol::Bar)?;
    let member = group(c, names, depth)?;
    push_triple(xs, member)?;
    Ok(())
}

/// All further alternatives.
#[cycle(grammar)]
fn bars(
    c: &mut Cursor<'_>,
    names: &Names<'_>,
    depth: u32,
    xs: &mut Vec<DocTriple>,
) -> Result<(), Stop>
    ensures gives { Gives (λ x. map triple_of xs.new.items) result (ahead c.new) (loop (is_symbol Bar) (reading.bar true (scope_in names.now) depth (level true (scope_in names.now) depth)) (map triple_of xs.old.items) (ahead c.old)) }
    ensures source { source_in c.new ≡ source_in c.old }
{
    while c.is_at(Symbol::Bar) {
        bar(c, names, depth, xs)?;
    }
    Ok(())
}

/// A triple expression.
#[cycle(grammar)]
#[tactic(auto, unfolding(crate::specs::Reading::alternatives))]
fn alternatives(c: &mut Cursor<'_>, names: &Names<'_>, depth: u32) -> Result<DocTriple, Stop>
    ensures gives { Gives triple_of result (ahead c.new) (reading.alternatives true (scope_in names.now) depth (level true (scope_in names.now) depth) (ahead c.old)) }
    ensures source { source_in c.new ≡ source_in c.old }
{
    let first = group(c, names, depth)?;
    let mut xs = single(names.alloc, first)?;
    bars(c, names, depth, &mut xs)?;
    Ok(one_of(xs))
}
