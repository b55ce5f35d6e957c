//! The causes of a node with a shape expression.

ghost use Rattle.std.specs.Prelude.{◌≡◌, ◌↔◌, ◌<◌, ◌∷◌, [], IfOk, IfSome, None, OnOk, length, map, slice_get};
ghost use Rattle.schema_tree.specs.Entries.{SatNodeAt};
ghost use Rattle.schema_tree.specs.Loaded.{IsEntry, IsLoaded};
ghost use Rattle.schema_tree.specs.Sure.{IsSure};
ghost use Rattle.schema_tree.specs.declared.verdicts.Verdict.TheVariants as Verdicts;
ghost use Rattle.nonconformance.specs.Causes.{AreCauses, IsFirstFailedAt, PushesFailing, part_causes};
ghost use Rattle.nonconformance.specs.Those.{AreThose};
ghost use Rattle.nonconformance.specs.declared.cause.Cause.TheVariants as Causes;

use crate::cause::Cause;
use crate::laws::causes_are_exact;
use node_constraint::{ConstraintPart, NodeConstraint};
use rdf_terms::items::Items;
use rdf_terms::table::TermTable;
use rdf_terms::terms::TermId;
use schema_tree::laws::layers_are_meanings;
use schema_tree::schema::{Expr, ExprId, Schema};
use schema_tree::sure::{View, sure};
use schema_tree::verdicts::Verdict;
use std::alloc::{AllocError, Global};

/// Puts the expression behind the others, where the verdict on it is No.
fn push_failing(verdict: Verdict, expr: ExprId, found: &mut Vec<ExprId>) -> Result<(), AllocError>
    ensures { OnOk result (PushesFailing verdict expr found.old.items found.new.items) }
{
    if verdict == Verdict::No {
        found.push(expr)?;
    }
    Ok(())
}

/// Those of the expressions that the node is sure not to satisfy, in their order.
fn failing<V: View>(
    alloc: Global,
    schema: &Schema,
    terms: &TermTable,
    view: &V,
    node: TermId,
    exprs: &[ExprId],
) -> Result<Vec<ExprId>, AllocError>
    requires { IsLoaded schema.now }
    ensures { IfOk result (λ v. AreThose (λ d. IsSure schema.now terms.now (V.known view.now) node d Verdicts.No) exprs.now v.items) }
{
    let mut found = Vec::new(alloc);
    for expr in exprs {
        let verdict = sure(alloc, schema, terms, node, *expr, view)?;
        push_failing(verdict, *expr, &mut found)?;
    }
    Ok(found)
}

/// The members, each as a cause of a ShapeAnd.
fn as_members(alloc: Global, members: &[ExprId]) -> Result<Vec<Cause>, AllocError>
    ensures { IfOk result (λ v. v.items ≡ map Causes.Member members.now) }
{
    let mut causes = Vec::new(alloc);
    for member in members {
        causes.push(Cause::Member(*member))?;
    }
    Ok(causes)
}

/// The first part of the constraint that does not hold for the node, if there is one: a node that is no term of the table is
/// of no kind.
fn failing_part(
    alloc: Global,
    terms: &TermTable,
    node: TermId,
    constraint: &NodeConstraint,
) -> Result<Option<ConstraintPart>, AllocError>
    ensures none { IfOk result (λ part. (part ≡ None) ↔ SatNodeAt constraint.now (slice_get terms.now node.0)) }
    ensures first { IfOk result (λ part. IfSome part (IsFirstFailedAt constraint.now (slice_get terms.now node.0))) }
{
    if (node.0 as usize) < terms.len() {
        constraint.failing_part(alloc, terms.get(node))
    } else {
        Ok(Some(ConstraintPart::Kind))
    }
}

/// One cause alone.
fn sole(alloc: Global, cause: Cause) -> Result<Vec<Cause>, AllocError>
    ensures { IfOk result (λ v. v.items ≡ cause ∷ []) }
{
    Ok(vec![in alloc; cause]?)
}

/// The failed part of a node constraint, if there is one, as a cause.
fn as_causes(alloc: Global, part: Option<ConstraintPart>) -> Result<Vec<Cause>, AllocError>
    ensures { IfOk result (λ v. v.items ≡ part_causes part) }
{
    match part {
        Some(part) => sole(alloc, Cause::FailedPart(part)),
        None => Ok(Vec::new(alloc)),
    }
}

/// The causes of a node that is sure not to satisfy the expression.
fn causes_by_form<V: View>(
    alloc: Global,
    schema: &Schema,
    terms: &TermTable,
    view: &V,
    node: TermId,
    expr: ExprId,
) -> Result<Vec<Cause>, AllocError>
    requires loaded { IsLoaded schema.now }
    requires fails { IsSure schema.now terms.now (V.known view.now) node expr Verdicts.No }
    ensures { IfOk result (λ v. AreCauses schema.now terms.now (V.known view.now) node expr v.items) }
{
    layers_are_meanings();
    match schema.exprs.as_slice().get(expr.0 as usize) {
        Some(Expr::And(members)) => {
            let found = failing(alloc, schema, terms, view, node, members.as_slice())?;
            as_members(alloc, found.as_slice())
        }
        Some(Expr::Or(members)) => {
            let all = members.as_slice().to_vec(alloc)?;
            sole(alloc, Cause::NoMember(Items::of(all)))
        }
        Some(Expr::Not(member)) => sole(alloc, Cause::Negated(*member)),
        Some(Expr::Node(constraint)) => {
            let part = failing_part(alloc, terms, node, constraint)?;
            as_causes(alloc, part)
        }
        Some(Expr::Shape(shape)) => sole(alloc, Cause::Lacks(*shape)),
        None => Ok(Vec::new(alloc)),
    }
}

/// All causes why, by what is known, a node is sure not to satisfy a shape expression (ShEx 2.1, sections 5.3 and 5.4): each
/// member of a ShapeAnd that it does not satisfy, all members of a ShapeOr at once, the member of a ShapeNot that it
/// satisfies, the first part of a node constraint that does not hold, or the Shape that it does not have. There are none
/// where it is not sure.
pub fn causes_of<V: View>(
    alloc: Global,
    schema: &Schema,
    terms: &TermTable,
    view: &V,
    node: TermId,
    expr: ExprId,
) -> Result<Vec<Cause>, AllocError>
    requires { IsLoaded schema.now }
    ensures all { IfOk result (λ v. AreCauses schema.now terms.now (V.known view.now) node expr v.items) }
    ensures some { IfOk result (λ v. IsEntry schema.now expr → IsSure schema.now terms.now (V.known view.now) node expr Verdicts.No →
        0 < length v.items) }
{
    causes_are_exact();
    if sure(alloc, schema, terms, node, expr, view)? != Verdict::No {
        return Ok(Vec::new(alloc));
    }
    causes_by_form(alloc, schema, terms, view, node, expr)
}
