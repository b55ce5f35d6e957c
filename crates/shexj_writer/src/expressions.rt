//! Shape expressions and triple expressions (ShEx 2.1, sections 5.3 to 5.5, and appendix A).

ghost use Rattle.std.specs.Prelude.{◌≡◌, ◌<◌, ◌^◌, IfOk, OnOk, codes, map, option_map};
ghost use Rattle.std.specs.Option.{option_copied};
ghost use Rattle.serde_json.specs.View.{items_view, view};
ghost use Rattle.schema_documents.specs.Tree.{expr_of, exprs, shape_of, triple_of, triples};
ghost use Rattle.shexj_writer.specs.Expressions.{arc_data, body_data, expr_data, exprs_items, group_data, join_data, not_data, shape_data, triple_data, triples_items};
ghost use Rattle.shexj_writer.specs.Trees.{arc_of};
ghost use Rattle.shexj_writer.specs.Held.{AreHeldExprs, AreHeldTriples, IsBound, IsHeldBody, IsHeldExpr, IsHeldTriple, IsLabelIfAny, IsText};

use crate::constraints::constraint_value;
use crate::objects::Object;
use crate::texts::{label_value, put_cardinality, put_label, text_values};
use rdf_terms::text::Text;
use schema_documents::{DocArc, DocBody, DocExpr, DocShape, DocTriple, Label};
use serde_json::Value;
use std::alloc::{AllocError, Global};
use tally::Bound;

/// A shape expression, with its label under `id` where it is declared.
#[cycle(expressions)]
pub(crate) fn expr_value(
    alloc: Global,
    expr: &DocExpr,
    id: Option<Value>,
) -> Result<Value, AllocError>
    ensures value { IfOk result (λ v. view v ≡ expr_data (option_map view id) (expr_of expr.now)) }
    ensures held { OnOk result (IsHeldExpr (expr_of expr.now)) }
{
    match expr {
        DocExpr::And(members) => {
            let all = expr_values(alloc, members)?;
            join_value(alloc, "ShapeAnd", all, id)
        }
        DocExpr::Or(members) => {
            let all = expr_values(alloc, members)?;
            join_value(alloc, "ShapeOr", all, id)
        }
        DocExpr::Not(member) => {
            let inner = expr_value(alloc, member, None)?;
            not_value(alloc, inner, id)
        }
        DocExpr::Node(constraint) => constraint_value(alloc, constraint, id),
        DocExpr::Shape(shape) => shape_value(alloc, shape, id),
        DocExpr::Ref(label) => label_value(alloc, label),
    }
}

/// Shape expressions, in their order.
#[cycle(expressions)]
fn expr_values(alloc: Global, members: &[DocExpr]) -> Result<Vec<Value>, AllocError>
    ensures values { IfOk result (λ v. items_view v.items ≡ exprs_items (exprs (map expr_of members.now))) }
    ensures held { OnOk result (AreHeldExprs (exprs (map expr_of members.now))) }
{
    let mut all = Vec::new(alloc);
    for member in members {
        let value = expr_value(alloc, member, None)?;
        all.push(value)?;
    }
    Ok(all)
}

/// A ShapeAnd or a ShapeOr of these members.
fn join_value(
    alloc: Global,
    name: &str,
    members: Vec<Value>,
    id: Option<Value>,
) -> Result<Value, AllocError>
    ensures { IfOk result (λ v. view v ≡ join_data (option_map view id) name.now (items_view members.items)) }
{
    let mut object = Object::new(alloc);
    object.put_word("type", name)?;
    object.put("shapeExprs", Value::from(members))?;
    object.put_if("id", id)?;
    Ok(object.into_value())
}

/// A ShapeNot.
fn not_value(alloc: Global, member: Value, id: Option<Value>) -> Result<Value, AllocError>
    ensures { IfOk result (λ v. view v ≡ not_data (option_map view id) (view member)) }
{
    let mut object = Object::new(alloc);
    object.put_word("type", "ShapeNot")?;
    object.put("shapeExpr", member)?;
    object.put_if("id", id)?;
    Ok(object.into_value())
}

/// A Shape.
#[cycle(expressions)]
fn shape_value(alloc: Global, shape: &DocShape, id: Option<Value>) -> Result<Value, AllocError>
    ensures value { IfOk result (λ v. view v ≡ expr_data (option_map view id) (shape_of shape.now)) }
    ensures held { OnOk result (IsHeldExpr (shape_of shape.now)) }
{
    let extra = text_values(alloc, shape.extra.as_slice())?;
    match &shape.expression {
        Some(triple) => {
            let expression = triple_value(alloc, triple)?;
            shape_object(alloc, shape.closed, extra, Some(expression), id)
        }
        None => shape_object(alloc, shape.closed, extra, None, id),
    }
}

/// A Shape with what stands in it.
fn shape_object(
    alloc: Global,
    closed: bool,
    extra: Vec<Value>,
    expression: Option<Value>,
    id: Option<Value>,
) -> Result<Value, AllocError>
    ensures { IfOk result (λ v. view v ≡ shape_data (option_map view id) closed (items_view extra.items) (option_map view expression)) }
{
    let mut object = Object::new(alloc);
    object.put_word("type", "Shape")?;
    object.put_if("id", id)?;
    object.put_list("extra", extra)?;
    object.put_if("expression", expression)?;
    object.put_flag("closed", closed)?;
    Ok(object.into_value())
}

/// A triple expression.
#[cycle(expressions)]
fn triple_value(alloc: Global, triple: &DocTriple) -> Result<Value, AllocError>
    ensures value { IfOk result (λ v. view v ≡ triple_data (triple_of triple.now)) }
    ensures held { OnOk result (IsHeldTriple (triple_of triple.now)) }
{
    let label = triple.label.as_ref();
    match &triple.body {
        DocBody::Each(members) => {
            let all = triple_values(alloc, members)?;
            group_value(alloc, "EachOf", all, label, triple.min, triple.max)
        }
        DocBody::One(members) => {
            let all = triple_values(alloc, members)?;
            group_value(alloc, "OneOf", all, label, triple.min, triple.max)
        }
        DocBody::Arc(arc) => arc_value(alloc, arc, label, triple.min, triple.max),
        DocBody::Include(target) => label_value(alloc, target),
    }
}

/// Triple expressions, in their order.
#[cycle(expressions)]
fn triple_values(alloc: Global, members: &[DocTriple]) -> Result<Vec<Value>, AllocError>
    ensures values { IfOk result (λ v. items_view v.items ≡ triples_items (triples (map triple_of members.now))) }
    ensures held { OnOk result (AreHeldTriples (triples (map triple_of members.now))) }
{
    let mut all = Vec::new(alloc);
    for member in members {
        let value = triple_value(alloc, member)?;
        all.push(value)?;
    }
    Ok(all)
}

/// An EachOf or a OneOf of these members.
fn group_value(
    alloc: Global,
    name: &str,
    members: Vec<Value>,
    label: Option<&Label>,
    min: u32,
    max: Bound,
) -> Result<Value, AllocError>
    ensures value { IfOk result (λ v. view v ≡ group_data name.now (items_view members.items) (option_copied label.entry) min max) }
    ensures label { OnOk result (IsLabelIfAny (option_copied label.entry)) }
    ensures low { OnOk result (min < 2 ^ 32) }
    ensures high { OnOk result (IsBound max) }
{
    let mut object = Object::new(alloc);
    object.put_word("type", name)?;
    put_cardinality(&mut object, min, max)?;
    put_label(alloc, &mut object, label)?;
    object.put("expressions", Value::from(members))?;
    Ok(object.into_value())
}

/// A TripleConstraint.
#[cycle(expressions)]
fn arc_value(
    alloc: Global,
    arc: &DocArc,
    label: Option<&Label>,
    min: u32,
    max: Bound,
) -> Result<Value, AllocError>
    ensures value { IfOk result (λ v. view v ≡ body_data (arc_of arc.now) (option_copied label.entry) min max) }
    ensures held { OnOk result (IsHeldBody (arc_of arc.now) (option_copied label.entry) min max) }
{
    match &arc.value {
        Some(expr) => {
            let value = expr_value(alloc, expr, None)?;
            arc_object(
                alloc,
                arc.inverse,
                &arc.predicate,
                Some(value),
                label,
                min,
                max,
            )
        }
        None => arc_object(alloc, arc.inverse, &arc.predicate, None, label, min, max),
    }
}

/// A TripleConstraint with what its value is.
fn arc_object(
    alloc: Global,
    inverse: bool,
    predicate: &Text,
    value: Option<Value>,
    label: Option<&Label>,
    min: u32,
    max: Bound,
) -> Result<Value, AllocError>
    ensures value { IfOk result (λ v. view v ≡ arc_data inverse predicate.now (option_map view value) (option_copied label.entry) min max) }
    ensures predicate { OnOk result (IsText predicate.now) }
    ensures label { OnOk result (IsLabelIfAny (option_copied label.entry)) }
    ensures low { OnOk result (min < 2 ^ 32) }
    ensures high { OnOk result (IsBound max) }
{
    let mut object = Object::new(alloc);
    object.put_if("valueExpr", value)?;
    object.put_word("type", "TripleConstraint")?;
    object.put_text("predicate", predicate)?;
    put_cardinality(&mut object, min, max)?;
    object.put_flag("inverse", inverse)?;
    put_label(alloc, &mut object, label)?;
    Ok(object.into_value())
}
