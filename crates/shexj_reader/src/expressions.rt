//! Shape expressions and triple expressions (ShEx 2.1, sections 5.3 to 5.5, and appendix A).

ghost use Rattle.std.specs.Prelude.{◌≡◌, ◌+◌, IfErr, IfOk, OnOk, Some, codes, is_some, map, option_map, true};
ghost use Rattle.serde_json.specs.Find.{get};
ghost use Rattle.serde_json.specs.View.{view};
ghost use Rattle.schema_documents.specs.Tree.{expr_of, exprs, triple_of, triples};
ghost use Rattle.shexj_reader.specs.ExpressionFaults.{ExprFault, ExprObjectFault, TripleFault, TripleObjectFault};
ghost use Rattle.shexj_reader.specs.Within.{AreMembers, AreTriples, HasGroup, IsExpr, IsTriple};
ghost use Rattle.shexj_reader.specs.Faults.{Because};
ghost use Rattle.shexj_reader.specs.Keys.{is_object, type_of};
ghost use Rattle.shexj_reader.specs.Types.{IsGroupType, IsJoin};

use crate::cardinalities::cardinality_of;
use crate::constraints::read_constraint;
use crate::groups::{Group, each_of, one_of};
use crate::kinds::{ExprKind, TripleKind, expr_kind, triple_kind};
use crate::labels::{label_from, label_if_any, reference};
use crate::objects::{
    bad_form, flag_at, has_type, is_object, items_at, only_keys, only_own_keys, only_plain,
    text_at, texts_at,
};
use rdf_terms::items::Items;
use schema_documents::{DocArc, DocBody, DocExpr, DocShape, DocTriple, SchemaError};
use serde_json::Value;
use std::alloc::Global;
use tally::Bound;

/// The shape expression that the value under the key stands for, where `depth` objects may stand in one another. Where it is
/// labelled it is an object that may have an `id`, as a declaration has; else it may be a text, a reference.
#[cycle(expressions)]
pub(crate) fn read_expr(
    alloc: Global,
    key: &str,
    value: &Value,
    labelled: bool,
    depth: u32,
) -> Result<DocExpr, SchemaError>
    ensures ok { IfOk result (λ e. IsExpr labelled depth (expr_of e) (view value.now)) }
    ensures cause { IfErr result (Because (λ f. ExprFault f key.now labelled depth (view value.now))) }
{
    if let Some(text) = reference(value, labelled) {
        let label = label_from(alloc, text)?;
        return Ok(DocExpr::Ref(label));
    }
    if !is_object(value) {
        return Err(bad_form(alloc, key));
    }
    read_expr_object(alloc, value, labelled, depth)
}

/// The shape expression that an object stands for, where `depth` objects may stand in one another.
#[cycle(expressions)]
fn read_expr_object(
    alloc: Global,
    value: &Value,
    labelled: bool,
    depth: u32,
) -> Result<DocExpr, SchemaError>
    requires { is_object (view value.now) ≡ true }
    ensures ok { IfOk result (λ e. IsExpr labelled depth (expr_of e) (view value.now)) }
    ensures cause { IfErr result (Because (λ f. ExprObjectFault f labelled depth (view value.now))) }
{
    if has_type(value, "ShapeExternal") {
        return Err(SchemaError::External);
    }
    let Some(kind) = expr_kind(value) else {
        return Err(bad_form(alloc, "type"));
    };
    if depth == 0 {
        return Err(SchemaError::Deep);
    }
    match kind {
        ExprKind::Or => read_join(alloc, value, labelled, depth - 1).map(DocExpr::Or),
        ExprKind::And => read_join(alloc, value, labelled, depth - 1).map(DocExpr::And),
        ExprKind::Not => read_not(alloc, value, labelled, depth - 1),
        ExprKind::Node => read_constraint(alloc, value, labelled).map(DocExpr::Node),
        ExprKind::Shape => read_shape(alloc, value, labelled, depth - 1),
    }
}

/// The members of a ShapeOr or a ShapeAnd, with `depth` levels of objects inside.
#[cycle(expressions)]
fn read_join(
    alloc: Global,
    value: &Value,
    labelled: bool,
    depth: u32,
) -> Result<Vec<DocExpr>, SchemaError>
    requires { IsJoin (view value.now) }
    ensures ok { IfOk result (λ v. AreMembers labelled depth (exprs (map expr_of v.items)) (view value.now)) }
    ensures cause { IfErr result (Because (λ f. ExprObjectFault f labelled (depth + 1) (view value.now))) }
{
    only_own_keys(alloc, value, labelled, &["shapeExprs", "type"])?;
    let items = items_at(alloc, value, "shapeExprs")?;
    let mut all = Vec::new(alloc);
    for item in items {
        let member = read_expr(alloc, "shapeExprs", item, false, depth)?;
        all.push(member)?;
    }
    Ok(all)
}

/// A ShapeNot, with `depth` levels of objects inside.
#[cycle(expressions)]
fn read_not(
    alloc: Global,
    value: &Value,
    labelled: bool,
    depth: u32,
) -> Result<DocExpr, SchemaError>
    requires { type_of (view value.now) ≡ Some (codes "ShapeNot") }
    ensures ok { IfOk result (λ e. IsExpr labelled (depth + 1) (expr_of e) (view value.now)) }
    ensures cause { IfErr result (Because (λ f. ExprObjectFault f labelled (depth + 1) (view value.now))) }
{
    only_own_keys(alloc, value, labelled, &["shapeExpr", "type"])?;
    let Some(child) = value.get("shapeExpr") else {
        return Err(bad_form(alloc, "shapeExpr"));
    };
    let inner = read_expr(alloc, "shapeExpr", child, false, depth)?;
    let boxed = Box::new(alloc, inner)?;
    Ok(DocExpr::Not(boxed))
}

/// A Shape, with `depth` levels of objects inside.
#[cycle(expressions)]
fn read_shape(
    alloc: Global,
    value: &Value,
    labelled: bool,
    depth: u32,
) -> Result<DocExpr, SchemaError>
    requires { type_of (view value.now) ≡ Some (codes "Shape") }
    ensures ok { IfOk result (λ e. IsExpr labelled (depth + 1) (expr_of e) (view value.now)) }
    ensures cause { IfErr result (Because (λ f. ExprObjectFault f labelled (depth + 1) (view value.now))) }
{
    only_own_keys(
        alloc,
        value,
        labelled,
        &[
            "annotations",
            "closed",
            "expression",
            "extra",
            "semActs",
            "type",
        ],
    )?;
    let closed = flag_at(alloc, value, "closed")?;
    let extra = texts_at(alloc, value, "extra")?;
    let expression = match value.get("expression") {
        Some(child) => {
            let inner = read_triple(alloc, "expression", child, depth)?;
            Some(inner)
        }
        None => None,
    };
    only_plain(alloc, value).map(move |()| {
        DocExpr::Shape(DocShape {
            closed,
            extra: Items::of(extra),
            expression,
        })
    })
}

/// The triple expression that the value under the key stands for, where `depth` objects may stand in one another. A text is an
/// inclusion.
#[cycle(expressions)]
fn read_triple(
    alloc: Global,
    key: &str,
    value: &Value,
    depth: u32,
) -> Result<DocTriple, SchemaError>
    ensures ok { IfOk result (λ t. IsTriple depth (triple_of t) (view value.now)) }
    ensures cause { IfErr result (Because (λ f. TripleFault f key.now depth (view value.now))) }
{
    if let Some(text) = value.as_str() {
        let label = label_from(alloc, text)?;
        return Ok(DocTriple {
            label: None,
            min: 1,
            max: Bound::Upto(1),
            body: DocBody::Include(label),
        });
    }
    if !is_object(value) {
        return Err(bad_form(alloc, key));
    }
    read_triple_object(alloc, value, depth)
}

/// The triple expression that an object stands for, where `depth` objects may stand in one another.
#[cycle(expressions)]
fn read_triple_object(alloc: Global, value: &Value, depth: u32) -> Result<DocTriple, SchemaError>
    requires { is_object (view value.now) ≡ true }
    ensures ok { IfOk result (λ t. IsTriple depth (triple_of t) (view value.now)) }
    ensures cause { IfErr result (Because (λ f. TripleObjectFault f depth (view value.now))) }
{
    let Some(kind) = triple_kind(value) else {
        return Err(bad_form(alloc, "type"));
    };
    if depth == 0 {
        return Err(SchemaError::Deep);
    }
    match kind {
        TripleKind::Each => read_group(alloc, value, depth - 1).map(each_of),
        TripleKind::One => read_group(alloc, value, depth - 1).map(one_of),
        TripleKind::Arc => read_arc(alloc, value, depth - 1),
    }
}

/// An EachOf or a OneOf, with `depth` levels of objects inside.
#[cycle(expressions)]
fn read_group(alloc: Global, value: &Value, depth: u32) -> Result<Group, SchemaError>
    requires { IsGroupType (view value.now) }
    ensures ok { IfOk result (λ g. HasGroup depth (triples (map triple_of g.members.items)) g.label g.min g.max (view value.now)) }
    ensures cause { IfErr result (Because (λ f. TripleObjectFault f (depth + 1) (view value.now))) }
{
    only_keys(
        alloc,
        value,
        &[
            "annotations",
            "expressions",
            "id",
            "max",
            "min",
            "semActs",
            "type",
        ],
    )?;
    let label = label_if_any(alloc, value)?;
    let members = read_triples(alloc, value, depth)?;
    let (min, max) = cardinality_of(alloc, value)?;
    only_plain(alloc, value).map(move |()| Group {
        label,
        min,
        max,
        members,
    })
}

/// The members of an EachOf or a OneOf, with `depth` levels of objects inside.
#[cycle(expressions)]
fn read_triples(alloc: Global, value: &Value, depth: u32) -> Result<Vec<DocTriple>, SchemaError>
    requires { IsGroupType (view value.now) }
    ensures ok { IfOk result (λ v. AreTriples depth (triples (map triple_of v.items)) (view value.now)) }
    ensures cause { IfErr result (Because (λ f. TripleObjectFault f (depth + 1) (view value.now))) }
{
    let items = items_at(alloc, value, "expressions")?;
    let mut all = Vec::new(alloc);
    for item in items {
        let member = read_triple(alloc, "expressions", item, depth)?;
        all.push(member)?;
    }
    Ok(all)
}

/// A TripleConstraint, with `depth` levels of objects inside.
#[cycle(expressions)]
fn read_arc(alloc: Global, value: &Value, depth: u32) -> Result<DocTriple, SchemaError>
    requires { type_of (view value.now) ≡ Some (codes "TripleConstraint") }
    ensures ok { IfOk result (λ t. IsTriple (depth + 1) (triple_of t) (view value.now)) }
    ensures cause { IfErr result (Because (λ f. TripleObjectFault f (depth + 1) (view value.now))) }
{
    only_keys(
        alloc,
        value,
        &[
            "annotations",
            "id",
            "inverse",
            "max",
            "min",
            "predicate",
            "semActs",
            "type",
            "valueExpr",
        ],
    )?;
    let label = label_if_any(alloc, value)?;
    let inverse = flag_at(alloc, value, "inverse")?;
    let predicate = text_at(alloc, value, "predicate")?;
    let inner = match value.get("valueExpr") {
        Some(child) => {
            let inner = read_expr(alloc, "valueExpr", child, false, depth)?;
            let boxed = Box::new(alloc, inner)?;
            Some(boxed)
        }
        None => None,
    };
    let (min, max) = cardinality_of(alloc, value)?;
    only_plain(alloc, value).map(move |()| DocTriple {
        label,
        min,
        max,
        body: DocBody::Arc(DocArc {
            inverse,
            predicate,
            value: inner,
        }),
    })
}
