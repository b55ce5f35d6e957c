//! Whether the range facets of a document have whole numbers (ShEx 2.1, section 5.4, XML Schema Numeric Facet Constraints).

ghost use Rattle.std.specs.Prelude.{◌≡◌, map, option_map};
ghost use Rattle.std.specs.Option.{option_copied};
ghost use Rattle.schema_documents.specs.Tree.{decl_of, document_of, expr_of, exprs, maybe_expr, triple_of, triples};
ghost use Rattle.shexj_writer.specs.Whole.{are_whole_decls, are_whole_exprs, are_whole_triples, is_whole_constraint, is_whole_document, is_whole_expr, is_whole_facet, is_whole_triple, is_whole_value};

use crate::numbers::whole_number;
use node_constraint::{Facet, NodeConstraint};
use schema_documents::{Decl, Doc, DocBody, DocExpr, DocTriple};

/// Whether a facet, if it is one of a range, has a whole number from -2^63 to 2^64 - 1.
fn is_whole_facet(facet: &Facet) -> bool
    ensures { result ≡ is_whole_facet facet.now }
{
    match facet {
        Facet::MinInclusive(bound)
        | Facet::MinExclusive(bound)
        | Facet::MaxInclusive(bound)
        | Facet::MaxExclusive(bound) => whole_number(bound.as_str()).is_some(),
        _ => true,
    }
}

/// Whether each range facet of a constraint has a whole number from -2^63 to 2^64 - 1.
fn is_whole_constraint(constraint: &NodeConstraint) -> bool
    ensures { result ≡ is_whole_constraint constraint.now }
{
    constraint.facets().iter().all(is_whole_facet)
}

/// Whether each range facet in a shape expression has a whole number from -2^63 to 2^64 - 1.
#[cycle(wholes)]
fn is_whole_expr(expr: &DocExpr) -> bool
    ensures { result ≡ is_whole_expr (expr_of expr.now) }
{
    match expr {
        DocExpr::And(members) | DocExpr::Or(members) => are_whole_exprs(members),
        DocExpr::Not(member) => is_whole_expr(member),
        DocExpr::Node(constraint) => is_whole_constraint(constraint),
        DocExpr::Shape(shape) => match &shape.expression {
            Some(triple) => is_whole_triple(triple),
            None => true,
        },
        DocExpr::Ref(_) => true,
    }
}

#[cycle(wholes)]
fn are_whole_exprs(members: &[DocExpr]) -> bool
    ensures { result ≡ are_whole_exprs (exprs (map expr_of members.now)) }
{
    for member in members {
        if !is_whole_expr(member) {
            return false;
        }
    }
    true
}

/// Whether each range facet in a triple expression has a whole number from -2^63 to 2^64 - 1.
#[cycle(wholes)]
fn is_whole_triple(triple: &DocTriple) -> bool
    ensures { result ≡ is_whole_triple (triple_of triple.now) }
{
    match &triple.body {
        DocBody::Each(members) | DocBody::One(members) => are_whole_triples(members),
        DocBody::Arc(arc) => match &arc.value {
            Some(value) => is_whole_expr(value),
            None => true,
        },
        DocBody::Include(_) => true,
    }
}

#[cycle(wholes)]
fn are_whole_triples(members: &[DocTriple]) -> bool
    ensures { result ≡ are_whole_triples (triples (map triple_of members.now)) }
{
    for member in members {
        if !is_whole_triple(member) {
            return false;
        }
    }
    true
}

/// Whether each range facet in a start expression, if there is one, has a whole number from -2^63 to 2^64 - 1.
fn is_whole_start(start: Option<&DocExpr>) -> bool
    ensures { result ≡ is_whole_value (maybe_expr (option_map expr_of (option_copied start.entry))) }
{
    match start {
        Some(expr) => is_whole_expr(expr),
        None => true,
    }
}

/// Whether each range facet in declarations has a whole number from -2^63 to 2^64 - 1.
fn are_whole_decls(decls: &[Decl]) -> bool
    ensures { result ≡ are_whole_decls (map decl_of decls.now) }
{
    for decl in decls {
        if !is_whole_expr(&decl.expr) {
            return false;
        }
    }
    true
}

/// Whether each range facet of a document has a whole number from -2^63 to 2^64 - 1.
pub(crate) fn is_whole_document(doc: &Doc) -> bool
    ensures { result ≡ is_whole_document (document_of doc.now) }
{
    is_whole_start(doc.start.as_ref()) && are_whole_decls(doc.decls.as_slice())
}
