//! How deep the expressions of a document nest.

ghost use Rattle.std.specs.Prelude.{◌≡◌, map, nat_le, option_map};
ghost use Rattle.std.specs.Option.{option_copied};
ghost use Rattle.schema_documents.specs.Tree.{decl_of, document_of, expr_of, exprs, maybe_expr, triple_of, triples};
ghost use Rattle.shexj_reader.specs.Nesting.{decls_nesting, document_nesting, exprs_nesting, maybe_expr_nesting, nesting, triple_nesting, triples_nesting};

use schema_documents::{Decl, Doc, DocBody, DocExpr, DocTriple};

/// Whether at most so many shape and triple expressions nest in one another in a shape expression; references do not count.
#[cycle(nestings)]
fn expr_nests_within(expr: &DocExpr, levels: u32) -> bool
    ensures { result ≡ nat_le (nesting (expr_of expr.now)) levels }
{
    if let DocExpr::Ref(_) = expr {
        return true;
    }
    if levels == 0 {
        return false;
    }
    match expr {
        DocExpr::And(members) | DocExpr::Or(members) => exprs_nest_within(members, levels - 1),
        DocExpr::Not(member) => expr_nests_within(member, levels - 1),
        DocExpr::Shape(shape) => match &shape.expression {
            Some(triple) => triple_nests_within(triple, levels - 1),
            None => true,
        },
        DocExpr::Node(_) | DocExpr::Ref(_) => true,
    }
}

#[cycle(nestings)]
fn exprs_nest_within(members: &[DocExpr], levels: u32) -> bool
    ensures { result ≡ nat_le (exprs_nesting (exprs (map expr_of members.now))) levels }
{
    for member in members {
        if !expr_nests_within(member, levels) {
            return false;
        }
    }
    true
}

/// Whether at most so many shape and triple expressions nest in one another in a triple expression; references and
/// inclusions do not count.
#[cycle(nestings)]
fn triple_nests_within(triple: &DocTriple, levels: u32) -> bool
    ensures { result ≡ nat_le (triple_nesting (triple_of triple.now)) levels }
{
    if let DocBody::Include(_) = &triple.body {
        return true;
    }
    if levels == 0 {
        return false;
    }
    match &triple.body {
        DocBody::Each(members) | DocBody::One(members) => triples_nest_within(members, levels - 1),
        DocBody::Arc(arc) => match &arc.value {
            Some(value) => expr_nests_within(value, levels - 1),
            None => true,
        },
        DocBody::Include(_) => true,
    }
}

#[cycle(nestings)]
fn triples_nest_within(members: &[DocTriple], levels: u32) -> bool
    ensures { result ≡ nat_le (triples_nesting (triples (map triple_of members.now))) levels }
{
    for member in members {
        if !triple_nests_within(member, levels) {
            return false;
        }
    }
    true
}

/// Whether at most so many shape and triple expressions nest in one another in a start expression, if there is one.
fn start_nests_within(start: Option<&DocExpr>, levels: u32) -> bool
    ensures { result ≡ nat_le (maybe_expr_nesting (maybe_expr (option_map expr_of (option_copied start.entry)))) levels }
{
    match start {
        Some(expr) => expr_nests_within(expr, levels),
        None => true,
    }
}

/// Whether at most so many shape and triple expressions nest in one another in each declaration.
fn decls_nest_within(decls: &[Decl], levels: u32) -> bool
    ensures { result ≡ nat_le (decls_nesting (map decl_of decls.now)) levels }
{
    for decl in decls {
        if !expr_nests_within(&decl.expr, levels) {
            return false;
        }
    }
    true
}

/// Whether at most so many shape and triple expressions nest in one another in a document.
pub(crate) fn nests_within(doc: &Doc, levels: u32) -> bool
    ensures { result ≡ nat_le (document_nesting (document_of doc.now)) levels }
{
    start_nests_within(doc.start.as_ref(), levels)
        && decls_nest_within(doc.decls.as_slice(), levels)
}
