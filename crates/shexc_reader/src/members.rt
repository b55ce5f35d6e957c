//! Lists of expressions that become one.

ghost use Rattle.std.specs.Prelude.{◌≡◌, ◌≢◌, length, map, IfErr, IfOk, None, OnOk, ◌++◌, ◌∷◌, []};
ghost use Rattle.schema_documents.specs.Tree.{body_of, expr_of, triple_of};
ghost use Rattle.shexc_reader.specs.Trees.{all_of, any_of, each_of, once, one_of, with};

use schema_documents::{DocBody, DocExpr, DocTriple};
use std::alloc::{AllocFailed, Global};
use tally::Bound;

/// The only item of a list; or the list, where it has none or more than one.
fn only<T: Drop>(xs: Vec<T>) -> Result<T, Vec<T>>
    ensures only { IfOk result (λ x. xs.items ≡ x ∷ []) }
    ensures others { IfErr result (λ ys. (ys.items ≡ xs.items) × (length ys.items ≢ 1)) }
{
    let mut xs = xs;
    if xs.len() != 1 {
        return Err(xs);
    }
    match xs.pop() {
        Some(x) => Ok(x),
        None => unreachable!(),
    }
}

/// Puts an expression behind others.
pub fn push(xs: &mut Vec<DocExpr>, e: DocExpr) -> Result<(), AllocFailed<DocExpr>>
    ensures { OnOk result (map expr_of xs.new.items ≡ map expr_of xs.old.items ++ expr_of e ∷ []) }
{
    xs.push(e)
}

/// A list of one.
pub fn single<T: Drop>(alloc: Global, x: T) -> Result<Vec<T>, AllocFailed<T>>
    ensures { IfOk result (λ xs. xs.items ≡ x ∷ []) }
{
    let mut xs = Vec::new(alloc);
    xs.push(x)?;
    Ok(xs)
}

/// The only expression, or all of them together.
pub fn all_of(xs: Vec<DocExpr>) -> DocExpr
    ensures { expr_of result ≡ all_of (map expr_of xs.items) }
{
    match only(xs) {
        Ok(e) => e,
        Err(xs) => DocExpr::And(xs),
    }
}

/// The only expression, or any of them.
pub fn any_of(xs: Vec<DocExpr>) -> DocExpr
    ensures { expr_of result ≡ any_of (map expr_of xs.items) }
{
    match only(xs) {
        Ok(e) => e,
        Err(xs) => DocExpr::Or(xs),
    }
}

/// A triple expression without a label that comes once.
pub fn once(body: DocBody) -> DocTriple
    ensures { triple_of result ≡ with None once (body_of body) }
{
    DocTriple {
        label: None,
        min: 1,
        max: Bound::Upto(1),
        body,
    }
}

/// The only triple expression, or all of them as one.
pub fn each_of(xs: Vec<DocTriple>) -> DocTriple
    ensures { triple_of result ≡ each_of (map triple_of xs.items) }
{
    match only(xs) {
        Ok(t) => t,
        Err(xs) => once(DocBody::Each(xs)),
    }
}

/// The only triple expression, or all of them as one.
pub fn one_of(xs: Vec<DocTriple>) -> DocTriple
    ensures { triple_of result ≡ one_of (map triple_of xs.items) }
{
    match only(xs) {
        Ok(t) => t,
        Err(xs) => once(DocBody::One(xs)),
    }
}

/// Puts a triple expression behind others.
pub fn push_triple(xs: &mut Vec<DocTriple>, t: DocTriple) -> Result<(), AllocFailed<DocTriple>>
    ensures { OnOk result (map triple_of xs.new.items ≡ map triple_of xs.old.items ++ triple_of t ∷ []) }
{
    xs.push(t)
}
