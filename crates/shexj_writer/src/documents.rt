//! Documents and their declarations (ShEx 2.1, sections 5.1 to 5.3, and appendix A).

ghost use Rattle.std.specs.Prelude.{◌≡◌, IfOk, OnOk, map, option_map};
ghost use Rattle.std.specs.Option.{option_copied};
ghost use Rattle.serde_json.specs.View.{items_view, view};
ghost use Rattle.schema_documents.specs.Labels.{IsTextLabel};
ghost use Rattle.schema_documents.specs.Tree.{decl_of, document_of, expr_of, maybe_expr};
ghost use Rattle.shexj_writer.specs.Documents.{declared_data, decls_items, document_data, shape_decl_data};
ghost use Rattle.shexj_writer.specs.Expressions.{value_expr_data};
ghost use Rattle.shexj_writer.specs.Held.{AreHeldDecls, IsHeldDocument, IsHeldExpr, IsHeldValueExpr};

use crate::expressions::expr_value;
use crate::objects::Object;
use crate::texts::{label_value, text_values};
use schema_documents::{Decl, Doc, DocExpr};
use serde_json::Value;
use std::alloc::{AllocError, Global};

/// The context of ShExJ in JSON-LD (ShEx 2.1, appendix A).
const CONTEXT: &str = "http://www.w3.org/ns/shex.jsonld";

/// A ShapeDecl, in which a declared reference stands.
fn shape_decl_value(alloc: Global, id: Value, inside: Value) -> Result<Value, AllocError>
    ensures { IfOk result (λ v. view v ≡ shape_decl_data (view id) (view inside)) }
{
    let mut object = Object::new(alloc);
    object.put_word("type", "ShapeDecl")?;
    object.put("shapeExpr", inside)?;
    object.put("id", id)?;
    Ok(object.into_value())
}

/// A declaration: an object with its label under `id`.
fn declaration_value(alloc: Global, decl: &Decl) -> Result<Value, AllocError>
    ensures value { IfOk result (λ v. view v ≡ declared_data decl.now.label (expr_of decl.now.expr)) }
    ensures label { OnOk result (IsTextLabel decl.now.label) }
    ensures held { OnOk result (IsHeldExpr (expr_of decl.now.expr)) }
{
    let id = label_value(alloc, &decl.label)?;
    match &decl.expr {
        DocExpr::Ref(target) => {
            let inside = label_value(alloc, target)?;
            shape_decl_value(alloc, id, inside)
        }
        expr => expr_value(alloc, expr, Some(id)),
    }
}

/// Declarations, in their order.
fn declaration_values(alloc: Global, decls: &[Decl]) -> Result<Vec<Value>, AllocError>
    ensures values { IfOk result (λ v. items_view v.items ≡ decls_items (map decl_of decls.now)) }
    ensures held { OnOk result (AreHeldDecls (map decl_of decls.now)) }
{
    let mut all = Vec::new(alloc);
    for decl in decls {
        let value = declaration_value(alloc, decl)?;
        all.push(value)?;
    }
    Ok(all)
}

/// What stands under `start`, if anything.
fn start_value(alloc: Global, start: Option<&DocExpr>) -> Result<Option<Value>, AllocError>
    ensures value { IfOk result (λ o. option_map view o ≡ value_expr_data (maybe_expr (option_map expr_of (option_copied start.entry)))) }
    ensures held { OnOk result (IsHeldValueExpr (maybe_expr (option_map expr_of (option_copied start.entry)))) }
{
    match start {
        Some(expr) => {
            let value = expr_value(alloc, expr, None)?;
            Ok(Some(value))
        }
        None => Ok(None),
    }
}

/// The JSON value of a document.
#[tactic(auto, unfolding(crate::specs::Documents::document_data))]
pub(crate) fn document_value(alloc: Global, doc: &Doc) -> Result<Value, AllocError>
    ensures value { IfOk result (λ v. view v ≡ document_data (document_of doc.now)) }
    ensures held { OnOk result (IsHeldDocument (document_of doc.now)) }
{
    let start = start_value(alloc, doc.start.as_ref())?;
    let shapes = declaration_values(alloc, doc.decls.as_slice())?;
    let imports = text_values(alloc, doc.imports.as_slice())?;
    let mut object = Object::new(alloc);
    object.put_word("type", "Schema")?;
    object.put_if("start", start)?;
    object.put_list("shapes", shapes)?;
    object.put_list("imports", imports)?;
    object.put_word("@context", CONTEXT)?;
    Ok(object.into_value())
}
