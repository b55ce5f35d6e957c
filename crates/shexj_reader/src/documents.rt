//! Documents and their declarations (ShEx 2.1, sections 5.1 to 5.3, and appendix A).

ghost use Rattle.std.specs.Prelude.{◌≡◌, ◌≢◌, IfErr, IfOk, OnOk, None, Some, codes, false, map, option_map};
ghost use Rattle.serde_json.specs.Find.{get};
ghost use Rattle.serde_json.specs.View.{view};
ghost use Rattle.schema_documents.specs.Tree.{decl_of, document_of, expr_of, maybe_expr};
ghost use Rattle.shexj_reader.specs.DocumentFaults.{DeclarationFault, DocumentFault, HasExprFault, IsAbstract, SchemaFault, ShapeDeclFault, ShapesFault};
ghost use Rattle.shexj_reader.specs.Documents.{IsDocument};
ghost use Rattle.shexj_reader.specs.Within.{AreShapes, IsDeclaration, IsDeclared, IsHead, IsStart};
ghost use Rattle.shexj_reader.specs.Faults.{Because};
ghost use Rattle.shexj_reader.specs.Keys.{flag, type_of};

use crate::expressions::read_expr;
use crate::labels::label_at;
use crate::objects::{bad_form, flag_at, has_type, no_acts, only_keys, texts_at};
use rdf_terms::items::Items;
use rdf_terms::text::Text;
use schema_documents::{Decl, Doc, DocExpr, SchemaError};
use serde_json::Value;
use std::alloc::Global;

/// How many shape and triple expressions may stand in one another (own).
const MAX_NESTING: u32 = 64;

/// Passes where the object is not abstract.
fn only_concrete(alloc: Global, value: &Value) -> Result<(), SchemaError>
    ensures ok { OnOk result (flag (get (codes "abstract") (view value.now)) ≡ Some false) }
    ensures cause { IfErr result (Because (λ f. IsAbstract f (view value.now))) }
{
    if flag_at(alloc, value, "abstract")? {
        return Err(bad_form(alloc, "abstract"));
    }
    Ok(())
}

/// The shape expression that a ShapeDecl declares, which is not abstract.
fn read_declared(alloc: Global, value: &Value) -> Result<DocExpr, SchemaError>
    ensures ok { IfOk result (λ e. IsDeclared (expr_of e) (view value.now)) }
    ensures cause { IfErr result (Because (λ f. ShapeDeclFault f (view value.now))) }
{
    let Some(child) = value.get("shapeExpr") else {
        return Err(bad_form(alloc, "shapeExpr"));
    };
    let expr = read_expr(alloc, "shapeExpr", child, false, MAX_NESTING)?;
    only_concrete(alloc, value).map(move |()| expr)
}

/// The declaration that a ShapeDecl is.
fn read_shape_decl(alloc: Global, value: &Value) -> Result<Decl, SchemaError>
    requires { type_of (view value.now) ≡ Some (codes "ShapeDecl") }
    ensures ok { IfOk result (λ d. IsDeclaration (decl_of d) (view value.now)) }
    ensures cause { IfErr result (Because (λ f. DeclarationFault f (view value.now))) }
{
    only_keys(alloc, value, &["abstract", "id", "shapeExpr", "type"])?;
    let label = label_at(alloc, value)?;
    read_declared(alloc, value).map(move |expr| Decl { label, expr })
}

/// A declaration, an item of `shapes`: a ShapeDecl, or a shape expression with a label.
fn read_declaration(alloc: Global, value: &Value) -> Result<Decl, SchemaError>
    ensures ok { IfOk result (λ d. IsDeclaration (decl_of d) (view value.now)) }
    ensures cause { IfErr result (Because (λ f. DeclarationFault f (view value.now))) }
{
    if has_type(value, "ShapeDecl") {
        return read_shape_decl(alloc, value);
    }
    let expr = read_expr(alloc, "shapes", value, true, MAX_NESTING)?;
    label_at(alloc, value).map(move |label| Decl { label, expr })
}

/// The start expression, if there is one.
fn read_start(alloc: Global, value: Option<&Value>) -> Result<Option<DocExpr>, SchemaError>
    ensures ok { IfOk result (λ e. IsStart (maybe_expr (option_map expr_of e)) (option_map (λ v. view v.now) value.entry)) }
    ensures cause { IfErr result (Because (λ f. HasExprFault (codes "start") f (option_map (λ v. view v.now) value.entry))) }
{
    let Some(value) = value else {
        return Ok(None);
    };
    read_expr(alloc, "start", value, false, MAX_NESTING).map(Some)
}

/// The declarations of a list, none where there is no list.
fn read_shapes(alloc: Global, value: Option<&Value>) -> Result<Vec<Decl>, SchemaError>
    ensures ok { IfOk result (λ v. AreShapes (map decl_of v.items) (option_map (λ v. view v.now) value.entry)) }
    ensures cause { IfErr result (Because (λ f. ShapesFault f (option_map (λ v. view v.now) value.entry))) }
{
    let mut all = Vec::new(alloc);
    let Some(value) = value else {
        return Ok(all);
    };
    let Some(items) = value.as_array() else {
        return Err(bad_form(alloc, "shapes"));
    };
    for item in items {
        let decl = read_declaration(alloc, item)?;
        all.push(decl)?;
    }
    Ok(all)
}

/// The imports of a Schema that has no actions at its start and no keys but its own.
fn read_head(alloc: Global, value: &Value) -> Result<Vec<Text>, SchemaError>
    requires { type_of (view value.now) ≡ Some (codes "Schema") }
    ensures ok { IfOk result (λ v. IsHead v.items (view value.now)) }
    ensures cause { IfErr result (Because (λ f. SchemaFault f (view value.now))) }
{
    only_keys(
        alloc,
        value,
        &[
            "@context",
            "imports",
            "shapes",
            "start",
            "startActs",
            "type",
        ],
    )?;
    let imports = texts_at(alloc, value, "imports")?;
    no_acts(alloc, value, "startActs").map(move |()| imports)
}

/// A Schema.
fn read_schema(alloc: Global, value: &Value) -> Result<Doc, SchemaError>
    requires { type_of (view value.now) ≡ Some (codes "Schema") }
    ensures ok { IfOk result (λ d. IsDocument (document_of d) (view value.now)) }
    ensures cause { IfErr result (Because (λ f. SchemaFault f (view value.now))) }
{
    let imports = read_head(alloc, value)?;
    let start = read_start(alloc, value.get("start"))?;
    read_shapes(alloc, value.get("shapes")).map(move |decls| Doc {
        imports: Items::of(imports),
        start,
        decls: Items::of(decls),
    })
}

/// The document that the value stands for (ShEx 2.1, section 5.1).
pub(crate) fn read_document(alloc: Global, value: &Value) -> Result<Doc, SchemaError>
    ensures ok { IfOk result (λ d. IsDocument (document_of d) (view value.now)) }
    ensures cause { IfErr result (Because (λ f. DocumentFault f (view value.now))) }
{
    if !has_type(value, "Schema") {
        return Err(bad_form(alloc, "type"));
    }
    read_schema(alloc, value)
}
