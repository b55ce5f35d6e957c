//! The reader of a schema document.

ghost use Rattle.std.specs.Prelude.{◌≡◌, All, Err, IfErr, IfOk, IsSome, map};
ghost use Rattle.std.specs.Str.{IsUtf8};
ghost use Rattle.iri_resolve.specs.Reference.{scheme_of};
ghost use Rattle.rdf_lex.specs.Prefixes.{base_of};
ghost use Rattle.schema_documents.specs.Ordered.{IsOrderedDocument};
ghost use Rattle.schema_documents.specs.Tree.{document_of};
ghost use Rattle.schema_documents.specs.declared.error.SchemaError.TheVariants.{NotUtf8};
ghost use Rattle.shexc_reader.specs.Laws.{HasScheme};
ghost use Rattle.schema_reader.specs.declared.format.Format.TheVariants.{Json};
ghost use Rattle.schema_reader.specs.Documents.{AreNone, Explains, IsSchema, Read, ReadsAs, read_of, resolved_import};

use crate::format::Format;
use iri_resolve::resolve;
use rdf_lex::Prefixes;
use rdf_terms::items::Items;
use rdf_terms::text::Text;
use schema_documents::{Doc, SchemaError};
use shexc_reader::Parsed;
use std::alloc::Global;

/// The IRI for which a reference stands under a base, which has a scheme.
fn resolve_import(alloc: Global, base: &str, reference: &Text) -> Result<Text, SchemaError>
    requires { IsSome (scheme_of base.now) }
    ensures iri { IfOk result (λ iri. iri ≡ resolved_import base.now reference.now) }
    ensures scheme { IfOk result HasScheme }
    ensures memory { IfErr result (λ e. e ≡ SchemaError.Memory) }
{
    match resolve(alloc, base, reference.as_str()) {
        Ok(iri) => Ok(Text::from_string(iri)),
        Err(_) => Err(SchemaError::Memory),
    }
}

/// The imports of a document in ShExJ, resolved against a base, which has a scheme.
fn resolve_imports(
    alloc: Global,
    base: &str,
    references: &[Text],
) -> Result<Items<Text>, SchemaError>
    requires { IsSome (scheme_of base.now) }
    ensures iris { IfOk result (λ iris. iris ≡ map (resolved_import base.now) references.now) }
    ensures schemes { IfOk result (λ iris. All HasScheme iris) }
    ensures memory { IfErr result (λ e. e ≡ SchemaError.Memory) }
{
    let mut iris = Vec::new(alloc);
    for reference in references {
        iris.push(resolve_import(alloc, base, reference)?)?;
    }
    Ok(Items::of(iris))
}

/// Reads a document in ShExJ, whose base is the one that is given, and which declares no prefixes.
fn read_json(alloc: Global, base: &str, source: &[u8]) -> Result<Parsed, SchemaError>
    requires { IsSome (scheme_of base.now) }
    ensures found { IfOk result (λ p. IsSchema Json base.now (read_of p) source.now) }
    ensures complete { (r : Read) → IsSchema Json base.now r source.now → ReadsAs result r }
    ensures refused { IfErr result (λ e. Explains Json base.now e source.now) }
    ensures none { IfErr result (AreNone Json base.now source.now) }
    ensures not_utf8 { ¬ IsUtf8 source.now → result ≡ Err NotUtf8 }
    ensures scheme { IfOk result (λ p. IsSome (scheme_of (base_of p.prefixes))) }
    ensures imports { IfOk result (λ p. All HasScheme p.doc.imports) }
    ensures ordered { IfOk result (λ p. IsOrderedDocument (document_of p.doc)) }
{
    shexj_reader::laws::refused_are_none();
    shexj_reader::laws::documents_are_ordered();
    let doc = shexj_reader::read(alloc, source)?;
    let prefixes = Prefixes::new(alloc, base)?;
    let imports = resolve_imports(alloc, base, doc.imports.as_slice())?;
    Ok(Parsed {
        doc: Doc {
            imports,
            start: doc.start,
            decls: doc.decls,
        },
        prefixes,
    })
}

/// Reads a schema document in a format. References of ShExC are resolved against the base in force, at first `base`, which has a
/// scheme, and the imports of ShExJ against `base`; the other IRIs of ShExJ are taken as they are written. The answer has the base
/// and the prefixes at the end of the document; one in ShExJ has `base` and no prefix.
///
/// It fails as `NotUtf8` exactly where the bytes are not UTF-8, as `Memory`, and for each other cause only where the format's own
/// reader finds it in the bytes.
pub fn read(alloc: Global, format: Format, base: &str, source: &[u8]) -> Result<Parsed, SchemaError>
    requires { IsSome (scheme_of base.now) }

    // What was read is what the whole bytes are.
    ensures found { IfOk result (λ p. IsSchema format base.now (read_of p) source.now) }

    // What the bytes are is read.
    ensures complete { (r : Read) → IsSchema format base.now r source.now → ReadsAs result r }

    // What is refused has its cause in the bytes.
    ensures refused { IfErr result (λ e. Explains format base.now e source.now) }
    ensures none { IfErr result (AreNone format base.now source.now) }
    ensures not_utf8 { ¬ IsUtf8 source.now → result ≡ Err NotUtf8 }

    // The last base and each import have a scheme, and no minimum is above its bound.
    ensures scheme { IfOk result (λ p. IsSome (scheme_of (base_of p.prefixes))) }
    ensures imports { IfOk result (λ p. All HasScheme p.doc.imports) }
    ensures ordered { IfOk result (λ p. IsOrderedDocument (document_of p.doc)) }
{
    shexc_reader::documents_are_ordered();
    shexc_reader::imports_have_schemes();
    match format {
        Format::Compact => shexc_reader::read(alloc, source, base),
        Format::Json => read_json(alloc, base, source),
    }
}
