//! The documents that were read.

ghost use Rattle.std.specs.Prelude.{All, IsSome};
ghost use Rattle.iri_resolve.specs.Reference.{scheme_of};
ghost use Rattle.rdf_lex.specs.Prefixes.{base_of};
ghost use Rattle.shexc_reader.specs.Laws.{HasScheme};

use crate::error::SchemaFile;
use proof_file::head::Digest256;
use rdf_terms::text::Text;
use schema_documents::Doc;
use schema_reader::Parsed;

/// A document that was read, with its file and the digest of that. Its last base and each of its imports have a scheme.
#[derive(Drop)]
pub struct Held {
    /// The file.
    pub file: SchemaFile,
    /// The digest of the file's bytes.
    pub digest: Digest256,
    /// The document, with the base and the prefixes at its end.
    pub parsed: Parsed,
    ghost scheme: { IsSome (scheme_of (base_of parsed.prefixes)) },
    ghost imports: { All HasScheme parsed.doc.imports },
}

impl Held {
    ghost use Rattle.std.specs.Prelude.{◌≡◌, ◌<◌, get_or, length};

    /// How many imports it has.
    pub fn import_count(&self) -> usize
        ensures { result ≡ length self.now.parsed.doc.imports }
    {
        self.parsed.doc.imports.as_slice().len()
    }

    /// The IRI of the import of this number, counted from 0, which it has.
    pub fn import(&self, number: usize) -> &Text
        requires { number < length self.now.parsed.doc.imports }
        ensures iri { result.now ≡ get_or self.now.parsed.doc.imports number result.now }
        ensures scheme { HasScheme result.now }
    {
        &self.parsed.doc.imports.as_slice()[number]
    }

    /// The document, with the base and the prefixes at its end.
    pub fn into_parsed(self) -> Parsed
        ensures parsed { result ≡ self.parsed }
        ensures scheme { IsSome (scheme_of (base_of result.prefixes)) }
    {
        self.parsed
    }

    /// The document alone.
    pub fn into_doc(self) -> Doc
        ensures { result ≡ self.parsed.doc }
    {
        let parsed = self.into_parsed();
        parsed.doc
    }
}
