//! The documents of a schema.

ghost use Rattle.std.specs.Prelude.{◌≡◌, ◌∷◌, All, IfErr, IfOk, IsSome, List, OnOk, map};
ghost use Rattle.input_names.specs.Lent.{import_of};
ghost use Rattle.iri_resolve.specs.Reference.{scheme_of};
ghost use Rattle.rdf_lex.specs.Prefixes.{base_of};
ghost use Rattle.schema_documents.specs.Ordered.{IsOrderedDocument};
ghost use Rattle.schema_documents.specs.Tree.{document_of};
ghost use Rattle.schema_files.specs.Held.{digests_of, held_document};
ghost use Rattle.schema_files.specs.Refusals.{Explains, FaultsAs};
ghost use Rattle.schema_files.specs.Sources.{AreHeld, AreSources, Source, digest_list};

use crate::asked::Asked;
use crate::document::read_file;
use crate::error::{FilesError, SchemaFile};
use crate::held::Held;
use crate::imports::follow_all;
use input_names::Import;
use proof_file::head::Digest256;
use rdf_lex::Prefixes;
use rdf_terms::items::Items;
use schema_documents::Doc;
use schema_reader::Parsed;
use shex_io::Files;
use std::alloc::{AllocError, Global};

/// The digests of the files of a schema.
#[derive(Drop)]
pub struct FileDigests {
    /// That of the schema's file.
    pub root: Digest256,
    /// Those of the imported files, in the order in which they were read.
    pub imports: Items<Digest256>,
}

/// The documents of a schema.
#[derive(Drop)]
pub struct Documents {
    /// The documents: that of the schema's file first, and then those that are imported, in the order in which they were read.
    pub docs: Vec<Doc>,
    /// The base and the prefixes at the end of the first.
    pub names: Prefixes,
    /// The digests of their files.
    pub digests: FileDigests,
}

/// The documents, of which this is the first, from a file with this digest, and these follow.
fn documents_of(
    alloc: Global,
    root: Parsed,
    digest: Digest256,
    rest: Vec<Held>,
) -> Result<Documents, AllocError>
    ensures docs { IfOk result (λ d. map document_of d.docs.items ≡ document_of root.doc ∷ map held_document rest.items) }
    ensures names { IfOk result (λ d. d.names ≡ root.prefixes) }
    ensures digests { IfOk result (λ d. digest_list d.digests ≡ digest ∷ digests_of rest.items) }
{
    let Parsed {
        doc,
        prefixes: names,
    } = root;
    let mut docs = vec![in alloc; doc]?;
    let mut imports = Vec::new(alloc);
    for document in rest {
        imports.push(document.digest)?;
        docs.push(document.into_doc())?;
    }
    Ok(Documents {
        docs,
        names,
        digests: FileDigests {
            root: digest,
            imports: Items::of(imports),
        },
    })
}

/// The documents of the schema in the file of this name, whose base has a scheme. Each file is fetched and read in turn, in the
/// order of the imports, documents in theirs, and once, whichever words name it; the first that is not taken is named. An imported
/// document has the IRI by which it is imported as its base. Each import is looked up among the words. The digest of each file is
/// taken of the bytes that were read.
pub fn read_documents<F: Files>(
    alloc: Global,
    files: &mut F,
    root: &str,
    base: &str,
    words: &[Import<'_>],
) -> Result<Documents, FilesError>
    requires { IsSome (scheme_of base.now) }
    ensures sources { IfOk result (λ d. (ss : List Source) × AreSources (F.told files.old) (record { root = root.now; base = base.now; words = map import_of words.now }) ss × AreHeld d ss) }
    ensures ordered { IfOk result (λ d. All IsOrderedDocument (map document_of d.docs.items)) }
    ensures scheme { IfOk result (λ d. IsSome (scheme_of (base_of d.names))) }
    ensures cause { IfErr result (Explains (F.told files.old) (record { root = root.now; base = base.now; words = map import_of words.now })) }
    ensures faults { IfErr result (FaultsAs (record { root = root.now; base = base.now; words = map import_of words.now }) (F.faults files.old) (F.faults files.new) (F.blame files.new) (F.act files.new)) }
    ensures faults_stay { OnOk result (F.faults files.new ≡ F.faults files.old) }
    ensures told_stays { F.told files.new ≡ F.told files.old }
{
    schema_reader::schemas_are_ordered();
    let asked = Asked { root, base, words };
    let first = read_file(alloc, files, &asked, SchemaFile::Root)?;
    let mut held = vec![in alloc; first]?;
    follow_all(alloc, files, &asked, &mut held)?;
    let first = held.remove(0);
    let digest = first.digest;
    Ok(documents_of(alloc, first.into_parsed(), digest, held)?)
}
