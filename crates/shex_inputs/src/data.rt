//! A schema and the graph of data in one table.

ghost use Rattle.std.specs.Prelude.{◌≡◌, All, IfErr, IfOk, IfSome, IsSome, List, OnOk, [], is_some};
ghost use Rattle.iri_resolve.specs.Reference.{scheme_of};
ghost use Rattle.rdf_lex.specs.Prefixes.{base_of};
ghost use Rattle.lists.specs.Distinct.{AreDistinct};
ghost use Rattle.graph_index.specs.Laws.{IsOfTable};
ghost use Rattle.graph_index.specs.declared.loading.TermTriple.{TermTriple};
ghost use Rattle.graph_index.specs.Loading.{IsWithin, Loads};
ghost use Rattle.data_reader.specs.Documents.{IsData, context_of};
ghost use Rattle.proof_file.specs.declared.head.Digests.{Digests as FilesDigests};
ghost use Rattle.schema_documents.specs.Tree.{Document};
ghost use Rattle.shex_inputs.specs.Held.{IsHolding, IsSchemaOf, digests_with, held_by, wants_digests};
ghost use Rattle.shex_inputs.specs.Stops.{ReadingStops};

use crate::holding::{Holding, Taken};
use crate::schema::Loaded;
use crate::wanted::Wanted;
use data_reader::Format;
use graph_index::graph::Graph;
use graph_index::read_error::ReadError;
use proof_file::head::Digests;
use rdf_lex::Prefixes;
use rdf_terms::table::TermTable;
use schema_files::{FileDigests, digest_of};
use std::alloc::Global;

/// The graph of a source in a format, whose terms the table takes up, and the base and the prefixes at its end.
fn read_data(
    alloc: Global,
    format: Format,
    base: &str,
    source: &[u8],
    terms: &mut TermTable,
) -> Result<(Graph, Prefixes), ReadError>
    requires { IsSome (scheme_of base.now) }
    ensures read { IfOk result (λ r. (triples : List TermTriple) × IsData format base.now (context_of r.1, triples) source.now × Loads terms.old [] triples terms.new r.0.triples) }
    ensures within { IfOk result (λ r. IsWithin terms.new r.0.triples) }
    ensures scheme { IfOk result (λ r. IsSome (scheme_of (base_of r.1))) }
    ensures distinct { OnOk result (AreDistinct terms.new) }
    ensures unread { IfErr result (ReadingStops format base.now terms.old source.now) }
{
    let mut graph = Graph::new(alloc);
    let read = data_reader::read(alloc, format, base, source, terms, &mut graph);
    // Their lengths tell contracts that they are within the limits.
    let _terms = terms.len();
    let _triples = graph.len();
    let names = read?;
    Ok((graph, names))
}

/// The digests of the files of a schema and that of the source of the data, where they are wanted.
fn digests_if(wanted: Wanted, digests: FileDigests, source: &[u8]) -> Option<Digests>
    ensures kept { IfSome result (λ d. d ≡ digests_with digests source.now) }
    ensures wanted { is_some result ≡ wants_digests wanted }
{
    let FileDigests { root, imports } = digests;
    match wanted {
        Wanted::Contents => None,
        Wanted::Digests => Some(Digests {
            schema: root,
            imports,
            graph: digest_of(source),
        }),
    }
}

/// What a source in a format holds under a base, whose terms go into the table of a loaded schema, with the digest of the source
/// beside those of the schema's files, where they are wanted.
pub fn hold(
    alloc: Global,
    loaded: Loaded,
    format: Format,
    base: &str,
    source: &[u8],
    wanted: Wanted,
) -> Result<Taken, ReadError>
    requires scheme { IsSome (scheme_of base.now) }
    ensures read { (docs : List Document) (files : FilesDigests) → IsSchemaOf docs loaded.terms loaded.schema loaded.strata →
        IfOk result (λ t. (triples : List TermTriple) × IsData format base.now (context_of t.holding.names, triples) source.now ×
        IsHolding docs triples (held_by t.holding files)) }
    ensures schema { IfOk result (λ t. t.holding.schema ≡ loaded.schema) }
    ensures labels { IfOk result (λ t. t.holding.labels ≡ loaded.labels) }
    ensures kept { IfOk result (λ t. IfSome t.files (λ d. d ≡ digests_with loaded.digests source.now)) }
    ensures wanted { IfOk result (λ t. is_some t.files ≡ wants_digests wanted) }
    ensures scheme { IfOk result (λ t. IsSome (scheme_of (base_of t.holding.names))) }
    ensures of_table { IfOk result (λ t. All (IsOfTable t.holding.terms) t.holding.graph.triples) }
    ensures unread { IfErr result (ReadingStops format base.now loaded.terms source.now) }
{
    let Loaded {
        schema,
        strata,
        mut terms,
        labels,
        digests,
    } = loaded;
    let (graph, names) = read_data(alloc, format, base, source, &mut terms)?;
    let files = digests_if(wanted, digests, source);
    let holding = Holding {
        terms,
        schema,
        strata,
        labels,
        graph,
        names,
    };
    Ok(Taken { holding, files })
}
