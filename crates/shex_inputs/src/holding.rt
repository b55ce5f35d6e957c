//! What the files of the schema and the data file hold.

ghost use Rattle.std.specs.Prelude.{◌≡◌, ◌<◌, All, IfErr, IfOk, IsSome, List, OnOk, is_some, length, map, true};
ghost use Rattle.input_names.specs.Names.{Text, is_base};
ghost use Rattle.iri_resolve.specs.Reference.{scheme_of};
ghost use Rattle.rdf_lex.specs.Prefixes.{base_of};
ghost use Rattle.graph_index.specs.Laws.{IsOfTable};
ghost use Rattle.lists.specs.Distinct.{AreDistinct};
ghost use Rattle.schema_documents.specs.Tree.{document_of};
ghost use Rattle.schema_files.specs.Sources.{AreHeld, AreSources, Source as SchemaSource, digest_list, source_digests};
ghost use Rattle.schema_load.specs.Parts.{AreOrdered};
ghost use Rattle.schema_load.specs.Reading.{parts_of};
ghost use Rattle.schema_tree.specs.Edges.{IsStratum};
ghost use Rattle.schema_tree.specs.Loaded.{IsLoaded};
ghost use Rattle.term_tokens.specs.Scopes.{scope_of};
ghost use Rattle.shex_inputs.specs.Held.{HasTaken, wants_digests};
ghost use Rattle.shex_inputs.specs.Refusals.{Takes};
ghost use Rattle.shex_inputs.specs.Named.{asked_of, inputs_with};
ghost use Rattle.shex_inputs.specs.Outcomes.{Explains, FaultsAs, IsBeforeMap, IsOfSchema};

use crate::data::hold;
use crate::error::{InputError, Source, data_error, files_error};
use crate::fetch::fetch;
use crate::schema::{Loaded, load_schema};
use crate::wanted::Wanted;
use data_reader::Format;
use graph_index::graph::Graph;
use input_names::Inputs;
use proof_file::head::Digests;
use rdf_lex::Prefixes;
use rdf_terms::table::TermTable;
use schema_files::{Documents, read_documents};
use schema_tree::schema::Schema;
use shex_io::Files;
use std::alloc::Global;
use strata::list::Strata;

/// A schema with the strata of its Shapes and a graph in the numbers of one table of terms, with the base and the prefixes at the
/// end of the schema file and of the data.
#[derive(Drop)]
pub struct Holding {
    /// The terms.
    pub terms: TermTable,
    /// The schema.
    pub schema: Schema,
    /// The strata of its Shapes.
    pub strata: Strata,
    /// The base and the prefixes at the end of the schema file.
    pub labels: Prefixes,
    /// The graph.
    pub graph: Graph,
    /// The base and the prefixes at the end of the data.
    pub names: Prefixes,
}

/// What is taken of the files of a schema and of data.
#[derive(Drop)]
pub struct Taken {
    /// What they hold.
    pub holding: Holding,
    /// The digests of the files of the schema and of the data file, where they were wanted.
    pub files: Option<Digests>,
}

/// The documents of the schema of inputs.
fn schema_documents<F: Files>(
    alloc: Global,
    files: &mut F,
    inputs: &Inputs<'_>,
) -> Result<Documents, InputError>
    requires { is_base inputs.now.schema_base.now ≡ true }
    ensures taken { (map_name : Text) → IfOk result (λ d. (ss : List SchemaSource) × AreSources (F.told files.old) (asked_of (inputs_with inputs.now map_name)) ss × AreHeld d ss) }
    ensures root { IfOk result (λ d. 0 < length d.docs.items) }
    ensures ordered { IfOk result (λ d. AreOrdered (parts_of (map document_of d.docs.items))) }
    ensures scheme { IfOk result (λ d. IsSome (scheme_of (base_of d.names))) }
    ensures of_schema { IfErr result IsOfSchema }
    ensures before_map { IfErr result IsBeforeMap }
    ensures cause { (map_name : Text) → IfErr result (Explains (F.told files.old) (inputs_with inputs.now map_name)) }
    ensures faults { (map_name : Text) → IfErr result (FaultsAs (inputs_with inputs.now map_name) (F.faults files.old) (F.faults files.new) (F.blame files.new) (F.act files.new)) }
    ensures faults_stay { OnOk result (F.faults files.new ≡ F.faults files.old) }
    ensures told_stays { F.told files.new ≡ F.told files.old }
{
    let words = inputs.imports.as_slice();
    match read_documents(alloc, files, inputs.schema, inputs.schema_base, words) {
        Ok(documents) => Ok(documents),
        Err(error) => Err(files_error(error)),
    }
}

/// The schema of inputs, whose base has a scheme, with the strata of its Shapes and the digests of its files (ShEx 2.1, sections 5.1,
/// 5.7 and 6). The schema file is fetched and read first, then those of the documents that are imported; the first that is not taken is
/// named. The table has the predicates of the schema.
pub fn read_schema<F: Files>(
    alloc: Global,
    files: &mut F,
    inputs: &Inputs<'_>,
) -> Result<Loaded, InputError>
    requires { is_base inputs.now.schema_base.now ≡ true }
    ensures taken { (map_name : Text) → IfOk result (λ l. (taken : Takes (F.told files.old) (inputs_with inputs.now map_name) l.terms l.schema l.strata (scope_of l.labels)) × (digest_list l.digests ≡ source_digests taken.sources)) }
    ensures loaded { IfOk result (λ l. IsLoaded l.schema) }
    ensures labels { IfOk result (λ l. IsSome (scheme_of (base_of l.labels))) }
    ensures of_schema { IfErr result IsOfSchema }
    ensures before_map { IfErr result IsBeforeMap }
    ensures cause { (map_name : Text) → IfErr result (Explains (F.told files.old) (inputs_with inputs.now map_name)) }
    ensures faults { (map_name : Text) → IfErr result (FaultsAs (inputs_with inputs.now map_name) (F.faults files.old) (F.faults files.new) (F.blame files.new) (F.act files.new)) }
    ensures faults_stay { OnOk result (F.faults files.new ≡ F.faults files.old) }
    ensures told_stays { F.told files.new ≡ F.told files.old }
{
    let documents = schema_documents(alloc, files, inputs)?;
    load_schema(alloc, documents)
}

/// What the files of the schema and the data file hold, whose bases have a scheme. Each is fetched and read in turn, the schema
/// file first, then those of the documents that are imported, then the data; the first that is not taken is named. The table has
/// the predicates of the schema first, and then the terms of the data in their order. The digest of each file, where they are
/// wanted, is taken of the bytes that were read.
pub fn read_holding<F: Files>(
    alloc: Global,
    files: &mut F,
    inputs: &Inputs<'_>,
    wanted: Wanted,
) -> Result<Taken, InputError>
    requires schema_base { is_base inputs.now.schema_base.now ≡ true }
    requires data_base { is_base inputs.now.data_base.now ≡ true }
    ensures taken { (map_name : Text) → IfOk result (HasTaken (F.told files.old) (inputs_with inputs.now map_name)) }
    ensures wanted { IfOk result (λ t. is_some t.files ≡ wants_digests wanted) }
    ensures loaded { IfOk result (λ t. IsLoaded t.holding.schema) }
    ensures strata { IfOk result (λ t. IsStratum t.holding.schema t.holding.strata) }
    ensures distinct { IfOk result (λ t. AreDistinct t.holding.terms) }
    ensures scheme { IfOk result (λ t. IsSome (scheme_of (base_of t.holding.names))) }
    ensures labels { IfOk result (λ t. IsSome (scheme_of (base_of t.holding.labels))) }
    ensures of_table { IfOk result (λ t. All (IsOfTable t.holding.terms) t.holding.graph.triples) }
    ensures before_map { IfErr result IsBeforeMap }
    ensures cause { (map_name : Text) → IfErr result (Explains (F.told files.old) (inputs_with inputs.now map_name)) }
    ensures faults { (map_name : Text) → IfErr result (FaultsAs (inputs_with inputs.now map_name) (F.faults files.old) (F.faults files.new) (F.blame files.new) (F.act files.new)) }
    ensures faults_stay { OnOk result (F.faults files.new ≡ F.faults files.old) }
    ensures told_stays { F.told files.new ≡ F.told files.old }
{
    let loaded = read_schema(alloc, files, inputs)?;
    let bytes = fetch(alloc, files, inputs.data, Source::Data)?;
    let format = Format::of_name(inputs.data);
    let source = bytes.as_slice();
    match hold(alloc, loaded, format, inputs.data_base, source, wanted) {
        Ok(taken) => Ok(taken),
        Err(error) => Err(data_error(error)),
    }
}
