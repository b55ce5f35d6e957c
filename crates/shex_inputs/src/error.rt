//! Why inputs are not taken.

ghost use Rattle.std.specs.Prelude.{◌≡◌};
ghost use Rattle.shex_inputs.specs.Outcomes.{IsRefusalOf};
ghost use Rattle.shex_inputs.specs.Stops.{demand_stop, files_stop, strata_stop};

use demand::DemandError;
use graph_index::read_error::ReadError;
use rdf_terms::items::Items;
use rdf_terms::text::Text;
use schema_documents::SchemaError;
use schema_files::{FilesError, FilesRefusal, SchemaFile};
use schema_load::error::LoadError;
use schema_tree::schema::ShapeId;
use shape_map::MapError;
use strata::list::StrataError;

/// A file of the inputs.
#[derive(Clone, Copy, Debug, PartialEq, Eq)]
pub enum Source {
    /// A file of the schema.
    Schema(SchemaFile),
    /// The data.
    Data,
    /// The shape map.
    Map,
}

/// Why a file is refused. Want of memory is never the cause.
#[derive(Debug, Drop)]
pub enum Refusal {
    /// This file has more than 67,108,864 bytes.
    Size(Source),
    /// The bytes of this file of the schema spell no schema document that is read.
    Schema(SchemaFile, SchemaError),
    /// The document in this file of the schema imports another by this IRI, for which no word names a file.
    Import(SchemaFile, Text),
    /// The documents of the schema stand for none.
    Load(LoadError),
    /// These Shapes of the schema are a cycle of references with a negative one.
    NegatedCycle(Items<ShapeId>),
    /// The bytes of the data file are no data that are read.
    Data(ReadError),
    /// The bytes of the map file are no shape map, or its associations are refused.
    Map(MapError),
    /// The associations of the map ask for more than 4,194,304 pairs of a node and a Shape.
    Pairs,
}

impl Refusal {
    ghost use Rattle.std.specs.Prelude.{◌≡◌};
    ghost use Rattle.shex_inputs.specs.Named.{source_of};

    /// The file that is refused: the schema file, where its documents stand for no schema.
    pub fn source(&self) -> Source
        ensures { result ≡ source_of self.now }
    {
        match self {
            Refusal::Size(source) => *source,
            Refusal::Schema(file, _) => Source::Schema(*file),
            Refusal::Import(file, _) => Source::Schema(*file),
            Refusal::Load(_) => Source::Schema(SchemaFile::Root),
            Refusal::NegatedCycle(_) => Source::Schema(SchemaFile::Root),
            Refusal::Data(_) => Source::Data,
            Refusal::Map(_) => Source::Map,
            Refusal::Pairs => Source::Map,
        }
    }
}

/// Why the inputs are not taken.
#[derive(Debug, Drop)]
pub enum InputError {
    /// A file is refused.
    Refused(Refusal),
    /// The file was not fetched.
    Failed(Source),
    /// Memory ran out.
    Memory,
}

/// Why there are no inputs where the documents of the schema are not read.
pub(crate) fn files_error(error: FilesError) -> InputError
    ensures { result ≡ files_stop error }
{
    match error {
        FilesError::Refused(FilesRefusal::Size(file)) => {
            InputError::Refused(Refusal::Size(Source::Schema(file)))
        }
        FilesError::Refused(FilesRefusal::Document(file, error)) => {
            InputError::Refused(Refusal::Schema(file, error))
        }
        FilesError::Refused(FilesRefusal::Import(file, iri)) => {
            InputError::Refused(Refusal::Import(file, iri))
        }
        FilesError::Failed(file) => InputError::Failed(Source::Schema(file)),
        FilesError::Memory => InputError::Memory,
    }
}

/// Why there are no inputs where the documents of the schema stand for none.
pub(crate) fn load_error(error: LoadError) -> InputError
    ensures { IsRefusalOf LoadError.Memory (λ e. Refusal.Load e) error result }
{
    match error {
        LoadError::Memory => InputError::Memory,
        error => InputError::Refused(Refusal::Load(error)),
    }
}

/// Why there are no inputs where the schema has no strata.
pub(crate) fn strata_error(error: StrataError) -> InputError
    ensures { result ≡ strata_stop error }
{
    match error {
        StrataError::NegatedCycle(cycle) => InputError::Refused(Refusal::NegatedCycle(cycle)),
        StrataError::Memory => InputError::Memory,
    }
}

/// Why there are no inputs where the map asks for too much.
pub(crate) fn demand_error(error: DemandError) -> InputError
    ensures { result ≡ demand_stop error }
{
    match error {
        DemandError::Pairs => InputError::Refused(Refusal::Pairs),
        DemandError::Memory => InputError::Memory,
    }
}

/// Why there are no inputs where the data are not read.
pub(crate) fn data_error(error: ReadError) -> InputError
    ensures { IsRefusalOf ReadError.Memory (λ e. Refusal.Data e) error result }
{
    match error {
        ReadError::Memory => InputError::Memory,
        error => InputError::Refused(Refusal::Data(error)),
    }
}

/// Why there are no inputs where the map is not read, or its associations are refused.
pub(crate) fn map_error(error: MapError) -> InputError
    ensures { IsRefusalOf MapError.Memory (λ e. Refusal.Map e) error result }
{
    match error {
        MapError::Memory => InputError::Memory,
        error => InputError::Refused(Refusal::Map(error)),
    }
}
