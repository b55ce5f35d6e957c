//! Laws of the definitions, for callers' proofs: each function's contract is a law, and it does nothing.

ghost use Rattle.schema_files.specs.Laws.{ReadIsNotLeft, RefusedIsOne, SourcesAreOne};

/// The documents of a schema are one list.
pub fn sources_are_one()
    ensures { SourcesAreOne }
{
    schema_reader::schemas_are_one();
}

/// Where the documents are read, no file is refused or absent.
pub fn read_is_not_left()
    ensures { ReadIsNotLeft }
{
    schema_reader::schemas_are_one();
}

/// A file that is refused is the only one, and none is absent.
pub fn refused_is_one()
    ensures { RefusedIsOne }
{
    schema_reader::schemas_are_one();
}
