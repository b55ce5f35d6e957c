//! Laws of the definitions, for callers' proofs: the contract of each function is the law, and it does nothing.

ghost use Rattle.schema_reader.specs.Laws.{NamesHaveLines, SchemasAreOne, SchemasAreOrdered};

/// Bytes are, in one format and under one base, one document at most.
pub fn schemas_are_one()
    ensures { SchemasAreOne }
{
    shexc_reader::documents_are_one();
    shexj_reader::laws::documents_are_one();
}

/// No minimum of a document that bytes are is above its bound.
pub fn schemas_are_ordered()
    ensures { SchemasAreOrdered }
{
    shexc_reader::documents_are_ordered();
    shexj_reader::laws::documents_are_ordered();
}

/// Where the base is on one line, so are the base and the IRI of each prefix at the end of a document.
pub fn names_have_lines()
    ensures { NamesHaveLines }
{
    shexc_reader::names_have_lines();
}
