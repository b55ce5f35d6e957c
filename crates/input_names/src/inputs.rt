//! The files of a schema and of data.

/// A file for the document that is imported by an IRI.
#[derive(Clone, Copy, Debug, PartialEq, Eq)]
pub struct Import<'a> {
    /// The IRI.
    pub iri: &'a str,
    /// The name of the file.
    pub file: &'a str,
}

/// The files of a schema and of data, and their bases.
#[derive(Debug, Drop, PartialEq, Eq)]
pub struct Inputs<'a> {
    /// The name of the schema file.
    pub schema: &'a str,
    /// The name of the data file.
    pub data: &'a str,
    /// The base of the schema.
    pub schema_base: &'a str,
    /// The base of the data.
    pub data_base: &'a str,
    /// The files for imported documents, each IRI once.
    pub imports: Vec<Import<'a>>,
}
