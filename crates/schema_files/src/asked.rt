//! The files of a schema, by their names.

ghost use Rattle.std.specs.Prelude.{◌≡◌, map};
ghost use Rattle.std.specs.List.{position};
ghost use Rattle.std.specs.Str.{bytes_eq};
ghost use Rattle.input_names.specs.Lent.{import_of};
ghost use Rattle.schema_files.specs.Named.{file_named};

use crate::error::SchemaFile;
use input_names::Import;
use rdf_terms::text::Text;

/// What is asked of the files: the schema and all that it imports.
#[derive(Clone, Copy)]
pub struct Asked<'a> {
    /// The name of the schema's file.
    pub root: &'a str,
    /// The base of its document.
    pub base: &'a str,
    /// The import words.
    pub words: &'a [Import<'a>],
}

/// The number of the first import word with this IRI, counted from 0.
fn number_of(words: &[Import<'_>], iri: &str) -> Option<usize>
    ensures { result ≡ position (λ word. bytes_eq word.iri.now iri.now) words.now }
{
    words.iter().position(|word| word.iri == iri)
}

/// The name of a file of a schema, by that of the schema's own file and the import words; the empty text where no word has its
/// number.
pub fn file_name<'a>(root: &'a str, words: &[Import<'a>], file: SchemaFile) -> &'a str
    ensures { result.now ≡ file_named root.now (map import_of words.now) file }
{
    match file {
        SchemaFile::Root => root,
        SchemaFile::Imported(number) => match words.get(number) {
            Some(word) => word.file,
            None => "",
        },
    }
}

impl<'a> Asked<'a> {
    ghost use Rattle.std.specs.Prelude.{◌≡◌, encode_utf8_all};
    ghost use Rattle.schema_files.specs.Held.{asked_of};
    ghost use Rattle.schema_files.specs.Named.{base_for, file_for, name_of};

    /// The name of a file.
    pub fn name(&self, file: SchemaFile) -> &'a str
        ensures { result.now ≡ name_of (asked_of self.now) file }
    {
        file_name(self.root, self.words, file)
    }

    /// Whether a file has this name.
    pub fn is_named(&self, file: SchemaFile, name: &str) -> bool
        ensures { result ≡ bytes_eq (name_of (asked_of self.now) file) name.now }
    {
        self.name(file) == name
    }

    /// The base of the document in a file: that of the schema, and the IRI of the import word.
    pub fn base(&self, file: SchemaFile) -> &'a str
        ensures { result.now ≡ base_for (asked_of self.now) file }
    {
        match file {
            SchemaFile::Root => self.base,
            SchemaFile::Imported(number) => match self.words.get(number) {
                Some(word) => word.iri,
                None => "",
            },
        }
    }

    /// The file of the first import word with this IRI.
    pub fn file_for(&self, iri: &Text) -> Option<SchemaFile>
        ensures { result ≡ file_for (asked_of self.now).words (encode_utf8_all iri.now) }
    {
        match number_of(self.words, iri.as_str()) {
            Some(number) => Some(SchemaFile::Imported(number)),
            None => None,
        }
    }
}
