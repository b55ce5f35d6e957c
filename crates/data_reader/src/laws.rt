//! Laws of data, for those who read what `read` says.

ghost use Rattle.data_reader.specs.Documents.{DataHaveLines};

/// The law that under a base on one line each term of data can stand on one line, in either format, and that the base and
/// the IRI of each prefix at the end of the data are on one line.
pub fn data_have_lines()
    ensures { DataHaveLines }
{
    nt_reader::documents_have_lines();
    turtle_reader::documents_have_lines();
}
