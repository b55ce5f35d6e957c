//! The formats of data.

/// A format of data.
#[derive(Clone, Copy, Debug, PartialEq, Eq)]
pub enum Format {
    /// RDF 1.1 N-Triples.
    NTriples,
    /// RDF 1.1 Turtle.
    Turtle,
}

impl Format {
    ghost use Rattle.std.specs.Prelude.{◌≡◌};
    ghost use Rattle.data_reader.specs.Formats.{format_of};

    /// The format of a file by its name: Turtle exactly where the name ends in `.ttl`, in lower case (own).
    pub fn of_name(name: &str) -> Format
        ensures { result ≡ format_of name.now }
    {
        if name.ends_with(".ttl") {
            Format::Turtle
        } else {
            Format::NTriples
        }
    }
}
