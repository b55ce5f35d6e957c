//! The formats of schemas.

/// A format of schemas.
#[derive(Clone, Copy, Debug, PartialEq, Eq)]
pub enum Format {
    /// ShExC, the compact syntax (ShEx 2.1, section 6).
    Compact,
    /// ShExJ, the JSON syntax (ShEx 2.1, appendix A).
    Json,
}

impl Format {
    ghost use Rattle.std.specs.Prelude.{◌≡◌};
    ghost use Rattle.schema_reader.specs.Formats.{format_of};

    /// The format of a file by its name: ShExC exactly where the name ends in `.shex`, in lower case (own).
    pub fn of_name(name: &str) -> Format
        ensures { result ≡ format_of name.now }
    {
        if name.ends_with(".shex") {
            Format::Compact
        } else {
            Format::Json
        }
    }
}
