//! Why a schema is refused.

ghost use Rattle.std.specs.Prelude.{◌≡◌};
ghost use Rattle.schema_documents.specs.declared.error.SchemaError.TheVariants.{Memory};

use rdf_terms::text::Text;
use std::alloc::{AllocError, AllocFailed};
use std::error::Error;
use std::fmt;
use xs_pattern::PatternError;

/// Why a schema was not read. A name is that of a key or a type, as it is written; a place is counted in bytes from 0. It
/// shows the text that a program prints for it.
#[derive(Debug, Drop, PartialEq, Eq)]
pub enum SchemaError {
    /// The bytes are not UTF-8.
    NotUtf8,
    /// The text is not JSON.
    Json,
    /// The text is of no form from this place on.
    Syntax(u64),
    /// An object has a key that its type does not list.
    Key(Text),
    /// A listed key is missing where it has to be there, or its value is not of its form.
    Form(Text),
    /// There are semantic actions.
    Action,
    /// There is an external shape expression.
    External,
    /// A range facet has a floating-point number, or a facet on numbers stands beside xsd:float or xsd:double.
    FloatFacet,
    /// The number of a facet is not whole, or not within its limits.
    FacetNumber,
    /// A pattern is refused.
    Pattern(PatternError),
    /// The prefix that stands at this place is not declared.
    Prefix(u64),
    /// Brackets or expressions nest too deep.
    Deep,
    /// Memory ran out.
    Memory,
}

impl fmt::Display for SchemaError {
    ghost use Rattle.std.specs.Prelude.{Some};
    ghost use Rattle.schema_documents.specs.Messages.{schema_text};

    ghost output = { λ e. Some (schema_text e) };

    fn fmt<W: fmt::Write>(&self, f: &mut fmt::Formatter<W>) -> fmt::Result {
        match self {
            SchemaError::NotUtf8 => f.write_str("NotUtf8"),
            SchemaError::Json => f.write_str("Json"),
            SchemaError::Syntax(at) => write!(f, "Syntax({at})"),
            SchemaError::Key(name) => write!(f, "Key({})", name.as_str()),
            SchemaError::Form(name) => write!(f, "Form({})", name.as_str()),
            SchemaError::Action => f.write_str("Action"),
            SchemaError::External => f.write_str("External"),
            SchemaError::FloatFacet => f.write_str("FloatFacet"),
            SchemaError::FacetNumber => f.write_str("FacetNumber"),
            SchemaError::Pattern(error) => write!(f, "Pattern({error})"),
            SchemaError::Prefix(at) => write!(f, "Prefix({at})"),
            SchemaError::Deep => f.write_str("Deep"),
            SchemaError::Memory => f.write_str("Memory"),
        }
    }
}

impl Error for SchemaError {}

impl From<AllocError> for SchemaError {
    ghost from_gives = { λ _ e. e ≡ Memory };

    fn from(_error: AllocError) -> SchemaError {
        SchemaError::Memory
    }
}

impl<T: Drop> From<AllocFailed<T>> for SchemaError {
    ghost from_gives = { λ _ e. e ≡ Memory };

    fn from(_error: AllocFailed<T>) -> SchemaError {
        SchemaError::Memory
    }
}
