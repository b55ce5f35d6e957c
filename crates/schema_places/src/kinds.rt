//! The things for which documents are refused without a place.

ghost use Rattle.std.specs.Prelude.{◌≡◌, ◌↔◌, IsTrue, Some};
ghost use Rattle.schema_places.specs.Things.{thing_of};

use schema_documents::SchemaError;

/// A thing for which a document in ShExC is refused without a place.
#[derive(Clone, Copy, Debug, PartialEq, Eq)]
pub enum Thing {
    /// A word of a later version: `ABSTRACT`, `EXTENDS` or `RESTRICTS`.
    Word,
    /// The `%` of a semantic action.
    Action,
    /// `EXTERNAL`.
    External,
    /// A facet on numbers that has a number in floating point, or stands beside xsd:float or xsd:double.
    FloatFacet,
    /// The number of a facet.
    FacetNumber,
    /// A pattern.
    Pattern,
    /// A bracket that opens too deep.
    Bracket,
}

/// The thing of which an error tells; none where it tells of a place, or of something else.
pub fn thing_of(error: &SchemaError) -> Option<Thing>
    ensures { result ≡ thing_of error.now }
{
    match error {
        SchemaError::Form(_) => Some(Thing::Word),
        SchemaError::Action => Some(Thing::Action),
        SchemaError::External => Some(Thing::External),
        SchemaError::FloatFacet => Some(Thing::FloatFacet),
        SchemaError::FacetNumber => Some(Thing::FacetNumber),
        SchemaError::Pattern(_) => Some(Thing::Pattern),
        SchemaError::Deep => Some(Thing::Bracket),
        SchemaError::NotUtf8
        | SchemaError::Json
        | SchemaError::Syntax(_)
        | SchemaError::Key(_)
        | SchemaError::Prefix(_)
        | SchemaError::Memory => None,
    }
}

/// Whether the error tells of this thing.
pub fn tells_of(error: &SchemaError, thing: Thing) -> bool
    ensures { IsTrue result ↔ (thing_of error.now ≡ Some thing) }
{
    match thing_of(error) {
        Some(found) => found == thing,
        None => false,
    }
}
