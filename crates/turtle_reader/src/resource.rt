//! What a triple may be about.

ghost use Rattle.std.specs.Prelude.{◌≡◌, ◌↔◌, IfOk, IsTrue};
ghost use Rattle.turtle_reader.specs.Objects.{term_of};

use rdf_terms::terms::{Name, Term};
use rdf_terms::text::Text;
use std::alloc::{AllocError, Global};

/// Whether two texts have the same characters.
fn is_text(text: &Text, other: &Text) -> bool
    ensures { IsTrue result ↔ (text.now ≡ other.now) }
{
    text.as_str() == other.as_str()
}

/// Whether two names of blank nodes are the same.
fn is_name(name: &Name, other: &Name) -> bool
    ensures { IsTrue result ↔ (name.now ≡ other.now) }
{
    match (name, other) {
        (Name::Label(label), Name::Label(other)) => is_text(label, other),
        (Name::Fresh(number), Name::Fresh(other)) => number.get() == other.get(),
        _ => false,
    }
}

/// What a triple may be about: an IRI or a blank node (RDF 1.1 Concepts, section 3.1).
#[derive(Debug, Drop)]
pub enum Resource {
    /// An IRI.
    Iri(Text),
    /// A blank node.
    Blank(Name),
}

impl Resource {
    /// The term, without taking memory.
    pub fn into_term(self) -> Term
        ensures { result ≡ term_of self }
    {
        match self {
            Resource::Iri(iri) => Term::Iri(iri),
            Resource::Blank(name) => Term::Blank(name),
        }
    }

    /// A copy.
    pub fn try_clone(&self, alloc: Global) -> Result<Resource, AllocError>
        ensures { IfOk result (λ r. r ≡ self.now) }
    {
        match self {
            Resource::Iri(iri) => Ok(Resource::Iri(iri.try_clone(alloc)?)),
            Resource::Blank(name) => Ok(Resource::Blank(name.try_clone(alloc)?)),
        }
    }

    /// Whether both are the same term.
    pub fn is(&self, other: &Resource) -> bool
        ensures { IsTrue result ↔ (term_of self.now ≡ term_of other.now) }
    {
        match (self, other) {
            (Resource::Iri(iri), Resource::Iri(other)) => is_text(iri, other),
            (Resource::Blank(name), Resource::Blank(other)) => is_name(name, other),
            _ => false,
        }
    }
}
