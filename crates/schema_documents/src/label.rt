//! Labels.

ghost use Rattle.std.specs.Prelude.{◌≡◌, IfOk, string_bytes};
ghost use Rattle.schema_documents.specs.Labels.{IsTextLabel, label_text};

use rdf_terms::text::Text;
use std::alloc::{AllocError, Global};
use std::fmt;

/// The name of a shape expression or of a triple expression (ShEx 2.1, sections 5.3 and 5.5): an IRI, or a blank node's
/// label without `_:`.
#[derive(Debug, Drop, PartialEq, Eq, Hash)]
pub enum Label {
    /// An IRI.
    Iri(Text),
    /// A blank node's label, without `_:`.
    Blank(Text),
}

impl fmt::Display for Label {
    ghost use Rattle.std.specs.Prelude.{Some};
    ghost use Rattle.schema_documents.specs.Labels.{label_text};

    ghost output = { λ l. Some (label_text l) };

    /// An IRI in angle brackets, or `_:` and a blank node's label (ShapeMap Structure and Language, section 4).
    fn fmt<W: fmt::Write>(&self, f: &mut fmt::Formatter<W>) -> fmt::Result {
        match self {
            Label::Iri(iri) => write!(f, "<{}>", iri.as_str()),
            Label::Blank(name) => write!(f, "_:{}", name.as_str()),
        }
    }
}

impl Label {
    /// A copy of the label.
    pub fn try_clone(&self, alloc: Global) -> Result<Label, AllocError>
        ensures { IfOk result (λ l. l ≡ self.now) }
    {
        match self {
            Label::Iri(iri) => Ok(Label::Iri(iri.try_clone(alloc)?)),
            Label::Blank(name) => Ok(Label::Blank(name.try_clone(alloc)?)),
        }
    }

    /// Its text: an IRI in angle brackets, or `_:` and a blank node's label (ShapeMap Structure and Language, section 4).
    pub fn text(&self, alloc: Global) -> Result<String, AllocError>
        ensures written { IfOk result (λ s. string_bytes s ≡ label_text self.now) }
        ensures scalars { IsTextLabel self.now }
    {
        let _text = match self {
            Label::Iri(iri) => iri.as_str(),
            Label::Blank(name) => name.as_str(),
        };
        format!(in alloc; "{self}")
    }
}
