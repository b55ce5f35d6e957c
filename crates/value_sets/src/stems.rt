//! How a stem is matched against a text.

ghost use Rattle.std.specs.Prelude.{◌↔◌, IsTrue};
ghost use Rattle.value_sets.specs.Stems.{HasPrefix, IsInLanguage};
ghost use Rattle.value_sets.specs.Matching.{HasStem, IsCut};

use rdf_terms::text::Text;

/// How a stem is matched against a text (ShEx 2.1, section 5.4, Values Constraint).
#[derive(Clone, Copy, Debug, PartialEq, Eq)]
pub(crate) enum Matching {
    /// The text begins with it.
    Prefix,
    /// The text is a language tag that it names or leads to.
    Language,
}

impl Matching {
    /// Whether the text has the stem.
    pub(crate) fn has_stem(self, stem: &Text, text: &Text) -> bool
        ensures { IsTrue result ↔ HasStem self stem.now text.now }
    {
        match self {
            Matching::Prefix => has_prefix(stem, text),
            Matching::Language => is_in_language(stem, text),
        }
    }
}

/// Whether the text begins with the stem.
pub(crate) fn has_prefix(stem: &Text, text: &Text) -> bool
    ensures { IsTrue result ↔ HasPrefix stem.now text.now }
{
    text.as_str().starts_with(stem.as_str())
}

/// Whether the tag is the stem, or goes on behind it with a hyphen; every tag has the empty stem.
pub(crate) fn is_in_language(stem: &Text, tag: &Text) -> bool
    ensures { IsTrue result ↔ IsInLanguage stem.now tag.now }
{
    match tag.as_str().strip_prefix(stem.as_str()) {
        Some(rest) => stem.as_str().is_empty() || is_cut(rest),
        None => false,
    }
}

/// Whether a part of a tag ends before these characters.
fn is_cut(rest: &str) -> bool
    ensures { IsTrue result ↔ IsCut rest.now }
{
    matches!(rest.as_bytes().first(), None | Some(b'-'))
}
