//! The values of a value set.

ghost use Rattle.std.specs.Prelude.{◌≡◌, ◌↔◌, IsSomeAnd, IsTrue};
ghost use Rattle.std.specs.Option.{option_copied};
ghost use Rattle.value_sets.specs.Matching.{HasStem};
ghost use Rattle.value_sets.specs.Values.{IsExcludedBy, IsInRange, IsValue, iri_of, lexical_form_of, tag_of};

use crate::stems::{Matching, has_prefix, is_in_language};
use rdf_terms::items::Items;
use rdf_terms::terms::Term;
use rdf_terms::text::Text;

/// What a range leaves out: one text, or all that a stem takes (ShEx 2.1, section 5.4, Values Constraint). Of language tags
/// it is in lower case, as the tags of terms are.
#[derive(Debug, Drop)]
pub enum Except {
    /// This text: an IRI, a lexical form or a language tag, as the range is of.
    Exact(Text),
    /// All that has this stem.
    Stem(Text),
}

/// What a range leaves out, as a list.
pub type Exceptions = Items<Except>;

/// A value of a value set (ShEx 2.1, section 5.4, Values Constraint). A range without a stem is that of all terms of its kind.
/// Language tags and their stems are in lower case, as the tags of terms are; one with a capital letter holds for no term.
#[derive(Debug, Drop)]
pub enum Value {
    /// This term alone.
    Term(Term),
    /// The IRIs that begin with this text.
    IriStem(Text),
    /// The literals whose lexical form begins with this text.
    LitStem(Text),
    /// The literals with this language tag.
    Lang(Text),
    /// The literals with this language tag, or one that goes on behind it with a hyphen; with any tag if it is empty.
    LangStem(Text),
    /// The IRIs of a stem, but for some.
    IriRange(Option<Text>, Exceptions),
    /// The literals whose lexical forms have a stem, but for some forms.
    LitRange(Option<Text>, Exceptions),
    /// The literals whose language tags have a stem, but for some tags.
    LangRange(Option<Text>, Exceptions),
}

impl Value {
    /// Whether the value holds for the term (ShEx 2.1, section 5.4, Values Constraint).
    pub fn takes(&self, term: &Term) -> bool
        ensures { IsTrue result ↔ IsValue self.now term.now }
    {
        match self {
            Value::Term(value) => is_same(value, term),
            Value::IriStem(stem) => iri_of(term).is_some_and(|iri| has_prefix(stem, iri)),
            Value::LitStem(stem) => lexical_form_of(term).is_some_and(|lex| has_prefix(stem, lex)),
            Value::Lang(tag) => has_tag(tag, term),
            Value::LangStem(stem) => tag_of(term).is_some_and(|tag| is_in_language(stem, tag)),
            Value::IriRange(stem, exceptions) => {
                is_in_range(Matching::Prefix, stem.as_ref(), exceptions, iri_of(term))
            }
            Value::LitRange(stem, exceptions) => {
                is_in_range(
                    Matching::Prefix,
                    stem.as_ref(),
                    exceptions,
                    lexical_form_of(term),
                )
            }
            Value::LangRange(stem, exceptions) => {
                is_in_range(Matching::Language, stem.as_ref(), exceptions, tag_of(term))
            }
        }
    }
}

/// Whether the two are one term: IRIs, labels and the parts of literals are compared, and not what they stand for.
fn is_same(value: &Term, term: &Term) -> bool
    ensures { IsTrue result ↔ (term.now ≡ value.now) }
{
    value == term
}

/// The IRI, if the term is one.
fn iri_of(term: &Term) -> Option<&Text>
    ensures { option_copied result ≡ iri_of term.now }
{
    match term {
        Term::Iri(iri) => Some(iri),
        _ => None,
    }
}

/// The lexical form, if the term is a literal.
fn lexical_form_of(term: &Term) -> Option<&Text>
    ensures { option_copied result ≡ lexical_form_of term.now }
{
    match term {
        Term::Lit(literal) => Some(literal.lex()),
        _ => None,
    }
}

/// The language tag, if the term is a literal with one.
fn tag_of(term: &Term) -> Option<&Text>
    ensures { option_copied result ≡ tag_of term.now }
{
    match term {
        Term::Lit(literal) => literal.lang(),
        _ => None,
    }
}

/// Whether the term is a literal with this language tag.
fn has_tag(tag: &Text, term: &Term) -> bool
    ensures { IsTrue result ↔ (tag_of term.now ≡ Some tag.now) }
{
    match tag_of(term) {
        Some(own) => own == tag,
        None => false,
    }
}

/// Whether there is a text, it has the stem, if one is given, and no exception takes it.
fn is_in_range(
    matching: Matching,
    stem: Option<&Text>,
    exceptions: &Exceptions,
    text: Option<&Text>,
) -> bool
    ensures { IsTrue result ↔ IsSomeAnd (option_copied text.entry) (IsInRange (HasStem matching) (option_copied stem.entry) exceptions.now) }
{
    let Some(text) = text else {
        return false;
    };
    let has_stem = stem.is_none_or(|stem| matching.has_stem(stem, text));
    has_stem
        && !exceptions
            .as_slice()
            .iter()
            .any(|e| is_excluded_by(matching, e, text))
}

/// Whether the exception takes the text.
fn is_excluded_by(matching: Matching, exception: &Except, text: &Text) -> bool
    ensures { IsTrue result ↔ IsExcludedBy (HasStem matching) exception.now text.now }
{
    match exception {
        Except::Exact(exact) => text == exact,
        Except::Stem(stem) => matching.has_stem(stem, text),
    }
}
