//! Terms and triples of their numbers.

ghost use Rattle.std.specs.Prelude.{ℕ, ◌≡◌, ◌≤◌, IfOk, ◌&&◌, None, Some, ◌↔◌, IfSome, IsNone, map};
ghost use Rattle.std.specs.Option.{option_copied};
ghost use Rattle.std.specs.Str.{chars};
ghost use Rattle.std.specs.Char.{to_ascii_lowercase};
ghost use Rattle.std.specs.Cmp.{partial_equiv_from_equiv};
ghost use Rattle.std.specs.Hash as fed;
ghost use Rattle.rdf_terms.specs.Literals.{LiteralParts, IsLiteral, same_literal, literal_fed};
ghost use Rattle.lists.specs.Equality.{decided_equiv};
ghost use Rattle.rdf_terms.specs.Sameness.{literal_decides, literal_alike};
ghost use Rattle.rdf_terms.specs.Vocabulary.{xsd_string, rdf_lang_string};

use crate::text::Text;
use crate::vocabulary::{RDF_LANG_STRING, XSD_STRING};
use std::alloc::{AllocError, Global};
use std::hash::{Hash, Hasher};
use std::marker::Model;

/// The number of a term: its place in its table.
#[derive(Clone, Copy, Debug, PartialEq, Eq, Hash)]
pub struct TermId(pub u32);

/// A directed, labelled arc: subject, predicate and object (RDF 1.1 Concepts, section 3.1).
#[derive(Clone, Copy, Debug, PartialEq, Eq, Hash)]
pub struct Triple {
    /// The subject.
    pub s: TermId,
    /// The predicate.
    pub p: TermId,
    /// The object.
    pub o: TermId,
}

/// The name of a blank node: a written label, or the n-th anonymous node of a document, n from 1.
#[derive(Debug, Drop, PartialEq, Eq, Hash)]
pub enum Name {
    /// A label as written, without `_:`.
    Label(Text),
    /// The number of an anonymous node.
    Fresh(FreshNumber),
}

impl Name {
    /// A copy of the name.
    pub fn try_clone(&self, alloc: Global) -> Result<Name, AllocError>
        ensures { IfOk result (λ n. n ≡ self.now) }
    {
        match self {
            Name::Label(label) => Ok(Name::Label(label.try_clone(alloc)?)),
            Name::Fresh(number) => Ok(Name::Fresh(*number)),
        }
    }
}

/// The number of an anonymous node, from 1 to 4,294,967,295, which contracts see as a number.
#[derive(Clone, Copy, Debug, PartialEq, Eq, Hash)]
pub struct FreshNumber {
    number: u32,
}

impl Model for FreshNumber {
    ghost use Rattle.std.specs.Prelude.{ℕ, ◌≤◌};

    ghost Value = { ℕ };

    ghost view = { λ f. f.number };

    ghost inverse = { λ n. record { number = n } };

    ghost invariant = { λ f. (1 ≤ f.number) × (f.number ≤ 4294967295) };
}

impl FreshNumber {
    /// The number of the n-th anonymous node, n from 1.
    pub fn new(number: u32) -> FreshNumber
        requires { 1 ≤ number }
        ensures { result ≡ number }
    {
        FreshNumber { number }
    }

    /// The number.
    pub fn get(self) -> u32
        ensures value { result ≡ self }
        ensures first { 1 ≤ result }
        ensures last { result ≤ 4294967295 }
    {
        self.number
    }
}

/// A literal: lexical form, datatype and language tag (RDF 1.1 Concepts, section 3.3). A tag is there exactly where
/// the datatype is rdf:langString, and it has no letter from A to Z.
#[derive(Debug, Drop)]
pub struct Literal {
    lex: Text,
    datatype: Text,
    lang: Option<Text>,
}

impl Model for Literal {
    ghost use Rattle.rdf_terms.specs.Literals.{LiteralParts, IsLiteral};

    ghost Value = { LiteralParts };

    ghost view = { λ l. record { lex = l.lex; datatype = l.datatype; lang = l.lang } };

    ghost invariant = { λ l. IsLiteral (record { lex = l.lex; datatype = l.datatype; lang = l.lang }) };
}

impl Literal {
    /// A plain string, whose datatype is xsd:string.
    pub fn plain(alloc: Global, lex: Text) -> Result<Literal, AllocError>
        ensures { IfOk result (λ l. l ≡ record { lex = lex; datatype = xsd_string; lang = None }) }
    {
        let datatype = Text::from_str(alloc, XSD_STRING)?;
        Ok(Literal {
            lex,
            datatype,
            lang: None,
        })
    }

    /// A literal of a datatype, and `None` exactly where the datatype is rdf:langString, which wants a tag.
    pub fn typed(lex: Text, datatype: Text) -> Option<Literal>
        ensures literal { IfSome result (λ l. l ≡ record { lex = lex; datatype = datatype; lang = None }) }
        ensures none { IsNone result ↔ (datatype ≡ rdf_lang_string) }
    {
        if datatype.as_str() == RDF_LANG_STRING {
            None
        } else {
            Some(Literal {
                lex,
                datatype,
                lang: None,
            })
        }
    }

    /// A string with a language tag, whose letters A to Z become a to z.
    pub fn tagged(alloc: Global, lex: Text, tag: &str) -> Result<Literal, AllocError>
        ensures { IfOk result (λ l. l ≡ record { lex = lex; datatype = rdf_lang_string; lang = Some (map to_ascii_lowercase (chars tag.now)) }) }
    {
        let mut lowered = String::from_str(alloc, tag)?;
        lowered.make_ascii_lowercase();
        let datatype = Text::from_str(alloc, RDF_LANG_STRING)?;
        Ok(Literal {
            lex,
            datatype,
            lang: Some(Text::from_string(lowered)),
        })
    }

    /// What is known of each literal: a tag is there exactly where the datatype is rdf:langString, in lower case.
    pub fn parts_agree(&self)
        ensures { IsLiteral self.now }
    {
        let _lang = &self.lang;
    }

    /// A copy of the literal.
    pub fn try_clone(&self, alloc: Global) -> Result<Literal, AllocError>
        ensures { IfOk result (λ l. l ≡ self.now) }
    {
        let lex = self.lex.try_clone(alloc)?;
        let datatype = self.datatype.try_clone(alloc)?;
        let lang = copied_tag(alloc, self.lang.as_ref())?;
        Ok(Literal {
            lex,
            datatype,
            lang,
        })
    }

    /// The lexical form.
    pub fn lex(&self) -> &Text
        ensures { result.now ≡ self.now.lex }
    {
        &self.lex
    }

    /// The IRI of the datatype.
    pub fn datatype(&self) -> &Text
        ensures { result.now ≡ self.now.datatype }
    {
        &self.datatype
    }

    /// The language tag, where there is one.
    pub fn lang(&self) -> Option<&Text>
        ensures { option_copied result ≡ self.now.lang }
    {
        self.lang.as_ref()
    }
}

/// A copy of a language tag, where there is one.
fn copied_tag(alloc: Global, tag: Option<&Text>) -> Result<Option<Text>, AllocError>
    ensures { IfOk result (λ t. t ≡ option_copied tag.entry) }
{
    match tag {
        Some(tag) => Ok(Some(tag.try_clone(alloc)?)),
        None => Ok(None),
    }
}

impl PartialEq for Literal {
    ghost eq = { same_literal };

    ghost laws = { partial_equiv_from_equiv (decided_equiv same_literal literal_decides) };

    fn eq(&self, other: &Literal) -> bool {
        self.lex == other.lex && self.datatype == other.datatype && self.lang == other.lang
    }
}

impl Eq for Literal {
    ghost laws = { decided_equiv same_literal literal_decides };
}

impl Hash for Literal {
    ghost hash_input = { literal_fed };

    ghost respects_eq = { literal_alike.fed };

    fn hash<H: Hasher>(&self, state: &mut H) {
        self.lex.hash(state);
        self.datatype.hash(state);
        self.lang.hash(state);
    }
}

/// An RDF term (RDF 1.1 Concepts, section 3.1). Two terms are equal where their parts are equal.
#[derive(Debug, Drop, PartialEq, Eq, Hash)]
pub enum Term {
    /// An IRI.
    Iri(Text),
    /// A blank node.
    Blank(Name),
    /// A literal.
    Lit(Literal),
}

impl Term {
    /// A copy of the term.
    pub fn try_clone(&self, alloc: Global) -> Result<Term, AllocError>
        ensures { IfOk result (λ t. t ≡ self.now) }
    {
        match self {
            Term::Iri(iri) => Ok(Term::Iri(iri.try_clone(alloc)?)),
            Term::Blank(name) => Ok(Term::Blank(name.try_clone(alloc)?)),
            Term::Lit(literal) => Ok(Term::Lit(literal.try_clone(alloc)?)),
        }
    }
}
