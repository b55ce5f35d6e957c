//! What is known of each term that a program holds.

ghost use Rattle.rdf_terms.specs.Laws.{IsTerm};
ghost use Rattle.rdf_terms.specs.Values.{IsLiteralUnicode, IsNameValue, IsValue, IsWhole};

use crate::terms::{Literal, Name, Term};

/// What is known of each term: its texts are of Unicode scalar values, and the number of an anonymous node has 32 bits.
pub fn term_is_value(term: &Term)
    ensures { IsValue term.now }
{
    match term {
        Term::Iri(iri) => {
            iri.as_str();
        }
        Term::Blank(name) => name_is_value(name),
        Term::Lit(literal) => literal_is_value(literal),
    }
}

/// What is known of each term: an anonymous node is numbered from 1, and a literal has a tag exactly where its datatype
/// is rdf:langString; so its text is that of no other term.
pub fn term_is_whole(term: &Term)
    ensures whole { IsWhole term.now }
    ensures own_text { IsTerm term.now }
{
    match term {
        Term::Blank(Name::Fresh(number)) => {
            number.get();
        }
        Term::Lit(literal) => {
            literal.parts_agree();
        }
        _ => (),
    }
}

/// What is known of each name: a label is of Unicode scalar values, and a number has 32 bits.
fn name_is_value(name: &Name)
    ensures { IsNameValue name.now }
{
    match name {
        Name::Label(label) => {
            label.as_str();
        }
        Name::Fresh(number) => {
            number.get();
        }
    }
}

/// What is known of each literal: its parts are of Unicode scalar values.
fn literal_is_value(literal: &Literal)
    ensures { IsLiteralUnicode literal.now }
{
    literal.lex().as_str();
    literal.datatype().as_str();
    if let Some(tag) = literal.lang() {
        tag.as_str();
    }
}
