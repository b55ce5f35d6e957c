//! Laws of tokens, for those that read them.

ghost use Rattle.rdf_lex.specs.Laws.{IriTextsAreTokens, KindsAreApart, LiteralTextsAreTokens, NextIsOne, TokensAreOne, TokensGoOn};

/// No text is a token of two kinds.
pub fn kinds_are_apart()
    ensures { KindsAreApart }
{}

/// What comes next from a place on is one thing.
pub fn next_is_one()
    ensures { NextIsOne }
{}

/// A text is one list of tokens at most.
pub fn tokens_are_one()
    ensures { TokensAreOne }
{}

/// A token ends behind the place from which it was sought, so that a reader of tokens ends.
pub fn tokens_go_on()
    ensures { TokensGoOn }
{}

/// The text of an IRI is one token, which stands for the IRI, where the IRI has no character that an
/// IRI may not have.
pub fn iri_texts_are_tokens()
    ensures { IriTextsAreTokens }
{}

/// The text of a literal is a string, which stands for its lexical form, and behind it its tag, or
/// `^^` and its datatype unless that is xsd:string, where the datatype has no character that an IRI
/// may not have and the tag is one of a language.
pub fn literal_texts_are_tokens()
    ensures { LiteralTextsAreTokens }
{}
