//! What single tokens stand for, or what is wrong with them. Where lengths are bounded, an IRI, a label or a lexical form of
//! more than `MAX_TEXT` bytes is `Long`.

ghost use Rattle.std.specs.Prelude.{◌≡◌, Ok, Some, IfOk, IsSome, is_some, true, string_bytes};
ghost use Rattle.std.specs.Str.{chars};
ghost use Rattle.iri_resolve.specs.Reference.{scheme_of};
ghost use Rattle.rdf_lex.specs.Escapes.{IsSpelled};
ghost use Rattle.rdf_cursor.specs.Lent.{spelled};
ghost use Rattle.rdf_cursor.specs.Stops.{Answers};
ghost use Rattle.rdf_cursor.specs.Symbols.{is_symbol, is_among};
ghost use Rattle.rdf_cursor.specs.declared.symbols.Symbol.TheVariants.{Str};
ghost use Rattle.term_tokens.specs.Scopes.{scope_in};
ghost use Rattle.term_tokens.specs.Terms.{is_name, resolved, joined, name_in, iri_ref_of, iri_of, at_name_of, absolute_of, label_of, is_quoted_once, string_of, short_string_of, typed, typed_by, typed_of, absolute_typed_of, tagged_of, shorthand_of, tags, shorthands};
ghost use Rattle.term_tokens.specs.Vocabulary.{shorthand_datatype};

use crate::names::Names;
use crate::parts::{
    after_at, after_colon, is_long, limit, local_name, prefix_of, short, stands_for_itself,
    unescaped,
};
use iri_resolve::{IriError, resolve, split};
use rdf_cursor::{Fault, Stop, Symbol};
use rdf_lex::Token;
use rdf_terms::terms::{Literal, Term};
use rdf_terms::text::Text;
use rdf_terms::vocabulary::{XSD_BOOLEAN, XSD_DECIMAL, XSD_DOUBLE, XSD_INTEGER};
use std::alloc::{AllocError, Global};

/// An IRI reference, against the base.
fn against_base(names: &Names<'_>, reference: &str, bounded: bool) -> Result<String, Stop>
    ensures iri { Answers string_bytes result (resolved bounded (scope_in names.now) (Some (chars reference.now))) }
    ensures scheme { IfOk result (λ iri. IsSome (scheme_of (string_bytes iri))) }
{
    match resolve(names.alloc, names.prefixes.base(), reference) {
        Ok(iri) => limit(iri, bounded),
        Err(IriError::NoScheme) => unreachable!(),
        Err(IriError::Memory) => Err(Stop::Memory),
    }
}

/// A local name behind the IRI of its prefix.
fn behind_prefix(
    names: &Names<'_>,
    prefix: &str,
    local: &str,
    bounded: bool,
) -> Result<String, Stop>
    ensures { Answers string_bytes result (joined bounded (Some (chars local.now)) ((scope_in names.now).prefixes prefix.now)) }
{
    let Some(iri) = names.prefixes.get(prefix) else {
        return Err(Stop::Fault(Fault::Prefix));
    };
    let mut whole = String::with_capacity(names.alloc, iri.len() + local.len())?;
    whole.push_str(iri)?;
    whole.push_str(local)?;
    limit(whole, bounded)
}

/// The IRI of a prefixed name, also of one with an `@` in front of it (RDF 1.1 Turtle, section 2.4). A local name without
/// escapes is not copied.
fn name(names: &Names<'_>, token: Token<'_>, bounded: bool) -> Result<String, Stop>
    requires name { is_name token.kind ≡ true }
    requires spelled { IsSpelled token.kind (chars token.text.now) }
    ensures { Answers string_bytes result (name_in bounded (scope_in names.now) (spelled token.entry)) }
{
    let written = local_name(token.text);
    if stands_for_itself(written) {
        return behind_prefix(names, prefix_of(token), written, bounded);
    }
    let local = unescaped(names.alloc, token)?;
    behind_prefix(names, prefix_of(token), local.as_str(), bounded)
}

/// The IRI of an IRIREF (RDF 1.1 Turtle, section 6.3).
#[tactic(auto, unfolding(crate::specs::Terms::iri_ref_of, rdf_cursor::specs::Symbols::is_symbol))]
pub fn iri_ref(names: &Names<'_>, token: Token<'_>, bounded: bool) -> Result<String, Stop>
    requires { IsSpelled token.kind (chars token.text.now) }
    ensures iri { Answers string_bytes result (iri_ref_of bounded (scope_in names.now) (spelled token.entry)) }
    ensures scheme { IfOk result (λ iri. IsSome (scheme_of (string_bytes iri))) }
{
    if !Symbol::of(token).is(Symbol::IriRef) {
        return Err(Stop::Fault(Fault::Syntax));
    }
    let reference = unescaped(names.alloc, token)?;
    against_base(names, reference.as_str(), bounded)
}

/// The IRI of an IRIREF or of a prefixed name (RDF 1.1 Turtle, section 2.4).
#[tactic(auto, unfolding(crate::specs::Terms::iri_of, rdf_cursor::specs::Symbols::is_among))]
pub fn iri(names: &Names<'_>, token: Token<'_>, bounded: bool) -> Result<String, Stop>
    requires { IsSpelled token.kind (chars token.text.now) }
    ensures { Answers string_bytes result (iri_of bounded (scope_in names.now) (spelled token.entry)) }
{
    let symbol = Symbol::of(token);
    if symbol.is(Symbol::PnameNs) || symbol.is(Symbol::PnameLn) {
        name(names, token, bounded)
    } else {
        iri_ref(names, token, bounded)
    }
}

/// Whether an IRI has a scheme.
fn is_absolute(iri: &str) -> bool
    ensures { result ≡ is_some (scheme_of iri.now) }
{
    split(iri).scheme.is_some()
}

/// The IRI of an IRIREF as it is written, which has a scheme (RDF 1.1 N-Triples, section 2.2).
#[tactic(auto, unfolding(crate::specs::Terms::absolute_of, rdf_cursor::specs::Symbols::is_symbol))]
pub fn absolute_iri(alloc: Global, token: Token<'_>, bounded: bool) -> Result<String, Stop>
    requires { IsSpelled token.kind (chars token.text.now) }
    ensures { Answers string_bytes result (absolute_of bounded (spelled token.entry)) }
{
    if !Symbol::of(token).is(Symbol::IriRef) {
        return Err(Stop::Fault(Fault::Syntax));
    }
    let iri = unescaped(alloc, token)?;
    if !is_absolute(iri.as_str()) {
        return Err(Stop::Fault(Fault::Syntax));
    }
    limit(iri, bounded)
}

/// The IRI of a prefixed name with an `@` in front of it (ShEx 2.1, section 6).
#[tactic(auto, unfolding(crate::specs::Terms::at_name_of, rdf_cursor::specs::Symbols::is_symbol))]
pub fn at_name(names: &Names<'_>, token: Token<'_>, bounded: bool) -> Result<String, Stop>
    requires { IsSpelled token.kind (chars token.text.now) }
    ensures { Answers string_bytes result (at_name_of bounded (scope_in names.now) (spelled token.entry)) }
{
    if !Symbol::of(token).is(Symbol::AtName) {
        return Err(Stop::Fault(Fault::Syntax));
    }
    name(names, token, bounded)
}

/// The label of a blank node, without `_:`.
#[tactic(auto, unfolding(crate::specs::Terms::label_of, rdf_cursor::specs::Symbols::is_symbol))]
pub fn label(alloc: Global, token: Token<'_>, bounded: bool) -> Result<Text, Stop>
    ensures { Answers (λ text. text) result (label_of bounded (spelled token.entry)) }
{
    if !Symbol::of(token).is(Symbol::BlankLabel) {
        return Err(Stop::Fault(Fault::Syntax));
    }
    let label = after_colon(token.text);
    if is_long(label, bounded) {
        return Err(Stop::Fault(Fault::Long));
    }
    Ok(Text::from_str(alloc, label)?)
}

/// The lexical form of a token that is a string.
#[tactic(auto, unfolding(crate::specs::Terms::string_of, rdf_cursor::specs::Symbols::is_symbol))]
fn lexical(alloc: Global, token: Token<'_>, bounded: bool) -> Result<Text, Stop>
    requires string { is_symbol Str (spelled token) ≡ true }
    requires spelled { IsSpelled token.kind (chars token.text.now) }
    ensures { Answers (λ text. text) result (string_of bounded (spelled token.entry)) }
{
    let text = unescaped(alloc, token)?;
    short(text, bounded)
}

/// The lexical form of a string.
#[tactic(auto, unfolding(crate::specs::Terms::string_of, rdf_cursor::specs::Symbols::is_symbol))]
pub fn string(alloc: Global, token: Token<'_>, bounded: bool) -> Result<Text, Stop>
    requires { IsSpelled token.kind (chars token.text.now) }
    ensures { Answers (λ text. text) result (string_of bounded (spelled token.entry)) }
{
    if !Symbol::of(token).is(Symbol::Str) {
        return Err(Stop::Fault(Fault::Syntax));
    }
    lexical(alloc, token, bounded)
}

/// Whether a text stands in `"` on one line, and not in `"""`.
fn is_quoted_once(text: &str) -> bool
    ensures { result ≡ is_quoted_once (chars text.now) }
{
    text.starts_with("\"") && !text.starts_with("\"\"\"")
}

/// The lexical form of a string in `"` on one line (RDF 1.1 N-Triples, section 2.3).
#[tactic(auto, unfolding(crate::specs::Terms::short_string_of))]
pub fn short_string(alloc: Global, token: Token<'_>, bounded: bool) -> Result<Text, Stop>
    requires { IsSpelled token.kind (chars token.text.now) }
    ensures { Answers (λ text. text) result (short_string_of bounded (spelled token.entry)) }
{
    if !is_quoted_once(token.text) {
        return Err(Stop::Fault(Fault::Syntax));
    }
    string(alloc, token, bounded)
}

/// A literal of a lexical form and a datatype, which is not rdf:langString (RDF 1.1 Concepts, section 3.3).
fn with_datatype(lex: Text, datatype: String) -> Result<Term, Stop>
    ensures { Answers (λ term. term) result (typed_by lex (Ok (string_bytes datatype))) }
{
    match Literal::typed(lex, Text::from_string(datatype)) {
        Some(literal) => Ok(Term::Lit(literal)),
        None => Err(Stop::Fault(Fault::Syntax)),
    }
}

/// A literal of a lexical form and the datatype that a token stands for (RDF 1.1 Turtle, section 2.5.1).
#[tactic(auto, unfolding(crate::specs::Terms::typed_of))]
pub fn typed(names: &Names<'_>, lex: Text, token: Token<'_>, bounded: bool) -> Result<Term, Stop>
    requires { IsSpelled token.kind (chars token.text.now) }
    ensures { Answers (λ term. term) result (typed_of bounded (scope_in names.now) lex (spelled token.entry)) }
{
    let datatype = iri(names, token, bounded)?;
    with_datatype(lex, datatype)
}

/// A literal of a lexical form and the datatype that a token stands for as it is written (RDF 1.1 N-Triples, section 2.3).
#[tactic(auto, unfolding(crate::specs::Terms::absolute_typed_of))]
pub fn absolute_typed(
    alloc: Global,
    lex: Text,
    token: Token<'_>,
    bounded: bool,
) -> Result<Term, Stop>
    requires { IsSpelled token.kind (chars token.text.now) }
    ensures { Answers (λ term. term) result (absolute_typed_of bounded lex (spelled token.entry)) }
{
    let datatype = absolute_iri(alloc, token, bounded)?;
    with_datatype(lex, datatype)
}

/// Whether a token is a language tag, which `@prefix`, `@base` and `@START` are too.
#[tactic(auto, unfolding(rdf_cursor::specs::Symbols::is_among))]
pub fn is_tag(token: Token<'_>) -> bool
    ensures { result ≡ is_among tags (spelled token.entry) }
{
    let symbol = Symbol::of(token);
    matches!(
        symbol,
        Symbol::LangTag | Symbol::AtPrefix | Symbol::AtBase | Symbol::AtStart
    )
}

/// A literal of a lexical form and a language tag (RDF 1.1 Turtle, section 2.5.1).
#[tactic(auto, unfolding(crate::specs::Terms::tagged_of))]
pub fn tagged(alloc: Global, lex: Text, token: Token<'_>) -> Result<Term, Stop>
    ensures { Answers (λ term. term) result (tagged_of lex (spelled token.entry)) }
{
    if !is_tag(token) {
        return Err(Stop::Fault(Fault::Syntax));
    }
    let literal = Literal::tagged(alloc, lex, after_at(token.text))?;
    Ok(Term::Lit(literal))
}

/// The datatype of a number or a truth value (RDF 1.1 Turtle, sections 2.5.2 and 2.5.3).
fn datatype_of(symbol: Symbol) -> &'static str
    ensures { result.now ≡ shorthand_datatype symbol }
{
    if symbol.is(Symbol::Integer) {
        XSD_INTEGER
    } else if symbol.is(Symbol::Decimal) {
        XSD_DECIMAL
    } else if symbol.is(Symbol::Double) {
        XSD_DOUBLE
    } else {
        XSD_BOOLEAN
    }
}

/// Whether a token is a number or a truth value.
#[tactic(auto, unfolding(rdf_cursor::specs::Symbols::is_among))]
pub fn is_shorthand(token: Token<'_>) -> bool
    ensures { result ≡ is_among shorthands (spelled token.entry) }
{
    let symbol = Symbol::of(token);
    matches!(
        symbol,
        Symbol::Integer | Symbol::Decimal | Symbol::Double | Symbol::True | Symbol::False
    )
}

/// A literal of this lexical form, whose datatype is that of the symbol.
fn shorthand_literal(alloc: Global, text: &str, symbol: Symbol) -> Result<Term, AllocError>
    ensures { IfOk result (λ term. term ≡ typed (chars text.now) (shorthand_datatype symbol)) }
{
    let lex = Text::from_str(alloc, text)?;
    let datatype = Text::from_str(alloc, datatype_of(symbol))?;
    match Literal::typed(lex, datatype) {
        Some(literal) => Ok(Term::Lit(literal)),
        None => unreachable!(),
    }
}

/// A number or a truth value, whose text is its lexical form.
#[tactic(auto, unfolding(crate::specs::Terms::shorthand_of))]
pub fn shorthand(alloc: Global, token: Token<'_>, bounded: bool) -> Result<Term, Stop>
    ensures { Answers (λ term. term) result (shorthand_of bounded (spelled token.entry)) }
{
    if !is_shorthand(token) {
        return Err(Stop::Fault(Fault::Syntax));
    }
    if is_long(token.text, bounded) {
        return Err(Stop::Fault(Fault::Long));
    }
    Ok(shorthand_literal(alloc, token.text, Symbol::of(token))?)
}
