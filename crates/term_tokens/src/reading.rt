//! Readers of one token: each takes the token that comes next, or fails before it, as it stands for something in
//! `terms`.

ghost use Rattle.std.specs.Prelude.{◌≡◌, IfOk, IsSome, string_bytes};
ghost use Rattle.iri_resolve.specs.Reference.{scheme_of};
ghost use Rattle.rdf_cursor.specs.Ahead.{next_is};
ghost use Rattle.rdf_cursor.specs.Readers.{one};
ghost use Rattle.rdf_cursor.specs.Cursors.{ahead, source_in};
ghost use Rattle.rdf_cursor.specs.Stops.{Gives};
ghost use Rattle.rdf_cursor.specs.Symbols.{is_among};
ghost use Rattle.rdf_cursor.specs.declared.stops.Fault.TheVariants.{Syntax};
ghost use Rattle.term_tokens.specs.Scopes.{scope_in};
ghost use Rattle.rdf_terms.specs.declared.terms.Term.TheVariants.{Blank};
ghost use Rattle.term_tokens.specs.Literals.{datatyped_by};
ghost use Rattle.term_tokens.specs.Terms.{iri_ref_of, iri_of, at_name_of, absolute_of, label_of, blank_of, string_of, short_string_of, typed_of, absolute_typed_of, tagged_of, shorthand_of, tags, shorthands};

use crate::names::Names;
use crate::terms;
use rdf_cursor::{Cursor, Fault, Stop, Symbol};
use rdf_terms::terms::{Name, Term};
use rdf_terms::text::Text;
use std::alloc::Global;

/// The IRI of an IRIREF (RDF 1.1 Turtle, section 6.3).
pub fn iri_ref(c: &mut Cursor<'_>, names: &Names<'_>, bounded: bool) -> Result<String, Stop>
    ensures gives { Gives string_bytes result (ahead c.new) (one Syntax (iri_ref_of bounded (scope_in names.now)) (ahead c.old)) }
    ensures scheme { IfOk result (λ iri. IsSome (scheme_of (string_bytes iri))) }
    ensures source { source_in c.new ≡ source_in c.old }
{
    let Some(token) = c.peek() else {
        return Err(Stop::Fault(Fault::Syntax));
    };
    let value = terms::iri_ref(names, token, bounded)?;
    c.advance();
    Ok(value)
}

/// An IRI [135s].
pub fn iri(c: &mut Cursor<'_>, names: &Names<'_>, bounded: bool) -> Result<String, Stop>
    ensures gives { Gives string_bytes result (ahead c.new) (one Syntax (iri_of bounded (scope_in names.now)) (ahead c.old)) }
    ensures source { source_in c.new ≡ source_in c.old }
{
    let Some(token) = c.peek() else {
        return Err(Stop::Fault(Fault::Syntax));
    };
    let value = terms::iri(names, token, bounded)?;
    c.advance();
    Ok(value)
}

/// A prefixed name with an `@` in front of it (ShEx 2.1, section 6).
pub fn at_name(c: &mut Cursor<'_>, names: &Names<'_>, bounded: bool) -> Result<String, Stop>
    ensures gives { Gives string_bytes result (ahead c.new) (one Syntax (at_name_of bounded (scope_in names.now)) (ahead c.old)) }
    ensures source { source_in c.new ≡ source_in c.old }
{
    let Some(token) = c.peek() else {
        return Err(Stop::Fault(Fault::Syntax));
    };
    let value = terms::at_name(names, token, bounded)?;
    c.advance();
    Ok(value)
}

/// The IRI of an IRIREF as it is written, which has a scheme (RDF 1.1 N-Triples, section 2.2).
pub fn absolute_iri(c: &mut Cursor<'_>, alloc: Global, bounded: bool) -> Result<String, Stop>
    ensures gives { Gives string_bytes result (ahead c.new) (one Syntax (absolute_of bounded) (ahead c.old)) }
    ensures source { source_in c.new ≡ source_in c.old }
{
    let Some(token) = c.peek() else {
        return Err(Stop::Fault(Fault::Syntax));
    };
    let value = terms::absolute_iri(alloc, token, bounded)?;
    c.advance();
    Ok(value)
}

/// The label of a blank node [141s].
pub fn label(c: &mut Cursor<'_>, alloc: Global, bounded: bool) -> Result<Text, Stop>
    ensures gives { Gives (λ x. x) result (ahead c.new) (one Syntax (label_of bounded) (ahead c.old)) }
    ensures source { source_in c.new ≡ source_in c.old }
{
    let Some(token) = c.peek() else {
        return Err(Stop::Fault(Fault::Syntax));
    };
    let value = terms::label(alloc, token, bounded)?;
    c.advance();
    Ok(value)
}

/// The name of a labelled blank node [141s].
#[tactic(auto, unfolding(crate::specs::Terms::blank_of, crate::specs::Terms::label_of))]
pub fn blank(c: &mut Cursor<'_>, alloc: Global, bounded: bool) -> Result<Name, Stop>
    ensures gives { Gives (λ name. Blank name) result (ahead c.new) (one Syntax (blank_of bounded) (ahead c.old)) }
    ensures source { source_in c.new ≡ source_in c.old }
{
    let label = label(c, alloc, bounded)?;
    Ok(Name::Label(label))
}

/// The lexical form of a string [17].
pub fn string(c: &mut Cursor<'_>, alloc: Global, bounded: bool) -> Result<Text, Stop>
    ensures gives { Gives (λ x. x) result (ahead c.new) (one Syntax (string_of bounded) (ahead c.old)) }
    ensures source { source_in c.new ≡ source_in c.old }
{
    let Some(token) = c.peek() else {
        return Err(Stop::Fault(Fault::Syntax));
    };
    let value = terms::string(alloc, token, bounded)?;
    c.advance();
    Ok(value)
}

/// The lexical form of a string in `"` on one line (RDF 1.1 N-Triples, section 2.3).
pub fn short_string(c: &mut Cursor<'_>, alloc: Global, bounded: bool) -> Result<Text, Stop>
    ensures gives { Gives (λ x. x) result (ahead c.new) (one Syntax (short_string_of bounded) (ahead c.old)) }
    ensures source { source_in c.new ≡ source_in c.old }
{
    let Some(token) = c.peek() else {
        return Err(Stop::Fault(Fault::Syntax));
    };
    let value = terms::short_string(alloc, token, bounded)?;
    c.advance();
    Ok(value)
}

/// A literal of a lexical form and a datatype (RDF 1.1 Turtle, section 2.5.1).
pub(crate) fn typed(
    c: &mut Cursor<'_>,
    names: &Names<'_>,
    lex: Text,
    bounded: bool,
) -> Result<Term, Stop>
    ensures gives { Gives (λ x. x) result (ahead c.new) (one Syntax (typed_of bounded (scope_in names.now) lex) (ahead c.old)) }
    ensures source { source_in c.new ≡ source_in c.old }
{
    let Some(token) = c.peek() else {
        return Err(Stop::Fault(Fault::Syntax));
    };
    let value = terms::typed(names, lex, token, bounded)?;
    c.advance();
    Ok(value)
}

/// A literal of a lexical form and a datatype as it is written (RDF 1.1 N-Triples, section 2.3).
fn absolute_typed(c: &mut Cursor<'_>, alloc: Global, lex: Text, bounded: bool) -> Result<Term, Stop>
    ensures gives { Gives (λ x. x) result (ahead c.new) (one Syntax (absolute_typed_of bounded lex) (ahead c.old)) }
    ensures source { source_in c.new ≡ source_in c.old }
{
    let Some(token) = c.peek() else {
        return Err(Stop::Fault(Fault::Syntax));
    };
    let value = terms::absolute_typed(alloc, lex, token, bounded)?;
    c.advance();
    Ok(value)
}

/// `^^` and a datatype behind a lexical form (RDF 1.1 Turtle, section 2.5.1).
pub fn datatyped(
    c: &mut Cursor<'_>,
    names: &Names<'_>,
    lex: Text,
    bounded: bool,
) -> Result<Term, Stop>
    ensures gives { Gives (λ x. x) result (ahead c.new) (datatyped_by (typed_of bounded (scope_in names.now) lex) (ahead c.old)) }
    ensures source { source_in c.new ≡ source_in c.old }
{
    c.take(Symbol::Carets)?;
    typed(c, names, lex, bounded)
}

/// `^^` and a datatype as it is written behind a lexical form (RDF 1.1 N-Triples, section 2.3).
pub fn absolute_datatyped(
    c: &mut Cursor<'_>,
    alloc: Global,
    lex: Text,
    bounded: bool,
) -> Result<Term, Stop>
    ensures gives { Gives (λ x. x) result (ahead c.new) (datatyped_by (absolute_typed_of bounded lex) (ahead c.old)) }
    ensures source { source_in c.new ≡ source_in c.old }
{
    c.take(Symbol::Carets)?;
    absolute_typed(c, alloc, lex, bounded)
}

/// A literal of a lexical form and a language tag [144s].
pub fn tagged(c: &mut Cursor<'_>, alloc: Global, lex: Text) -> Result<Term, Stop>
    ensures gives { Gives (λ x. x) result (ahead c.new) (one Syntax (tagged_of lex) (ahead c.old)) }
    ensures source { source_in c.new ≡ source_in c.old }
{
    let Some(token) = c.peek() else {
        return Err(Stop::Fault(Fault::Syntax));
    };
    let value = terms::tagged(alloc, lex, token)?;
    c.advance();
    Ok(value)
}

/// A number or a truth value (RDF 1.1 Turtle, sections 2.5.2 and 2.5.3).
pub fn shorthand(c: &mut Cursor<'_>, alloc: Global, bounded: bool) -> Result<Term, Stop>
    ensures gives { Gives (λ x. x) result (ahead c.new) (one Syntax (shorthand_of bounded) (ahead c.old)) }
    ensures source { source_in c.new ≡ source_in c.old }
{
    let Some(token) = c.peek() else {
        return Err(Stop::Fault(Fault::Syntax));
    };
    let value = terms::shorthand(alloc, token, bounded)?;
    c.advance();
    Ok(value)
}

/// Whether a language tag is next.
#[tactic(auto, unfolding(rdf_cursor::specs::Symbols::is_among))]
pub fn at_tag(c: &Cursor<'_>) -> bool
    ensures { result ≡ next_is (is_among tags) (ahead c.now) }
{
    match c.peek() {
        Some(token) => terms::is_tag(token),
        None => false,
    }
}

/// Whether a number or a truth value is next.
#[tactic(auto, unfolding(rdf_cursor::specs::Symbols::is_among))]
pub fn at_shorthand(c: &Cursor<'_>) -> bool
    ensures { result ≡ next_is (is_among shorthands) (ahead c.now) }
{
    match c.peek() {
        Some(token) => terms::is_shorthand(token),
        None => false,
    }
}
