//! The rules of the grammar (RDF 1.1 N-Triples, section 7).

ghost use Rattle.std.specs.Prelude.{◌≡◌, true};
ghost use Rattle.std.specs.Option.{option_to_list};
ghost use Rattle.rdf_cursor.specs.Stops.{Gives};
ghost use Rattle.rdf_cursor.specs.Cursors.{ahead, source_in};
ghost use Rattle.nt_reader.specs.Reading.{predicate, subject, literal, object, statement, line_end, line};

use graph_index::loading::TermTriple;
use rdf_cursor::{Cursor, Stop, Symbol};
use rdf_terms::terms::{Literal, Term};
use rdf_terms::text::Text;
use std::alloc::Global;
use term_tokens::reading;

/// An IRI [4].
#[tactic(auto, unfolding(crate::specs::Reading::predicate, crate::specs::Reading::iri))]
fn predicate(c: &mut Cursor<'_>, alloc: Global) -> Result<Term, Stop>
    ensures gives { Gives (λ x. x) result (ahead c.new) (predicate true (ahead c.old)) }
    ensures source { source_in c.new ≡ source_in c.old }
{
    let iri = reading::absolute_iri(c, alloc, true)?;
    Ok(Term::Iri(Text::from_string(iri)))
}

/// An IRI or a blank node [3].
#[tactic(auto, unfolding(crate::specs::Reading::subject, crate::specs::Reading::predicate))]
fn subject(c: &mut Cursor<'_>, alloc: Global) -> Result<Term, Stop>
    ensures gives { Gives (λ x. x) result (ahead c.new) (subject true (ahead c.old)) }
    ensures source { source_in c.new ≡ source_in c.old }
{
    if c.is_at(Symbol::BlankLabel) {
        let name = reading::blank(c, alloc, true)?;
        Ok(Term::Blank(name))
    } else {
        predicate(c, alloc)
    }
}

/// A literal [6].
#[tactic(auto, unfolding(crate::specs::Reading::literal))]
fn literal(c: &mut Cursor<'_>, alloc: Global) -> Result<Term, Stop>
    ensures gives { Gives (λ x. x) result (ahead c.new) (literal true (ahead c.old)) }
    ensures source { source_in c.new ≡ source_in c.old }
{
    let lex = reading::short_string(c, alloc, true)?;
    if reading::at_tag(c) {
        reading::tagged(c, alloc, lex)
    } else if c.is_at(Symbol::Carets) {
        reading::absolute_datatyped(c, alloc, lex, true)
    } else {
        Ok(Term::Lit(Literal::plain(alloc, lex)?))
    }
}

/// An IRI, a blank node or a literal [5].
#[tactic(auto, unfolding(crate::specs::Reading::object))]
fn object(c: &mut Cursor<'_>, alloc: Global) -> Result<Term, Stop>
    ensures gives { Gives (λ x. x) result (ahead c.new) (object true (ahead c.old)) }
    ensures source { source_in c.new ≡ source_in c.old }
{
    if c.is_at(Symbol::Str) {
        literal(c, alloc)
    } else {
        subject(c, alloc)
    }
}

/// A triple and its dot [2].
#[tactic(auto, unfolding(crate::specs::Reading::statement))]
fn statement(c: &mut Cursor<'_>, alloc: Global) -> Result<TermTriple, Stop>
    ensures gives { Gives (λ x. x) result (ahead c.new) (statement true (ahead c.old)) }
    ensures source { source_in c.new ≡ source_in c.old }
{
    let subject = subject(c, alloc)?;
    let predicate = predicate(c, alloc)?;
    let object = object(c, alloc)?;
    c.take(Symbol::Dot)?;
    Ok(TermTriple {
        subject,
        predicate,
        object,
    })
}

/// The end of a line, or of the text.
#[tactic(auto, unfolding(crate::specs::Reading::line_end))]
fn line_end(c: &mut Cursor<'_>) -> Result<(), Stop>
    ensures gives { Gives (λ x. x) result (ahead c.new) (line_end (ahead c.old)) }
    ensures source { source_in c.new ≡ source_in c.old }
{
    if c.is_at(Symbol::Line) {
        c.take(Symbol::Line)?;
        Ok(())
    } else {
        c.end()
    }
}

/// The triple of the next line, and `None` where the line is blank.
#[tactic(auto, unfolding(crate::specs::Reading::line))]
pub fn line(c: &mut Cursor<'_>, alloc: Global) -> Result<Option<TermTriple>, Stop>
    ensures gives { Gives option_to_list result (ahead c.new) (line true (ahead c.old)) }
    ensures source { source_in c.new ≡ source_in c.old }
{
    if c.is_at(Symbol::Line) {
        c.take(Symbol::Line)?;
        Ok(None)
    } else {
        let triple = statement(c, alloc)?;
        line_end(c)?;
        Ok(Some(triple))
    }
}
