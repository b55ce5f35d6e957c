//! The rules for what stands behind the sign of a line: an edit as in a line of N-Triples (RDF 1.1 N-Triples, section 7),
//! or a question as in a shape map (ShapeMap Structure and Language, section 3.1). Each IRI has a scheme.

ghost use Rattle.std.specs.Prelude.{◌≡◌, true};
ghost use Rattle.rdf_cursor.specs.Stops.{Gives};
ghost use Rattle.rdf_cursor.specs.Cursors.{ahead, source_in};
ghost use Rattle.session_script.specs.Reading.{named, blank, resource, suffixed, literal, object, edit, node_literal, node, target, asked, question, body, command};

use crate::commands::Command;
use crate::signs::Sign;
use graph_index::loading::TermTriple;
use rdf_cursor::{Cursor, Stop, Symbol};
use rdf_terms::terms::{Literal, Term};
use rdf_terms::text::Text;
use rdf_terms::written::name_from;
use schema_tree::labels::Label;
use schema_tree::schema::Target;
use std::alloc::Global;
use term_tokens::reading;

/// An IRI as it is written.
#[tactic(auto, unfolding(crate::specs::Reading::named))]
fn named(c: &mut Cursor<'_>, alloc: Global) -> Result<Term, Stop>
    ensures gives { Gives (λ x. x) result (ahead c.new) (named true (ahead c.old)) }
    ensures source { source_in c.new ≡ source_in c.old }
{
    let iri = reading::absolute_iri(c, alloc, true)?;
    Ok(Term::Iri(Text::from_string(iri)))
}

/// A blank node by its printed name.
#[tactic(auto, unfolding(crate::specs::Reading::blank))]
fn blank(c: &mut Cursor<'_>, alloc: Global) -> Result<Term, Stop>
    ensures gives { Gives (λ x. x) result (ahead c.new) (blank true (ahead c.old)) }
    ensures source { source_in c.new ≡ source_in c.old }
{
    let label = reading::label(c, alloc, true)?;
    let name = name_from(alloc, label.as_str())?;
    Ok(Term::Blank(name))
}

/// An IRI or a blank node.
#[tactic(auto, unfolding(crate::specs::Reading::resource))]
fn resource(c: &mut Cursor<'_>, alloc: Global) -> Result<Term, Stop>
    ensures gives { Gives (λ x. x) result (ahead c.new) (resource true (ahead c.old)) }
    ensures source { source_in c.new ≡ source_in c.old }
{
    if c.is_at(Symbol::BlankLabel) {
        blank(c, alloc)
    } else {
        named(c, alloc)
    }
}

/// What stands behind the string of a literal: a language tag, a datatype, or nothing.
#[tactic(auto, unfolding(crate::specs::Reading::suffixed))]
fn suffixed(c: &mut Cursor<'_>, alloc: Global, lex: Text) -> Result<Term, Stop>
    ensures gives { Gives (λ x. x) result (ahead c.new) (suffixed true lex (ahead c.old)) }
    ensures source { source_in c.new ≡ source_in c.old }
{
    if reading::at_tag(c) {
        reading::tagged(c, alloc, lex)
    } else if c.is_at(Symbol::Carets) {
        reading::absolute_datatyped(c, alloc, lex, true)
    } else {
        Ok(Term::Lit(Literal::plain(alloc, lex)?))
    }
}

/// A literal of an edit.
#[tactic(auto, unfolding(crate::specs::Reading::literal))]
fn literal(c: &mut Cursor<'_>, alloc: Global) -> Result<Term, Stop>
    ensures gives { Gives (λ x. x) result (ahead c.new) (literal true (ahead c.old)) }
    ensures source { source_in c.new ≡ source_in c.old }
{
    let lex = reading::short_string(c, alloc, true)?;
    suffixed(c, alloc, lex)
}

/// The object of an edit: a literal, an IRI or a blank node.
#[tactic(auto, unfolding(crate::specs::Reading::object))]
fn object(c: &mut Cursor<'_>, alloc: Global) -> Result<Term, Stop>
    ensures gives { Gives (λ x. x) result (ahead c.new) (object true (ahead c.old)) }
    ensures source { source_in c.new ≡ source_in c.old }
{
    if c.is_at(Symbol::Str) {
        literal(c, alloc)
    } else {
        resource(c, alloc)
    }
}

/// A triple and its dot.
#[tactic(auto, unfolding(crate::specs::Reading::edit))]
fn edit(c: &mut Cursor<'_>, alloc: Global) -> Result<TermTriple, Stop>
    ensures gives { Gives (λ x. x) result (ahead c.new) (edit true (ahead c.old)) }
    ensures source { source_in c.new ≡ source_in c.old }
{
    let subject = resource(c, alloc)?;
    let predicate = named(c, alloc)?;
    let object = object(c, alloc)?;
    c.take(Symbol::Dot)?;
    Ok(TermTriple {
        subject,
        predicate,
        object,
    })
}

/// A literal that is asked about: `@START` behind its string is the target and no language tag.
#[tactic(auto, unfolding(crate::specs::Reading::node_literal))]
fn node_literal(c: &mut Cursor<'_>, alloc: Global) -> Result<Term, Stop>
    ensures gives { Gives (λ x. x) result (ahead c.new) (node_literal true (ahead c.old)) }
    ensures source { source_in c.new ≡ source_in c.old }
{
    let lex = reading::short_string(c, alloc, true)?;
    if c.is_at(Symbol::AtStart) {
        Ok(Term::Lit(Literal::plain(alloc, lex)?))
    } else {
        suffixed(c, alloc, lex)
    }
}

/// A node that is asked about: a literal, an IRI or a blank node.
#[tactic(auto, unfolding(crate::specs::Reading::node))]
fn node(c: &mut Cursor<'_>, alloc: Global) -> Result<Term, Stop>
    ensures gives { Gives (λ x. x) result (ahead c.new) (node true (ahead c.old)) }
    ensures source { source_in c.new ≡ source_in c.old }
{
    if c.is_at(Symbol::Str) {
        node_literal(c, alloc)
    } else {
        resource(c, alloc)
    }
}

/// A target: the start, or a label of any length.
#[tactic(auto, unfolding(crate::specs::Reading::target))]
fn target(c: &mut Cursor<'_>, alloc: Global) -> Result<Target, Stop>
    ensures gives { Gives (λ x. x) result (ahead c.new) (target (ahead c.old)) }
    ensures source { source_in c.new ≡ source_in c.old }
{
    if c.is_at(Symbol::Start) {
        c.take(Symbol::Start)?;
        Ok(Target::Start)
    } else if c.is_at(Symbol::BlankLabel) {
        let label = reading::label(c, alloc, false)?;
        Ok(Target::Label(Label::Blank(label)))
    } else {
        let iri = reading::absolute_iri(c, alloc, false)?;
        Ok(Target::Label(Label::Iri(Text::from_string(iri))))
    }
}

/// A target behind its `@`, which may stand in the token of the start.
#[tactic(auto, unfolding(crate::specs::Reading::asked))]
fn asked(c: &mut Cursor<'_>, alloc: Global) -> Result<Target, Stop>
    ensures gives { Gives (λ x. x) result (ahead c.new) (asked (ahead c.old)) }
    ensures source { source_in c.new ≡ source_in c.old }
{
    if c.is_at(Symbol::AtStart) {
        c.take(Symbol::AtStart)?;
        Ok(Target::Start)
    } else {
        c.take(Symbol::At)?;
        target(c, alloc)
    }
}

/// A node and its target.
#[tactic(auto, unfolding(crate::specs::Reading::question))]
fn question(c: &mut Cursor<'_>, alloc: Global) -> Result<Command, Stop>
    ensures gives { Gives (λ x. x) result (ahead c.new) (question true (ahead c.old)) }
    ensures source { source_in c.new ≡ source_in c.old }
{
    let node = node(c, alloc)?;
    let target = asked(c, alloc)?;
    Ok(Command::Ask(node, target))
}

/// What stands behind a sign.
#[tactic(auto, unfolding(crate::specs::Reading::body))]
fn body(c: &mut Cursor<'_>, alloc: Global, sign: Sign) -> Result<Command, Stop>
    ensures gives { Gives (λ x. x) result (ahead c.new) (body true sign (ahead c.old)) }
    ensures source { source_in c.new ≡ source_in c.old }
{
    match sign {
        Sign::Plus => {
            let triple = edit(c, alloc)?;
            Ok(Command::Add(triple))
        }
        Sign::Minus => {
            let triple = edit(c, alloc)?;
            Ok(Command::Remove(triple))
        }
        Sign::Question => question(c, alloc),
    }
}

/// What stands behind a sign, to the end of its line.
#[tactic(auto, unfolding(crate::specs::Reading::command))]
pub fn command(c: &mut Cursor<'_>, alloc: Global, sign: Sign) -> Result<Command, Stop>
    ensures gives { Gives (λ x. x) result (ahead c.new) (command true sign (ahead c.old)) }
    ensures source { source_in c.new ≡ source_in c.old }
{
    let command = body(c, alloc, sign)?;
    c.end()?;
    Ok(command)
}
