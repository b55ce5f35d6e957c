//! A walk over the tokens of a text, up to one that stands for a label.

ghost use Rattle.std.specs.Prelude.{◌≡◌, IfOk, IfSome, IsSome, IsTrue, List, Ok, false, ℕ};
ghost use Rattle.std.specs.Str.{chars};
ghost use Rattle.iri_resolve.specs.Reference.{scheme_of};
ghost use Rattle.rdf_cursor.specs.Lent.{spelled};
ghost use Rattle.rdf_lex.specs.Escapes.{IsSpelled};
ghost use Rattle.term_tokens.specs.Scopes.{scope_in};
ghost use Rattle.term_tokens.specs.Terms.{label_of};
ghost use Rattle.label_tokens.specs.Places.{HasRead, IsUse, IsUseAt, SpellsIri, SpellsLabel};
ghost use Rattle.label_tokens.specs.Scenes.{first_scene};
ghost use Rattle.label_tokens.specs.Views.{scene_of};

use crate::scenes::Walk;
use crate::spots::{Usage, is_used};
use rdf_cursor::{Cursor, Stop, Symbol};
use rdf_lex::{Mode, Token};
use schema_documents::Label;
use std::alloc::{AllocError, Global};
use term_tokens::{Names, terms};

/// A label that is looked for.
#[derive(Clone, Copy)]
pub struct Sought<'a> {
    /// The label.
    pub label: &'a Label,
    /// How it is used.
    pub usage: Usage,
    /// Whether its second use is meant.
    pub again: bool,
}

/// Whether a text was read, of these bytes; it fails where memory ran out.
fn is_read(answer: Result<String, Stop>, text: &str) -> Result<bool, AllocError>
    ensures { IfOk result (λ read. IsTrue read → HasRead answer text.now) }
{
    match answer {
        Ok(found) => Ok(found.as_str() == text),
        Err(Stop::Memory) => Err(AllocError),
        Err(Stop::Fault(_)) => Ok(false),
    }
}

/// Whether the token stands for this IRI: an IRIREF or a prefixed name, or one with an `@` in front of it.
fn spells_iri(names: &Names<'_>, token: Token<'_>, iri: &str) -> Result<bool, AllocError>
    requires { IsSpelled token.kind (chars token.text.now) }
    ensures { IfOk result (λ read. IsTrue read → SpellsIri (scope_in names.now) iri.now (spelled token.entry)) }
{
    if Symbol::of(token).is(Symbol::AtName) {
        is_read(terms::at_name(names, token, false), iri)
    } else {
        is_read(terms::iri(names, token, false), iri)
    }
}

/// Whether the token is the blank node's label with this name.
fn spells_name(alloc: Global, token: Token<'_>, name: &str) -> Result<bool, AllocError>
    ensures { IfOk result (λ read. IsTrue read → label_of false (spelled token.entry) ≡ Ok (chars name.now)) }
{
    match terms::label(alloc, token, false) {
        Ok(found) => Ok(found.as_str() == name),
        Err(Stop::Memory) => Err(AllocError),
        Err(Stop::Fault(_)) => Ok(false),
    }
}

/// Whether the token stands for the label.
fn spells_label(names: &Names<'_>, token: Token<'_>, label: &Label) -> Result<bool, AllocError>
    requires { IsSpelled token.kind (chars token.text.now) }
    ensures { IfOk result (λ read. IsTrue read → SpellsLabel (scope_in names.now) label.now (spelled token.entry)) }
{
    match label {
        Label::Iri(iri) => spells_iri(names, token, iri.as_str()),
        Label::Blank(name) => spells_name(names.alloc, token, name.as_str()),
    }
}

/// Whether the token before which a walk stands is a use of the label that is looked for.
fn is_use(walk: &Walk<'_>, token: Token<'_>, sought: &Sought<'_>) -> Result<bool, AllocError>
    requires { IsSpelled token.kind (chars token.text.now) }
    ensures { IfOk result (λ found. IsTrue found → IsUse sought.now.usage sought.now.label.now (scene_of walk.now) (spelled token.entry)) }
{
    if is_used(sought.usage, walk.spot(), Symbol::of(token)) {
        spells_label(&walk.names(), token, sought.label)
    } else {
        Ok(false)
    }
}

/// The place of the use that is looked for, from the beginning of a text on.
fn place_from<'a>(
    walk: &mut Walk<'a>,
    source: &'a str,
    sought: &Sought<'_>,
) -> Result<Option<u64>, AllocError>
    ensures { IfOk result (λ found. IfSome found (λ at. (base : List ℕ) → scene_of walk.old ≡ first_scene base
        → IsUseAt sought.now.usage sought.now.again base source.entry.now sought.now.label.now at)) }
{
    let mut c = Cursor::new(source, Mode::Schema);
    let mut met = !sought.again;
    while let Some(token) = c.peek() {
        let here = is_use(walk, token, sought)?;
        if here && met {
            return Ok(Some(c.place()));
        }
        met = met | here;
        if !walk.pass(token)? {
            return Ok(None);
        }
        c.advance();
    }
    Ok(None)
}

/// The place in bytes from 0 of the first or the second use of a label in a text in ShExC with this base, which has a scheme (ShEx 2.1,
/// section 6), by the base and the prefixes that are in force there. There is none where no token is found that stands for the label and is
/// so used. It fails for want of memory alone.
pub fn place_in(
    alloc: Global,
    base: &str,
    source: &str,
    sought: &Sought<'_>,
) -> Result<Option<u64>, AllocError>
    requires { IsSome (scheme_of base.now) }
    ensures { IfOk result (λ found. IfSome found (λ at. IsUseAt sought.now.usage sought.now.again base.now source.now sought.now.label.now at)) }
{
    let mut walk = Walk::new(alloc, base)?;
    place_from(&mut walk, source, sought)
}
