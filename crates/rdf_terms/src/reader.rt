//! Terms from their texts.

ghost use Rattle.std.specs.Prelude.{◌≡◌, ◌↔◌, ◌∷◌, IfOk, IsTrue};
ghost use Rattle.std.specs.Str.{chars};
ghost use Rattle.std.specs.Str.Iter.{chars_rest};
ghost use Rattle.rdf_terms.specs.Literals.{is_lowered};
ghost use Rattle.rdf_terms.specs.Names.{IsNameOf};
ghost use Rattle.rdf_terms.specs.Reading.{IsBracketed, IsEscape, IsLiteralOf, IsOwned, IsPiece, IsQuoted, IsRead, suffix_of};
ghost use Rattle.rdf_terms.specs.Values.{IsLiteralValue, IsUnicode, IsWholeName, IsWholeTerm};
ghost use Rattle.rdf_terms.specs.declared.terms.Name.TheVariants as Names;
ghost use Rattle.rdf_terms.specs.Written.{iri_text, literal_text, printed_name, term_text};

use crate::terms::{Literal, Name, Term};
use crate::text::Text;
use crate::vocabulary::XSD_STRING;
use crate::written::{begins_with_anon, name_from};
use std::alloc::{AllocError, Global};
use std::str::Chars;

/// The term of this text, in time linear in its length, and `None` exactly where it is the text of no term. What
/// `write_term` appends is read, and nothing else: another spelling of a term in N-Triples is not.
pub fn read_term(alloc: Global, text: &str) -> Result<Option<Term>, AllocError>
    ensures { IfOk result (IsRead term_text IsWholeTerm text.now) }
{
    if let Some(name) = text.strip_prefix("_:") {
        return Ok(read_name(alloc, name)?.map(Term::Blank));
    }
    if text.starts_with('<') {
        return Ok(read_iri(alloc, text)?.map(Term::Iri));
    }
    Ok(read_literal(alloc, text)?.map(Term::Lit))
}

/// The IRI between angle brackets.
pub fn within_brackets(text: &str) -> Option<&str>
    ensures { IsBracketed result text.now }
{
    text.strip_prefix('<')?.strip_suffix('>')
}

/// A copy of the text.
fn owned(alloc: Global, text: &str) -> Result<Text, AllocError>
    ensures { IfOk result (IsOwned text.now) }
{
    Text::from_str(alloc, text)
}

/// The IRI of this text.
fn read_iri(alloc: Global, text: &str) -> Result<Option<Text>, AllocError>
    ensures { IfOk result (IsRead iri_text IsUnicode text.now) }
{
    match within_brackets(text) {
        Some(iri) => Ok(Some(owned(alloc, iri)?)),
        None => Ok(None),
    }
}

/// The blank node of this printed name.
fn read_name(alloc: Global, text: &str) -> Result<Option<Name>, AllocError>
    ensures { IfOk result (IsRead printed_name IsWholeName text.now) }
{
    let name = name_from(alloc, text)?;
    if is_printed(&name, text) {
        Ok(Some(name))
    } else {
        Ok(None)
    }
}

/// Whether the text from which a name was read is its printed name.
fn is_printed(name: &Name, text: &str) -> bool
    requires { IsNameOf (chars text.now) name.now }
    ensures printed { IsTrue result ↔ (text.now ≡ printed_name name.now) }
    ensures whole { IsWholeName name.now }
{
    match name {
        Name::Label(label) => is_marked(label, text),
        Name::Fresh(_) => true,
    }
}

/// Whether `anon_` stands before a label that begins with `anon`, in the text from which it was read.
fn is_marked(label: &Text, text: &str) -> bool
    requires { IsNameOf (chars text.now) (Names.Label label.now) }
    ensures { IsTrue result ↔ (text.now ≡ printed_name (Names.Label label.now)) }
{
    !begins_with_anon(label) || text.starts_with("anon_anon")
}

/// The literal of this text.
fn read_literal(alloc: Global, text: &str) -> Result<Option<Literal>, AllocError>
    ensures { IfOk result (IsRead literal_text IsLiteralValue text.now) }
{
    let Some(quoted) = text.strip_prefix('"') else {
        return Ok(None);
    };
    match read_quoted(alloc, quoted)? {
        Some((lex, suffix)) => with_suffix(alloc, lex, suffix),
        None => Ok(None),
    }
}

/// What stands at the head of a quoted string, behind its opening quote.
enum Piece {
    /// A character, written as it has to be.
    Character(char),
    /// The closing quote.
    Quote,
    /// What is no part of a quoted string.
    Wrong,
}

/// A lexical form, and what follows its closing quote.
fn read_quoted(alloc: Global, text: &str) -> Result<Option<(Text, &str)>, AllocError>
    ensures { IfOk result (IsQuoted text.now) }
{
    let mut lex = String::new(alloc);
    let mut characters = text.chars();
    'pieces: loop {
        match take_piece(&mut characters) {
            Piece::Character(character) => lex.push(character)?,
            Piece::Quote => return Ok(Some((Text::from_string(lex), characters.as_str()))),
            Piece::Wrong => return Ok(None),
        }
    }
}

/// Takes one piece of a quoted string.
fn take_piece(characters: &mut Chars<'_>) -> Piece
    ensures { IsPiece (chars_rest characters.old) result (chars_rest characters.new) }
{
    let Some(character) = characters.next() else {
        return Piece::Wrong;
    };
    match character {
        '"' => Piece::Quote,
        '\\' => take_escape(characters),
        '\n' | '\r' => Piece::Wrong,
        _ => Piece::Character(character),
    }
}

/// Takes what follows a backslash.
fn take_escape(characters: &mut Chars<'_>) -> Piece
    ensures { IsPiece (92 ∷ chars_rest characters.old) result (chars_rest characters.new) }
{
    match characters.next() {
        Some(code) => meant_by(code),
        None => Piece::Wrong,
    }
}

/// The character that is written as a backslash and this one (N-Triples, section 2.3).
fn meant_by(code: char) -> Piece
    ensures { IsEscape code result }
{
    match code {
        '"' => Piece::Character('"'),
        '\\' => Piece::Character('\\'),
        'n' => Piece::Character('\n'),
        'r' => Piece::Character('\r'),
        _ => Piece::Wrong,
    }
}

/// The literal of this lexical form, behind whose closing quote this stands.
fn with_suffix(alloc: Global, lex: Text, suffix: &str) -> Result<Option<Literal>, AllocError>
    requires { IsUnicode lex }
    ensures { IfOk result (IsRead suffix_of (IsLiteralOf lex) suffix.now) }
{
    if suffix.is_empty() {
        return Ok(Some(Literal::plain(alloc, lex)?));
    }
    if let Some(tag) = suffix.strip_prefix('@') {
        return with_tag(alloc, lex, tag);
    }
    match suffix.strip_prefix("^^") {
        Some(datatype) => with_datatype(alloc, lex, datatype),
        None => Ok(None),
    }
}

/// The literal of this lexical form and this language tag.
fn with_tag(alloc: Global, lex: Text, tag: &str) -> Result<Option<Literal>, AllocError>
    requires { IsUnicode lex }
    ensures { IfOk result (IsRead suffix_of (IsLiteralOf lex) (64 ∷ tag.now)) }
{
    if is_lower_case(tag) {
        Ok(Some(Literal::tagged(alloc, lex, tag)?))
    } else {
        Ok(None)
    }
}

/// Whether a tag has no letter from A to Z.
fn is_lower_case(tag: &str) -> bool
    ensures { result ≡ is_lowered (chars tag.now) }
{
    tag.chars().all(|character| !character.is_ascii_uppercase())
}

/// The literal of this lexical form, and of the datatype whose IRI this is in angle brackets.
fn with_datatype(alloc: Global, lex: Text, datatype: &str) -> Result<Option<Literal>, AllocError>
    requires { IsUnicode lex }
    ensures { IfOk result (IsRead suffix_of (IsLiteralOf lex) (94 ∷ (94 ∷ datatype.now))) }
{
    let Some(iri) = within_brackets(datatype) else {
        return Ok(None);
    };
    if iri == XSD_STRING {
        return Ok(None);
    }
    Ok(Literal::typed(lex, owned(alloc, iri)?))
}
