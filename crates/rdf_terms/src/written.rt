//! The texts of terms, and the names of blank nodes from texts.

ghost use Rattle.std.specs.Prelude.{ℕ, ◌≡◌, ◌++◌, codes, IfOk, OnOk, OnErr, IfSome, IsNone, string_bytes, nat_eq, if◌then◌else◌, []};
ghost use Rattle.std.specs.List.{flat_map, starts_with};
ghost use Rattle.std.specs.Str.{chars};
ghost use Rattle.rdf_terms.specs.Names.{IsNameOf, IsAnonymous, written_label};
ghost use Rattle.rdf_terms.specs.Written.{iri_text, printed_name, escaped, suffix_text, literal_text, term_text};

use crate::terms::{FreshNumber, Literal, Name, Term};
use crate::text::Text;
use crate::vocabulary::XSD_STRING;
use std::alloc::{AllocError, Global};

/// Appends the text of the term: its spelling in N-Triples (N-Triples, section 2), where only quote, backslash, line feed
/// and carriage return are escaped, and these in strings alone. A refusal changes nothing.
pub fn write_term(alloc: Global, t: &Term, out: &mut Vec<u8>) -> Result<(), AllocError>
    ensures written { OnOk result (out.new.items ≡ out.old.items ++ term_text t.now) }
    ensures err { OnErr result (out.new.items ≡ out.old.items) }
{
    let mut text = String::new(alloc);
    match t {
        Term::Iri(iri) => push_iri(iri, &mut text)?,
        Term::Blank(name) => push_blank(alloc, name, &mut text)?,
        Term::Lit(literal) => push_literal(literal, &mut text)?,
    }
    out.extend_from_slice(text.as_bytes())
}

/// Appends an IRI in angle brackets.
fn push_iri(iri: &Text, out: &mut String) -> Result<(), AllocError>
    ensures { OnOk result (string_bytes out.new ≡ string_bytes out.old ++ iri_text iri.now) }
{
    out.push_str("<")?;
    out.push_str(iri.as_str())?;
    out.push_str(">")
}

/// Appends `_:` and the printed name of a blank node.
fn push_blank(alloc: Global, name: &Name, out: &mut String) -> Result<(), AllocError>
    ensures { OnOk result (string_bytes out.new ≡ string_bytes out.old ++ (codes "_:" ++ printed_name name.now)) }
{
    out.push_str("_:")?;
    push_name(alloc, name, out)
}

/// The printed name of a blank node, without `_:`.
pub fn printed_name(alloc: Global, name: &Name) -> Result<String, AllocError>
    ensures { IfOk result (λ s. string_bytes s ≡ printed_name name.now) }
{
    let mut text = String::new(alloc);
    push_name(alloc, name, &mut text)?;
    Ok(text)
}

/// Appends the printed name of a blank node.
fn push_name(alloc: Global, name: &Name, out: &mut String) -> Result<(), AllocError>
    ensures { OnOk result (string_bytes out.new ≡ string_bytes out.old ++ printed_name name.now) }
{
    match name {
        Name::Label(label) => {
            out.push_str(mark(label))?;
            out.push_str(label.as_str())
        }
        Name::Fresh(number) => {
            out.push_str("anon")?;
            out.push_str(number.get().to_string(alloc)?.as_str())
        }
    }
}

/// What stands before a label in its printed name, so that it is not that of an anonymous node.
pub(crate) fn mark(label: &Text) -> &'static str
    ensures { result.now ≡ (if starts_with nat_eq label.now (codes "anon") then codes "anon_" else []) }
{
    if begins_with_anon(label) { "anon_" } else { "" }
}

/// Whether a label begins as the printed name of an anonymous node does.
pub fn begins_with_anon(label: &Text) -> bool
    ensures { result ≡ starts_with nat_eq label.now (codes "anon") }
{
    label.as_str().starts_with("anon")
}

/// Appends a literal: its lexical form in quotes, and its tag, or its datatype unless that is xsd:string.
fn push_literal(literal: &Literal, out: &mut String) -> Result<(), AllocError>
    ensures { OnOk result (string_bytes out.new ≡ string_bytes out.old ++ literal_text literal.now) }
{
    out.push_str("\"")?;
    push_escaped(literal.lex(), out)?;
    out.push_str("\"")?;
    push_suffix(literal, out)
}

/// Appends what follows the quoted string of a literal.
fn push_suffix(literal: &Literal, out: &mut String) -> Result<(), AllocError>
    ensures { OnOk result (string_bytes out.new ≡ string_bytes out.old ++ suffix_text literal.now literal.now.lang) }
{
    match literal.lang() {
        Some(tag) => {
            out.push_str("@")?;
            out.push_str(tag.as_str())
        }
        None if literal.datatype().as_str() == XSD_STRING => Ok(()),
        None => {
            out.push_str("^^")?;
            push_iri(literal.datatype(), out)
        }
    }
}

/// Appends a lexical form with its escapes (N-Triples, section 2.3).
fn push_escaped(lex: &Text, out: &mut String) -> Result<(), AllocError>
    ensures { OnOk result (string_bytes out.new ≡ string_bytes out.old ++ flat_map escaped lex.now) }
{
    for character in lex.as_str().chars() {
        push_character(character, out)?;
    }
    Ok(())
}

/// Appends one character of a lexical form.
fn push_character(character: char, out: &mut String) -> Result<(), AllocError>
    ensures { OnOk result (string_bytes out.new ≡ string_bytes out.old ++ escaped character) }
{
    match character {
        '"' => out.push_str("\\\""),
        '\\' => out.push_str("\\\\"),
        '\n' => out.push_str("\\n"),
        '\r' => out.push_str("\\r"),
        other => out.push(other),
    }
}

/// The name of a blank node from its printed name: `anon` with a decimal from 1 to 4,294,967,295 without leading zeros is
/// the anonymous node of that number, `anon_anon` with anything after is the label without its first five characters, and
/// any other text is a label as written.
pub fn name_from(alloc: Global, text: &str) -> Result<Name, AllocError>
    ensures { IfOk result (λ name. IsNameOf (chars text.now) name) }
{
    match anonymous(text) {
        Some(n) => Ok(Name::Fresh(FreshNumber::new(n))),
        None => Ok(Name::Label(Text::from_str(alloc, written(text))?)),
    }
}

/// The number of the anonymous node whose printed name the text is.
fn anonymous(text: &str) -> Option<u32>
    ensures found { IfSome result (λ n. IsAnonymous text.now n) }
    ensures none { IsNone result → (n : ℕ) → ¬ IsAnonymous text.now n }
{
    let digits = text.strip_prefix("anon")?;
    let first = *digits.as_bytes().first()?;
    if first == b'0' || first == b'+' {
        return None;
    }
    digits.parse().ok()
}

/// A label without the `anon_` that stands before labels that begin with `anon`.
fn written(text: &str) -> &str
    ensures { chars result.now ≡ written_label (chars text.now) }
{
    if text.starts_with("anon_anon") {
        &text[5..]
    } else {
        text
    }
}
