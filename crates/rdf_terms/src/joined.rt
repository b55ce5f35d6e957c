//! The texts of the terms of a table, one behind the other, where they are compared without a look at the terms.

ghost use Rattle.std.specs.Prelude.{◌≡◌, ◌++◌, ◌<◌, IfOk, OnOk, codes, encode_utf8_all};
ghost use Rattle.std.specs.Fmt.{decimal};
ghost use Rattle.std.specs.List.{flat_map};
ghost use Rattle.rdf_terms.specs.JoinedTexts.{AreJoined};
ghost use Rattle.rdf_terms.specs.Order.{compare_at, text_at};
ghost use Rattle.rdf_terms.specs.TextBytes.{escaped_byte};
ghost use Rattle.rdf_terms.specs.Written.{iri_text, literal_text, printed_name, suffix_text, term_text};

use crate::order::{escape_of, is_string};
use crate::table::TermTable;
use crate::terms::{Literal, Name, Term, TermId};
use crate::text::Text;
use crate::written::mark;
use itoa::Buffer;
use std::alloc::{AllocError, Global};
use std::cmp::Ordering;

/// The texts of the terms of a table, one behind the other, and where each of them begins and the last one ends.
#[derive(Drop)]
pub struct JoinedTexts<'a> {
    terms: &'a TermTable,
    bytes: Vec<u8>,
    firsts: Vec<usize>,
    ghost joined: { AreJoined terms.now bytes.items firsts.items },
}

impl<'a> JoinedTexts<'a> {
    ghost use Rattle.std.specs.Prelude.{◌≡◌, ◌≤◌, IfOk, length, take};
    ghost use Rattle.std.specs.List.{flat_map};
    ghost use Rattle.rdf_terms.specs.Written.{term_text};
    ghost use Rattle.rdf_terms.specs.Order.{compare_at, text_at};

    /// The texts of the terms of a table.
    pub fn of(alloc: Global, terms: &'a TermTable) -> Result<JoinedTexts<'a>, AllocError>
        ensures { IfOk result (λ texts. texts.terms.now ≡ terms.entry.now) }
    {
        let mut bytes = Vec::new(alloc);
        let mut firsts = vec![in alloc; 0usize; 1]?;
        for number in 0..terms.len() {
            append_text(terms.get(TermId(number as u32)), &mut bytes)?;
            firsts.push(bytes.len())?;
        }
        Ok(JoinedTexts {
            terms,
            bytes,
            firsts,
        })
    }

    /// Compares two numbers by the texts of their terms, and numbers of one text by their size.
    pub fn compare(&self, a: TermId, b: TermId) -> Ordering
        ensures { result ≡ compare_at self.now.terms.now a b }
    {
        let text = self.text(a);
        let other = self.text(b);
        text.cmp(&other).then(a.0.cmp(&b.0))
    }

    /// The text of the term of a number, and none where the table has no such number.
    fn text(&self, n: TermId) -> &[u8]
        ensures { result.now ≡ text_at self.now.terms.now n }
    {
        let number = n.0 as usize;
        if number < self.terms.len() {
            let first = self.first_of(number);
            let end = self.first_of(number + 1);
            let rest = &self.bytes.as_slice()[first..];
            &rest[..end - first]
        } else {
            &self.bytes[..0]
        }
    }

    /// Where the text of a number begins, and that of the one before it ends.
    fn first_of(&self, number: usize) -> usize
        requires { number ≤ length self.now.terms.now }
        ensures begins { result ≡ length (flat_map term_text (take number self.now.terms.now)) }
        ensures within { result ≤ length self.now.bytes.items }
    {
        self.firsts[number]
    }
}

/// Appends the text of the term. After a refusal a part of it may stand there.
pub fn append_text(t: &Term, out: &mut Vec<u8>) -> Result<(), AllocError>
    ensures { OnOk result (out.new.items ≡ out.old.items ++ term_text t.now) }
{
    match t {
        Term::Iri(iri) => append_iri(iri, out),
        Term::Blank(name) => append_blank(name, out),
        Term::Lit(literal) => append_literal(literal, out),
    }
}

/// Appends an IRI in angle brackets.
fn append_iri(iri: &Text, out: &mut Vec<u8>) -> Result<(), AllocError>
    ensures { OnOk result (out.new.items ≡ out.old.items ++ iri_text iri.now) }
{
    append(out, "<")?;
    append(out, iri.as_str())?;
    append(out, ">")
}

/// Appends the bytes of a string.
fn append(out: &mut Vec<u8>, text: &str) -> Result<(), AllocError>
    ensures { OnOk result (out.new.items ≡ out.old.items ++ text.now) }
{
    out.extend_from_slice(text.as_bytes())
}

/// Appends `_:` and the printed name of a blank node.
fn append_blank(name: &Name, out: &mut Vec<u8>) -> Result<(), AllocError>
    ensures { OnOk result (out.new.items ≡ out.old.items ++ (codes "_:" ++ printed_name name.now)) }
{
    append(out, "_:")?;
    match name {
        Name::Label(label) => {
            append(out, mark(label))?;
            append(out, label.as_str())
        }
        Name::Fresh(number) => {
            append(out, "anon")?;
            append_number(number.get(), out)
        }
    }
}

/// Appends the digits of a number.
fn append_number(number: u32, out: &mut Vec<u8>) -> Result<(), AllocError>
    ensures { OnOk result (out.new.items ≡ out.old.items ++ decimal number) }
{
    let mut digits = Buffer::new();
    append(out, digits.format(number))
}

/// Appends a literal: its lexical form in quotes, and its tag, or its datatype unless that is xsd:string.
fn append_literal(literal: &Literal, out: &mut Vec<u8>) -> Result<(), AllocError>
    ensures { OnOk result (out.new.items ≡ out.old.items ++ literal_text literal.now) }
{
    append(out, "\"")?;
    append_escaped(literal.lex(), out)?;
    append(out, "\"")?;
    append_suffix(literal, out)
}

/// Appends what follows the quoted string of a literal.
fn append_suffix(literal: &Literal, out: &mut Vec<u8>) -> Result<(), AllocError>
    ensures { OnOk result (out.new.items ≡ out.old.items ++ suffix_text literal.now literal.now.lang) }
{
    match literal.lang() {
        Some(tag) => {
            append(out, "@")?;
            append(out, tag.as_str())
        }
        None if is_string(literal.datatype()) => Ok(()),
        None => {
            append(out, "^^")?;
            append_iri(literal.datatype(), out)
        }
    }
}

/// Appends a lexical form with its escapes (N-Triples, section 2.3).
fn append_escaped(lex: &Text, out: &mut Vec<u8>) -> Result<(), AllocError>
    ensures { OnOk result (out.new.items ≡ out.old.items ++ flat_map escaped_byte (encode_utf8_all lex.now)) }
{
    append_bytes(lex.as_str().as_bytes(), out)
}

/// Appends bytes with their escapes.
fn append_bytes(bytes: &[u8], out: &mut Vec<u8>) -> Result<(), AllocError>
    ensures { OnOk result (out.new.items ≡ out.old.items ++ flat_map escaped_byte bytes.now) }
{
    for byte in bytes {
        append_byte(*byte, out)?;
    }
    Ok(())
}

/// Appends one byte of a lexical form.
fn append_byte(byte: u8, out: &mut Vec<u8>) -> Result<(), AllocError>
    ensures { OnOk result (out.new.items ≡ out.old.items ++ escaped_byte byte) }
{
    match escape_of(byte) {
        Some(escape) => {
            out.push(b'\\')?;
            out.push(escape)?;
            Ok(())
        }
        None => {
            out.push(byte)?;
            Ok(())
        }
    }
}
