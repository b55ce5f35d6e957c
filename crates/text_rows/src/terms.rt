//! Terms: what their texts say, their order, and their numbers in a table.

use anyhow::bail;
use rdf_terms::order::put_in_order;
use rdf_terms::reader::read_term;
use rdf_terms::table::TermTable;
use rdf_terms::terms::{Literal, Name, Term, TermId};
use rdf_terms::written::write_term;
use std::alloc::{AllocError, Global};

/// A literal by its parts.
fn shown_literal(alloc: Global, literal: &Literal) -> Result<String, AllocError> {
    let (lex, datatype) = (literal.lex().as_str(), literal.datatype().as_str());
    match literal.lang() {
        Some(tag) => {
            let tag = tag.as_str();
            format!(in alloc; "text {lex:?} in {tag:?}")
        }
        None => format!(in alloc; "text {lex:?} of <{datatype}>"),
    }
}

/// A term by its parts.
fn shown(alloc: Global, term: &Term) -> Result<String, AllocError> {
    match term {
        Term::Iri(iri) => {
            let iri = iri.as_str();
            format!(in alloc; "IRI {iri:?}")
        }
        Term::Blank(Name::Label(label)) => {
            let label = label.as_str();
            format!(in alloc; "label {label:?}")
        }
        Term::Blank(Name::Fresh(number)) => {
            let number = number.get();
            format!(in alloc; "anonymous {number}")
        }
        Term::Lit(literal) => shown_literal(alloc, literal),
    }
}

/// The parts of the term of a text.
pub fn parts(alloc: Global, text: &str) -> Result<String, AllocError> {
    match read_term(alloc, text)? {
        Some(term) => shown(alloc, &term),
        None => String::from_str(alloc, "none"),
    }
}

/// The term of a text.
pub fn term_of(alloc: Global, text: &str) -> anyhow::Result<Term> {
    match read_term(alloc, text)? {
        Some(term) => Ok(term),
        None => bail!("a text is that of no term"),
    }
}

/// The number that a table gives to the term of a text.
fn put(alloc: Global, text: &str, terms: &mut TermTable) -> anyhow::Result<TermId> {
    let term = term_of(alloc, text)?;
    Ok(terms.put(term)?)
}

/// The numbers that a table gives to the terms of texts, each on a line.
fn put_all(alloc: Global, texts: &str, terms: &mut TermTable) -> anyhow::Result<Vec<TermId>> {
    let mut ids = Vec::new(alloc);
    for text in texts.lines() {
        ids.push(put(alloc, text, terms)?)?;
    }
    Ok(ids)
}

/// The numbers that a table gives to the terms of texts, and how many terms it then has.
fn numbered(alloc: Global, texts: &str, terms: &mut TermTable) -> anyhow::Result<String> {
    let mut out = String::new(alloc);
    for id in put_all(alloc, texts, terms)? {
        let number = id.0;
        write!(out, "{number} ")?;
    }
    let count = terms.len();
    write!(out, "of {count}")?;
    Ok(out)
}

/// The numbers of terms in an empty table.
pub fn numbers(alloc: Global, texts: &str) -> anyhow::Result<String> {
    let mut terms = TermTable::new(alloc);
    numbered(alloc, texts, &mut terms)
}

/// Appends the term of a number, if it is of the table.
pub fn push_term(
    alloc: Global,
    terms: &TermTable,
    id: TermId,
    out: &mut Vec<u8>,
) -> Result<(), AllocError> {
    if (id.0 as usize) < terms.len() {
        write_term(alloc, terms.get(id), out)?;
    }
    Ok(())
}

/// The texts of the terms of numbers, with a separator between two.
pub fn texts_of(
    alloc: Global,
    terms: &TermTable,
    ids: &[TermId],
    separator: &[u8],
) -> Result<String, AllocError> {
    let mut out = Vec::new(alloc);
    for id in ids {
        if !out.is_empty() {
            out.extend_from_slice(separator)?;
        }
        push_term(alloc, terms, *id, &mut out)?;
    }
    String::from_utf8_lossy(alloc, out.as_slice())
}

/// The numbers of the terms of a table from this one on.
pub fn numbers_from(
    alloc: Global,
    terms: &TermTable,
    start: usize,
) -> Result<Vec<TermId>, AllocError> {
    let mut ids = Vec::new(alloc);
    for number in start..terms.len() {
        ids.push(TermId(number as u32))?;
    }
    Ok(ids)
}

/// The terms of texts in their order, once a table has taken them up.
fn in_order(alloc: Global, texts: &str, terms: &mut TermTable) -> anyhow::Result<String> {
    let mut ids = put_all(alloc, texts, terms)?;
    put_in_order(terms, &mut ids)?;
    Ok(texts_of(alloc, terms, ids.as_slice(), b"\n")?)
}

/// Terms in their order, each once.
pub fn sorted(alloc: Global, texts: &str) -> anyhow::Result<String> {
    let mut terms = TermTable::new(alloc);
    in_order(alloc, texts, &mut terms)
}
