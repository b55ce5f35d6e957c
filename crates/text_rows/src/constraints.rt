//! Node constraints of facets, and value sets, asked about terms.

use crate::terms::term_of;
use anyhow::bail;
use node_constraint::{Facet, Kind4, MakeError, NodeConstraint};
use rdf_terms::items::Items;
use rdf_terms::terms::{Literal, Term};
use rdf_terms::text::Text;
use rdf_terms::vocabulary::XSD_DECIMAL;
use row_format::first_word;
use std::alloc::{AllocError, Global};
use value_sets::{Except, Exceptions, Value, ValueSet};

/// The facet of a name with this value; a pattern stands behind its flags and a slash.
fn facet_of(alloc: Global, line: &str) -> anyhow::Result<Facet> {
    let (name, value) = first_word(line);
    let text = Text::from_str(alloc, value)?;
    match name {
        "mininclusive" => Ok(Facet::MinInclusive(text)),
        "minexclusive" => Ok(Facet::MinExclusive(text)),
        "maxinclusive" => Ok(Facet::MaxInclusive(text)),
        "maxexclusive" => Ok(Facet::MaxExclusive(text)),
        "pattern" => {
            let Some((flags, pattern)) = value.split_once('/') else {
                bail!("a pattern stands behind its flags and a slash");
            };
            let flags = Text::from_str(alloc, flags)?;
            Ok(Facet::Pattern(Text::from_str(alloc, pattern)?, flags))
        }
        _ => bail!("no facet has this name"),
    }
}

/// The constraint of the facets on these lines, or why it is refused.
fn constraint_of(alloc: Global, lines: &str) -> anyhow::Result<Result<NodeConstraint, MakeError>> {
    let mut facets = Vec::new(alloc);
    for line in lines.lines() {
        facets.push(facet_of(alloc, line)?)?;
    }
    Ok(NodeConstraint::make(alloc, None, None, facets, None))
}

/// What a constraint asks for, as far as its lines are read.
#[derive(Drop)]
struct Asked {
    kind: Option<Kind4>,
    datatype: Option<Text>,
    facets: Vec<Facet>,
    values: Vec<Value>,
}

impl Asked {
    /// Takes up what a line asks for: a kind, a datatype, a value, which is a form and a text, or a facet.
    fn add(&mut self, alloc: Global, line: &str) -> anyhow::Result<()> {
        let (name, text) = first_word(line);
        match name {
            "kind" => self.kind = Some(kind_of(text)?),
            "datatype" => self.datatype = Some(Text::from_str(alloc, text)?),
            "value" => self.add_value(alloc, text)?,
            _ => self.facets.push(facet_of(alloc, line)?)?,
        }
        Ok(())
    }

    /// Takes up what the lines ask for.
    fn add_all(&mut self, alloc: Global, lines: &str) -> anyhow::Result<()> {
        for line in lines.lines() {
            self.add(alloc, line)?;
        }
        Ok(())
    }

    /// Takes up a value, which is a form and a text.
    fn add_value(&mut self, alloc: Global, value: &str) -> anyhow::Result<()> {
        let (form, text) = first_word(value);
        Ok(self.values.push(value_of(alloc, form, text)?)?)
    }

    /// The constraint. Where no value is asked for, it has no value set.
    fn constraint(self, alloc: Global) -> anyhow::Result<NodeConstraint> {
        let Asked {
            kind,
            datatype,
            facets,
            values,
        } = self;
        let values = value_set(alloc, values)?;
        Ok(NodeConstraint::make(alloc, kind, datatype, facets, values)?)
    }
}

/// The set of the values, if there are any.
fn value_set(alloc: Global, values: Vec<Value>) -> Result<Option<ValueSet>, AllocError> {
    if values.is_empty() {
        return Ok(None);
    }
    Ok(Some(ValueSet::of(alloc, values)?))
}

/// The kind of a name.
fn kind_of(name: &str) -> anyhow::Result<Kind4> {
    match name {
        "iri" => Ok(Kind4::Iri),
        "bnode" => Ok(Kind4::Bnode),
        "nonliteral" => Ok(Kind4::NonLiteral),
        "literal" => Ok(Kind4::Literal),
        _ => bail!("no kind has this name"),
    }
}

/// The constraint of these lines.
fn constraint_asked(alloc: Global, lines: &str) -> anyhow::Result<NodeConstraint> {
    let mut asked = Asked {
        kind: None,
        datatype: None,
        facets: Vec::new(alloc),
        values: Vec::new(alloc),
    };
    asked.add_all(alloc, lines)?;
    asked.constraint(alloc)
}

/// The first part of the constraint that the term fails, or that it satisfies it.
fn told_part(alloc: Global, constraint: &NodeConstraint, term: &Term) -> anyhow::Result<String> {
    match constraint.failing_part(alloc, term)? {
        Some(part) => Ok(format!(in alloc; "{part:?}")?),
        None => told(alloc, true),
    }
}

/// The first part of the constraint of these lines that the term of a text fails, or that it satisfies it.
pub fn failed(alloc: Global, term: &str, lines: &str) -> anyhow::Result<String> {
    let constraint = constraint_asked(alloc, lines)?;
    let term = term_of(alloc, term)?;
    told_part(alloc, &constraint, &term)
}

/// Whether a constraint holds for a literal.
fn judged(alloc: Global, constraint: &NodeConstraint, literal: Literal) -> anyhow::Result<String> {
    told(alloc, constraint.holds(alloc, &Term::Lit(literal))?)
}

/// Whether a constraint of one facet holds for the decimal of a text, or how it is refused.
pub fn held(alloc: Global, facet: &str, text: &str) -> anyhow::Result<String> {
    let lex = Text::from_str(alloc, text)?;
    let Some(literal) = Literal::typed(lex, Text::from_str(alloc, XSD_DECIMAL)?) else {
        bail!("decimals are literals");
    };
    match constraint_of(alloc, facet)? {
        Ok(constraint) => judged(alloc, &constraint, literal),
        Err(error) => Ok(format!(in alloc; "{error:?}")?),
    }
}

/// Whether a constraint of several facets is made, or how it is refused.
pub fn made(alloc: Global, facets: &str) -> anyhow::Result<String> {
    match constraint_of(alloc, facets)? {
        Ok(_) => Ok(String::from_str(alloc, "made")?),
        Err(error) => Ok(format!(in alloc; "{error:?}")?),
    }
}

/// `holds` or `fails`.
fn told(alloc: Global, holds: bool) -> anyhow::Result<String> {
    Ok(String::from_str(alloc, if holds { "holds" } else { "fails" })?)
}

/// A range's only exception, which is a stem.
fn except_stem(alloc: Global, stem: &str) -> Result<Exceptions, AllocError> {
    let stem = Except::Stem(Text::from_str(alloc, stem)?);
    Ok(Items::of(vec![in alloc; stem]?))
}

/// The value of a form with this text.
fn value_of(alloc: Global, form: &str, text: &str) -> anyhow::Result<Value> {
    let own = Text::from_str(alloc, text)?;
    match form {
        "term" => Ok(Value::Term(term_of(alloc, text)?)),
        "iri-stem" => Ok(Value::IriStem(own)),
        "literal-stem" => Ok(Value::LitStem(own)),
        "language" => Ok(Value::Lang(own)),
        "language-stem" => Ok(Value::LangStem(own)),
        "iris-but" => Ok(Value::IriRange(None, except_stem(alloc, text)?)),
        "literals-but" => Ok(Value::LitRange(None, except_stem(alloc, text)?)),
        "languages-but" => Ok(Value::LangRange(None, except_stem(alloc, text)?)),
        _ => bail!("no value has this form"),
    }
}

/// Whether the value set of one value, which is a form and a text, holds for the term of a text.
pub fn valued(alloc: Global, value: &str, term: &str) -> anyhow::Result<String> {
    let (form, text) = first_word(value);
    let values = vec![in alloc; value_of(alloc, form, text)?]?;
    let set = ValueSet::of(alloc, values)?;
    told(alloc, set.has(&term_of(alloc, term)?))
}
