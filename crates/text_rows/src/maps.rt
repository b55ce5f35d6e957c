//! Shape maps over data: their items, and the associations that they select.

ghost use Rattle.std.specs.Prelude.{IfOk, IsSome};
ghost use Rattle.iri_resolve.specs.Reference.{scheme_of};
ghost use Rattle.rdf_lex.specs.Prefixes.{base_of};

use crate::graphs::{Data, data_of};
use crate::items::items;
use crate::terms::{numbers_from, push_term, texts_of};
use anyhow::bail;
use rdf_lex::Prefixes;
use rdf_terms::items::Items;
use rdf_terms::table::TermTable;
use rdf_terms::text::Text;
use schema_tree::labels::{Label, Labels};
use schema_tree::schema::{ExprId, Schema};
use shape_map::{Association, MapError, ShapeMap, read};
use std::alloc::{AllocError, Global};

/// The names of targets: a base, and a prefix.
fn target_names(alloc: Global) -> Result<Prefixes, AllocError>
    ensures { IfOk result (λ p. IsSome (scheme_of (base_of p))) }
{
    let mut prefixes = Prefixes::new(alloc, "http://s/")?;
    prefixes.set("ex", "http://l/")?;
    Ok(prefixes)
}

/// Declares the labels `<http://s/S>` of expression 0 and `_:T` of expression 1.
fn declare(alloc: Global, labels: &mut Labels) -> Result<(), AllocError> {
    labels.declare(Label::Iri(Text::from_str(alloc, "http://s/S")?), ExprId(0))?;
    labels.declare(Label::Blank(Text::from_str(alloc, "T")?), ExprId(1))?;
    Ok(())
}

/// A schema that declares these two labels, without expressions, whose start is expression 2.
fn schema(alloc: Global) -> Result<Schema, AllocError> {
    let mut labels = Labels::new(alloc);
    declare(alloc, &mut labels)?;
    Ok(Schema {
        exprs: Items::of(Vec::new(alloc)),
        shapes: Items::of(Vec::new(alloc)),
        labels,
        start: Some(ExprId(2)),
    })
}

/// Appends an association with the number of its expression, and a separator before each but the first.
fn push_association(
    alloc: Global,
    terms: &TermTable,
    association: &Association,
    out: &mut Vec<u8>,
) -> Result<(), AllocError> {
    if !out.is_empty() {
        out.extend_from_slice(b", ")?;
    }
    push_term(alloc, terms, association.node, out)?;
    let (sign, number) = (
        if association.want { "@" } else { "@!" },
        association.expr.0,
    );
    let target = association.target.text(alloc)?;
    let line = format!(in alloc; "{sign}{target} {number}")?;
    out.extend_from_slice(line.as_bytes())
}

/// Associations, with commas between them.
fn associations(
    alloc: Global,
    terms: &TermTable,
    selected: &[Association],
) -> Result<String, AllocError> {
    let mut out = Vec::new(alloc);
    for association in selected {
        push_association(alloc, terms, association, &mut out)?;
    }
    String::from_utf8_lossy(alloc, out.as_slice())
}

/// The terms that a table has behind the first ones.
fn added(alloc: Global, terms: &TermTable, first: usize) -> Result<String, AllocError> {
    let ids = numbers_from(alloc, terms, first)?;
    if ids.is_empty() {
        return String::from_str(alloc, "nothing");
    }
    texts_of(alloc, terms, ids.as_slice(), b", ")
}

/// What a map selects from data, or why it is refused, and the terms that the table takes up.
fn selected(alloc: Global, map: &ShapeMap, data: &mut Data) -> Result<String, AllocError> {
    let first = data.terms.len();
    let answer = map.resolve(alloc, &schema(alloc)?, &mut data.graph, &mut data.terms);
    let added = added(alloc, &data.terms, first)?;
    match answer {
        Ok(selected) => {
            let text = associations(alloc, &data.terms, selected.as_slice())?;
            format!(in alloc; "{text}; adds {added}")
        }
        Err(error) => format!(in alloc; "{error}; adds {added}"),
    }
}

/// What is asked of a map over data: its items or what it selects, or why it is refused.
fn told(
    alloc: Global,
    kind: &str,
    map: Result<ShapeMap, MapError>,
    data: &mut Data,
) -> Result<String, AllocError> {
    match map {
        Ok(map) if kind == "items" => items(alloc, &map),
        Ok(map) => selected(alloc, &map, data),
        Err(error) => format!(in alloc; "{error}"),
    }
}

/// What is asked of the map of some bytes over data.
fn asked_of(alloc: Global, kind: &str, data: &mut Data, question: &[u8]) -> anyhow::Result<String>
    requires { IsSome (scheme_of (base_of data.old.names)) }
{
    let map = read(alloc, question, &data.names, &target_names(alloc)?);
    Ok(told(alloc, kind, map, data)?)
}

/// What is asked of the map of some bytes over the data of a file.
pub fn asked(
    alloc: Global,
    kind: &str,
    name: &str,
    source: &[u8],
    question: &[u8],
) -> anyhow::Result<String> {
    match data_of(alloc, name, source) {
        Ok(mut data) => asked_of(alloc, kind, &mut data, question),
        Err(_) => bail!("the data are refused"),
    }
}
