//! Terms and triples on lines of N-Triples.

ghost use Rattle.std.specs.Prelude.{◌≡◌, ◌++◌, IfOk, None, OnOk};
ghost use Rattle.std.specs.List.{flat_map};
ghost use Rattle.std.specs.Option.{option_map};
ghost use Rattle.rdf_terms.specs.Written.{printed_name};
ghost use Rattle.shard_checks.specs.Written.{name_on_line, number_on_line, term_on_line, triple_line};

use rdf_terms::table::TermTable;
use rdf_terms::terms::{Name, Term, TermId, Triple};
use rdf_terms::written::{printed_name, write_term};
use std::alloc::{AllocError, Global};

/// Appends the printed name of a blank node.
fn push_printed(alloc: Global, name: &Name, out: &mut Vec<u8>) -> Result<(), AllocError>
    ensures { OnOk result (out.new.items ≡ out.old.items ++ printed_name name.now) }
{
    let printed = printed_name(alloc, name)?;
    out.extend_from_slice(printed.as_bytes())
}

/// Appends the name of a blank node as it stands.
fn push_kept(alloc: Global, name: &Name, out: &mut Vec<u8>) -> Result<(), AllocError>
    ensures { OnOk result (out.new.items ≡ out.old.items ++ name_on_line None name.now) }
{
    match name {
        Name::Label(label) => out.extend_from_slice(label.as_str().as_bytes()),
        Name::Fresh(_) => push_printed(alloc, name, out),
    }
}

/// Appends the name of a blank node: as it stands, or its printed name behind a prefix.
fn push_name(
    alloc: Global,
    prefix: Option<&str>,
    name: &Name,
    out: &mut Vec<u8>,
) -> Result<(), AllocError>
    ensures { OnOk result (out.new.items ≡ out.old.items ++ name_on_line (option_map (λ p. p.now) prefix.entry) name.now) }
{
    match prefix {
        Some(prefix) => {
            out.extend_from_slice(prefix.as_bytes())?;
            push_printed(alloc, name, out)
        }
        None => push_kept(alloc, name, out),
    }
}

/// Appends a term.
fn push_term(
    alloc: Global,
    prefix: Option<&str>,
    term: &Term,
    out: &mut Vec<u8>,
) -> Result<(), AllocError>
    ensures { OnOk result (out.new.items ≡ out.old.items ++ term_on_line (option_map (λ p. p.now) prefix.entry) term.now) }
{
    match term {
        Term::Blank(name) => {
            out.extend_from_slice(b"_:")?;
            push_name(alloc, prefix, name, out)
        }
        Term::Iri(_) => write_term(alloc, term, out),
        Term::Lit(_) => write_term(alloc, term, out),
    }
}

/// Appends the term of a number, if the table has it.
pub(crate) fn push_number(
    alloc: Global,
    prefix: Option<&str>,
    terms: &TermTable,
    number: TermId,
    out: &mut Vec<u8>,
) -> Result<(), AllocError>
    ensures { OnOk result (out.new.items ≡ out.old.items ++ number_on_line (option_map (λ p. p.now) prefix.entry) terms.now number) }
{
    if (number.0 as usize) < terms.len() {
        push_term(alloc, prefix, terms.get(number), out)?;
    }
    Ok(())
}

/// Appends the line of a triple.
fn push_triple(
    alloc: Global,
    prefix: Option<&str>,
    terms: &TermTable,
    triple: Triple,
    out: &mut Vec<u8>,
) -> Result<(), AllocError>
    ensures { OnOk result (out.new.items ≡ out.old.items ++ triple_line (option_map (λ p. p.now) prefix.entry) terms.now triple) }
{
    push_number(alloc, prefix, terms, triple.s, out)?;
    out.extend_from_slice(b" ")?;
    push_number(alloc, prefix, terms, triple.p, out)?;
    out.extend_from_slice(b" ")?;
    push_number(alloc, prefix, terms, triple.o, out)?;
    out.extend_from_slice(b" .\n")
}

/// The lines of triples, in their order. Labels of blank nodes stay as they are, or a prefix goes before the printed name of each
/// blank node.
pub fn triple_lines(
    alloc: Global,
    prefix: Option<&str>,
    terms: &TermTable,
    triples: &[Triple],
) -> Result<Vec<u8>, AllocError>
    ensures { IfOk result (λ v. v.items ≡ flat_map (triple_line (option_map (λ p. p.now) prefix.entry) terms.now) triples.now) }
{
    let mut out = Vec::new(alloc);
    for triple in triples {
        push_triple(alloc, prefix, terms, *triple, &mut out)?;
    }
    Ok(out)
}
