//! Proofs as text.

ghost use Rattle.std.specs.Prelude.{◌≡◌, ◌++◌, ◌∷◌, ◌<◌, [], map, IfOk, OnOk, Some};
ghost use Rattle.std.specs.Fmt.{decimal};
ghost use Rattle.std.specs.List.{AllByRecursion, flat_map, join_with_byte};
ghost use Rattle.rdf_terms.specs.Values.{IsValue};
ghost use Rattle.schema_tree.specs.Targets.{IsTextTarget};
ghost use Rattle.proof_file.specs.Text.{hex_digit, hex_text, place_text, state_text, part_mark, kind_mark, kind_fields, ended, line_text, lines_text, first_line, head_lines, section_lines, ProofText, Keeps, HasNoFeeds};
ghost use Rattle.proof_file.specs.declared.head.Part.TheVariants as Parts;
ghost use Rattle.proof_file.specs.declared.line.Line.TheVariants as Lines;

use crate::head::{Digest256, Head, Part};
use crate::{Claim, Proof, Record, RecordKind, Section};
use rdf_terms::terms::Term;
use rdf_terms::values::term_is_value;
use rdf_terms::written::write_term;
use schema_tree::verdicts::{Place, State};
use std::alloc::{AllocError, Global};

/// The text of a proof that keeps the orders and limits, where no text of a term or target holds a line feed.
pub fn write(alloc: Global, p: &Proof) -> Result<Vec<u8>, AllocError>
    requires { Keeps p.now }
    ensures { IfOk result (λ v. HasNoFeeds p.now → ProofText p.now v.items) }
{
    let mut out = begun(alloc, &p.head)?;
    push_nodes(alloc, p.nodes.as_slice(), &mut out)?;
    push_sections(alloc, p.sections.as_slice(), &mut out)?;
    push_claims(alloc, p.claims.as_slice(), &mut out)?;
    out.extend_from_slice(b"end\n")?;
    Ok(out)
}

/// The first line, and the lines of the head.
fn begun(alloc: Global, head: &Option<Head>) -> Result<Vec<u8>, AllocError>
    ensures { IfOk result (λ v. v.items ≡ first_line head.now ++ lines_text (head_lines head.now)) }
{
    match head {
        Some(head) => {
            let mut out = Vec::from_slice(alloc, b"shex-proof 2\n")?;
            push_head(alloc, head, &mut out)?;
            Ok(out)
        }
        None => Ok(Vec::from_slice(alloc, b"shex-proof 1\n")?),
    }
}

/// Appends the lines of a head.
fn push_head(alloc: Global, head: &Head, out: &mut Vec<u8>) -> Result<(), AllocError>
    ensures { OnOk result (out.new.items ≡ out.old.items ++ lines_text (head_lines (Some head.now))) }
{
    push_digest(Part::Schema, head.files.schema, out)?;
    push_imports(head.files.imports.as_slice(), out)?;
    push_digest(Part::Data, head.files.graph, out)?;
    out.push(b'k')?;
    push_separated(alloc, b' ', head.strata.as_slice(), out)?;
    out.push(b'\n')?;
    Ok(())
}

/// Appends the lines of the digests of imports.
fn push_imports(imports: &[Digest256], out: &mut Vec<u8>) -> Result<(), AllocError>
    ensures { OnOk result (out.new.items ≡ out.old.items ++ flat_map (λ d. ended (line_text (Lines.Digest Parts.Import d))) imports.now) }
{
    for digest in imports {
        push_digest(Part::Import, *digest, out)?;
    }
    Ok(())
}

/// Appends the line of a digest.
fn push_digest(part: Part, digest: Digest256, out: &mut Vec<u8>) -> Result<(), AllocError>
    ensures { OnOk result (out.new.items ≡ out.old.items ++ ended (line_text (Lines.Digest part digest))) }
{
    out.extend_from_slice(b"f ")?;
    out.extend_from_slice(part_mark(part))?;
    push_bytes(&digest.0, out)?;
    out.push(b'\n')?;
    Ok(())
}

/// What stands before a digest of this part.
fn part_mark(part: Part) -> &'static [u8]
    ensures { result.now ≡ part_mark part }
{
    match part {
        Part::Schema => b"s ",
        Part::Import => b"i ",
        Part::Data => b"d ",
    }
}

/// Appends bytes as digits.
fn push_bytes(bytes: &[u8], out: &mut Vec<u8>) -> Result<(), AllocError>
    ensures { OnOk result (out.new.items ≡ out.old.items ++ flat_map hex_text bytes.now) }
{
    for byte in bytes {
        push_byte(*byte, out)?;
    }
    Ok(())
}

/// Appends the two digits of a byte.
fn push_byte(byte: u8, out: &mut Vec<u8>) -> Result<(), AllocError>
    ensures { OnOk result (out.new.items ≡ out.old.items ++ hex_text byte) }
{
    out.push(digit(byte / 16))?;
    out.push(digit(byte % 16))?;
    Ok(())
}

/// The lower-case hexadecimal digit of a number.
fn digit(n: u8) -> u8
    requires { n < 16 }
    ensures { result ≡ hex_digit n }
{
    if n < 10 { n + b'0' } else { n - 10 + b'a' }
}

/// Appends the node lines.
fn push_nodes(alloc: Global, nodes: &[Term], out: &mut Vec<u8>) -> Result<(), AllocError>
    ensures lines { OnOk result (out.new.items ≡ out.old.items ++ flat_map (λ t. ended (line_text (Lines.Node t))) nodes.now) }
    ensures texts { OnOk result (AllByRecursion IsValue nodes.now) }
{
    for node in nodes {
        push_node(alloc, node, out)?;
    }
    Ok(())
}

/// Appends a node line.
fn push_node(alloc: Global, node: &Term, out: &mut Vec<u8>) -> Result<(), AllocError>
    ensures line { OnOk result (out.new.items ≡ out.old.items ++ ended (line_text (Lines.Node node.now))) }
    ensures text { OnOk result (IsValue node.now) }
{
    term_is_value(node);
    out.extend_from_slice(b"n ")?;
    write_term(alloc, node, out)?;
    out.push(b'\n')?;
    Ok(())
}

/// Appends the lines of the sections.
fn push_sections(alloc: Global, sections: &[Section], out: &mut Vec<u8>) -> Result<(), AllocError>
    ensures { OnOk result (out.new.items ≡ out.old.items ++ flat_map (λ x. lines_text (section_lines x)) sections.now) }
{
    for section in sections {
        push_section(alloc, section, out)?;
    }
    Ok(())
}

/// Appends the line of a section, and its records.
fn push_section(alloc: Global, section: &Section, out: &mut Vec<u8>) -> Result<(), AllocError>
    ensures { OnOk result (out.new.items ≡ out.old.items ++ lines_text (section_lines section.now)) }
{
    out.extend_from_slice(b"s ")?;
    push_number(alloc, section.stratum, out)?;
    out.push(b'\n')?;
    push_records(alloc, section.records.as_slice(), out)?;
    Ok(())
}

/// Appends the lines of the records.
fn push_records(alloc: Global, records: &[Record], out: &mut Vec<u8>) -> Result<(), AllocError>
    ensures { OnOk result (out.new.items ≡ out.old.items ++ flat_map (λ r. ended (line_text (Lines.Record r))) records.now) }
{
    for record in records {
        push_record(alloc, record, out)?;
    }
    Ok(())
}

/// Appends the line of a record.
fn push_record(alloc: Global, r: &Record, out: &mut Vec<u8>) -> Result<(), AllocError>
    ensures { OnOk result (out.new.items ≡ out.old.items ++ ended (line_text (Lines.Record r.now))) }
{
    out.extend_from_slice(mark(&r.kind))?;
    push_pair(alloc, r, out)?;
    push_kind(alloc, &r.kind, out)?;
    out.push(b'\n')?;
    Ok(())
}

/// What stands before the fields of a record.
fn mark(kind: &RecordKind) -> &'static [u8]
    ensures { result.now ≡ kind_mark kind.now }
{
    match kind {
        RecordKind::Plus(_) => b"+ ",
        RecordKind::Minus(_, _) => b"- ",
    }
}

/// Appends the fields of a record behind its Shape, a space before each.
fn push_kind(alloc: Global, kind: &RecordKind, out: &mut Vec<u8>) -> Result<(), AllocError>
    ensures { OnOk result (out.new.items ≡ out.old.items ++ flat_map (λ f. 32 ∷ f) (kind_fields kind.now)) }
{
    match kind {
        RecordKind::Plus(places) => {
            push_places(alloc, places.as_slice(), out)?;
            Ok(())
        }
        RecordKind::Minus(rank, states) => {
            out.push(b' ')?;
            push_number(alloc, *rank, out)?;
            push_states(alloc, states.as_slice(), out)?;
            Ok(())
        }
    }
}

/// Appends the node and the Shape of a record.
fn push_pair(alloc: Global, r: &Record, out: &mut Vec<u8>) -> Result<(), AllocError>
    ensures { OnOk result (out.new.items ≡ out.old.items ++ (decimal r.now.node ++ 32 ∷ decimal r.now.shape)) }
{
    push_number(alloc, r.node, out)?;
    out.push(b' ')?;
    push_number(alloc, r.shape, out)
}

/// Appends the places, a space before each.
fn push_places(alloc: Global, places: &[Place], out: &mut Vec<u8>) -> Result<(), AllocError>
    ensures { OnOk result (out.new.items ≡ out.old.items ++ flat_map (λ p. 32 ∷ place_text p) places.now) }
{
    for place in places {
        push_place(alloc, *place, out)?;
    }
    Ok(())
}

/// Appends a space and a place.
fn push_place(alloc: Global, place: Place, out: &mut Vec<u8>) -> Result<(), AllocError>
    ensures { OnOk result (out.new.items ≡ out.old.items ++ 32 ∷ place_text place) }
{
    out.push(b' ')?;
    match place {
        Place::At(occurrence) => push_number(alloc, u32::from(occurrence), out),
        Place::Rest => {
            out.push(b'r')?;
            Ok(())
        }
    }
}

/// Appends the states, a space before each.
fn push_states(alloc: Global, states: &[State], out: &mut Vec<u8>) -> Result<(), AllocError>
    ensures { OnOk result (out.new.items ≡ out.old.items ++ flat_map (λ x. 32 ∷ state_text x) states.now) }
{
    for state in states {
        push_state(alloc, state, out)?;
    }
    Ok(())
}

/// Appends a space and a state.
fn push_state(alloc: Global, state: &State, out: &mut Vec<u8>) -> Result<(), AllocError>
    ensures { OnOk result (out.new.items ≡ out.old.items ++ 32 ∷ state_text state.now) }
{
    out.push(b' ')?;
    push_number(alloc, state.done, out)?;
    out.push(b':')?;
    push_numbers(alloc, state.counts.as_slice(), out)
}

/// Appends numbers with commas between them.
fn push_numbers(alloc: Global, numbers: &[u32], out: &mut Vec<u8>) -> Result<(), AllocError>
    ensures { OnOk result (out.new.items ≡ out.old.items ++ join_with_byte 44 (map decimal numbers.now)) }
{
    match numbers {
        [] => Ok(()),
        [first, rest @ ..] => {
            push_number(alloc, *first, out)?;
            push_separated(alloc, b',', rest, out)?;
            Ok(())
        }
    }
}

/// Appends the numbers, a separator before each.
fn push_separated(
    alloc: Global,
    separator: u8,
    numbers: &[u32],
    out: &mut Vec<u8>,
) -> Result<(), AllocError>
    ensures { OnOk result (out.new.items ≡ out.old.items ++ flat_map (λ n. separator ∷ decimal n) numbers.now) }
{
    for n in numbers {
        push_behind(alloc, separator, *n, out)?;
    }
    Ok(())
}

/// Appends a separator and a number.
fn push_behind(alloc: Global, separator: u8, n: u32, out: &mut Vec<u8>) -> Result<(), AllocError>
    ensures { OnOk result (out.new.items ≡ out.old.items ++ separator ∷ decimal n) }
{
    out.push(separator)?;
    push_number(alloc, n, out)
}

/// Appends a number in decimal.
fn push_number(alloc: Global, n: u32, out: &mut Vec<u8>) -> Result<(), AllocError>
    ensures { OnOk result (out.new.items ≡ out.old.items ++ decimal n) }
{
    let digits = n.to_string(alloc)?;
    out.extend_from_slice(digits.as_bytes())
}

/// Appends the lines of the claims.
fn push_claims(alloc: Global, claims: &[Claim], out: &mut Vec<u8>) -> Result<(), AllocError>
    ensures lines { OnOk result (out.new.items ≡ out.old.items ++ flat_map (λ c. ended (line_text (Lines.Claim c))) claims.now) }
    ensures texts { OnOk result (AllByRecursion (λ c. IsTextTarget c.target) claims.now) }
{
    for claim in claims {
        push_claim(alloc, claim, out)?;
    }
    Ok(())
}

/// Appends the line of a claim.
fn push_claim(alloc: Global, claim: &Claim, out: &mut Vec<u8>) -> Result<(), AllocError>
    ensures line { OnOk result (out.new.items ≡ out.old.items ++ ended (line_text (Lines.Claim claim.now))) }
    ensures text { OnOk result (IsTextTarget claim.now.target) }
{
    out.extend_from_slice(if claim.holds { b"c + " } else { b"c - " })?;
    push_number(alloc, claim.node, out)?;
    out.push(b' ')?;
    let target = claim.target.text(alloc)?;
    out.extend_from_slice(target.as_bytes())?;
    out.push(b'\n')?;
    Ok(())
}
