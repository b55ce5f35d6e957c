//! Why a node does not satisfy a shape expression, in the text of an explanation.

ghost use Rattle.std.specs.Prelude.{◌≡◌, ◌++◌, if◌then◌else◌, Some, OnOk, codes, option_map, slice_get};
ghost use Rattle.std.specs.Option.{option_copied};
ghost use Rattle.std.specs.Str.{chars};
ghost use Rattle.rdf_terms.specs.Vocabulary.{xsd_double, xsd_float};
ghost use Rattle.rdf_terms.specs.Written.{iri_text};
ghost use Rattle.node_constraint.specs.declared.facet.Facet.TheVariants as Facets;
ghost use Rattle.schema_tree.specs.Entries.{entry};
ghost use Rattle.explanation_texts.specs.Names.{name_text};
ghost use Rattle.explanation_texts.specs.Conditions.{block_number, datatype_text, facet_note, facet_text, facet_value, facet_word, failed_expr, failed_part, has_datatype, is_floating, is_on_numbers, kind_text, kind_word, part_text, satisfied_expr, why_text};

use crate::setting::Setting;
use crate::words::{push_number, push_term, term_at};
use explanations::explanation::Why;
use node_constraint::{ConstraintPart, Facet, Kind4, NodeConstraint};
use rdf_terms::items::Items;
use rdf_terms::terms::{Term, TermId};
use rdf_terms::text::Text;
use rdf_terms::vocabulary::{XSD_DOUBLE, XSD_FLOAT};
use schema_tree::schema::{Expr, ExprId, ShapeId};
use std::alloc::{AllocError, Global};

/// The keyword of a kind of nodes.
fn kind_word(kind: Kind4) -> &'static [u8]
    ensures { result.now ≡ kind_word kind }
{
    match kind {
        Kind4::Iri => b"IRI",
        Kind4::Bnode => b"BNODE",
        Kind4::NonLiteral => b"NONLITERAL",
        Kind4::Literal => b"LITERAL",
    }
}

/// The keyword of a facet, as far as its value.
fn facet_word(facet: &Facet) -> &'static [u8]
    ensures { result.now ≡ facet_word facet.now }
{
    match facet {
        Facet::Length(_) => b"LENGTH ",
        Facet::MinLength(_) => b"MINLENGTH ",
        Facet::MaxLength(_) => b"MAXLENGTH ",
        Facet::MinInclusive(_) => b"MININCLUSIVE ",
        Facet::MinExclusive(_) => b"MINEXCLUSIVE ",
        Facet::MaxInclusive(_) => b"MAXINCLUSIVE ",
        Facet::MaxExclusive(_) => b"MAXEXCLUSIVE ",
        Facet::TotalDigits(_) => b"TOTALDIGITS ",
        Facet::FractionDigits(_) => b"FRACTIONDIGITS ",
        Facet::Pattern(..) => b"/",
    }
}

/// Appends the value of a facet.
fn push_facet_value(alloc: Global, facet: &Facet, out: &mut Vec<u8>) -> Result<(), AllocError>
    ensures { OnOk result (out.new.items ≡ out.old.items ++ facet_value facet.now) }
{
    match facet {
        Facet::Length(n) => push_number(alloc, u64::from(*n), out),
        Facet::MinLength(n) => push_number(alloc, u64::from(*n), out),
        Facet::MaxLength(n) => push_number(alloc, u64::from(*n), out),
        Facet::TotalDigits(n) => push_number(alloc, u64::from(*n), out),
        Facet::FractionDigits(n) => push_number(alloc, u64::from(*n), out),
        Facet::MinInclusive(bound) => out.extend_from_slice(bound.as_str().as_bytes()),
        Facet::MinExclusive(bound) => out.extend_from_slice(bound.as_str().as_bytes()),
        Facet::MaxInclusive(bound) => out.extend_from_slice(bound.as_str().as_bytes()),
        Facet::MaxExclusive(bound) => out.extend_from_slice(bound.as_str().as_bytes()),
        Facet::Pattern(pattern, flags) => push_pattern(pattern, flags, out),
    }
}

/// Appends a pattern and its flags.
fn push_pattern(pattern: &Text, flags: &Text, out: &mut Vec<u8>) -> Result<(), AllocError>
    ensures { OnOk result (out.new.items ≡ out.old.items ++ facet_value (Facets.Pattern pattern.now flags.now)) }
{
    out.extend_from_slice(pattern.as_str().as_bytes())?;
    out.extend_from_slice(b"/")?;
    out.extend_from_slice(flags.as_str().as_bytes())
}

/// Whether a facet is about numbers.
fn is_on_numbers(facet: &Facet) -> bool
    ensures { result ≡ is_on_numbers facet.now }
{
    match facet {
        Facet::Length(_) => false,
        Facet::MinLength(_) => false,
        Facet::MaxLength(_) => false,
        Facet::Pattern(..) => false,
        _ => true,
    }
}

/// Whether the term is a literal of the datatype of this IRI.
fn has_iri(term: &Term, iri: &str) -> bool
    ensures { result ≡ has_datatype (chars iri.now) term.now }
{
    match term {
        Term::Lit(literal) => literal.datatype().as_str() == iri,
        _ => false,
    }
}

/// Whether the term is a literal of xsd:float.
fn is_float(term: &Term) -> bool
    ensures { result ≡ has_datatype xsd_float term.now }
{
    has_iri(term, XSD_FLOAT)
}

/// Whether the term is a literal of xsd:double.
fn is_double(term: &Term) -> bool
    ensures { result ≡ has_datatype xsd_double term.now }
{
    has_iri(term, XSD_DOUBLE)
}

/// Whether the term is a literal of xsd:float or xsd:double.
fn is_floating(term: &Term) -> bool
    ensures { result ≡ is_floating term.now }
{
    is_float(term) || is_double(term)
}

/// What is noted where a facet on numbers meets a floating-point number.
fn facet_note(facet: &Facet, term: &Term) -> &'static [u8]
    ensures { result.now ≡ facet_note facet.now term.now }
{
    if is_on_numbers(facet) && is_floating(term) {
        b": facets look at decimals alone"
    } else {
        b""
    }
}

/// Appends that a term fails a facet, if there is one.
fn push_facet(
    alloc: Global,
    facet: Option<&Facet>,
    term: &Term,
    out: &mut Vec<u8>,
) -> Result<(), AllocError>
    ensures { OnOk result (out.new.items ≡ out.old.items ++ facet_text (option_copied facet.entry) term.now) }
{
    let Some(facet) = facet else {
        return Ok(());
    };
    out.extend_from_slice(b" fails ")?;
    out.extend_from_slice(facet_word(facet))?;
    push_facet_value(alloc, facet, out)?;
    out.extend_from_slice(facet_note(facet, term))
}

/// Appends that a term is not of the kind, if one is asked for.
fn push_kind(kind: Option<Kind4>, out: &mut Vec<u8>) -> Result<(), AllocError>
    ensures { OnOk result (out.new.items ≡ out.old.items ++ kind_text kind) }
{
    let Some(kind) = kind else {
        return Ok(());
    };
    out.extend_from_slice(b" is no ")?;
    out.extend_from_slice(kind_word(kind))
}

/// Whether the term is a literal of this datatype.
fn has_datatype(datatype: &Text, term: &Term) -> bool
    ensures { result ≡ has_datatype datatype.now term.now }
{
    match term {
        Term::Lit(literal) => literal.datatype().as_str() == datatype.as_str(),
        _ => false,
    }
}

/// What stands before a datatype that a term is not of.
fn datatype_word(has_it: bool) -> &'static [u8]
    ensures { result.now ≡ (if has_it then codes " is no valid " else codes " is no literal of ") }
{
    if has_it {
        b" is no valid "
    } else {
        b" is no literal of "
    }
}

/// Appends that a term is not of the datatype.
fn push_datatype(datatype: &Text, term: &Term, out: &mut Vec<u8>) -> Result<(), AllocError>
    ensures { OnOk result (out.new.items ≡ out.old.items ++ datatype_text (Some datatype.now) term.now) }
{
    out.extend_from_slice(datatype_word(has_datatype(datatype, term)))?;
    out.extend_from_slice(b"<")?;
    out.extend_from_slice(datatype.as_str().as_bytes())?;
    out.extend_from_slice(b">")
}

/// Appends that a term is not of the datatype, if one is asked for.
fn push_datatype_if_any(
    alloc: Global,
    datatype: Option<&str>,
    term: &Term,
    out: &mut Vec<u8>,
) -> Result<(), AllocError>
    ensures { OnOk result (out.new.items ≡ out.old.items ++ datatype_text (option_map (λ d. chars d.now) datatype.entry) term.now) }
{
    let Some(datatype) = datatype else {
        return Ok(());
    };
    let text = Text::from_str(alloc, datatype)?;
    push_datatype(&text, term, out)
}

/// Appends that the part of a node constraint does not hold for the term.
fn push_part(
    alloc: Global,
    constraint: &NodeConstraint,
    term: &Term,
    part: ConstraintPart,
    out: &mut Vec<u8>,
) -> Result<(), AllocError>
    ensures { OnOk result (out.new.items ≡ out.old.items ++ part_text constraint.now term.now part) }
{
    match part {
        ConstraintPart::Kind => push_kind(constraint.kind(), out),
        ConstraintPart::Datatype => {
            push_datatype_if_any(alloc, constraint.datatype(), term, out)
        }
        ConstraintPart::Facet(place) => {
            push_facet(alloc, constraint.facets().get(place), term, out)
        }
        ConstraintPart::Values => out.extend_from_slice(b" is not in the value set"),
    }
}

/// Appends a name, if there is one.
fn push_name(name: Option<&Items<u8>>, out: &mut Vec<u8>) -> Result<(), AllocError>
    ensures { OnOk result (out.new.items ≡ out.old.items ++ name_text (option_copied name.entry)) }
{
    match name {
        Some(name) => out.extend_from_slice(name.as_slice()),
        None => Ok(()),
    }
}

/// Appends the number of a block.
pub(crate) fn push_block_number(
    alloc: Global,
    number: usize,
    out: &mut Vec<u8>,
) -> Result<(), AllocError>
    ensures { OnOk result (out.new.items ≡ out.old.items ++ block_number number) }
{
    out.extend_from_slice(b"[")?;
    push_number(alloc, number as u64, out)?;
    out.extend_from_slice(b"]")
}

impl Setting<'_> {
    ghost use Rattle.explanation_texts.specs.Names.{expr_name, shape_name};

    /// Appends the name of an expression.
    pub(crate) fn push_expr_name(&self, expr: ExprId, out: &mut Vec<u8>) -> Result<(), AllocError>
        ensures { OnOk result (out.new.items ≡ out.old.items ++ expr_name self.now.names.now expr) }
    {
        push_name(self.names.exprs.as_slice().get(expr.0 as usize), out)
    }

    /// Appends the name of a Shape.
    pub(crate) fn push_shape_name(
        &self,
        shape: ShapeId,
        out: &mut Vec<u8>,
    ) -> Result<(), AllocError>
        ensures { OnOk result (out.new.items ≡ out.old.items ++ shape_name self.now.names.now shape) }
    {
        push_name(self.names.shapes.as_slice().get(shape.0 as usize), out)
    }

    /// Appends that a node does not have a Shape.
    pub(crate) fn push_lack(&self, shape: ShapeId, out: &mut Vec<u8>) -> Result<(), AllocError>
        ensures { OnOk result (out.new.items ≡ out.old.items ++ (codes " is not " ++ shape_name self.now.names.now shape)) }
    {
        out.extend_from_slice(b" is not ")?;
        self.push_shape_name(shape, out)
    }

    /// Appends that a node does not satisfy an expression.
    pub(crate) fn push_failure(&self, expr: ExprId, out: &mut Vec<u8>) -> Result<(), AllocError>
        ensures { OnOk result (out.new.items ≡ out.old.items ++ (codes " does not satisfy " ++ expr_name self.now.names.now expr)) }
    {
        out.extend_from_slice(b" does not satisfy ")?;
        self.push_expr_name(expr, out)
    }

    /// Appends what a node is not.
    fn push_failed_expr(&self, expr: ExprId, out: &mut Vec<u8>) -> Result<(), AllocError>
        ensures { OnOk result (out.new.items ≡ out.old.items ++ failed_expr self.now expr (entry self.now.schema.now expr)) }
    {
        match self.schema.exprs.as_slice().get(expr.0 as usize) {
            Some(Expr::Shape(shape)) => self.push_lack(*shape, out),
            _ => self.push_failure(expr, out),
        }
    }

    /// Appends that a node has a Shape.
    fn push_shape(&self, shape: ShapeId, out: &mut Vec<u8>) -> Result<(), AllocError>
        ensures { OnOk result (out.new.items ≡ out.old.items ++ (codes " is " ++ shape_name self.now.names.now shape)) }
    {
        out.extend_from_slice(b" is ")?;
        self.push_shape_name(shape, out)
    }

    /// Appends that a node satisfies an expression.
    fn push_satisfaction(&self, expr: ExprId, out: &mut Vec<u8>) -> Result<(), AllocError>
        ensures { OnOk result (out.new.items ≡ out.old.items ++ (codes " satisfies " ++ expr_name self.now.names.now expr)) }
    {
        out.extend_from_slice(b" satisfies ")?;
        self.push_expr_name(expr, out)
    }

    /// Appends what a node is.
    pub(crate) fn push_satisfied_expr(
        &self,
        expr: ExprId,
        out: &mut Vec<u8>,
    ) -> Result<(), AllocError>
        ensures { OnOk result (out.new.items ≡ out.old.items ++ satisfied_expr self.now expr (entry self.now.schema.now expr)) }
    {
        match self.schema.exprs.as_slice().get(expr.0 as usize) {
            Some(Expr::Shape(shape)) => self.push_shape(*shape, out),
            _ => self.push_satisfaction(expr, out),
        }
    }

    /// Appends which part of a node constraint does not hold for a node.
    fn push_failed_part(
        &self,
        node: TermId,
        expr: ExprId,
        part: ConstraintPart,
        out: &mut Vec<u8>,
    ) -> Result<(), AllocError>
        ensures { OnOk result (out.new.items ≡ out.old.items ++ failed_part (entry self.now.schema.now expr) (slice_get self.now.terms.now node.0) part) }
    {
        let Some(Expr::Node(constraint)) = self.schema.exprs.as_slice().get(expr.0 as usize) else {
            return Ok(());
        };
        match term_at(self.terms, node) {
            Some(term) => push_part(self.alloc, constraint, term, part, out),
            None => Ok(()),
        }
    }

    /// Appends the number of the block that tells why a node does not satisfy an expression.
    fn push_see(&self, expr: ExprId, number: usize, out: &mut Vec<u8>) -> Result<(), AllocError>
        ensures { OnOk result (out.new.items ≡ out.old.items ++ (failed_expr self.now expr (entry self.now.schema.now expr) ++
            (codes ", see " ++ block_number number))) }
    {
        self.push_failed_expr(expr, out)?;
        out.extend_from_slice(b", see ")?;
        push_block_number(self.alloc, number, out)
    }

    /// Appends why a node does not satisfy an expression.
    pub(crate) fn push_why(
        &self,
        node: TermId,
        expr: ExprId,
        why: Why,
        out: &mut Vec<u8>,
    ) -> Result<(), AllocError>
        ensures { OnOk result (out.new.items ≡ out.old.items ++ why_text self.now node expr why) }
    {
        push_term(self.alloc, self.terms, node, out)?;
        match why {
            Why::Part(part) => self.push_failed_part(node, expr, part, out),
            Why::See(number) => self.push_see(expr, number, out),
        }
    }
}
