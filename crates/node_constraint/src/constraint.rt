//! Node constraints, and the terms that they hold for.

ghost use Rattle.std.specs.Prelude.{◌≡◌, ◌↔◌, ◌⊎◌, Any, option_map, IfOk, IfErr, IfSome, IsErrOf, IsOk, IsTrue, MatchResult, OnOk};
ghost use Rattle.std.specs.List.{AllByRecursion};
ghost use Rattle.std.specs.Option.{ForSome, option_copied};
ghost use Rattle.std.specs.Str.{chars};
ghost use Rattle.xs_pattern.specs.declared.pattern_error.PatternError.{PatternError};
ghost use Rattle.xs_text.specs.Decimal.{is_decimal};
ghost use Rattle.node_constraint.specs.Constraint.{of_kind};
ghost use Rattle.node_constraint.specs.Datatypes.{decimal_of};
ghost use Rattle.node_constraint.specs.Facets.{SatFacet, text_of};
ghost use Rattle.node_constraint.specs.Held.{AreMisnumbered, ArePassed, AreReadFrom, IsOnFloats, IsTaken, SatPlain, are_comparable};
ghost use Rattle.node_constraint.specs.Kinds.{IsOfKindIfAny};
ghost use Rattle.node_constraint.specs.Making.{Causes, HasFloatFacet, HasOtherNumber, IsFirstRefusal, IsSound, patterns_in};
ghost use Rattle.node_constraint.specs.SatNode.{HasValueIfAny};

use crate::datatypes::{decimal_of, is_float, is_of_datatype};
use crate::part::failing_facet;
use crate::patterns::{all_found, read_patterns};
use crate::{ConstraintPart, Facet, Kind4, MakeError};
use rdf_terms::terms::Term;
use rdf_terms::text::Text;
use rdf_terms::written::printed_name;
use std::alloc::{AllocError, Global};
use std::marker::Model;
use value_sets::ValueSet;
use xs_pattern::Pattern;

/// What a term has to be, as contracts see it by the kind, the datatype, the facets and the value set that are asked for
/// (ShEx 2.1, section 5.4).
#[derive(Debug, Drop)]
pub struct NodeConstraint {
    kind: Option<Kind4>,
    datatype: Option<Text>,
    facets: Vec<Facet>,
    values: Option<ValueSet>,
    patterns: Vec<Pattern>,
}

impl Model for NodeConstraint {
    ghost use Rattle.std.specs.Prelude.{IsTrue};
    ghost use Rattle.node_constraint.specs.Constraint.{Constraint};
    ghost use Rattle.node_constraint.specs.Held.{AreReadFrom, are_comparable};
    ghost use Rattle.node_constraint.specs.Making.{patterns_in};

    ghost Value = { Constraint };

    ghost view = { λ c. record { kind = c.kind; datatype = c.datatype; facets = c.facets.items; values = c.values } };

    ghost invariant = { λ c. IsTrue (are_comparable c.facets.items) × ∥ AreReadFrom (patterns_in c.facets.items) c.patterns.items ∥₁ };
}

impl NodeConstraint {
    ghost use Rattle.node_constraint.specs.Held.{Fits, IsFirstWithout};
    ghost use Rattle.node_constraint.specs.Parts.{HasFacet, IsFirstFailedPart};
    ghost use Rattle.node_constraint.specs.SatNode.{SatNode};

    /// The constraint that asks for these.
    ///
    /// Fails with `FloatFacet` where a range value has the form of a floating-point number, or a facet on numbers stands
    /// beside xsd:float or xsd:double; then with `FacetNumber` where a range value is no decimal; then with `Pattern` where
    /// a pattern is not read, with the cause of the first one. `Memory` comes where memory runs out over the patterns.
    pub fn make(
        alloc: Global,
        kind: Option<Kind4>,
        datatype: Option<Text>,
        facets: Vec<Facet>,
        values: Option<ValueSet>,
    ) -> Result<NodeConstraint, MakeError>
        ensures made { IfOk result (λ c. c ≡ record { kind = kind; datatype = datatype; facets = facets.items; values = values }) }
        ensures sound { OnOk result (IsSound datatype facets.items) }
        ensures cause { IfErr result (Causes datatype facets.items) }

        ensures float { HasFloatFacet datatype facets.items → IsErrOf result MakeError.FloatFacet }
        ensures number { (¬ HasFloatFacet datatype facets.items) → HasOtherNumber facets.items → IsErrOf result MakeError.FacetNumber }
        ensures pattern { (¬ HasFloatFacet datatype facets.items) → (¬ HasOtherNumber facets.items)
            → (e : PatternError) → IsFirstRefusal e (patterns_in facets.items)
            → IsErrOf result (MakeError.Pattern e) ⊎ IsErrOf result MakeError.Memory }
        ensures taken { IsSound datatype facets.items → IsOk result ⊎ IsErrOf result MakeError.Memory }
    {
        let patterns = checked_patterns(alloc, datatype.as_ref(), facets.as_slice())?;
        Ok(NodeConstraint {
            kind,
            datatype,
            facets,
            values,
            patterns,
        })
    }

    /// The constraint that asks for a kind alone, if for any. It takes no memory.
    pub fn of_kind(alloc: Global, kind: Option<Kind4>) -> NodeConstraint
        ensures { result ≡ of_kind kind }
    {
        NodeConstraint {
            kind,
            datatype: None,
            facets: Vec::new(alloc),
            values: None,
            patterns: Vec::new(alloc),
        }
    }

    /// The constraint that asks for the same, and for this value set in place of its own. It takes no memory.
    pub fn with_values(self, values: Option<ValueSet>) -> NodeConstraint
        ensures { result ≡ record { kind = self.kind; datatype = self.datatype; facets = self.facets; values = values } }
    {
        NodeConstraint { values, ..self }
    }

    /// The kind that is asked for, if any.
    pub fn kind(&self) -> Option<Kind4>
        ensures { result ≡ self.now.kind }
    {
        self.kind
    }

    /// The datatype that is asked for, if any.
    pub fn datatype(&self) -> Option<&str>
        ensures { option_map (λ d. chars d.now) result ≡ self.now.datatype }
    {
        self.datatype.as_ref().map(|datatype| datatype.as_str())
    }

    /// The facets that are asked for.
    pub fn facets(&self) -> &[Facet]
        ensures { result.now ≡ self.now.facets }
    {
        self.facets.as_slice()
    }

    /// The value set that is asked for, if any.
    pub fn values(&self) -> Option<&ValueSet>
        ensures { option_copied result ≡ self.now.values }
    {
        self.values.as_ref()
    }

    /// Whether the term satisfies the constraint (ShEx 2.1, section 5.4). It fails where memory runs out over the name of a
    /// blank node or over a pattern.
    pub fn holds(&self, alloc: Global, term: &Term) -> Result<bool, AllocError>
        ensures { IfOk result (λ b. IsTrue b ↔ SatNode self.now term.now) }
    {
        if !self.fits(term) {
            return Ok(false);
        }
        if self.facets.is_empty() {
            return Ok(true);
        }
        facets_hold(
            alloc,
            self.facets.as_slice(),
            self.patterns.as_slice(),
            term,
        )
    }

    /// The first part that the term fails, in the order kind, datatype, facets, value set, if there is one. It fails where
    /// memory runs out over the name of a blank node or over a pattern.
    pub fn failing_part(
        &self,
        alloc: Global,
        term: &Term,
    ) -> Result<Option<ConstraintPart>, AllocError>
        ensures none { IfOk result (λ part. (part ≡ None) ↔ SatNode self.now term.now) }
        ensures first { IfOk result (λ part. IfSome part (IsFirstFailedPart self.now term.now)) }
    {
        if !is_of_kind(self.kind, term) {
            return Ok(Some(ConstraintPart::Kind));
        }
        if !is_of_datatype(self.datatype.as_ref(), term) {
            return Ok(Some(ConstraintPart::Datatype));
        }
        if let Some(place) = self.failing_facet(alloc, term)? {
            return Ok(Some(ConstraintPart::Facet(place)));
        }
        if !has_value(self.values.as_ref(), term) {
            return Ok(Some(ConstraintPart::Values));
        }
        Ok(None)
    }

    /// The place of the first facet that does not hold for the term, if there is one.
    fn failing_facet(&self, alloc: Global, term: &Term) -> Result<Option<usize>, AllocError>
        ensures { IfOk result (IsFirstWithout (HasFacet term.now) self.now.facets) }
    {
        failing_facet(
            alloc,
            self.facets.as_slice(),
            self.patterns.as_slice(),
            term,
        )
    }

    /// Whether kind, datatype and value set hold for the term.
    fn fits(&self, term: &Term) -> bool
        ensures { IsTrue result ↔ Fits self.now term.now }
    {
        is_of_kind(self.kind, term)
            && is_of_datatype(self.datatype.as_ref(), term)
            && has_value(self.values.as_ref(), term)
    }
}

/// Whether the term is of the kind, if one is asked for.
fn is_of_kind(kind: Option<Kind4>, term: &Term) -> bool
    ensures { IsTrue result ↔ IsOfKindIfAny kind term.now }
{
    match (kind, term) {
        (None, _) => true,
        (Some(Kind4::Iri), Term::Iri(_)) => true,
        (Some(Kind4::Bnode), Term::Blank(_)) => true,
        (Some(Kind4::Literal), Term::Lit(_)) => true,
        (Some(Kind4::NonLiteral), Term::Iri(_) | Term::Blank(_)) => true,
        _ => false,
    }
}

/// Whether the value set holds for the term, if there is one.
fn has_value(values: Option<&ValueSet>, term: &Term) -> bool
    ensures { IsTrue result ↔ HasValueIfAny (option_copied values.entry) term.now }
{
    match values {
        Some(values) => values.has(term),
        None => true,
    }
}

/// The patterns of the facets, where nothing in the arguments is refused.
fn checked_patterns(
    alloc: Global,
    datatype: Option<&Text>,
    facets: &[Facet],
) -> Result<Vec<Pattern>, MakeError>
    ensures { MatchResult result (λ ps. IsTaken (option_copied datatype.entry) facets.now ps.items) (Causes (option_copied datatype.entry) facets.now) }
{
    check_numbers(datatype, facets)?;
    read_patterns(alloc, facets)
}

/// Refuses floating-point numbers, and range values that are no decimals.
fn check_numbers(datatype: Option<&Text>, facets: &[Facet]) -> Result<(), MakeError>
    ensures { MatchResult result (λ _. ArePassed (option_copied datatype.entry) facets.now) (AreMisnumbered (option_copied datatype.entry) facets.now) }
{
    if any_on_floats(facets, is_float(datatype)) {
        return Err(MakeError::FloatFacet);
    }
    if !are_comparable(facets) {
        return Err(MakeError::FacetNumber);
    }
    Ok(())
}

/// Whether some facet is about floating-point numbers, where they stand beside their datatypes or not.
fn any_on_floats(facets: &[Facet], is_beside_float: bool) -> bool
    ensures { IsTrue result ↔ Any (IsOnFloats is_beside_float) facets.now }
{
    facets
        .iter()
        .any(|facet| facet.is_on_floats(is_beside_float))
}

/// Whether all range values are decimals.
fn are_comparable(facets: &[Facet]) -> bool
    ensures { result ≡ are_comparable facets.now }
{
    facets.iter().all(|facet| facet.is_comparable())
}

/// Whether each facet holds for the term.
fn facets_hold(
    alloc: Global,
    facets: &[Facet],
    patterns: &[Pattern],
    term: &Term,
) -> Result<bool, AllocError>
    requires comparable { IsTrue (are_comparable facets.now) }
    requires patterns { ∥ AreReadFrom (patterns_in facets.now) patterns.now ∥₁ }
    ensures { IfOk result (λ b. IsTrue b ↔ AllByRecursion (λ f. SatFacet f (text_of term.now) (decimal_of term.now)) facets.now) }
{
    let decimal = decimal_of(term);
    match term {
        Term::Iri(iri) => facets_hold_for(alloc, facets, patterns, iri.as_str(), decimal),
        Term::Lit(literal) => {
            facets_hold_for(alloc, facets, patterns, literal.lex().as_str(), decimal)
        }
        Term::Blank(name) => {
            let printed = printed_name(alloc, name)?;
            facets_hold_for(alloc, facets, patterns, printed.as_str(), decimal)
        }
    }
}

/// Whether each facet holds for the text and for the decimal text, if there is one.
fn facets_hold_for(
    alloc: Global,
    facets: &[Facet],
    patterns: &[Pattern],
    text: &str,
    decimal: Option<&str>,
) -> Result<bool, AllocError>
    requires comparable { IsTrue (are_comparable facets.now) }
    requires decimal { ForSome (option_copied decimal) (λ d. IsTrue (is_decimal d)) }
    requires patterns { ∥ AreReadFrom (patterns_in facets.now) patterns.now ∥₁ }
    ensures { IfOk result (λ b. IsTrue b ↔ AllByRecursion (λ f. SatFacet f (chars text.now) (option_copied decimal.entry)) facets.now) }
{
    if !plain_facets_hold(facets, text, decimal) {
        return Ok(false);
    }
    all_found(alloc, patterns, text)
}

/// Whether each facet that is no pattern holds for the text and for the decimal text, if there is one.
fn plain_facets_hold(facets: &[Facet], text: &str, decimal: Option<&str>) -> bool
    requires comparable { IsTrue (are_comparable facets.now) }
    requires decimal { ForSome (option_copied decimal) (λ d. IsTrue (is_decimal d)) }
    ensures { IsTrue result ↔ AllByRecursion (λ f. SatPlain f (chars text.now) (option_copied decimal.entry)) facets.now }
{
    for facet in facets {
        if !facet.holds(text, decimal) {
            return false;
        }
    }
    true
}
