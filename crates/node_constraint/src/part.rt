//! The parts of a node constraint, and the first facet that a term fails.

ghost use Rattle.std.specs.Prelude.{◌∷◌, List, IfOk, IsTrue, MatchOption};
ghost use Rattle.std.specs.Option.{ForSome, option_copied};
ghost use Rattle.std.specs.Str.{chars};
ghost use Rattle.xs_text.specs.Decimal.{is_decimal};
ghost use Rattle.node_constraint.specs.declared.facet.Facet.{Facet};
ghost use Rattle.node_constraint.specs.Facets.{HasPattern, SatFacet};
ghost use Rattle.node_constraint.specs.Held.{AreReadFrom, IsFirstWithout, are_comparable, is_comparable};
ghost use Rattle.node_constraint.specs.Making.{PatternText, patterns_in};
ghost use Rattle.node_constraint.specs.Parts.{HasFacet};

use crate::Facet;
use crate::datatypes::decimal_of;
use rdf_terms::terms::Term;
use rdf_terms::written::printed_name;
use std::alloc::{AllocError, Global};
use xs_pattern::Pattern;

/// A part of a node constraint (ShEx 2.1, section 5.4).
#[derive(Clone, Copy, Debug, PartialEq, Eq)]
pub enum ConstraintPart {
    /// The kind of term (section 5.4.2, Node Kind Constraints).
    Kind,
    /// The datatype (section 5.4.3, Datatype Constraints).
    Datatype,
    /// The facet at this place, from 0 on (section 5.4.4, XML Schema String Facet Constraints, and section 5.4.5, XML Schema
    /// Numeric Facet Constraints).
    Facet(usize),
    /// The value set (section 5.4.6, Values Constraint).
    Values,
}

/// The place of the first facet that does not hold for the term, if there is one.
pub(crate) fn failing_facet(
    alloc: Global,
    facets: &[Facet],
    patterns: &[Pattern],
    term: &Term,
) -> Result<Option<usize>, AllocError>
    requires comparable { IsTrue (are_comparable facets.now) }
    requires patterns { ∥ AreReadFrom (patterns_in facets.now) patterns.now ∥₁ }
    ensures { IfOk result (IsFirstWithout (HasFacet term.now) facets.now) }
{
    let decimal = decimal_of(term);
    match term {
        Term::Iri(iri) => failing_facet_for(alloc, facets, patterns, iri.as_str(), decimal),
        Term::Lit(literal) => {
            failing_facet_for(alloc, facets, patterns, literal.lex().as_str(), decimal)
        }
        Term::Blank(name) => {
            let printed = printed_name(alloc, name)?;
            failing_facet_for(alloc, facets, patterns, printed.as_str(), decimal)
        }
    }
}

/// The place of the first facet that does not hold for the text and for the decimal text, if there is one.
fn failing_facet_for(
    alloc: Global,
    facets: &[Facet],
    patterns: &[Pattern],
    text: &str,
    decimal: Option<&str>,
) -> Result<Option<usize>, AllocError>
    requires comparable { IsTrue (are_comparable facets.now) }
    requires decimal { ForSome (option_copied decimal) (λ d. IsTrue (is_decimal d)) }
    requires patterns { ∥ AreReadFrom (patterns_in facets.now) patterns.now ∥₁ }
    ensures { IfOk result (IsFirstWithout (λ f. SatFacet f (chars text.now) (option_copied decimal.entry)) facets.now) }
{
    let mut unread = patterns;
    for (place, facet) in facets.iter().enumerate() {
        match patterns_behind(alloc, facet, unread, text, decimal)? {
            Some(rest) => unread = rest,
            None => return Ok(Some(place)),
        }
    }
    Ok(None)
}

/// The patterns of the facets behind this one, where it holds for the text and for the decimal text.
fn patterns_behind<'a>(
    alloc: Global,
    facet: &Facet,
    patterns: &'a [Pattern],
    text: &str,
    decimal: Option<&str>,
) -> Result<Option<&'a [Pattern]>, AllocError>
    requires comparable { IsTrue (is_comparable facet.now) }
    requires decimal { ForSome (option_copied decimal) (λ d. IsTrue (is_decimal d)) }
    ensures { (facets : List Facet) → ∥ AreReadFrom (patterns_in (facet.now ∷ facets)) patterns.now ∥₁
        → IfOk result (λ rest. MatchOption rest
        (¬ SatFacet facet.now (chars text.now) (option_copied decimal.entry))
        (λ ps. SatFacet facet.now (chars text.now) (option_copied decimal.entry) × ∥ AreReadFrom (patterns_in facets) ps.now ∥₁)) }
{
    if let Facet::Pattern(..) = facet {
        return found_first(alloc, patterns, text);
    }
    if facet.holds(text, decimal) {
        Ok(Some(patterns))
    } else {
        Ok(None)
    }
}

/// The patterns behind the first one, where that is found in the text.
fn found_first<'a>(
    alloc: Global,
    patterns: &'a [Pattern],
    text: &str,
) -> Result<Option<&'a [Pattern]>, AllocError>
    ensures { (t : PatternText) (ts : List PatternText) → ∥ AreReadFrom (t ∷ ts) patterns.now ∥₁
        → IfOk result (λ rest. MatchOption rest
        (¬ HasPattern t.pattern t.flags (chars text.now))
        (λ ps. HasPattern t.pattern t.flags (chars text.now) × ∥ AreReadFrom ts ps.now ∥₁)) }
{
    let Some((first, rest)) = patterns.split_first() else {
        return Ok(None);
    };
    if first.found(alloc, text)? {
        Ok(Some(rest))
    } else {
        Ok(None)
    }
}
