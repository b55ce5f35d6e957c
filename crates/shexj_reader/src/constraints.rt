//! Node constraints.

ghost use Rattle.std.specs.Prelude.{ℕ, List, ◌≡◌, ◌≢◌, ◌++◌, ◌⊎◌, IfErr, IfOk, MatchOption, OnOk, None, Some, codes, map, true};
ghost use Rattle.std.specs.List.{list_any};
ghost use Rattle.std.specs.Str.{bytes_eq};
ghost use Rattle.serde_json.specs.Find.{as_integer, get};
ghost use Rattle.serde_json.specs.View.{view};
ghost use Rattle.node_constraint.specs.Making.{HasOtherNumber, IsSound};
ghost use Rattle.node_constraint.specs.declared.Kind4.{Kind4};
ghost use Rattle.shexj_reader.specs.ConstraintFaults.{ConstraintFault, FacetFault, IsNoKind, NumberFault, PartsFault, PatternFault, count_keys, range_keys, small_count};
ghost use Rattle.shexj_reader.specs.Constraints.{HasRestrictions, IsConstraint, IsKindWord, behind, bound, constraint_keys, count, digit_values, facets_of, kind_word, length_values, listed, patterned, range_values};
ghost use Rattle.shexj_reader.specs.Faults.{Because, PlainFault};
ghost use Rattle.shexj_reader.specs.Keys.{IsPlain, type_of, with_id};
ghost use Rattle.shexj_reader.specs.ValueFaults.{ValueSetFault};
ghost use Rattle.shexj_reader.specs.Values.{SpellsValueSet};

use crate::objects::{bad_form, only_own_keys, only_plain, text_if_any};
use crate::values::read_value_set;
use node_constraint::{Facet, Kind4, MakeError, NodeConstraint};
use rdf_terms::text::Text;
use schema_documents::SchemaError;
use serde_json::Value;
use std::alloc::Global;
use value_sets::ValueSet;

/// The greatest length and the greatest number of digits that are read.
const MAX_COUNT: u64 = 4294967295;

/// The keys of a node constraint (ShEx 2.1, appendix A), but for the `id` of one that is declared.
const CONSTRAINT_KEYS: [&str; 17] = [
    "annotations",
    "datatype",
    "flags",
    "fractiondigits",
    "length",
    "maxexclusive",
    "maxinclusive",
    "maxlength",
    "minexclusive",
    "mininclusive",
    "minlength",
    "nodeKind",
    "pattern",
    "semActs",
    "totaldigits",
    "type",
    "values",
];

/// The kind that a word names.
fn kind_named(word: &str) -> Option<Kind4>
    ensures { MatchOption result ((kind : Kind4) → word.now ≢ kind_word kind) (λ kind. word.now ≡ kind_word kind) }
{
    match word {
        "iri" => Some(Kind4::Iri),
        "bnode" => Some(Kind4::Bnode),
        "nonliteral" => Some(Kind4::NonLiteral),
        "literal" => Some(Kind4::Literal),
        _ => None,
    }
}

/// The kind that is asked for, if any.
fn read_kind(alloc: Global, value: &Value) -> Result<Option<Kind4>, SchemaError>
    ensures ok { IfOk result (λ kind. IsKindWord kind (get (codes "nodeKind") (view value.now))) }
    ensures cause { IfErr result (Because (λ f. IsNoKind f (view value.now))) }
{
    let Some(child) = value.get("nodeKind") else {
        return Ok(None);
    };
    match child.as_str().and_then(kind_named) {
        Some(kind) => Ok(Some(kind)),
        None => Err(bad_form(alloc, "nodeKind")),
    }
}

/// The whole number from 0 to 4,294,967,295 under a key, if the key is there.
fn count_at(alloc: Global, value: &Value, key: &str) -> Result<Option<u32>, SchemaError>
    requires { list_any (bytes_eq key.now) count_keys ≡ true }
    ensures ok { IfOk result (λ n. count (get key.now (view value.now)) ≡ Some n) }
    ensures cause { IfErr result (Because (λ f. NumberFault count_keys small_count f (view value.now))) }
{
    let Some(child) = value.get(key) else {
        return Ok(None);
    };
    let Some(number) = child.as_number() else {
        return Err(bad_form(alloc, key));
    };
    match number.as_u64() {
        Some(count) if count <= MAX_COUNT => Ok(Some(count as u32)),
        _ => Err(SchemaError::FacetNumber),
    }
}

/// The decimal digits of the whole number from -2^63 to 2^64 - 1 under a key, if the key is there.
fn bound_at(alloc: Global, value: &Value, key: &str) -> Result<Option<Text>, SchemaError>
    requires { list_any (bytes_eq key.now) range_keys ≡ true }
    ensures ok { IfOk result (λ digits. bound (get key.now (view value.now)) ≡ Some digits) }
    ensures cause { IfErr result (Because (λ f. NumberFault range_keys as_integer f (view value.now))) }
{
    let Some(child) = value.get(key) else {
        return Ok(None);
    };
    let Some(number) = child.as_number() else {
        return Err(bad_form(alloc, key));
    };
    match number.as_i128() {
        Some(whole) => {
            let digits = whole.to_string(alloc)?;
            Ok(Some(Text::from_string(digits)))
        }
        None => Err(SchemaError::FacetNumber),
    }
}

/// The pattern with its flags, if there is one.
fn pattern_at(alloc: Global, value: &Value) -> Result<Option<Facet>, SchemaError>
    ensures ok { IfOk result (λ facet. patterned (view value.now) ≡ Some facet) }
    ensures cause { IfErr result (Because (λ f. PatternFault f (view value.now))) }
{
    let pattern = text_if_any(alloc, value, "pattern")?;
    let flags = text_if_any(alloc, value, "flags")?;
    match (pattern, flags) {
        (Some(pattern), Some(flags)) => Ok(Some(Facet::Pattern(pattern, flags))),
        (Some(pattern), None) => Ok(Some(Facet::Pattern(
            pattern,
            Text::from_string(String::new(alloc)),
        ))),
        (None, Some(_)) => Err(bad_form(alloc, "flags")),
        (None, None) => Ok(None),
    }
}

/// Appends the facet, if there is one.
fn add(facets: &mut Vec<Facet>, facet: Option<Facet>) -> Result<(), SchemaError>
    ensures ok { OnOk result (facets.new.items ≡ facets.old.items ++ listed facet) }
    ensures cause { IfErr result (λ e. e ≡ SchemaError.Memory) }
{
    if let Some(facet) = facet {
        facets.push(facet)?;
    }
    Ok(())
}

/// Appends the facets on the length of a value that are asked for.
fn add_lengths(alloc: Global, value: &Value, facets: &mut Vec<Facet>) -> Result<(), SchemaError>
    ensures ok { OnOk result (behind facets.old.items (length_values (view value.now)) ≡ Some facets.new.items) }
    ensures cause { IfErr result (Because (λ f. NumberFault count_keys small_count f (view value.now))) }
{
    let length = count_at(alloc, value, "length")?;
    add(facets, length.map(Facet::Length))?;
    let min_length = count_at(alloc, value, "minlength")?;
    add(facets, min_length.map(Facet::MinLength))?;
    let max_length = count_at(alloc, value, "maxlength")?;
    add(facets, max_length.map(Facet::MaxLength))?;
    Ok(())
}

/// Appends the facets on the range of a value that are asked for.
fn add_ranges(alloc: Global, value: &Value, facets: &mut Vec<Facet>) -> Result<(), SchemaError>
    ensures ok { OnOk result (behind facets.old.items (range_values (view value.now)) ≡ Some facets.new.items) }
    ensures cause { IfErr result (Because (λ f. NumberFault range_keys as_integer f (view value.now))) }
{
    let least = bound_at(alloc, value, "mininclusive")?;
    add(facets, least.map(Facet::MinInclusive))?;
    let above = bound_at(alloc, value, "minexclusive")?;
    add(facets, above.map(Facet::MinExclusive))?;
    let most = bound_at(alloc, value, "maxinclusive")?;
    add(facets, most.map(Facet::MaxInclusive))?;
    let below = bound_at(alloc, value, "maxexclusive")?;
    add(facets, below.map(Facet::MaxExclusive))?;
    Ok(())
}

/// Appends the facets on the digits of a value that are asked for.
fn add_digits(alloc: Global, value: &Value, facets: &mut Vec<Facet>) -> Result<(), SchemaError>
    ensures ok { OnOk result (behind facets.old.items (digit_values (view value.now)) ≡ Some facets.new.items) }
    ensures cause { IfErr result (Because (λ f. NumberFault count_keys small_count f (view value.now))) }
{
    let digits = count_at(alloc, value, "totaldigits")?;
    add(facets, digits.map(Facet::TotalDigits))?;
    let fraction = count_at(alloc, value, "fractiondigits")?;
    add(facets, fraction.map(Facet::FractionDigits))?;
    Ok(())
}

/// The facets that are asked for.
fn read_facets(alloc: Global, value: &Value) -> Result<Vec<Facet>, SchemaError>
    ensures ok { IfOk result (λ facets. facets_of (view value.now) ≡ Some facets.items) }
    ensures cause { IfErr result (Because (λ f. FacetFault f (view value.now))) }
{
    let mut facets = Vec::new(alloc);
    add_lengths(alloc, value, &mut facets)?;
    let pattern = pattern_at(alloc, value)?;
    add(&mut facets, pattern)?;
    add_ranges(alloc, value, &mut facets)?;
    add_digits(alloc, value, &mut facets)?;
    Ok(facets)
}

/// The constraint that asks for these, and for no value set.
fn make(
    alloc: Global,
    kind: Option<Kind4>,
    datatype: Option<Text>,
    facets: Vec<Facet>,
) -> Result<NodeConstraint, SchemaError>
    requires { ¬ HasOtherNumber facets.items }
    ensures made { IfOk result (λ c. c ≡ record { kind = kind; datatype = datatype; facets = facets.items; values = None }) }
    ensures sound { OnOk result (IsSound datatype facets.items) }
    ensures cause { IfErr result (Because (PartsFault datatype facets.items)) }
{
    match NodeConstraint::make(alloc, kind, datatype, facets, None) {
        Ok(constraint) => Ok(constraint),
        Err(MakeError::FloatFacet) => Err(SchemaError::FloatFacet),
        Err(MakeError::FacetNumber) => Err(SchemaError::FacetNumber),
        Err(MakeError::Pattern(error)) => Err(SchemaError::Pattern(error)),
        Err(MakeError::Memory) => Err(SchemaError::Memory),
    }
}

/// The node constraint without its value set; only where it is labelled it may have an `id`.
fn read_restrictions(
    alloc: Global,
    value: &Value,
    labelled: bool,
) -> Result<NodeConstraint, SchemaError>
    requires { type_of (view value.now) ≡ Some (codes "NodeConstraint") }
    ensures ok { IfOk result (λ c. HasRestrictions (with_id labelled constraint_keys) c (view value.now)) }
    ensures cause { IfErr result (Because (λ f. ConstraintFault (with_id labelled constraint_keys) f (view value.now))) }
{
    only_own_keys(alloc, value, labelled, &CONSTRAINT_KEYS)?;
    let kind = read_kind(alloc, value)?;
    let datatype = text_if_any(alloc, value, "datatype")?;
    let facets = read_facets(alloc, value)?;
    make(alloc, kind, datatype, facets)
}

/// The value set of a node constraint, if there is one, where it has no actions.
fn read_values(alloc: Global, value: &Value) -> Result<Option<ValueSet>, SchemaError>
    ensures ok { IfOk result (λ s. SpellsValueSet s (get (codes "values") (view value.now))) }
    ensures plain { OnOk result (IsPlain (view value.now)) }
    ensures cause { IfErr result (Because (λ f. ValueSetFault f (get (codes "values") (view value.now)) ⊎ PlainFault f (view value.now))) }
{
    let values = read_value_set(alloc, value.get("values"))?;
    only_plain(alloc, value).map(move |()| values)
}

/// The node constraint that the value, an object of that type, stands for; only where it is labelled it may have an `id`
/// (ShEx 2.1, section 5.4).
pub(crate) fn read_constraint(
    alloc: Global,
    value: &Value,
    labelled: bool,
) -> Result<NodeConstraint, SchemaError>
    requires { type_of (view value.now) ≡ Some (codes "NodeConstraint") }
    ensures ok { IfOk result (λ c. IsConstraint (with_id labelled constraint_keys) c (view value.now)) }
    ensures cause { IfErr result (Because (λ f. ConstraintFault (with_id labelled constraint_keys) f (view value.now))) }
{
    let constraint = read_restrictions(alloc, value, labelled)?;
    read_values(alloc, value).map(move |values| constraint.with_values(values))
}
