//! Node constraints (ShEx 2.1, appendix A, and section 5.4).

ghost use Rattle.std.specs.Prelude.{◌≡◌, IfOk, IfSome, OnOk, codes, option_and_then, option_map};
ghost use Rattle.std.specs.List.{AllByRecursion};
ghost use Rattle.std.specs.Option.{option_copied};
ghost use Rattle.std.specs.Str.{chars};
ghost use Rattle.serde_json.specs.Data.{string};
ghost use Rattle.serde_json.specs.View.{view};
ghost use Rattle.shexj_reader.specs.Constraints.{kind_word};
ghost use Rattle.shexj_writer.specs.Constraints.{bound_fields, bound_keys, bound_number, constraint_data, facet_data, facet_key, facet_under, flags_data, last_fields, under};
ghost use Rattle.shexj_writer.specs.Built.{members_of};
ghost use Rattle.shexj_writer.specs.Held.{AreHeldValuesIfAny, HasTextFlags, IsHeldConstraint, IsHeldFacet, IsHeldUnder, IsTextIfAny};
ghost use Rattle.shexj_writer.specs.Objects.{put_all, put_if};
ghost use Rattle.shexj_writer.specs.Texts.{text_data};
ghost use Rattle.shexj_writer.specs.Values.{value_set_data};

use crate::numbers::whole_number;
use crate::objects::Object;
use crate::texts::text_value;
use crate::values::value_set_value;
use node_constraint::{Facet, Kind4, NodeConstraint};
use rdf_terms::text::Text;
use serde_json::Value;
use std::alloc::{AllocError, Global};
use value_sets::ValueSet;

/// The word for a node kind.
fn kind_word(kind: Kind4) -> &'static str
    ensures { result.now ≡ kind_word kind }
{
    match kind {
        Kind4::Iri => "iri",
        Kind4::Bnode => "bnode",
        Kind4::NonLiteral => "nonliteral",
        Kind4::Literal => "literal",
    }
}

/// The key of a facet.
fn facet_key(facet: &Facet) -> &'static str
    ensures { result.now ≡ facet_key facet.now }
{
    match facet {
        Facet::Length(_) => "length",
        Facet::MinLength(_) => "minlength",
        Facet::MaxLength(_) => "maxlength",
        Facet::MinInclusive(_) => "mininclusive",
        Facet::MinExclusive(_) => "minexclusive",
        Facet::MaxInclusive(_) => "maxinclusive",
        Facet::MaxExclusive(_) => "maxexclusive",
        Facet::TotalDigits(_) => "totaldigits",
        Facet::FractionDigits(_) => "fractiondigits",
        Facet::Pattern(..) => "pattern",
    }
}

/// The first facet with this key.
fn facet_under<'a>(facets: &'a [Facet], key: &str) -> Option<&'a Facet>
    ensures { option_copied result ≡ facet_under key.now facets.now }
{
    facets.iter().find(|facet| facet_key(facet) == key)
}

/// The number of a range facet; a text that is refused has none.
fn bound_value(bound: &Text) -> Value
    ensures { view result ≡ bound_number bound.now }
{
    Value::from(whole_number(bound.as_str()))
}

/// What stands under the key of a facet.
fn facet_value(alloc: Global, facet: &Facet) -> Result<Value, AllocError>
    ensures value { IfOk result (λ v. view v ≡ facet_data facet.now) }
    ensures held { OnOk result (IsHeldFacet facet.now) }
{
    match facet {
        Facet::Length(n)
        | Facet::MinLength(n)
        | Facet::MaxLength(n)
        | Facet::TotalDigits(n)
        | Facet::FractionDigits(n) => Ok(Value::from(*n)),
        Facet::MinInclusive(bound)
        | Facet::MinExclusive(bound)
        | Facet::MaxInclusive(bound)
        | Facet::MaxExclusive(bound) => Ok(bound_value(bound)),
        Facet::Pattern(pattern, _) => text_value(alloc, pattern),
    }
}

/// The flags of a pattern, where there are some.
fn flags_of(facet: Option<&Facet>) -> Option<&Text>
    ensures flags { option_map text_data (option_copied result) ≡ option_and_then flags_data (option_copied facet.entry) }
    ensures held { IfSome (option_copied facet.entry) HasTextFlags }
{
    let Some(Facet::Pattern(_, flags)) = facet else {
        return None;
    };
    if flags.as_str().is_empty() {
        return None;
    }
    Some(flags)
}

/// Puts a facet at its key, if there is one.
fn put_facet(
    alloc: Global,
    object: &mut Object,
    key: &str,
    facets: &[Facet],
) -> Result<(), AllocError>
    ensures put { OnOk result (members_of object.new ≡ put_if key.now (under key.now facets.now) (members_of object.old)) }
    ensures held { OnOk result (IsHeldUnder facets.now key.now) }
{
    match facet_under(facets, key) {
        Some(facet) => {
            let value = facet_value(alloc, facet)?;
            object.put(key, value)
        }
        None => Ok(()),
    }
}

/// Puts the word for a kind, if one is asked for.
fn put_kind(object: &mut Object, kind: Option<Kind4>) -> Result<(), AllocError>
    ensures { OnOk result (members_of object.new ≡ put_if (codes "nodeKind") (option_map (λ kind. string (kind_word kind)) kind) (members_of object.old)) }
{
    match kind {
        Some(kind) => object.put_word("nodeKind", kind_word(kind)),
        None => Ok(()),
    }
}

/// Puts the datatype, if one is asked for.
fn put_datatype(object: &mut Object, datatype: Option<&str>) -> Result<(), AllocError>
    ensures put { OnOk result (members_of object.new ≡ put_if (codes "datatype") (option_map text_data (option_map (λ d. chars d.now) datatype.entry)) (members_of object.old)) }
    ensures held { OnOk result (IsTextIfAny (option_map (λ d. chars d.now) datatype.entry)) }
{
    match datatype {
        Some(datatype) => object.put_characters("datatype", datatype),
        None => Ok(()),
    }
}

/// Puts the value set, if one is asked for.
fn put_values(
    alloc: Global,
    object: &mut Object,
    values: Option<&ValueSet>,
) -> Result<(), AllocError>
    ensures put { OnOk result (members_of object.new ≡ put_if (codes "values") (option_map value_set_data (option_copied values.entry)) (members_of object.old)) }
    ensures held { OnOk result (AreHeldValuesIfAny (option_copied values.entry)) }
{
    match values {
        Some(values) => {
            let value = value_set_value(alloc, values.values())?;
            object.put("values", value)
        }
        None => Ok(()),
    }
}

/// Puts what stands under the keys from `nodeKind` on.
fn put_last_keys(
    alloc: Global,
    object: &mut Object,
    kind: Option<Kind4>,
    facets: &[Facet],
    values: Option<&ValueSet>,
) -> Result<(), AllocError>
    ensures put { OnOk result (members_of object.new ≡ put_all (last_fields kind facets.now (option_copied values.entry)) (members_of object.old)) }
    ensures values { OnOk result (AreHeldValuesIfAny (option_copied values.entry)) }
    ensures digits { OnOk result (IsHeldUnder facets.now (codes "totaldigits")) }
    ensures pattern { OnOk result (IsHeldUnder facets.now (codes "pattern")) }
{
    put_values(alloc, object, values)?;
    object.put_word("type", "NodeConstraint")?;
    put_facet(alloc, object, "totaldigits", facets)?;
    put_facet(alloc, object, "pattern", facets)?;
    put_kind(object, kind)?;
    Ok(())
}

/// Puts the bounds of the length and of the value: what stands under the keys from `length` to `minlength`.
fn put_bounds(alloc: Global, object: &mut Object, facets: &[Facet]) -> Result<(), AllocError>
    ensures put { OnOk result (members_of object.new ≡ put_all (bound_fields facets.now) (members_of object.old)) }
    ensures held { OnOk result (AllByRecursion (IsHeldUnder facets.now) bound_keys) }
{
    put_facet(alloc, object, "minlength", facets)?;
    put_facet(alloc, object, "mininclusive", facets)?;
    put_facet(alloc, object, "minexclusive", facets)?;
    put_facet(alloc, object, "maxlength", facets)?;
    put_facet(alloc, object, "maxinclusive", facets)?;
    put_facet(alloc, object, "maxexclusive", facets)?;
    put_facet(alloc, object, "length", facets)?;
    Ok(())
}

/// A node constraint, with its label under `id` where it is declared.
#[tactic(auto, unfolding(crate::specs::Constraints::constraint_data))]
pub(crate) fn constraint_value(
    alloc: Global,
    constraint: &NodeConstraint,
    id: Option<Value>,
) -> Result<Value, AllocError>
    ensures value { IfOk result (λ v. view v ≡ constraint_data (option_map view id) constraint.now) }
    ensures held { OnOk result (IsHeldConstraint constraint.now) }
{
    let facets = constraint.facets();
    let mut object = Object::new(alloc);
    put_last_keys(
        alloc,
        &mut object,
        constraint.kind(),
        facets,
        constraint.values(),
    )?;
    put_bounds(alloc, &mut object, facets)?;
    object.put_if("id", id)?;
    put_facet(alloc, &mut object, "fractiondigits", facets)?;
    object.put_text_if("flags", flags_of(facet_under(facets, "pattern")))?;
    put_datatype(&mut object, constraint.datatype())?;
    Ok(object.into_value())
}
