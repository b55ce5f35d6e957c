//! Value sets (ShEx 2.1, appendix A, and section 5.4, Values Constraint).

ghost use Rattle.std.specs.Prelude.{◌≡◌, IfOk, OnOk, option_map, true};
ghost use Rattle.std.specs.List.{AllByRecursion};
ghost use Rattle.std.specs.Option.{option_copied};
ghost use Rattle.std.specs.Str.{all_scalars};
ghost use Rattle.serde_json.specs.Data.{array};
ghost use Rattle.serde_json.specs.View.{items_view, view};
ghost use Rattle.shexj_writer.specs.Held.{AreHeldValues, IsHeldExcept, IsHeldLiteral, IsHeldRange, IsHeldTerm, IsHeldValue, IsText, IsTextIfAny};
ghost use Rattle.shexj_writer.specs.Texts.{text_data};
ghost use Rattle.shexj_writer.specs.Values.{datatype_data, exclusion_data, exclusions_items, language_data, literal_data, range_data, range_stem_data, stem_data, term_data, value_data, value_set_data, values_items};

use crate::objects::Object;
use crate::texts::text_value;
use rdf_terms::terms::{Literal, Term};
use rdf_terms::text::Text;
use rdf_terms::vocabulary::XSD_STRING;
use serde_json::Value;
use shexj_reader::stems::{StemKind, range_type, stem_type};
use std::alloc::{AllocError, Global};
use value_sets::{Except, Value as SetValue};

/// The datatype of a literal, where it has no tag and another datatype than xsd:string.
fn written_datatype(literal: &Literal) -> Option<&Text>
    ensures datatype { option_map text_data (option_copied result) ≡ datatype_data literal.now.lang literal.now.datatype }
    ensures scalars { all_scalars literal.now.datatype ≡ true }
{
    let datatype = literal.datatype();
    let is_string = datatype.as_str() == XSD_STRING;
    if literal.lang().is_some() {
        return None;
    }
    if is_string { None } else { Some(datatype) }
}

/// A literal (RDF 1.1 Concepts, section 3.3).
fn literal_value(alloc: Global, literal: &Literal) -> Result<Value, AllocError>
    ensures value { IfOk result (λ v. view v ≡ literal_data literal.now) }
    ensures held { OnOk result (IsHeldLiteral literal.now) }
{
    literal.parts_agree();
    let mut object = Object::new(alloc);
    object.put_text("value", literal.lex())?;
    object.put_text_if("type", written_datatype(literal))?;
    object.put_text_if("language", literal.lang())?;
    Ok(object.into_value())
}

/// A term. A blank node, which stands in no value set that is read, has no form.
fn term_value(alloc: Global, term: &Term) -> Result<Value, AllocError>
    ensures value { IfOk result (λ v. view v ≡ term_data term.now) }
    ensures held { OnOk result (IsHeldTerm term.now) }
{
    match term {
        Term::Iri(iri) => text_value(alloc, iri),
        Term::Blank(_) => Ok(Value::Null),
        Term::Lit(literal) => literal_value(alloc, literal),
    }
}

/// A stem.
fn stem_value(alloc: Global, kind: StemKind, stem: &Text) -> Result<Value, AllocError>
    ensures value { IfOk result (λ v. view v ≡ stem_data kind stem.now) }
    ensures held { OnOk result (IsText stem.now) }
{
    let mut object = Object::new(alloc);
    object.put_word("type", stem_type(kind))?;
    object.put_text("stem", stem)?;
    Ok(object.into_value())
}

/// A language tag.
fn language_value(alloc: Global, tag: &Text) -> Result<Value, AllocError>
    ensures value { IfOk result (λ v. view v ≡ language_data tag.now) }
    ensures held { OnOk result (IsText tag.now) }
{
    let mut object = Object::new(alloc);
    object.put_word("type", "Language")?;
    object.put_text("languageTag", tag)?;
    Ok(object.into_value())
}

/// The stem of a range, the wildcard where there is none.
fn range_stem_value(alloc: Global, stem: Option<&Text>) -> Result<Value, AllocError>
    ensures value { IfOk result (λ v. view v ≡ range_stem_data (option_copied stem.entry)) }
    ensures held { OnOk result (IsTextIfAny (option_copied stem.entry)) }
{
    match stem {
        Some(stem) => text_value(alloc, stem),
        None => {
            let mut object = Object::new(alloc);
            object.put_word("type", "Wildcard")?;
            Ok(object.into_value())
        }
    }
}

/// An exclusion.
fn exclusion_value(alloc: Global, kind: StemKind, exclusion: &Except) -> Result<Value, AllocError>
    ensures value { IfOk result (λ v. view v ≡ exclusion_data kind exclusion.now) }
    ensures held { OnOk result (IsHeldExcept exclusion.now) }
{
    match exclusion {
        Except::Exact(exact) => text_value(alloc, exact),
        Except::Stem(stem) => stem_value(alloc, kind, stem),
    }
}

/// Exclusions, in their order.
fn exclusion_values(
    alloc: Global,
    kind: StemKind,
    exclusions: &[Except],
) -> Result<Vec<Value>, AllocError>
    ensures values { IfOk result (λ v. items_view v.items ≡ exclusions_items kind exclusions.now) }
    ensures held { OnOk result (AllByRecursion IsHeldExcept exclusions.now) }
{
    let mut all = Vec::new(alloc);
    for exclusion in exclusions {
        let value = exclusion_value(alloc, kind, exclusion)?;
        all.push(value)?;
    }
    Ok(all)
}

/// A range.
fn range_value(
    alloc: Global,
    kind: StemKind,
    stem: Option<&Text>,
    exclusions: &[Except],
) -> Result<Value, AllocError>
    ensures value { IfOk result (λ v. view v ≡ range_data kind (option_copied stem.entry) exclusions.now) }
    ensures held { OnOk result (IsHeldRange (option_copied stem.entry) exclusions.now) }
{
    let stem = range_stem_value(alloc, stem)?;
    let exclusions = exclusion_values(alloc, kind, exclusions)?;
    let mut object = Object::new(alloc);
    object.put_word("type", range_type(kind))?;
    object.put("stem", stem)?;
    object.put_list("exclusions", exclusions)?;
    Ok(object.into_value())
}

/// A value.
fn value(alloc: Global, value: &SetValue) -> Result<Value, AllocError>
    ensures value { IfOk result (λ v. view v ≡ value_data value.now) }
    ensures held { OnOk result (IsHeldValue value.now) }
{
    match value {
        SetValue::Term(term) => term_value(alloc, term),
        SetValue::IriStem(stem) => stem_value(alloc, StemKind::Iri, stem),
        SetValue::LitStem(stem) => stem_value(alloc, StemKind::Literal, stem),
        SetValue::Lang(tag) => language_value(alloc, tag),
        SetValue::LangStem(stem) => stem_value(alloc, StemKind::Language, stem),
        SetValue::IriRange(stem, exclusions) => {
            range_value(alloc, StemKind::Iri, stem.as_ref(), exclusions.as_slice())
        }
        SetValue::LitRange(stem, exclusions) => {
            range_value(
                alloc,
                StemKind::Literal,
                stem.as_ref(),
                exclusions.as_slice(),
            )
        }
        SetValue::LangRange(stem, exclusions) => {
            range_value(
                alloc,
                StemKind::Language,
                stem.as_ref(),
                exclusions.as_slice(),
            )
        }
    }
}

/// The values of a value set, in their order.
pub(crate) fn value_set_value(alloc: Global, values: &[SetValue]) -> Result<Value, AllocError>
    ensures value { IfOk result (λ v. view v ≡ value_set_data values.now) }
    ensures held { OnOk result (AreHeldValues values.now) }
{
    let mut all = Vec::new(alloc);
    for item in values {
        let own = value(alloc, item)?;
        all.push(own)?;
    }
    Ok(Value::from(all))
}
