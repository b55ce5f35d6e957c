//! Value sets (ShEx 2.1, appendix A, and section 5.4, Values Constraint).

ghost use Rattle.std.specs.Prelude.{ℕ, ◌≡◌, ◌≢◌, ◌↔◌, IfErr, IfOk, IfSome, IsNone, IsTrue, List, None, Option, Some, codes, map, option_map, true};
ghost use Rattle.std.specs.Char.{to_ascii_lowercase};
ghost use Rattle.std.specs.Str.{chars};
ghost use Rattle.rdf_terms.specs.Vocabulary.{rdf_lang_string};
ghost use Rattle.serde_json.specs.Data.{Data};
ghost use Rattle.serde_json.specs.Find.{get};
ghost use Rattle.serde_json.specs.View.{view};
ghost use Rattle.shexj_reader.specs.Faults.{Because, IsBad, form};
ghost use Rattle.shexj_reader.specs.Keys.{is_object, text, type_of};
ghost use Rattle.shexj_reader.specs.ValueFaults.{AreApart, ExclusionFault, ExclusionsFault, LanguageFault, LiteralFault, RangeFault, RangeStemFault, StemFault, ValueFault, ValueSetFault};
ghost use Rattle.shexj_reader.specs.Values.{HasExclusions, IsExclusion, IsLanguage, IsLiteral, IsOfLiteral, IsRange, IsRangeStem, IsStem, IsTyped, SpellsValue, SpellsValueSet, range_type, stem_type, taken};

use crate::objects::{
    bad_form, has_type, is_object, only_keys, only_listed, text_at, text_if_any, type_of,
};
use crate::stems::{StemKind, stem_type};
use rdf_terms::items::Items;
use rdf_terms::terms::{Literal, Term};
use rdf_terms::text::Text;
use rdf_terms::vocabulary::RDF_LANG_STRING;
use schema_documents::SchemaError;
use serde_json::Value;
use std::alloc::{AllocError, Global};
use value_sets::{Except, Exceptions, Value as SetValue, ValueSet};

/// A copy of a text, in which the letters A to Z have become a to z.
fn lowered(alloc: Global, text: &str) -> Result<Text, AllocError>
    ensures { IfOk result (λ t. t ≡ map to_ascii_lowercase (chars text.now)) }
{
    let mut own = String::from_str(alloc, text)?;
    own.make_ascii_lowercase();
    Ok(Text::from_string(own))
}

/// A copy of the text of a stem or an exclusion: language tags are taken in lower case.
fn taken(alloc: Global, text: &str, kind: StemKind) -> Result<Text, AllocError>
    ensures { IfOk result (λ t. t ≡ taken kind (chars text.now)) }
{
    match kind {
        StemKind::Iri | StemKind::Literal => Text::from_str(alloc, text),
        StemKind::Language => lowered(alloc, text),
    }
}

/// The text under a key, as it is taken.
fn taken_at(alloc: Global, value: &Value, key: &str, kind: StemKind) -> Result<Text, SchemaError>
    ensures ok { IfOk result (λ t. option_map (taken kind) (text (get key.now (view value.now))) ≡ Some t) }
    ensures cause { IfErr result (Because (λ f. IsBad key.now text f (view value.now))) }
{
    match value.get(key).and_then(Value::as_str) {
        Some(text) => {
            let own = taken(alloc, text, kind)?;
            Ok(own)
        }
        None => Err(bad_form(alloc, key)),
    }
}

/// The stem of an object.
fn read_stem(alloc: Global, value: &Value, kind: StemKind) -> Result<Text, SchemaError>
    requires { type_of (view value.now) ≡ Some (stem_type kind) }
    ensures ok { IfOk result (λ t. IsStem kind t (view value.now)) }
    ensures cause { IfErr result (Because (λ f. StemFault f (view value.now))) }
{
    only_keys(alloc, value, &["stem", "type"])?;
    let stem = taken_at(alloc, value, "stem", kind)?;
    Ok(stem)
}

/// The tag of a language.
fn read_language(alloc: Global, value: &Value) -> Result<Text, SchemaError>
    requires { type_of (view value.now) ≡ Some (codes "Language") }
    ensures ok { IfOk result (λ t. IsLanguage t (view value.now)) }
    ensures cause { IfErr result (Because (λ f. LanguageFault f (view value.now))) }
{
    only_keys(alloc, value, &["languageTag", "type"])?;
    let tag = taken_at(alloc, value, "languageTag", StemKind::Language)?;
    Ok(tag)
}

/// Whether the text is the IRI of rdf:langString.
fn is_lang_string(text: &Text) -> bool
    ensures { IsTrue result ↔ (text.now ≡ rdf_lang_string) }
{
    text.as_str() == RDF_LANG_STRING
}

/// A literal without a language tag; a type is not rdf:langString.
fn untagged(alloc: Global, lex: Text, datatype: Option<Text>) -> Result<Literal, SchemaError>
    ensures ok { IfOk result (λ l. (l.lex ≡ lex) × IsTyped datatype None l) }
    ensures cause { IfErr result (Because (λ f. (f ≡ form (codes "type")) × AreApart datatype None)) }
{
    let Some(datatype) = datatype else {
        let literal = Literal::plain(alloc, lex)?;
        return Ok(literal);
    };
    match Literal::typed(lex, datatype) {
        Some(literal) => Ok(literal),
        None => Err(bad_form(alloc, "type")),
    }
}

/// A literal with a language tag; a type is rdf:langString.
fn tagged(
    alloc: Global,
    lex: Text,
    datatype: Option<Text>,
    tag: &Text,
) -> Result<Literal, SchemaError>
    ensures ok { IfOk result (λ l. (l.lex ≡ lex) × IsTyped datatype (Some tag.now) l) }
    ensures cause { IfErr result (Because (λ f. (f ≡ form (codes "type")) × AreApart datatype (Some tag.now))) }
{
    if let Some(datatype) = datatype {
        if !is_lang_string(&datatype) {
            return Err(bad_form(alloc, "type"));
        }
    }
    let literal = Literal::tagged(alloc, lex, tag.as_str())?;
    Ok(literal)
}

/// The literal of an object (RDF 1.1 Concepts, section 3.3).
fn read_literal(alloc: Global, value: &Value) -> Result<Literal, SchemaError>
    requires object { is_object (view value.now) ≡ true }
    requires other { IsOfLiteral (type_of (view value.now)) }
    ensures ok { IfOk result (λ l. IsLiteral l (view value.now)) }
    ensures cause { IfErr result (Because (λ f. LiteralFault f (view value.now))) }
{
    let datatype = text_if_any(alloc, value, "type")?;
    only_listed(alloc, value, &["language", "type", "value"])?;
    let lex = text_at(alloc, value, "value")?;
    match text_if_any(alloc, value, "language")? {
        Some(tag) => tagged(alloc, lex, datatype, &tag),
        None => untagged(alloc, lex, datatype),
    }
}

/// The stem of a range, `None` for the wildcard.
fn read_range_stem(
    alloc: Global,
    value: Option<&Value>,
    kind: StemKind,
) -> Result<Option<Text>, SchemaError>
    ensures ok { IfOk result (λ s. IsRangeStem kind s (option_map (λ v. view v.now) value.entry)) }
    ensures cause { IfErr result (Because (λ f. RangeStemFault f (option_map (λ v. view v.now) value.entry))) }
{
    let Some(value) = value else {
        return Err(bad_form(alloc, "stem"));
    };
    if let Some(text) = value.as_str() {
        let stem = taken(alloc, text, kind)?;
        return Ok(Some(stem));
    }
    if !is_object(value) {
        return Err(bad_form(alloc, "stem"));
    }
    if !has_type(value, "Wildcard") {
        return Err(bad_form(alloc, "type"));
    }
    only_keys(alloc, value, &["type"])?;
    Ok(None)
}

/// An exclusion of a range.
fn read_exclusion(alloc: Global, value: &Value, kind: StemKind) -> Result<Except, SchemaError>
    ensures ok { IfOk result (λ e. IsExclusion kind e (view value.now)) }
    ensures cause { IfErr result (Because (λ f. ExclusionFault kind f (view value.now))) }
{
    if let Some(text) = value.as_str() {
        let exact = taken(alloc, text, kind)?;
        return Ok(Except::Exact(exact));
    }
    if !is_object(value) {
        return Err(bad_form(alloc, "exclusions"));
    }
    if !has_type(value, stem_type(kind)) {
        return Err(bad_form(alloc, "type"));
    }
    let stem = read_stem(alloc, value, kind)?;
    Ok(Except::Stem(stem))
}

/// The exclusions of a range, none where the key is absent.
fn read_exclusions(
    alloc: Global,
    value: Option<&Value>,
    kind: StemKind,
) -> Result<Vec<Except>, SchemaError>
    ensures ok { IfOk result (λ v. HasExclusions kind v.items (option_map (λ v. view v.now) value.entry)) }
    ensures cause { IfErr result (Because (λ f. ExclusionsFault kind f (option_map (λ v. view v.now) value.entry))) }
{
    let mut all = Vec::new(alloc);
    let Some(value) = value else {
        return Ok(all);
    };
    let Some(items) = value.as_array() else {
        return Err(bad_form(alloc, "exclusions"));
    };
    for item in items {
        let exclusion = read_exclusion(alloc, item, kind)?;
        all.push(exclusion)?;
    }
    Ok(all)
}

/// The stem and the exclusions of a range; a wildcard has some exclusion.
fn read_range(
    alloc: Global,
    value: &Value,
    kind: StemKind,
) -> Result<(Option<Text>, Exceptions), SchemaError>
    requires { type_of (view value.now) ≡ Some (range_type kind) }
    ensures ok { IfOk result (λ r. IsRange kind r.0 r.1 (view value.now)) }
    ensures cause { IfErr result (Because (λ f. RangeFault kind f (view value.now))) }
{
    only_keys(alloc, value, &["exclusions", "stem", "type"])?;
    let stem = read_range_stem(alloc, value.get("stem"), kind)?;
    let exclusions = read_exclusions(alloc, value.get("exclusions"), kind)?;
    if stem.is_none() {
        if exclusions.as_slice().is_empty() {
            return Err(bad_form(alloc, "exclusions"));
        }
    }
    Ok((stem, Items::of(exclusions)))
}

/// The kind of the stem that the object is, if it is one.
fn stem_kind(value: &Value) -> Option<StemKind>
    ensures kind { IfSome result (λ kind. type_of (view value.now) ≡ Some (stem_type kind)) }
    ensures none { IsNone result → (kind : StemKind) → type_of (view value.now) ≢ Some (stem_type kind) }
{
    match type_of(value) {
        Some("IriStem") => Some(StemKind::Iri),
        Some("LiteralStem") => Some(StemKind::Literal),
        Some("LanguageStem") => Some(StemKind::Language),
        _ => None,
    }
}

/// The kind of the range that the object is, if it is one.
fn range_kind(value: &Value) -> Option<StemKind>
    ensures kind { IfSome result (λ kind. type_of (view value.now) ≡ Some (range_type kind)) }
    ensures none { IsNone result → (kind : StemKind) → type_of (view value.now) ≢ Some (range_type kind) }
{
    match type_of(value) {
        Some("IriStemRange") => Some(StemKind::Iri),
        Some("LiteralStemRange") => Some(StemKind::Literal),
        Some("LanguageStemRange") => Some(StemKind::Language),
        _ => None,
    }
}

/// The value that is a stem.
fn stem_value(kind: StemKind, stem: Text) -> SetValue
    ensures { (d : Data) → IsStem kind stem d → SpellsValue result d }
{
    match kind {
        StemKind::Iri => SetValue::IriStem(stem),
        StemKind::Literal => SetValue::LitStem(stem),
        StemKind::Language => SetValue::LangStem(stem),
    }
}

/// The value that is a range.
fn range_value(kind: StemKind, stem: Option<Text>, exclusions: Exceptions) -> SetValue
    ensures { (d : Data) → IsRange kind stem exclusions d → SpellsValue result d }
{
    match kind {
        StemKind::Iri => SetValue::IriRange(stem, exclusions),
        StemKind::Literal => SetValue::LitRange(stem, exclusions),
        StemKind::Language => SetValue::LangRange(stem, exclusions),
    }
}

/// A value of a value set.
fn read_value(alloc: Global, value: &Value) -> Result<SetValue, SchemaError>
    ensures ok { IfOk result (λ v. SpellsValue v (view value.now)) }
    ensures cause { IfErr result (Because (λ f. ValueFault f (view value.now))) }
{
    if let Some(text) = value.as_str() {
        let iri = Text::from_str(alloc, text)?;
        return Ok(SetValue::Term(Term::Iri(iri)));
    }
    if !is_object(value) {
        return Err(bad_form(alloc, "values"));
    }
    if has_type(value, "Wildcard") {
        return Err(bad_form(alloc, "type"));
    }
    if let Some(kind) = stem_kind(value) {
        let stem = read_stem(alloc, value, kind)?;
        return Ok(stem_value(kind, stem));
    }
    if let Some(kind) = range_kind(value) {
        let (stem, exclusions) = read_range(alloc, value, kind)?;
        return Ok(range_value(kind, stem, exclusions));
    }
    if has_type(value, "Language") {
        let tag = read_language(alloc, value)?;
        return Ok(SetValue::Lang(tag));
    }
    let literal = read_literal(alloc, value)?;
    Ok(SetValue::Term(Term::Lit(literal)))
}

/// The value set that stands under `values`, if there is one (ShEx 2.1, section 5.4, Values Constraint).
pub(crate) fn read_value_set(
    alloc: Global,
    value: Option<&Value>,
) -> Result<Option<ValueSet>, SchemaError>
    ensures ok { IfOk result (λ s. SpellsValueSet s (option_map (λ v. view v.now) value.entry)) }
    ensures cause { IfErr result (Because (λ f. ValueSetFault f (option_map (λ v. view v.now) value.entry))) }
{
    let Some(value) = value else {
        return Ok(None);
    };
    let Some(items) = value.as_array() else {
        return Err(bad_form(alloc, "values"));
    };
    let mut all = Vec::new(alloc);
    for item in items {
        let own = read_value(alloc, item)?;
        all.push(own)?;
    }
    let set = ValueSet::of(alloc, all)?;
    Ok(Some(set))
}
