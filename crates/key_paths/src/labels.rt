//! The path of keys and indices to a label in a schema in ShExJ.

ghost use Rattle.std.specs.Prelude.{◌≡◌, ◌∷◌, IfOk, IfSome, IsTrue, Some};
ghost use Rattle.serde_json.specs.Data.{string};
ghost use Rattle.serde_json.specs.View.{view};
ghost use Rattle.json_paths.specs.Paths.{value_at};
ghost use Rattle.key_paths.specs.Labels.{LeadsToText};

use crate::document::value_of;
use json_paths::{KeyPath, Step, inside};
use serde_json::{Map, Value};
use std::alloc::{AllocError, Global};

/// Which of the places of a label is looked for.
#[derive(Clone, Copy, Debug, Drop, PartialEq, Eq)]
pub enum LabelPlace {
    /// The first declaration: what stands under `id`.
    Declared,
    /// The second declaration.
    DeclaredAgain,
    /// The first reference or inclusion: what stands under `start`, or under the key of an expression or of a list of them.
    Referred,
}

impl LabelPlace {
    /// Whether a label stands under a key in such a place.
    fn is_under(self, key: &str) -> bool {
        match self {
            LabelPlace::Declared | LabelPlace::DeclaredAgain => key == "id",
            LabelPlace::Referred => is_expression_key(key),
        }
    }

    /// How many of these places come before it.
    fn passed_over(self) -> u32 {
        match self {
            LabelPlace::DeclaredAgain => 1,
            _ => 0,
        }
    }
}

/// Whether an expression or a list of expressions stands under the key (ShEx 2.1, appendix A).
fn is_expression_key(key: &str) -> bool {
    key == "expression"
        || key == "expressions"
        || key == "shapeExpr"
        || key == "shapeExprs"
        || key == "start"
        || key == "valueExpr"
}

/// A label that is looked for, and how many of its places are still passed over.
#[derive(Drop)]
struct Search<'a> {
    label: &'a str,
    place: LabelPlace,
    left: u32,
}

impl Search<'_> {
    /// Whether a label may stand behind a step, where it may or may not stand before it.
    fn fits_behind(&self, step: &Step, fits: bool) -> bool {
        match step {
            Step::Key(name) => self.place.is_under(name.as_str()),
            Step::Index(_) => fits,
        }
    }

    /// Whether the value is the label, and no other place of it is to be passed over.
    fn ends_at(&mut self, value: &Value) -> bool
        ensures label { self.new.label.now ≡ self.old.label.now }
        ensures found { IsTrue result → view value.now ≡ string self.old.label.now }
    {
        if !is_text(value, self.label) {
            return false;
        }
        if self.left > 0 {
            self.left -= 1;
            return false;
        }
        true
    }
}

/// Whether the value is this text.
fn is_text(value: &Value, text: &str) -> bool
    ensures { IsTrue result → view value.now ≡ string text.now }
{
    match value.as_str() {
        Some(found) => found == text,
        None => false,
    }
}

/// The steps into a value: to each item of an array, or to each member of an object.
fn steps_into(alloc: Global, value: &Value) -> Result<Vec<Step>, AllocError> {
    match value {
        Value::Array(items) => indices(alloc, items.len()),
        Value::Object(members) => names(alloc, members),
        _ => Ok(Vec::new(alloc)),
    }
}

/// The steps to the first items.
fn indices(alloc: Global, count: usize) -> Result<Vec<Step>, AllocError> {
    let mut steps = Vec::new(alloc);
    for index in 0..count {
        steps.push(Step::Index(index))?;
    }
    Ok(steps)
}

/// The steps to all members.
fn names(alloc: Global, members: &Map<String, Value>) -> Result<Vec<Step>, AllocError> {
    let mut steps = Vec::new(alloc);
    for (name, _value) in members.iter() {
        steps.push(Step::Key(name.clone()?))?;
    }
    Ok(steps)
}

/// The steps with one before them.
fn with_first(first: Step, mut steps: Vec<Step>) -> Result<Vec<Step>, AllocError>
    ensures { IfOk result (λ v. v.items ≡ first ∷ steps.items) }
{
    steps.insert(0, first)?;
    Ok(steps)
}

/// The steps to the label, where it stands in the value; `fits` says that it may be the value itself.
fn steps_to(
    alloc: Global,
    here: &Value,
    search: &mut Search<'_>,
    fits: bool,
) -> Result<Option<Vec<Step>>, AllocError>
    ensures label { search.new.label.now ≡ search.old.label.now }
    ensures found { IfOk result (λ o. IfSome o (λ v. value_at v.items (view here.now) ≡ Some (string search.old.label.now))) }
{
    if fits && search.ends_at(here) {
        return Ok(Some(Vec::new(alloc)));
    }
    for step in steps_into(alloc, here)? {
        let Some(inner) = inside(here, &step) else {
            continue;
        };
        let fits_there = search.fits_behind(&step, fits);
        if let Some(steps) = steps_to(alloc, inner, search, fits_there)? {
            return Ok(Some(with_first(step, steps)?));
        }
    }
    Ok(None)
}

/// The path to a place of a label in the bytes of a schema in ShExJ (ShEx 2.1, appendix A), in the order of the keys' names:
/// the value there is the label as it is written. There is none where the bytes are no JSON, where the label has no such
/// place, and where it is the whole document.
pub fn path_of_label(
    alloc: Global,
    source: &[u8],
    label: &str,
    place: LabelPlace,
) -> Result<Option<KeyPath>, AllocError>
    ensures { IfOk result (λ o. IfSome o (λ p. LeadsToText label.now source.now p)) }
{
    let Some(document) = value_of(alloc, source)? else {
        return Ok(None);
    };
    let mut search = Search {
        label,
        place,
        left: place.passed_over(),
    };
    match steps_to(alloc, &document, &mut search, false)? {
        Some(steps) => Ok(KeyPath::of(steps)),
        None => Ok(None),
    }
}
