//! What is shown of a document for a label.

ghost use Rattle.std.specs.Prelude.{◌≡◌, ◌++◌, ◌-◌, ◌<◌, ◌^◌, IfOk, IfSome, List, OnOk, length, string_bytes, ℕ};
ghost use Rattle.schema_causes.specs.Labels.{IsPlaceOf, ShowsKeys, ShowsLabel, ShowsToken, is_second, json_label, usage_of};
ghost use Rattle.schema_causes.specs.Shown.{IfAny};

use crate::lines::{has_scheme, push_path};
use key_paths::{LabelPlace, path_of_label};
use label_tokens::{Sought, Usage, place_in};
use refusal_places::push_place;
use schema_documents::Label;
use schema_reader::Format;
use std::alloc::{AllocError, Global};

/// What is looked for among the tokens of a document: the use of a label at one of its places.
fn sought_at(label: &Label, place: LabelPlace) -> Sought<'_>
    ensures label { result.label.now ≡ label.now }
    ensures usage { result.usage ≡ usage_of place }
    ensures again { result.again ≡ is_second place }
{
    match place {
        LabelPlace::Declared => Sought {
            label,
            usage: Usage::Declared,
            again: false,
        },
        LabelPlace::DeclaredAgain => Sought {
            label,
            usage: Usage::Declared,
            again: true,
        },
        LabelPlace::Referred => Sought {
            label,
            usage: Usage::Referred,
            again: false,
        },
    }
}

/// The place of a label in the bytes of a document in ShExC with this base.
fn label_place(
    alloc: Global,
    base: &str,
    bytes: &[u8],
    label: &Label,
    place: LabelPlace,
) -> Result<Option<u64>, AllocError>
    ensures { IfOk result (λ found. IfSome found (λ at. IsPlaceOf place base.now bytes.now label.now at)) }
{
    if !has_scheme(base) {
        return Ok(None);
    }
    match std::str::from_utf8(bytes) {
        Ok(text) => place_in(alloc, base, text, &sought_at(label, place)),
        Err(_) => Ok(None),
    }
}

/// Appends the lines that show the place of a label in the bytes of a document in ShExC of this name and base.
fn push_token(
    alloc: Global,
    name: &str,
    base: &str,
    label: &Label,
    place: LabelPlace,
    bytes: &[u8],
    out: &mut Vec<u8>,
) -> Result<(), AllocError>
    requires { length bytes.now < 2 ^ 64 - 1 }
    ensures { OnOk result ((shown : List ℕ) × IfAny shown (ShowsToken place name.now base.now label.now bytes.now) × (out.new.items ≡ out.old.items ++ shown)) }
{
    match label_place(alloc, base, bytes, label, place)? {
        Some(at) => push_place(alloc, name, bytes, at as usize, out),
        None => Ok(()),
    }
}

/// The label as ShExJ has it (ShEx 2.1, appendix A).
fn json_label(alloc: Global, label: &Label) -> Result<String, AllocError>
    ensures { IfOk result (λ text. string_bytes text ≡ json_label label.now) }
{
    match label {
        Label::Iri(iri) => String::from_str(alloc, iri.as_str()),
        Label::Blank(name) => format!(in alloc; "_:{}", name.as_str()),
    }
}

/// Appends the line that shows the path to a label in the bytes of a document in ShExJ of this name.
fn push_keys(
    alloc: Global,
    name: &str,
    label: &Label,
    place: LabelPlace,
    bytes: &[u8],
    out: &mut Vec<u8>,
) -> Result<(), AllocError>
    ensures { OnOk result ((shown : List ℕ) × IfAny shown (ShowsKeys name.now label.now bytes.now) × (out.new.items ≡ out.old.items ++ shown)) }
{
    let text = json_label(alloc, label)?;
    match path_of_label(alloc, bytes, text.as_str(), place)? {
        Some(path) => push_path(alloc, name, &path, out),
        None => Ok(()),
    }
}

/// Appends what is shown of a schema document of this name and base for a label, at one of its places. In ShExC (ShEx 2.1, section 6) these
/// are the lines of the place of a token that spells the label, by the base and the prefixes in force there, as `push_place` shows it, where
/// the base has a scheme. In ShExJ (ShEx 2.1, appendix A) it is the line `NAME: PATH` of the keys and indices that lead to the
/// label. Nothing is appended where no such place or path is found. It fails for want of memory alone, and then some of the lines may be
/// there.
pub fn push_label(
    alloc: Global,
    name: &str,
    base: &str,
    label: &Label,
    place: LabelPlace,
    bytes: &[u8],
    out: &mut Vec<u8>,
) -> Result<(), AllocError>
    requires { length bytes.now < 2 ^ 64 - 1 }
    ensures { OnOk result ((shown : List ℕ) × ShowsLabel place name.now base.now label.now bytes.now shown × (out.new.items ≡ out.old.items ++ shown)) }
{
    match Format::of_name(name) {
        Format::Compact => push_token(alloc, name, base, label, place, bytes, out),
        Format::Json => push_keys(alloc, name, label, place, bytes, out),
    }
}
