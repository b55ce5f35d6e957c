//! References and inclusions and what they name.

ghost use Rattle.std.specs.Prelude.{ℕ, ◌≡◌, ◌↔◌, IfSome, IsTrue, None};
ghost use Rattle.schema_load.specs.Given.{AreNames};
ghost use Rattle.schema_load.specs.Names.{MissesTarget};
ghost use Rattle.schema_load.specs.Parts.{IsDeclared, IsNamed};
ghost use Rattle.schema_load.specs.Requirements.{HasOne, IsFirst, IsMissing, NoneIs};

use crate::given::{Names, find_place};
use crate::part::{Part, TripleForm};
use schema_documents::Label;

/// The place of the shape expression of a label, and `None` exactly where it is not declared.
pub fn find_declared(parts: &[Part], names: &Names, label: &Label) -> Option<usize>
    requires { AreNames parts.now names.now }
    ensures found { IfSome result (IsDeclared parts.now label.now) }
    ensures none { result ≡ None → (q : ℕ) → IsDeclared parts.now label.now q → ⊥ }
{
    match find_place(&names.declared, label) {
        Some(head) => Some(head + 1),
        None => None,
    }
}

/// The place of the triple expression of a label, and `None` exactly where there is none.
pub fn find_named(parts: &[Part], names: &Names, label: &Label) -> Option<usize>
    requires { AreNames parts.now names.now }
    ensures found { IfSome result (IsNamed parts.now label.now) }
    ensures none { result ≡ None → (q : ℕ) → IsNamed parts.now label.now q → ⊥ }
{
    find_place(&names.named, label)
}

/// Whether no shape expression has the label.
fn lacks_declared(parts: &[Part], names: &Names, label: &Label) -> bool
    requires { AreNames parts.now names.now }
    ensures { IsTrue result ↔ ((q : ℕ) → IsDeclared parts.now label.now q → ⊥) }
{
    match find_declared(parts, names, label) {
        Some(_) => false,
        None => true,
    }
}

/// Whether no triple expression has the label.
fn lacks_named(parts: &[Part], names: &Names, label: &Label) -> bool
    requires { AreNames parts.now names.now }
    ensures { IsTrue result ↔ ((q : ℕ) → IsNamed parts.now label.now q → ⊥) }
{
    match find_named(parts, names, label) {
        Some(_) => false,
        None => true,
    }
}

/// Whether the part refers to a label or includes one that is not there.
fn misses_target(parts: &[Part], names: &Names, part: &Part) -> bool
    requires { AreNames parts.now names.now }
    ensures { IsTrue result ↔ MissesTarget parts.now part.now }
{
    match part {
        Part::Ref(label) => lacks_declared(parts, names, label),
        Part::Triple(triple) => match &triple.form {
            TripleForm::Include(label) => lacks_named(parts, names, label),
            _ => false,
        },
        _ => false,
    }
}

/// The first part that refers to a label or includes one that is not there.
pub fn find_missing(parts: &[Part], names: &Names) -> Option<usize>
    requires { AreNames parts.now names.now }
    ensures found { IfSome result (IsFirst (HasOne (IsMissing parts.now))) }
    ensures none { result ≡ None → NoneIs (HasOne (IsMissing parts.now)) }
{
    for place in 0..parts.len() {
        if misses_target(parts, names, &parts[place]) {
            return Some(place);
        }
    }
    None
}
