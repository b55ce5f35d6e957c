//! The places to which parts lead.

ghost use Rattle.std.specs.Prelude.{ℕ, ◌≡◌, ◌<◌, IfOk, get_or, length};
ghost use Rattle.schema_load.specs.Given.{AreNames};
ghost use Rattle.schema_load.specs.Names.{MissesTarget};
ghost use Rattle.schema_load.specs.Requirements.{HasOne, IsMissing, NoneIs};
ghost use Rattle.schema_load.specs.Steps.{AreTargets, IsTarget, nexts};

use crate::given::Names;
use crate::part::{Part, TripleForm};
use crate::targets::{find_declared, find_named};
use std::alloc::{AllocError, Global};

/// The target of a part, and 0 where it has none.
fn target_of(parts: &[Part], names: &Names, part: &Part) -> usize
    requires names { AreNames parts.now names.now }
    requires there { MissesTarget parts.now part.now → ⊥ }
    ensures { IsTarget parts.now part.now result }
{
    match part {
        Part::Not(member) => *member,
        Part::Ref(label) => match find_declared(parts, names, label) {
            Some(place) => place,
            None => unreachable!(),
        },
        Part::Triple(triple) => match &triple.form {
            TripleForm::Include(label) => match find_named(parts, names, label) {
                Some(place) => place,
                None => unreachable!(),
            },
            _ => 0,
        },
        _ => 0,
    }
}

/// The target of each part.
pub fn targets_of(alloc: Global, parts: &[Part], names: &Names) -> Result<Vec<usize>, AllocError>
    requires names { AreNames parts.now names.now }
    requires there { NoneIs (HasOne (IsMissing parts.now)) }
    ensures { IfOk result (λ targets. AreTargets parts.now targets.items) }
{
    let mut targets: Vec<usize> = Vec::new(alloc);
    for place in 0..parts.len() {
        targets.push(target_of(parts, names, &parts[place]))?;
    }
    Ok(targets)
}

/// The places to which the part at a place leads.
pub fn steps<'a>(part: &'a Part, targets: &'a [usize], place: usize) -> &'a [usize]
    requires { place < length targets.now }
    ensures { result.now ≡ nexts (get_or targets.now place 0) part.now }
{
    match part {
        Part::And(members) => members.as_slice(),
        Part::Or(members) => members.as_slice(),
        Part::Not(_) => &targets[place..place + 1],
        Part::Ref(_) => &targets[place..place + 1],
        Part::Triple(triple) => match &triple.form {
            TripleForm::Each(members) => members.as_slice(),
            TripleForm::One(members) => members.as_slice(),
            TripleForm::Include(_) => &targets[place..place + 1],
            _ => &targets[0..0],
        },
        _ => &targets[0..0],
    }
}
