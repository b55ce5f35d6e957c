//! Records over other node lines.

ghost use Rattle.std.specs.Prelude.{◌≡◌, ◌<◌, Contains, IfOk, length, map};
ghost use Rattle.proof_file.specs.declared.Record.{Record as Line};
ghost use Rattle.proof_file.specs.declared.Section.{Section as Part};
ghost use Rattle.typing_answers.specs.Numbering.{moved, moved_section};

use proof_file::{Record, Section};
use rdf_terms::items::Items;
use std::alloc::{AllocError, Global};

/// Puts into each record the number at its node's place in `places`, in place of that node.
fn renumber(records: &mut Vec<Record>, places: &[u32])
    requires { (r : Line) → Contains records.old.items r → r.node < length places.now }
    ensures { records.new.items ≡ map (moved places.now) records.old.items }
{
    for record in records.iter_mut() {
        record.node = places[record.node as usize];
    }
}

/// The sections, each of whose records has the number at its node's place in `places`.
pub(crate) fn moved_sections(
    alloc: Global,
    sections: Vec<Section>,
    places: &[u32],
) -> Result<Vec<Section>, AllocError>
    requires { (x : Part) (r : Line) → Contains sections.items x → Contains x.records r → r.node < length places.now }
    ensures { IfOk result (λ v. v.items ≡ map (moved_section places.now) sections.items) }
{
    let mut renumbered = Vec::new(alloc);
    for section in sections {
        let mut records = section.records.into_vec();
        renumber(&mut records, places);
        renumbered.push(Section {
            stratum: section.stratum,
            records: Items::of(records),
        })?;
    }
    Ok(renumbered)
}
