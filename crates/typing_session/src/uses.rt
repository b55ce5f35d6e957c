//! Where each Shape of a schema is used: the occurrences in whose values it stands.

ghost use Rattle.std.specs.Prelude.{ℕ, ◌≡◌, ◌≤◌, ◌<◌, ◌++◌, Contains, IfOk, OnOk, length, map};
ghost use Rattle.std.specs.List.{flat_map};
ghost use Rattle.demand.specs.Links.{AreLinks};
ghost use Rattle.schema_tree.specs.Loaded.{IsLoaded};
ghost use Rattle.typing_session.specs.Uses.{AreEmptyLists, AreFiled, AreUses, AreUsesByValue, AreWithin, FilesUse, use_of, uses_of};

use demand::links::Link;
use rdf_terms::items::Items;
use schema_tree::schema::{Occurrence, Schema, ShapeId};
use std::alloc::{AllocError, Global};

/// An occurrence of a Shape, and a Shape that stands in its value.
#[derive(Clone, Copy, Debug, PartialEq, Eq)]
pub struct Use {
    /// The Shape that stands in the value.
    pub value: ShapeId,
    /// The Shape that has the occurrence.
    pub shape: ShapeId,
    /// The occurrence.
    pub occ: Occurrence,
}

/// Adds the uses of the Shapes in the value of a link.
fn push_link(shape: ShapeId, link: &Link, found: &mut Vec<Use>) -> Result<(), AllocError>
    ensures { OnOk result (found.new.items ≡ found.old.items ++ map (use_of shape link.now.occ) link.now.shapes) }
{
    for value in link.shapes.as_slice() {
        let value = *value;
        let occ = link.occ;
        found.push(Use { value, shape, occ })?;
    }
    Ok(())
}

/// Adds the uses by the links of a Shape.
fn push_links(shape: ShapeId, links: &[Link], found: &mut Vec<Use>) -> Result<(), AllocError>
    ensures { OnOk result (found.new.items ≡ found.old.items ++ flat_map (uses_of shape) links.now) }
{
    for link in links {
        push_link(shape, link, found)?;
    }
    Ok(())
}

/// All uses of Shapes; `links` are those of the schema.
fn all_uses(alloc: Global, schema: &Schema, links: &[Items<Link>]) -> Result<Vec<Use>, AllocError>
    requires loaded { IsLoaded schema.now }
    requires links { AreLinks schema.now links.now }
    ensures { IfOk result (λ v. AreUses schema.now v.items) }
{
    let mut found = Vec::new(alloc);
    let mut number = 0;
    while number < links.len() {
        let own = links[number].as_slice();
        push_links(ShapeId(number as u32), own, &mut found)?;
        number += 1;
    }
    Ok(found)
}

/// Empty lists, as many as this.
fn empty_lists(alloc: Global, count: usize) -> Result<Vec<Vec<Use>>, AllocError>
    ensures count { IfOk result (λ v. length v.items ≡ count) }
    ensures empty { IfOk result (λ v. AreEmptyLists (map (λ l. l.items) v.items)) }
{
    let mut lists = Vec::new(alloc);
    for _ in 0..count {
        lists.push(Vec::new(alloc))?;
    }
    Ok(lists)
}

/// Adds a use to the list of its value.
fn file_use(lists: &mut Vec<Vec<Use>>, found: Use) -> Result<(), AllocError>
    requires there { found.value.0 < length lists.old.items }
    ensures added { OnOk result (FilesUse (map (λ l. l.items) lists.old.items) found (map (λ l. l.items) lists.new.items)) }
    ensures same { length lists.new.items ≡ length lists.old.items }
{
    lists[found.value.0 as usize].push(found)?;
    Ok(())
}

/// The uses by their values: for each Shape those in whose value it stands.
fn filed(alloc: Global, count: usize, found: &[Use]) -> Result<Vec<Vec<Use>>, AllocError>
    requires within { AreWithin count found.now }
    ensures filed { IfOk result (λ v. AreFiled found.now (map (λ l. l.items) v.items)) }
    ensures count { IfOk result (λ v. length v.items ≡ count) }
{
    let mut lists = empty_lists(alloc, count)?;
    for one in found {
        file_use(&mut lists, *one)?;
    }
    Ok(lists)
}

/// For each Shape of the schema the uses in whose value it stands; `links` are those of the schema.
pub(crate) fn uses(
    alloc: Global,
    schema: &Schema,
    links: &[Items<Link>],
) -> Result<Vec<Vec<Use>>, AllocError>
    requires loaded { IsLoaded schema.now }
    requires links { AreLinks schema.now links.now }
    ensures { IfOk result (λ v. AreUsesByValue schema.now (map (λ l. l.items) v.items)) }
{
    let found = all_uses(alloc, schema, links)?;
    let lists = filed(alloc, schema.shapes.as_slice().len(), found.as_slice())?;
    Ok(lists)
}
