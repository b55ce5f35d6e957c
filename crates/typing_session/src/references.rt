//! The references between the Shapes of a schema, which are found once for all questions and edits.

ghost use Rattle.std.specs.Prelude.{◌≡◌, IfOk, IfSome, IsSome, IsSomeAnd, OnErr, OnOk, Some};
ghost use Rattle.schema_tree.specs.Loaded.{IsLoaded};
ghost use Rattle.typing_session.specs.References.{AreReferences};

use crate::uses::{Use, uses};
use demand::links::{Link, links};
use rdf_terms::items::Items;
use schema_tree::schema::Schema;
use std::alloc::{AllocError, Global};

/// The references between the Shapes of a schema, both from each Shape and to each.
#[derive(Drop)]
pub struct References {
    /// For each Shape its occurrences, with the Shapes that stand in their values.
    pub links: Items<Items<Link>>,
    /// For each Shape the uses in whose value it stands.
    pub uses: Vec<Vec<Use>>,
}

/// The references of a schema, the whole of which is gone through.
fn references_of(alloc: Global, schema: &Schema) -> Result<References, AllocError>
    requires loaded { IsLoaded schema.now }
    ensures { IfOk result (AreReferences schema.now) }
{
    let links = links(alloc, schema)?;
    let uses = uses(alloc, schema, links.as_slice())?;
    Ok(References { links, uses })
}

/// Finds the references of a schema where they are not there yet. A refusal changes nothing.
pub(crate) fn find_references(
    alloc: Global,
    schema: &Schema,
    place: &mut Option<References>,
) -> Result<(), AllocError>
    requires loaded { IsLoaded schema.now }
    requires there { IfSome place.old (AreReferences schema.now) }
    ensures found { OnOk result (IsSomeAnd place.new (AreReferences schema.now)) }
    ensures there { IfSome place.new (AreReferences schema.now) }
    ensures err { OnErr result (place.new ≡ place.old) }
{
    if place.is_some() {
        return Ok(());
    }
    let found = references_of(alloc, schema)?;
    drop(place.replace(found));
    Ok(())
}

/// The references that are there.
pub(crate) fn found_references(place: &Option<References>) -> &References
    requires { IsSome place.now }
    ensures { place.now ≡ Some result.now }
{
    match place {
        Some(references) => references,
        None => unreachable!(),
    }
}
