//! The ways along triples that a schema reads.

ghost use Rattle.std.specs.Prelude.{◌≡◌, ◌↔◌, ◌++◌, Contains, IfOk, OnOk, map};
ghost use Rattle.std.specs.List.{flat_map};
ghost use Rattle.schema_tree.specs.Loaded.{IsLoaded};
ghost use Rattle.shard_checks.specs.declared.ways.Way.{Way as Read};
ghost use Rattle.shard_checks.specs.Ways.{IsWay, way_of, ways_of};

use demand::links::{Link, links};
use rdf_terms::items::Items;
use rdf_terms::terms::TermId;
use schema_tree::schema::Schema;
use std::alloc::{AllocError, Global};

/// A way along the triples of a predicate.
#[derive(Clone, Copy, Debug, PartialEq, Eq)]
pub struct Way {
    /// The predicate.
    pub predicate: TermId,
    /// Whether arcs in are read rather than arcs out.
    pub inverse: bool,
    /// Whether a Shape is asked of the other end.
    pub followed: bool,
}

/// The way of an occurrence.
fn way_of(link: &Link) -> Way
    ensures { result ≡ way_of link.now }
{
    Way {
        predicate: link.occ.predicate,
        inverse: link.occ.inverse,
        followed: !link.shapes.as_slice().is_empty(),
    }
}

/// Adds the ways of the occurrences of a Shape.
fn add_ways(ways: &mut Vec<Way>, links: &[Link]) -> Result<(), AllocError>
    ensures { OnOk result (ways.new.items ≡ ways.old.items ++ ways_of links.now) }
{
    for link in links {
        ways.push(way_of(link))?;
    }
    Ok(())
}

/// The ways of the occurrences of all Shapes.
fn all_ways(alloc: Global, shapes: &[Items<Link>]) -> Result<Vec<Way>, AllocError>
    ensures { IfOk result (λ v. v.items ≡ flat_map ways_of shapes.now) }
{
    let mut ways = Vec::new(alloc);
    for links in shapes {
        add_ways(&mut ways, links.as_slice())?;
    }
    Ok(ways)
}

/// The ways along triples that the occurrences of a schema's Shapes read, one for each occurrence.
pub fn ways_read(alloc: Global, schema: &Schema) -> Result<Vec<Way>, AllocError>
    requires { IsLoaded schema.now }
    ensures { IfOk result (λ v. (w : Read) → Contains v.items w ↔ IsWay schema.now w) }
{
    let shapes = links(alloc, schema)?;
    all_ways(alloc, shapes.as_slice())
}
