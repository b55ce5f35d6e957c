//! Whether a proof is current for some files, and by which strata its records are meant.

ghost use Rattle.std.specs.Prelude.{IfErr, IfOk};
ghost use Rattle.schema_tree.specs.Cycles.{HasNegatedCycle};
ghost use Rattle.schema_tree.specs.Edges.{IsStratum};
ghost use Rattle.schema_tree.specs.Loaded.{IsLoaded};
ghost use Rattle.proof_checker.specs.Current.{AreUsed, FirstStale, HeadFails, IsCurrent};

use crate::checking::CheckError;
use proof_file::head::{Digests, Head, Part};
use schema_tree::schema::Schema;
use std::alloc::{AllocError, Global};
use strata::list::{Strata, StrataError};
use strata::strata::strata;
use strata::valid::is_stratified;

/// The first part of which the digests differ, in the order of schema, imports and data.
fn stale_part(named: &Digests, files: &Digests) -> Option<Part>
    ensures { FirstStale named.now files.now result }
{
    if named.schema != files.schema {
        return Some(Part::Schema);
    }
    if named.imports.as_slice() != files.imports.as_slice() {
        return Some(Part::Import);
    }
    if named.graph != files.graph {
        return Some(Part::Data);
    }
    None
}

/// The strata of a schema in which no cycle of edges has a negative one.
fn own_strata(alloc: Global, schema: &Schema) -> Result<Strata, AllocError>
    requires loaded { IsLoaded schema.now }
    requires stratified { ¬ HasNegatedCycle schema.now }
    ensures { IfOk result (IsStratum schema.now) }
{
    match strata(alloc, schema) {
        Ok(strata) => Ok(strata),
        Err(StrataError::Memory) => Err(AllocError),
        Err(StrataError::NegatedCycle(_)) => unreachable!(),
    }
}

/// The strata by which the records of a proof with this head are meant: those that it brings, or without a head those of the
/// schema. It fails as `Stale` where the head names other files, and otherwise as `Strata` where what it brings is no
/// stratification.
pub(crate) fn used_strata(
    alloc: Global,
    schema: &Schema,
    files: &Digests,
    head: Option<Head>,
) -> Result<Strata, CheckError>
    requires loaded { IsLoaded schema.now }
    requires stratified { ¬ HasNegatedCycle schema.now }
    ensures current { IfOk result (λ f. IsCurrent schema.now files.now head) }
    ensures used { IfOk result (AreUsed schema.now head) }
    ensures fails { IfErr result (HeadFails schema.now files.now head) }
{
    let Some(head) = head else {
        return Ok(own_strata(alloc, schema)?);
    };
    if let Some(part) = stale_part(&head.files, files) {
        return Err(CheckError::Stale(part));
    }
    if !is_stratified(alloc, schema, head.strata.as_slice())? {
        return Err(CheckError::Strata);
    }
    Ok(Strata::of(head.strata.into_vec()))
}
