//! The places of things.

ghost use Rattle.std.specs.Prelude.{◌≡◌, ◌≢◌, ◌≤◌, IfOk, IfSome, IsSome, Some, length, take};
ghost use Rattle.iri_resolve.specs.Reference.{scheme_of};
ghost use Rattle.schema_places.specs.Edges.{IsEdge, IsMet, IsOtherwise, IsRefusedFor, Looks, place_behind};

use crate::kinds::{Thing, tells_of};
use schema_documents::SchemaError;
use shexc_reader::read;
use std::alloc::{AllocError, Global};

/// The place of a thing that ends right behind so many bytes, which are refused for an error that tells of no such thing.
fn place_behind(size: usize, met: &SchemaError) -> u64
    ensures { result ≡ place_behind size (Some met.now) }
{
    match met {
        SchemaError::Syntax(at) => *at,
        _ => size as u64,
    }
}

/// Where the thing would begin if it ended right behind so many bytes, which are refused for an error; none where that tells of the thing.
fn place_met(met: &SchemaError, thing: Thing, size: usize) -> Option<u64>
    ensures { IsMet met.now thing size result }
{
    if tells_of(met, thing) {
        None
    } else {
        Some(place_behind(size, met))
    }
}

/// What the refusal of so many bytes tells of the thing; it fails where memory ran out.
fn told_by(met: SchemaError, thing: Thing, size: usize) -> Result<Option<u64>, AllocError>
    ensures met { IfOk result (λ found. IsMet met thing size found) }
    ensures apart { IfOk result (λ found. met ≢ SchemaError.Memory) }
{
    match met {
        SchemaError::Memory => Err(AllocError),
        met => Ok(place_met(&met, thing, size)),
    }
}

/// Where the thing would begin if it ended right behind the bytes; none where they are refused for the thing already.
#[tactic(auto, using(crate::proofs::Looking::of_document))]
fn look(alloc: Global, bytes: &[u8], base: &str, thing: Thing) -> Result<Option<u64>, AllocError>
    requires { IsSome (scheme_of base.now) }
    ensures { IfOk result (λ found. Looks base.now thing bytes.now found) }
{
    match read(alloc, bytes, base) {
        Ok(_) => Ok(Some(bytes.len() as u64)),
        Err(met) => told_by(met, thing, bytes.len()),
    }
}

/// The place of the thing in a document that is refused for it, and whose empty beginning, behind which it would begin at the first
/// place, is not.
#[tactic(auto, using(crate::proofs::Looking::whole))]
fn halve(
    alloc: Global,
    source: &[u8],
    base: &str,
    thing: Thing,
    first: u64,
) -> Result<u64, AllocError>
    requires scheme { IsSome (scheme_of base.now) }
    requires otherwise { IsOtherwise base.now thing (take 0 source.now) first }
    requires refused { IsRefusedFor base.now thing source.now }
    requires some { 1 ≤ length source.now }
    ensures { IfOk result (λ at. IsEdge base.now thing source.now at) }
{
    let mut place = first;
    let mut size = 0;
    let mut refused = source.len();
    while refused - size > 1 {
        let middle = size + (refused - size) / 2;
        match look(alloc, &source[..middle], base, thing)? {
            Some(at) => {
                place = at;
                size = middle;
            }
            None => refused = middle,
        }
    }
    Ok(place)
}

/// The place of the thing for which a document in ShExC is refused, in bytes from 0. References are resolved against `base`, which has
/// a scheme.
///
/// Beginnings of the document are read: up to one byte they are not refused for the thing, and with that byte they are. Where the
/// shorter one is refused as `Syntax`, the thing begins at that place, and else at that byte. There is none where the whole is not
/// refused for the thing, or its empty beginning is. It fails for want of memory alone.
pub fn thing_place(
    alloc: Global,
    source: &[u8],
    base: &str,
    thing: Thing,
) -> Result<Option<u64>, AllocError>
    requires { IsSome (scheme_of base.now) }
    ensures { IfOk result (λ found. IfSome found (λ at. IsEdge base.now thing source.now at)) }
{
    if source.is_empty() {
        return Ok(None);
    }
    let Some(first) = look(alloc, &source[..0], base, thing)? else {
        return Ok(None);
    };
    match look(alloc, source, base, thing)? {
        Some(_) => Ok(None),
        None => Ok(Some(halve(alloc, source, base, thing, first)?)),
    }
}
