//! What names and references stand for.

ghost use Rattle.std.specs.Prelude.{IsSome};
ghost use Rattle.iri_resolve.specs.Reference.{scheme_of};
ghost use Rattle.rdf_lex.specs.Prefixes.{base_of};

use rdf_lex::Prefixes;
use std::alloc::Global;

/// The prefixes and the base in force, which has a scheme (RDF 1.1 Turtle, section 7.1).
#[derive(Drop)]
pub struct Names<'a> {
    /// The allocator of what is read.
    pub alloc: Global,
    /// The prefixes and the base.
    pub prefixes: &'a Prefixes,
    ghost absolute: { IsSome (scheme_of (base_of prefixes.now)) },
}
