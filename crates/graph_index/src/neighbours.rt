//! The neighbourhood of a node, lent in place.

use rdf_terms::terms::Triple;
use std::marker::Model;

/// The neighbourhood of a node, which contracts see as a list of triples: those out of it, and then those into it that are no
/// self-loops.
#[derive(Debug, Drop)]
pub struct Neigh<'a> {
    outward: &'a [Triple],
    inward: &'a [Triple],
}

impl<'a> Model for Neigh<'a> {
    ghost use Rattle.std.specs.Prelude.{List, ◌++◌};
    ghost use Rattle.rdf_terms.specs.declared.terms.Triple.{Triple};

    ghost Value = { List Triple };

    ghost view = { λ v. v.outward.now ++ v.inward.now };
}

impl<'a> Neigh<'a> {
    ghost use Rattle.std.specs.Prelude.{◌≡◌, ◌<◌, ◌++◌, Some, length, slice_get};

    /// The two lists of triples, one behind the other.
    pub(crate) fn of(outward: &'a [Triple], inward: &'a [Triple]) -> Neigh<'a>
        ensures { result ≡ outward.entry.now ++ inward.entry.now }
    {
        Neigh { outward, inward }
    }

    /// How many triples the neighbourhood has.
    pub fn len(&self) -> u64
        ensures { result ≡ length self.now }
    {
        self.outward.len() as u64 + self.inward.len() as u64
    }

    /// The triple at a place from 0 on, which is below `len`.
    pub fn at(&self, i: u64) -> &'a Triple
        requires { i < length self.now }
        ensures { slice_get self.now i ≡ Some result.now }
    {
        let i = i as usize;
        if i < self.outward.len() {
            &self.outward[i]
        } else {
            &self.inward[i - self.outward.len()]
        }
    }
}
