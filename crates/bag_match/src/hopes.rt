//! Counts from which no later places lead to a match.

ghost use Rattle.std.specs.Prelude.{◌≡◌, ◌↔◌, ◌<◌, ◌≤◌, ◌+◌, ◌^◌, ℕ, IsTrue, length, slice_index};
ghost use Rattle.schema_tree.specs.Loaded.{BodyOk};
ghost use Rattle.bag_match.specs.Hopes.{IsHopeless};

use crate::dying::spell_never_more;
use schema_tree::schema::Shape;

/// Whether the counts, with any of the numbers beside them added, spell the expression of the Shape once in no way. It takes
/// no memory.
pub fn is_hopeless(shape: &Shape, counts: &[u32], more: &[u32]) -> bool
    requires body { BodyOk shape.now.occs shape.now.body }
    requires few { length shape.now.occs ≤ 256 }
    requires one_each { length counts.now ≡ length shape.now.occs }
    requires beside { length more.now ≡ length shape.now.occs }
    requires small { (i : ℕ) → slice_index counts.now i + slice_index more.now i < 2 ^ 32 }
    ensures { IsTrue result ↔ IsHopeless shape.now.body counts.now more.now }
{
    match &shape.body {
        Some(body) => spell_never_more(body, counts, more),
        None => false,
    }
}
