//! Pairs in the order of the texts of their nodes, and then of their Shapes.

ghost use Rattle.std.specs.Prelude.{◌≡◌};
ghost use Rattle.demand.specs.Orders.{compare_pairs};

use rdf_terms::order::compare_ids;
use rdf_terms::table::TermTable;
use schema_tree::schema::Pair;
use std::cmp::Ordering;

/// Compares two pairs by the texts of their nodes, and then by their Shapes.
pub fn compare_pairs(terms: &TermTable, a: Pair, b: Pair) -> Ordering
    ensures { result ≡ compare_pairs terms.now a b }
{
    match compare_ids(terms, a.node, b.node) {
        Ordering::Equal => a.shape.0.cmp(&b.shape.0),
        other => other,
    }
}
