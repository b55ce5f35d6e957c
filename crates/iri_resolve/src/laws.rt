//! Laws about the definitions that the contracts cite.

ghost use Rattle.iri_resolve.specs.Removal.{RemovalIsByTheRules};

/// Says that the removal of dot segments, which the contracts state over the segments of a path, is
/// what the buffers and rules of RFC 3986 section 5.2.4 lead to from each path, and all that they do.
pub fn removal_is_by_the_rules()
    ensures { RemovalIsByTheRules }
{}
