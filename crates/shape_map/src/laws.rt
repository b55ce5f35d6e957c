//! Laws of shape maps, for callers' proofs: each function's contract is a law, and its body is empty.

ghost use Rattle.shape_map.specs.Maps.{MapHasLines, MapsAreOne};

/// The bytes are a map of one list of items at most.
pub fn maps_are_one()
    ensures { MapsAreOne }
{}

/// Under bases and prefixes on one line each node that is written in a map can stand on one line, and no text of a target
/// holds a line feed.
pub fn map_has_lines()
    ensures { MapHasLines }
{}
