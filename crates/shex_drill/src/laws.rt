//! Laws of the texts of a drill: each function's contract is a law, and its body is empty.

ghost use Rattle.shex_drill.specs.Graph.{GraphIsDocument};
ghost use Rattle.shex_drill.specs.Map.{MapIsOfItem};
ghost use Rattle.shex_drill.specs.Schema.{SchemaIsDocument};

/// The data are a document in Turtle, whose triples are those of the items.
pub fn graph_is_document()
    ensures { GraphIsDocument }
{}

/// The map is of one item: what has a tag is to be an item.
pub fn map_is_of_item()
    ensures { MapIsOfItem }
{}

/// The schema is a document in ShExC: an item leads to items alone, and has one tag, of 1, 2 or 3.
pub fn schema_is_document()
    ensures { SchemaIsDocument }
{}
