//! The laws of loading. Each function claims some of them by its contract, and does nothing when called.

ghost use Rattle.schema_load.specs.Laws.{EachIsHeld, OneEntryEach, OneRefusal, OneSchema, OrderedParts, StandingIsLoaded};

/// Claims that documents stand for one schema at most, which has one entry for each of their expressions that is no
/// reference (ShEx 2.1, section 5.1).
pub fn documents_stand_for_one()
    ensures one { OneSchema }
    ensures entries { OneEntryEach }
{}

/// Claims that documents are refused for one cause.
pub fn refusal_is_one()
    ensures { OneRefusal }
{}

/// Claims that the schema that documents stand for keeps the rules of loaded schemas (ShEx 2.1, section 5.7).
pub fn standing_is_loaded()
    ensures { StandingIsLoaded }
{}

/// Claims that each part of documents is held by a declaration or by the start.
pub fn parts_are_held()
    ensures { EachIsHeld }
{}

/// Claims that no minimum of the parts of documents is above its bound where none of the documents is (ShEx 2.1, section 5.5).
pub fn parts_are_ordered()
    ensures { OrderedParts }
{}
