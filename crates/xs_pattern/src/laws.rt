//! Laws of the language of patterns. Each is the contract of a function that does nothing.
ghost use Rattle.xs_pattern.specs.Laws.{HoldingIsDecided, PlacesNeverFall, SpellingIsUnique};

/// A pattern holds between two places of a text or it does not.
pub fn holding_is_decided()
    ensures { HoldingIsDecided }
{}

/// A pattern holds only between a place of a text and that place or a later one.
pub fn places_never_fall()
    ensures { PlacesNeverFall }
{}

/// A text spells at most one pattern under given flags.
pub fn spelling_is_unique()
    ensures { SpellingIsUnique }
{}
