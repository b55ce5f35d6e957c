//! Laws of copies and intervals. Each is the contract of a function that does nothing.
ghost use Rattle.tally.specs.Laws.{BoxHoldsCopies, CopiesAdd, CopiesAreDeals, IntervalHasCopies, NothingSpellsZero, OwnSymbolsDecide};

/// The interval of counts has exactly the numbers of copies that they spell.
pub fn interval_has_copies()
    ensures { IntervalHasCopies }
{}

/// Counts spell k copies of an expression exactly where triples with these counts, in whatever order, divide into k
/// parts that each match it (ShEx 2.1 section 5.5). Of a triple only the triple constraint that takes it matters, and
/// each triple constraint stands in the expression once.
pub fn copies_are_deals()
    ensures { CopiesAreDeals }
{}

/// The interval of a box of counts has the numbers of copies that any counts in it spell.
pub fn box_holds_copies()
    ensures { BoxHoldsCopies }
{}

/// Only the counts of an expression's own symbols matter.
pub fn own_symbols_decide()
    ensures { OwnSymbolsDecide }
{}

/// No triples spell no copies.
pub fn nothing_spells_zero()
    ensures { NothingSpellsZero }
{}

/// Copies add up where their counts are added.
pub fn copies_add_up()
    ensures { CopiesAdd }
{}
