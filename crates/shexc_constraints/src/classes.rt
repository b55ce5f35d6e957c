//! What a rule begins with.

ghost use Rattle.std.specs.Prelude.{◌≡◌};
ghost use Rattle.rdf_cursor.specs.Ahead.{next_is};
ghost use Rattle.rdf_cursor.specs.Cursors.{ahead};
ghost use Rattle.rdf_cursor.specs.Symbols.{is_among};
ghost use Rattle.shexc_constraints.specs.Symbols.{iris, predicates, digit_counts, text_facets, number_facets, all_facets, node_kinds, non_literals, literal_kinds, literal_constraints, references};

use crate::tokens::is_at_one;
use rdf_cursor::{Cursor, Symbol};

/// Whether an IRI is next.
pub fn at_iri(c: &Cursor<'_>) -> bool
    ensures { result ≡ next_is (is_among iris) (ahead c.now) }
{
    is_at_one(c, &[Symbol::IriRef, Symbol::PnameNs, Symbol::PnameLn])
}

/// Whether a predicate is next.
pub fn at_predicate(c: &Cursor<'_>) -> bool
    ensures { result ≡ next_is (is_among predicates) (ahead c.now) }
{
    is_at_one(
        c,
        &[Symbol::A, Symbol::IriRef, Symbol::PnameNs, Symbol::PnameLn],
    )
}

/// Whether a facet on digits is next.
pub fn at_digit_count(c: &Cursor<'_>) -> bool
    ensures { result ≡ next_is (is_among digit_counts) (ahead c.now) }
{
    is_at_one(c, &[Symbol::TotalDigits, Symbol::FractionDigits])
}

/// Whether a facet on texts is next.
pub fn at_text_facet(c: &Cursor<'_>) -> bool
    ensures { result ≡ next_is (is_among text_facets) (ahead c.now) }
{
    is_at_one(
        c,
        &[
            Symbol::Pattern,
            Symbol::Length,
            Symbol::MinLength,
            Symbol::MaxLength,
        ],
    )
}

/// Whether a facet on numbers is next.
pub fn at_number_facet(c: &Cursor<'_>) -> bool
    ensures { result ≡ next_is (is_among number_facets) (ahead c.now) }
{
    is_at_one(
        c,
        &[
            Symbol::TotalDigits,
            Symbol::FractionDigits,
            Symbol::MinInclusive,
            Symbol::MinExclusive,
            Symbol::MaxInclusive,
            Symbol::MaxExclusive,
        ],
    )
}

/// Whether a facet is next.
pub fn at_facet(c: &Cursor<'_>) -> bool
    ensures { result ≡ next_is (is_among all_facets) (ahead c.now) }
{
    at_text_facet(c) || at_number_facet(c)
}

/// Whether a kind of nodes that are no literals is next.
pub fn at_node_kind(c: &Cursor<'_>) -> bool
    ensures { result ≡ next_is (is_among node_kinds) (ahead c.now) }
{
    is_at_one(c, &[Symbol::Iri, Symbol::Bnode, Symbol::NonLiteral])
}

/// Whether a constraint is next that leaves literals out or looks at texts alone.
pub fn at_non_literal(c: &Cursor<'_>) -> bool
    ensures { result ≡ next_is (is_among non_literals) (ahead c.now) }
{
    at_node_kind(c) || at_text_facet(c)
}

/// Whether LITERAL, a datatype or a value set is next.
fn at_literal_kind(c: &Cursor<'_>) -> bool
    ensures { result ≡ next_is (is_among literal_kinds) (ahead c.now) }
{
    is_at_one(c, &[Symbol::Literal, Symbol::OpenBracket]) || at_iri(c)
}

/// Whether another constraint is next.
pub fn at_literal_constraint(c: &Cursor<'_>) -> bool
    ensures { result ≡ next_is (is_among literal_constraints) (ahead c.now) }
{
    at_literal_kind(c) || at_number_facet(c)
}

/// Whether a reference is next.
pub fn at_reference(c: &Cursor<'_>) -> bool
    ensures { result ≡ next_is (is_among references) (ahead c.now) }
{
    is_at_one(c, &[Symbol::AtName, Symbol::At])
}
