//! What a rule begins with.

ghost use Rattle.std.specs.Prelude.{◌≡◌};
ghost use Rattle.rdf_cursor.specs.Ahead.{next_is};
ghost use Rattle.rdf_cursor.specs.Cursors.{ahead};
ghost use Rattle.rdf_cursor.specs.Symbols.{is_among};
ghost use Rattle.shexc_reader.specs.Symbols.{qualifiers, unbraced, shapes_or_references, connectives, units, starts};

use rdf_cursor::{Cursor, Symbol};
use shexc_constraints::tokens::is_at_one;

/// Whether EXTRA or CLOSED is next.
pub fn at_qualifier(c: &Cursor<'_>) -> bool
    ensures { result ≡ next_is (is_among qualifiers) (ahead c.now) }
{
    is_at_one(c, &[Symbol::Extra, Symbol::Closed])
}

/// Whether a Shape with EXTRA or CLOSED, or a reference is next.
pub fn at_unbraced(c: &Cursor<'_>) -> bool
    ensures { result ≡ next_is (is_among unbraced) (ahead c.now) }
{
    is_at_one(
        c,
        &[Symbol::Extra, Symbol::Closed, Symbol::AtName, Symbol::At],
    )
}

/// Whether a Shape or a reference is next.
pub fn at_shape(c: &Cursor<'_>) -> bool
    ensures { result ≡ next_is (is_among shapes_or_references) (ahead c.now) }
{
    is_at_one(
        c,
        &[
            Symbol::OpenBrace,
            Symbol::Extra,
            Symbol::Closed,
            Symbol::AtName,
            Symbol::At,
        ],
    )
}

/// Whether AND or OR is next.
pub fn at_connective(c: &Cursor<'_>) -> bool
    ensures { result ≡ next_is (is_among connectives) (ahead c.now) }
{
    is_at_one(c, &[Symbol::And, Symbol::Or])
}

/// Whether a triple expression is next.
pub fn at_unit(c: &Cursor<'_>) -> bool
    ensures { result ≡ next_is (is_among units) (ahead c.now) }
{
    is_at_one(
        c,
        &[
            Symbol::Ampersand,
            Symbol::Dollar,
            Symbol::OpenParenthesis,
            Symbol::Caret,
            Symbol::A,
            Symbol::IriRef,
            Symbol::PnameNs,
            Symbol::PnameLn,
        ],
    )
}

/// Whether the word of a start is next.
pub fn at_start(c: &Cursor<'_>) -> bool
    ensures { result ≡ next_is (is_among starts) (ahead c.now) }
{
    is_at_one(c, &[Symbol::Start, Symbol::AnyStart])
}
