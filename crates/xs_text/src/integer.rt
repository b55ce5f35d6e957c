//! Integers of any length, and their ranges (XML Schema Part 2, version 1.1, sections 3.4.13 to 3.4.25).

ghost use Rattle.std.specs.Prelude.{◌≡◌, IsTrue};
ghost use Rattle.xs_text.specs.Decimal.{is_integer, integer_value};
ghost use Rattle.xs_text.specs.Datatype.{is_integer_from, is_integer_to, is_integer_between};

use crate::{decimal, digits};

/// Whether the text is an integer.
pub fn is_integer(text: &[u8]) -> bool
    ensures { result ≡ is_integer text.now }
{
    digits::is_numeral(digits::unsigned_part(text))
}

/// Whether the text is an integer, and not below another.
pub fn is_integer_from(lowest: &[u8], text: &[u8]) -> bool
    requires { IsTrue (is_integer lowest.now) }
    ensures { result ≡ is_integer_from (integer_value lowest.now) text.now }
{
    is_integer(text) && decimal::compare(text, lowest).is_ge()
}

/// Whether the text is an integer, and not above another.
pub fn is_integer_to(highest: &[u8], text: &[u8]) -> bool
    requires { IsTrue (is_integer highest.now) }
    ensures { result ≡ is_integer_to (integer_value highest.now) text.now }
{
    is_integer(text) && decimal::compare(text, highest).is_le()
}

/// Whether the text is an integer from one to another.
pub fn is_integer_between(lowest: &[u8], highest: &[u8], text: &[u8]) -> bool
    requires lowest { IsTrue (is_integer lowest.now) }
    requires highest { IsTrue (is_integer highest.now) }
    ensures { result ≡ is_integer_between (integer_value lowest.now) (integer_value highest.now) text.now }
{
    is_integer_from(lowest, text) && is_integer_to(highest, text)
}
