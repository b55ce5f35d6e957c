//! Lexical spaces of XML Schema datatypes, and decimals of any length (XML Schema Part 2, version 1.1).
#![tactic(auto)]

mod date_time;
mod decimal;
mod digits;
mod integer;
pub mod laws;
mod unsigned;

ghost use Rattle.std.specs.Prelude.{◌≡◌, ◌↔◌, IsTrue};
ghost use Rattle.xs_text.specs.Decimal.{is_decimal, IsBelow, HasSameValue, total_digit_count, fraction_digit_count};
ghost use Rattle.xs_text.specs.Datatype.{
  is_in_lexical_space,
  passes_test_of,
  lexical_spaces,
  is_boolean,
  is_float,
  is_scientific,
};

pub use decimal::whole_and_fraction;
pub use digits::has_minus;
use std::cmp::Ordering;
pub use unsigned::unsigned_long;

/// The namespace of the datatypes.
const XML_SCHEMA: &str = "http://www.w3.org/2001/XMLSchema#";

/// Whether the text is in the lexical space of the datatype with this IRI (sections 3.3 and 3.4).
///
/// Known are string, boolean, decimal, float, double, dateTime, integer and the twelve integer types below it.
/// Another datatype is not looked into: every text is in its space. White space is not trimmed.
pub fn lexical_ok(datatype: &str, lex: &str) -> bool
    ensures { result ≡ is_in_lexical_space datatype.now lex.now }
{
    match datatype.strip_prefix(XML_SCHEMA) {
        Some(name) => is_of_datatype(name, lex),
        None => true,
    }
}

/// The order of the numbers of two decimal texts (section 3.3.3).
pub fn compare_decimals(a: &str, b: &str) -> Ordering
    requires a_decimal { IsTrue (is_decimal a.now) }
    requires b_decimal { IsTrue (is_decimal b.now) }
    ensures less { (result ≡ Ordering.Less) ↔ IsBelow a.now b.now }
    ensures equal { (result ≡ Ordering.Equal) ↔ HasSameValue a.now b.now }
    ensures greater { (result ≡ Ordering.Greater) ↔ IsBelow b.now a.now }
{
    decimal::compare(a.as_bytes(), b.as_bytes())
}

/// How many digits the number of a decimal text has, at least 1 (section 4.3.11).
///
/// Zeros at the front of the whole part and at the end of the fraction do not count.
pub fn total_digits(lex: &str) -> u64
    requires { IsTrue (is_decimal lex.now) }
    ensures { result ≡ total_digit_count lex.now }
{
    decimal::total_digits(lex.as_bytes())
}

/// How many digits the number of a decimal text has behind the point (section 4.3.12).
///
/// Zeros at the end do not count.
pub fn fraction_digits(lex: &str) -> u64
    requires { IsTrue (is_decimal lex.now) }
    ensures { result ≡ fraction_digit_count lex.now }
{
    decimal::fraction_digits(lex.as_bytes())
}

/// Whether the text is in the lexical space of the datatype with this name in the namespace.
fn is_of_datatype(name: &str, text: &str) -> bool
    ensures { result ≡ passes_test_of lexical_spaces name.now text.now }
{
    let lex = text.as_bytes();
    match name {
        "boolean" => is_boolean(text),
        "decimal" => decimal::is_decimal(lex),
        "float" | "double" => is_float(text),
        "dateTime" => date_time::is_date_time(lex),
        "integer" => integer::is_integer(lex),
        "nonPositiveInteger" => integer::is_integer_to(b"0", lex),
        "negativeInteger" => integer::is_integer_to(b"-1", lex),
        "long" => integer::is_integer_between(b"-9223372036854775808", b"9223372036854775807", lex),
        "int" => integer::is_integer_between(b"-2147483648", b"2147483647", lex),
        "short" => integer::is_integer_between(b"-32768", b"32767", lex),
        "byte" => integer::is_integer_between(b"-128", b"127", lex),
        "nonNegativeInteger" => integer::is_integer_from(b"0", lex),
        "unsignedLong" => integer::is_integer_between(b"0", b"18446744073709551615", lex),
        "unsignedInt" => integer::is_integer_between(b"0", b"4294967295", lex),
        "unsignedShort" => integer::is_integer_between(b"0", b"65535", lex),
        "unsignedByte" => integer::is_integer_between(b"0", b"255", lex),
        "positiveInteger" => integer::is_integer_from(b"1", lex),
        _ => true,
    }
}

/// Whether the text is a truth value (section 3.3.2).
#[tactic(auto, unfolding(crate::specs::Datatype::is_boolean))]
fn is_boolean(text: &str) -> bool
    ensures { result ≡ is_boolean text.now }
{
    matches!(text, "true" | "false" | "1" | "0")
}

/// Whether the text is a floating-point number (sections 3.3.4 and 3.3.5).
#[tactic(auto, unfolding(crate::specs::Datatype::is_float))]
fn is_float(text: &str) -> bool
    ensures { result ≡ is_float text.now }
{
    let lex = text.as_bytes();
    decimal::is_decimal(lex)
        || is_scientific(b'e', lex)
        || is_scientific(b'E', lex)
        || matches!(text, "INF" | "+INF" | "-INF" | "NaN")
}

/// Whether the text is a decimal and an integer with the letter between them.
fn is_scientific(letter: u8, text: &[u8]) -> bool
    ensures { result ≡ is_scientific letter text.now }
{
    let (mantissa, exponent) = digits::split_once(text, letter);
    decimal::is_decimal(mantissa) && integer::is_integer(exponent)
}
