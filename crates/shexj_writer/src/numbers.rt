//! The numbers of range facets (ShEx 2.1, section 5.4, XML Schema Numeric Facet Constraints).

ghost use Rattle.std.specs.Prelude.{◌≡◌, ◌≤◌, ◌^◌, IfSome, IsNone, None, Some, if◌then◌else◌, option_map, true};
ghost use Rattle.std.specs.Str.Parse.{digits_value};
ghost use Rattle.serde_json.specs.Find.{of_integer};
ghost use Rattle.serde_json.specs.View.{number_view};
ghost use Rattle.xs_text.specs.Decimal.{is_decimal};
ghost use Rattle.xs_text.specs.Digits.{are_digits, signed};
ghost use Rattle.shexj_writer.specs.Numbers.{are_zeros, is_in_range, whole_number};

use rdf_terms::vocabulary::XSD_DECIMAL;
use serde_json::Number;
use xs_text::{has_minus, lexical_ok, whole_and_fraction};

/// The greatest number of which the negative one is a number of 64 bits.
const MOST_NEGATED: u64 = 9223372036854775808;

/// Whether the text is a decimal (XML Schema Part 2, version 1.1, section 3.3.3).
fn is_decimal(text: &str) -> bool
    ensures { result ≡ is_decimal text.now }
{
    lexical_ok(XSD_DECIMAL, text)
}

/// Whether each digit is 0.
fn are_zeros(digits: &[u8]) -> bool
    ensures { result ≡ are_zeros digits.now }
{
    digits.iter().all(|c| *c == b'0')
}

/// The number that the digits write, if it is below 2^64.
fn magnitude(digits: &[u8]) -> Option<u64>
    requires { are_digits digits.now ≡ true }
    ensures some { IfSome result (λ n. n ≡ digits_value 10 digits.now) }
    ensures none { IsNone result → 2 ^ 64 ≤ digits_value 10 digits.now }
{
    let mut sum: u64 = 0;
    for digit in digits {
        let tens = sum.checked_mul(10)?;
        sum = tens.checked_add(u64::from(*digit - b'0'))?;
    }
    Some(sum)
}

/// The number, or its negative, if it is one from -2^63 to 2^64 - 1.
fn signed_number(is_negative: bool, size: u64) -> Option<Number>
    ensures { option_map number_view result ≡ (if is_in_range (signed is_negative size) then Some (of_integer (signed is_negative size)) else None) }
{
    if !is_negative {
        return Some(Number::from(size));
    }
    if size > MOST_NEGATED {
        return None;
    }
    Some(Number::from((-i128::from(size)) as i64))
}

/// The whole number from -2^63 to 2^64 - 1 that the text stands for as a decimal, if it does.
#[tactic(auto, unfolding(crate::specs::Numbers::is_whole))]
pub(crate) fn whole_number(text: &str) -> Option<Number>
    ensures { option_map number_view result ≡ whole_number text.now }
{
    if !is_decimal(text) {
        return None;
    }
    let bytes = text.as_bytes();
    let (whole, fraction) = whole_and_fraction(bytes);
    if !are_zeros(fraction) {
        return None;
    }
    let size = magnitude(whole)?;
    signed_number(has_minus(bytes), size)
}
