//! Decimals of any length (XML Schema Part 2, version 1.1, section 3.3.3).

ghost use Rattle.std.specs.Prelude.{◌≡◌, ◌<◌, ◌+◌, ◌-◌, ◌==◌, ◌&&◌, ◌≢◌, ◌↔◌, true, length, drop, take, nat_lt, IsTrue, slice_index};
ghost use Rattle.std.specs.List.{prefix_len, suffix_len};
ghost use Rattle.std.specs.Ordering.{nat_cmp, int_cmp};
ghost use Rattle.xs_text.specs.Digits.{are_digits, has_minus, signed, zero_digit};
ghost use Rattle.xs_text.specs.Decimal.{
  is_decimal,
  whole_part,
  fraction_part,
  significant_whole,
  significant_fraction,
  scaled,
  IsBelow,
  HasSameValue,
  total_digit_count,
  fraction_digit_count,
};

use crate::digits;
use std::cmp::Ordering;

/// Whether the text is a decimal.
pub fn is_decimal(text: &[u8]) -> bool
    ensures { result ≡ is_decimal text.now }
{
    let (whole, fraction) = whole_and_fraction(text);
    digits::are_digits(whole)
        && digits::are_digits(fraction)
        && !(whole.is_empty() && fraction.is_empty())
}

/// The order of the numbers that two decimal texts stand for.
pub fn compare(a: &[u8], b: &[u8]) -> Ordering
    requires a_decimal { IsTrue (is_decimal a.now) }
    requires b_decimal { IsTrue (is_decimal b.now) }
    ensures less { (result ≡ Ordering.Less) ↔ IsBelow a.now b.now }
    ensures equal { (result ≡ Ordering.Equal) ↔ HasSameValue a.now b.now }
    ensures greater { (result ≡ Ordering.Greater) ↔ IsBelow b.now a.now }
{
    Decimal::new(a).compare(&Decimal::new(b))
}

/// How many digits the number of a decimal text has, at least 1.
pub fn total_digits(text: &[u8]) -> u64
    requires { IsTrue (is_decimal text.now) }
    ensures { result ≡ total_digit_count text.now }
{
    let number = Decimal::new(text);
    (number.whole.len() + number.fraction.len()).max(1) as u64
}

/// How many digits the number of a decimal text has behind the point.
pub fn fraction_digits(text: &[u8]) -> u64
    requires { IsTrue (is_decimal text.now) }
    ensures { result ≡ fraction_digit_count text.now }
{
    Decimal::new(text).fraction.len() as u64
}

/// What stands before and behind the point of a text, without its sign; with no point, all of it and nothing.
pub fn whole_and_fraction(text: &[u8]) -> (&[u8], &[u8])
    ensures whole { result.0.now ≡ whole_part text.now }
    ensures fraction { result.1.now ≡ fraction_part text.now }
{
    digits::split_once(digits::unsigned_part(text), b'.')
}

/// The digits without the zeros at their front.
fn without_leading_zeros(digits: &[u8]) -> &[u8]
    requires { IsTrue (are_digits digits.now) }
    ensures value { result.now ≡ drop (prefix_len (λ c. c == zero_digit) digits.now) digits.now }
    ensures digits { IsTrue (are_digits result.now) }
    ensures first { 0 < length result.now → slice_index result.now 0 ≢ zero_digit }
{
    let zeros = digits.iter().take_while(|digit| **digit == b'0').count();
    &digits[zeros..]
}

/// The digits without the zeros at their end.
fn without_trailing_zeros(digits: &[u8]) -> &[u8]
    requires { IsTrue (are_digits digits.now) }
    ensures value { result.now
        ≡ take (length digits.now - suffix_len (λ c. c == zero_digit) digits.now) digits.now }
    ensures digits { IsTrue (are_digits result.now) }
    ensures last { 0 < length result.now → slice_index result.now (length result.now - 1) ≢ zero_digit }
{
    let zeros = digits
        .iter()
        .rev()
        .take_while(|digit| **digit == b'0')
        .count();
    &digits[..digits.len() - zeros]
}

/// A decimal number, without the zeros that do not change it. Zero is not negative.
#[derive(Clone, Copy)]
struct Decimal<'a> {
    is_negative: bool,
    whole: &'a [u8],
    fraction: &'a [u8],
    ghost whole_digits: { IsTrue (are_digits whole.now) },
    ghost fraction_digits: { IsTrue (are_digits fraction.now) },
    ghost no_leading_zero: { 0 < length whole.now → slice_index whole.now 0 ≢ zero_digit },
    ghost no_trailing_zero: { 0 < length fraction.now
        → slice_index fraction.now (length fraction.now - 1) ≢ zero_digit },
    ghost zero_is_not_negative: { is_negative ≡ true → 0 < length whole.now + length fraction.now },
}

impl<'a> Decimal<'a> {
    /// The number of a decimal text.
    fn new(text: &'a [u8]) -> Self
        requires { IsTrue (is_decimal text.now) }
        ensures whole { result.whole.now ≡ significant_whole text.now }
        ensures fraction { result.fraction.now ≡ significant_fraction text.now }
        ensures sign { result.is_negative ≡ (has_minus text.now
            && nat_lt 0 (length (significant_whole text.now) + length (significant_fraction text.now))) }
    {
        let (whole, fraction) = whole_and_fraction(text);
        let whole = without_leading_zeros(whole);
        let fraction = without_trailing_zeros(fraction);
        Decimal {
            is_negative: digits::has_minus(text) && !(whole.is_empty() && fraction.is_empty()),
            whole,
            fraction,
        }
    }

    /// The order of two numbers.
    fn compare(&self, other: &Self) -> Ordering
        ensures { result ≡ int_cmp
            (signed self.now.is_negative (scaled self.now.whole.now self.now.fraction.now (length other.now.fraction.now)))
            (signed other.now.is_negative (scaled other.now.whole.now other.now.fraction.now (length self.now.fraction.now))) }
    {
        match (self.is_negative, other.is_negative) {
            (false, false) => self.compare_magnitudes(other),
            (true, true) => other.compare_magnitudes(self),
            (false, true) => Ordering::Greater,
            (true, false) => Ordering::Less,
        }
    }

    /// The order of two numbers without their signs.
    fn compare_magnitudes(&self, other: &Self) -> Ordering
        ensures { result ≡ nat_cmp
            (scaled self.now.whole.now self.now.fraction.now (length other.now.fraction.now))
            (scaled other.now.whole.now other.now.fraction.now (length self.now.fraction.now)) }
    {
        self.whole
            .len()
            .cmp(&other.whole.len())
            .then(self.whole.cmp(&other.whole))
            .then(self.fraction.cmp(&other.fraction))
    }
}
