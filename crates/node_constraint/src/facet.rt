//! The facets of a node constraint.

ghost use Rattle.std.specs.Prelude.{◌≡◌, ◌↔◌, IsTrue, IsSomeAnd, length, true};
ghost use Rattle.std.specs.Option.{ForSome, option_copied};
ghost use Rattle.std.specs.Str.{chars};
ghost use Rattle.xs_text.specs.Decimal.{IsBelow, is_decimal};
ghost use Rattle.node_constraint.specs.Facets.{IsAtMost};

use crate::datatypes::{is_decimal, is_double};
use rdf_terms::text::Text;
use xs_text::{compare_decimals, fraction_digits, total_digits};

/// A facet of XML Schema that a node constraint can ask for (ShEx 2.1, section 5.4, XML Schema String Facet Constraints
/// and XML Schema Numeric Facet Constraints). Lengths count characters; values of ranges are decimals.
#[derive(Debug, Drop)]
pub enum Facet {
    /// The text has this length.
    Length(u32),
    /// The text has at least this length.
    MinLength(u32),
    /// The text has at most this length.
    MaxLength(u32),
    /// The number is at least this one.
    MinInclusive(Text),
    /// The number is above this one.
    MinExclusive(Text),
    /// The number is at most this one.
    MaxInclusive(Text),
    /// The number is below this one.
    MaxExclusive(Text),
    /// The number has at most so many digits.
    TotalDigits(u32),
    /// The number has at most so many digits behind the point.
    FractionDigits(u32),
    /// This pattern, under these flags, is found in the text.
    Pattern(Text, Text),
}

impl Facet {
    ghost use Rattle.node_constraint.specs.Making.{IsNumeric, is_double, range_value};
    ghost use Rattle.node_constraint.specs.Held.{IsOnFloats, SatLength, SatNumber, SatPlain, is_comparable};

    /// The value of a range facet.
    fn range_value(&self) -> Option<&Text>
        ensures { option_copied result ≡ range_value self.now }
    {
        match self {
            Facet::MinInclusive(value)
            | Facet::MinExclusive(value)
            | Facet::MaxInclusive(value)
            | Facet::MaxExclusive(value) => Some(value),
            _ => None,
        }
    }

    /// Whether it is a range facet or one on digits.
    fn is_numeric(&self) -> bool
        ensures { IsTrue result ↔ IsNumeric self.now }
    {
        match self {
            Facet::Length(_) | Facet::MinLength(_) | Facet::MaxLength(_) | Facet::Pattern(..) => {
                false
            }
            _ => true,
        }
    }

    /// Whether a range value has the form of a floating-point number.
    fn has_double(&self) -> bool
        ensures { IsTrue result ↔ IsSomeAnd (range_value self.now) (λ value. IsTrue (is_double value)) }
    {
        match self.range_value() {
            Some(value) => is_double(value),
            None => false,
        }
    }

    /// Whether it is about floating-point numbers, where it stands beside their datatypes or not.
    #[tactic(auto, unfolding(crate::specs::Held::IsOnFloats))]
    pub(crate) fn is_on_floats(&self, is_beside_float: bool) -> bool
        ensures { IsTrue result ↔ IsOnFloats is_beside_float self.now }
    {
        self.has_double() || (is_beside_float && self.is_numeric())
    }

    /// Whether a range value, if it has one, is a decimal.
    pub(crate) fn is_comparable(&self) -> bool
        ensures { result ≡ is_comparable self.now }
    {
        match self.range_value() {
            Some(value) => is_decimal(value),
            None => true,
        }
    }

    /// Whether it holds for the text and for the decimal text, if there is one. Patterns are left aside.
    pub(crate) fn holds(&self, text: &str, decimal: Option<&str>) -> bool
        requires comparable { IsTrue (is_comparable self.now) }
        requires decimal { ForSome (option_copied decimal) (λ d. IsTrue (is_decimal d)) }
        ensures { IsTrue result ↔ SatPlain self.now (chars text.now) (option_copied decimal.entry) }
    {
        match decimal {
            Some(number) => self.holds_beside(text, number),
            None => self.holds_without(text),
        }
    }

    /// Whether it holds for the text and for the decimal text beside it.
    fn holds_beside(&self, text: &str, number: &str) -> bool
        requires comparable { IsTrue (is_comparable self.now) }
        requires decimal { IsTrue (is_decimal number.now) }
        ensures { IsTrue result ↔ (SatLength self.now (chars text.now) × SatNumber self.now number.now) }
    {
        self.holds_of_text(text) && self.holds_of_number(number)
    }

    /// Whether it holds for the text where no decimal text stands beside it: then a facet on numbers does not.
    fn holds_without(&self, text: &str) -> bool
        ensures { IsTrue result ↔ (SatLength self.now (chars text.now) × (¬ IsNumeric self.now)) }
    {
        self.holds_of_text(text) && !self.is_numeric()
    }

    /// Whether it holds for the text, if it is a facet on lengths.
    fn holds_of_text(&self, text: &str) -> bool
        ensures { IsTrue result ↔ SatLength self.now (chars text.now) }
    {
        match self {
            Facet::Length(n) => character_count(text) == *n as usize,
            Facet::MinLength(n) => character_count(text) >= *n as usize,
            Facet::MaxLength(n) => character_count(text) <= *n as usize,
            _ => true,
        }
    }

    /// Whether it holds for the decimal text, if it is a facet on numbers.
    fn holds_of_number(&self, number: &str) -> bool
        requires comparable { IsTrue (is_comparable self.now) }
        requires decimal { IsTrue (is_decimal number.now) }
        ensures { IsTrue result ↔ SatNumber self.now number.now }
    {
        match self {
            Facet::MinInclusive(bound) => is_at_most(bound.as_str(), number),
            Facet::MinExclusive(bound) => is_below(bound.as_str(), number),
            Facet::MaxInclusive(bound) => is_at_most(number, bound.as_str()),
            Facet::MaxExclusive(bound) => is_below(number, bound.as_str()),
            Facet::TotalDigits(n) => total_digits(number) <= u64::from(*n),
            Facet::FractionDigits(n) => fraction_digits(number) <= u64::from(*n),
            _ => true,
        }
    }
}

/// How many characters the text has.
fn character_count(text: &str) -> usize
    ensures { result ≡ length (chars text.now) }
{
    text.chars().count()
}

/// Whether the first number is below the second.
fn is_below(a: &str, b: &str) -> bool
    requires a_decimal { IsTrue (is_decimal a.now) }
    requires b_decimal { IsTrue (is_decimal b.now) }
    ensures { IsTrue result ↔ IsBelow a.now b.now }
{
    compare_decimals(a, b).is_lt()
}

/// Whether the first number is at most the second.
fn is_at_most(a: &str, b: &str) -> bool
    requires a_decimal { IsTrue (is_decimal a.now) }
    requires b_decimal { IsTrue (is_decimal b.now) }
    ensures { IsTrue result ↔ IsAtMost a.now b.now }
{
    compare_decimals(a, b).is_le()
}
