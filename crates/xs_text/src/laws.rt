//! Laws of the definitions, for callers' proofs: each function's contract is a law, and its body is empty.

ghost use Rattle.xs_text.specs.Laws.{
  DecimalsAreSpelled,
  DateTimesAreSpelled,
  OrderIsTotal,
  OrderIsStrict,
  OrderIsTransitive,
  OrderIsOfValues,
  OrderIsDecided,
  SameValueIsReflexive,
  SameValueIsSymmetric,
  SameValueIsTransitive,
  IntegersAreDecimals,
  NumericTextsAreDecimals,
  TotalDigitsAreLeast,
  FractionDigitsAreLeast,
};

/// The tests of decimal and of dateTime texts are the grammars of XML Schema Part 2, sections 3.3.3 and 3.3.7.
pub fn texts_are_spelled()
    ensures decimals { DecimalsAreSpelled }
    ensures date_times { DateTimesAreSpelled }
{}

/// The order of decimals is a strict total order of their values.
pub fn decimals_are_ordered()
    ensures total { OrderIsTotal }
    ensures strict { OrderIsStrict }
    ensures transitive { OrderIsTransitive }
    ensures of_values { OrderIsOfValues }
    ensures decided { OrderIsDecided }
{}

/// To stand for the same number is an equality of decimal texts.
pub fn same_value_is_equality()
    ensures reflexive { SameValueIsReflexive }
    ensures symmetric { SameValueIsSymmetric }
    ensures transitive { SameValueIsTransitive }
{}

/// Each integer text, and each text of a numeric datatype, is a decimal text.
pub fn numbers_are_decimals()
    ensures integers { IntegersAreDecimals }
    ensures numeric { NumericTextsAreDecimals }
{}

/// The counts of digits are those that XML Schema Part 2 asks for, sections 4.3.11 and 4.3.12.
pub fn digit_counts_are_least()
    ensures total { TotalDigitsAreLeast }
    ensures fraction { FractionDigitsAreLeast }
{}
