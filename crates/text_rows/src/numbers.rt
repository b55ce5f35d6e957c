//! Decimals: their order, and how many digits they have.

use rdf_terms::vocabulary::XSD_DECIMAL;
use std::alloc::{AllocError, Global};
use std::cmp::Ordering;
use xs_text::{compare_decimals, fraction_digits, lexical_ok, total_digits};

/// How the first of two texts stands to the second as a number.
fn order(one: &str, other: &str) -> &'static str {
    if !lexical_ok(XSD_DECIMAL, one) || !lexical_ok(XSD_DECIMAL, other) {
        return "no decimal";
    }
    match compare_decimals(one, other) {
        Ordering::Less => "less",
        Ordering::Equal => "equal",
        Ordering::Greater => "greater",
    }
}

/// How the first of two texts stands to the second as a number.
pub fn compared(alloc: Global, one: &str, other: &str) -> Result<String, AllocError> {
    String::from_str(alloc, order(one, other))
}

/// How many digits the number of a text has, and how many of them behind the point.
pub fn digits(alloc: Global, text: &str) -> Result<String, AllocError> {
    if !lexical_ok(XSD_DECIMAL, text) {
        return String::from_str(alloc, "no decimal");
    }
    let (total, fraction) = (total_digits(text), fraction_digits(text));
    format!(in alloc; "{total}, {fraction}")
}
