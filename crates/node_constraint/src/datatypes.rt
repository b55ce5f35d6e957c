//! Datatypes of literals, and the forms of numbers.

ghost use Rattle.std.specs.Prelude.{◌≡◌, ◌↔◌, ◌<◌, ◌&&◌, IsTrue, encode_utf8_all};
ghost use Rattle.std.specs.Option.{ForSome, option_copied};
ghost use Rattle.xs_text.specs.Datatype.{is_scientific};
ghost use Rattle.xs_text.specs.Decimal.{is_decimal, is_integer};
ghost use Rattle.node_constraint.specs.Datatypes.{IsOfDatatypeIfAny, decimal_in, decimal_of, is_number, is_numeric, is_valid};
ghost use Rattle.node_constraint.specs.Making.{IsFloat, has_exponent, is_double};
ghost use Rattle.node_constraint.specs.Held.{is_ascii, is_numeric_name};

use rdf_terms::terms::{Literal, Term};
use rdf_terms::text::Text;
use rdf_terms::vocabulary::{XSD_DECIMAL, XSD_DOUBLE, XSD_FLOAT, XSD_INTEGER, XSD_NAMESPACE};
use xs_text::lexical_ok;

/// Whether the term is a literal of the datatype with a valid lexical form, if a datatype is asked for (ShEx 2.1, section
/// 5.4, Datatype Constraints).
pub(crate) fn is_of_datatype(datatype: Option<&Text>, term: &Term) -> bool
    ensures { IsTrue result ↔ IsOfDatatypeIfAny (option_copied datatype.entry) term.now }
{
    match (datatype, term) {
        (None, _) => true,
        (Some(datatype), Term::Lit(literal)) => is_literal_of(datatype, literal),
        _ => false,
    }
}

/// Whether the literal is of the datatype, and its lexical form is valid.
fn is_literal_of(datatype: &Text, literal: &Literal) -> bool
    ensures { IsTrue result ↔ ((literal.now.datatype ≡ datatype.now) × IsTrue (is_valid datatype.now literal.now.lex)) }
{
    literal.datatype() == datatype && is_valid(datatype, literal.lex())
}

/// Whether the lexical form is in the lexical space of the datatype.
fn is_valid(datatype: &Text, lex: &Text) -> bool
    ensures { result ≡ is_valid datatype.now lex.now }
{
    lexical_ok(datatype.as_str(), lex.as_str())
}

/// The lexical form, if the term is a literal whose values are decimals and whose lexical form is valid.
pub(crate) fn decimal_of(term: &Term) -> Option<&str>
    ensures value { option_copied result ≡ decimal_of term.now }
    ensures decimal { ForSome (option_copied result) (λ d. IsTrue (is_decimal d)) }
{
    match term {
        Term::Lit(literal) => decimal_in(literal),
        _ => None,
    }
}

/// The lexical form of a literal, if its values are decimals and its lexical form is valid.
fn decimal_in(literal: &Literal) -> Option<&str>
    ensures value { option_copied result ≡ decimal_in literal.now }
    ensures decimal { ForSome (option_copied result) (λ d. IsTrue (is_decimal d)) }
{
    if is_number(literal) {
        Some(literal.lex().as_str())
    } else {
        None
    }
}

/// Whether the values of the literal's datatype are decimals, and its lexical form is valid.
fn is_number(literal: &Literal) -> bool
    ensures { result ≡ is_number literal.now }
{
    is_numeric(literal.datatype().as_str()) && is_valid(literal.datatype(), literal.lex())
}

/// Whether the IRI is that of decimal, of integer or of a type derived from integer.
fn is_numeric(datatype: &str) -> bool
    ensures { result ≡ is_numeric datatype.now }
{
    match datatype.strip_prefix(XSD_NAMESPACE) {
        Some(name) => is_numeric_name(name),
        None => false,
    }
}

/// Whether a name in the namespace is that of such a datatype.
fn is_numeric_name(name: &str) -> bool
    ensures { result ≡ is_numeric_name name.now }
{
    matches!(
        name,
        "decimal"
            | "integer"
            | "nonPositiveInteger"
            | "negativeInteger"
            | "long"
            | "int"
            | "short"
            | "byte"
            | "nonNegativeInteger"
            | "unsignedLong"
            | "unsignedInt"
            | "unsignedShort"
            | "unsignedByte"
            | "positiveInteger"
    )
}

/// Whether the datatype is xsd:float or xsd:double.
pub(crate) fn is_float(datatype: Option<&Text>) -> bool
    ensures { IsTrue result ↔ IsFloat (option_copied datatype.entry) }
{
    match datatype {
        Some(datatype) => is_iri(datatype, XSD_FLOAT) || is_iri(datatype, XSD_DOUBLE),
        None => false,
    }
}

/// Whether the text is this IRI of ASCII characters.
fn is_iri(text: &Text, iri: &str) -> bool
    requires { IsTrue (is_ascii iri.now) }
    ensures { IsTrue result ↔ (text.now ≡ iri.now) }
{
    text.as_str() == iri
}

/// Whether the text has the form of a decimal.
pub(crate) fn is_decimal(text: &Text) -> bool
    ensures { result ≡ is_decimal (encode_utf8_all text.now) }
{
    is_decimal_text(text.as_str())
}

/// Whether the text has the form of a floating-point number with an exponent (RDF 1.1 Turtle, section 6.5, DOUBLE).
pub(crate) fn is_double(text: &Text) -> bool
    ensures { result ≡ is_double text.now }
{
    has_exponent(text.as_str())
}

/// Whether the text is a decimal and an integer with `e` or `E` between them.
fn has_exponent(text: &str) -> bool
    ensures { result ≡ has_exponent text.now }
{
    is_scientific('e', text) || is_scientific('E', text)
}

/// Whether the text is a decimal and an integer with the letter between them.
fn is_scientific(letter: char, text: &str) -> bool
    requires { letter < 128 }
    ensures { result ≡ is_scientific letter text.now }
{
    match text.split_once(letter) {
        Some((mantissa, exponent)) => are_scientific(mantissa, exponent),
        None => false,
    }
}

/// Whether the texts are a decimal and an integer.
fn are_scientific(mantissa: &str, exponent: &str) -> bool
    ensures { result ≡ (is_decimal mantissa.now && is_integer exponent.now) }
{
    is_decimal_text(mantissa) && is_integer_text(exponent)
}

/// Whether the text is a decimal.
fn is_decimal_text(text: &str) -> bool
    ensures { result ≡ is_decimal text.now }
{
    lexical_ok(XSD_DECIMAL, text)
}

/// Whether the text is an integer.
fn is_integer_text(text: &str) -> bool
    ensures { result ≡ is_integer text.now }
{
    lexical_ok(XSD_INTEGER, text)
}
