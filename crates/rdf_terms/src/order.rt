//! Terms in the order of their texts, and numbers of a table in that of their terms.

ghost use Rattle.std.specs.Prelude.{◌≡◌, ◌++◌, [], codes, get_or, length, take, ◌↔◌, IfSome, IfNone, ◌∷◌, ◌≤◌, ◌⊎◌, slice_get, Contains, OnOk};
ghost use Rattle.std.specs.Cmp.Lexicographic.{slice_cmp};
ghost use Rattle.std.specs.Fmt.{decimal};
ghost use Rattle.std.specs.Iterator.{YieldsFirst, item_count};
ghost use Rattle.std.specs.List.{flat_map};
ghost use Rattle.std.specs.List.Sorted.{IsStrictlySortedBy};
ghost use Rattle.std.specs.Option.{option_copied};
ghost use Rattle.std.specs.Ordering.{nat_cmp};
ghost use Rattle.rdf_terms.specs.Order.{compare_at, text_at};
ghost use Rattle.rdf_terms.specs.Texts.{same_text};
ghost use Rattle.rdf_terms.specs.Vocabulary.{xsd_string};
ghost use Rattle.rdf_terms.specs.TextBytes.{bytes_left, escaped_byte};
ghost use Rattle.rdf_terms.specs.declared.terms.TermId.{TermId as Id};
ghost use Rattle.rdf_terms.specs.Written.{iri_text, literal_text, printed_name, suffix_text, term_text};

use crate::table::TermTable;
use crate::terms::{Literal, Name, Term, TermId};
use crate::text::Text;
use crate::vocabulary::XSD_STRING;
use crate::written::begins_with_anon;
use itoa::Buffer;
use std::alloc::AllocError;
use std::cmp::Ordering;

/// Compares the texts of two terms, a proper prefix first. It takes no memory.
pub fn compare_texts(a: &Term, b: &Term) -> Ordering
    ensures { result ≡ slice_cmp nat_cmp (term_text a.now) (term_text b.now) }
{
    match (a, b) {
        (Term::Iri(one), Term::Iri(other)) => compare_iris(one, other),
        (Term::Iri(_), Term::Blank(_)) => Ordering::Less,
        (Term::Iri(_), Term::Lit(_)) => Ordering::Greater,
        (Term::Blank(_), Term::Iri(_)) => Ordering::Greater,
        (Term::Blank(one), Term::Blank(other)) => compare_names(one, other),
        (Term::Blank(_), Term::Lit(_)) => Ordering::Greater,
        (Term::Lit(_), Term::Iri(_)) => Ordering::Less,
        (Term::Lit(_), Term::Blank(_)) => Ordering::Less,
        (Term::Lit(one), Term::Lit(other)) => compare_literals(one, other),
    }
}

/// Compares two numbers by the texts of their terms, and numbers of one text by their size.
pub fn compare_ids(terms: &TermTable, a: TermId, b: TermId) -> Ordering
    ensures { result ≡ compare_at terms.now a b }
{
    if a.0 == b.0 {
        return Ordering::Equal;
    }
    match compare_texts_at(terms, a, b) {
        Ordering::Equal => a.0.cmp(&b.0),
        other => other,
    }
}

/// Puts numbers into the order of the texts of their terms, each once. A refusal leaves numbers of any order.
pub fn put_in_order(terms: &TermTable, ids: &mut Vec<TermId>) -> Result<(), AllocError>
    ensures sorted { OnOk result (IsStrictlySortedBy (compare_at terms.now) ids.new.items) }
    ensures few { OnOk result (length ids.new.items ≤ length ids.old.items) }
    ensures same { OnOk result ((n : Id) → Contains ids.new.items n ↔ Contains ids.old.items n) }
{
    ids.sort_by(|a, b| compare_ids(terms, *a, *b))?;
    ids.dedup();
    Ok(())
}

/// Compares the texts of two numbers, where a number that is not of the table has none.
fn compare_texts_at(terms: &TermTable, a: TermId, b: TermId) -> Ordering
    ensures { result ≡ slice_cmp nat_cmp (text_at terms.now a) (text_at terms.now b) }
{
    match (term_at(terms, a), term_at(terms, b)) {
        (Some(one), Some(other)) => compare_texts(one, other),
        (Some(_), None) => Ordering::Greater,
        (None, Some(_)) => Ordering::Less,
        (None, None) => Ordering::Equal,
    }
}

/// The term of a number, if it is of the table.
fn term_at(terms: &TermTable, id: TermId) -> Option<&Term>
    ensures { option_copied result ≡ slice_get terms.now id.0 }
{
    if (id.0 as usize) < terms.len() {
        Some(terms.get(id))
    } else {
        None
    }
}

/// Compares the texts of two IRIs.
fn compare_iris(one: &Text, other: &Text) -> Ordering
    ensures { result ≡ slice_cmp nat_cmp (iri_text one.now) (iri_text other.now) }
{
    compare_closed(one.as_str().as_bytes(), other.as_str().as_bytes())
}

/// Compares bytes with `>` behind them: as many as both have, and then what stands behind these.
fn compare_closed(one: &[u8], other: &[u8]) -> Ordering
    ensures { result ≡ slice_cmp nat_cmp (one.now ++ codes ">") (other.now ++ codes ">") }
{
    let both = one.len().min(other.len());
    let (front, rest) = one.split_at(both);
    let (other_front, other_rest) = other.split_at(both);
    front
        .cmp(&other_front)
        .then(compare_rests(rest, other_rest))
}

/// Compares bytes with `>` behind them, where one has none.
fn compare_rests(one: &[u8], other: &[u8]) -> Ordering
    requires { (one.now ≡ []) ⊎ (other.now ≡ []) }
    ensures { result ≡ slice_cmp nat_cmp (one.now ++ codes ">") (other.now ++ codes ">") }
{
    first_or_close(one)
        .cmp(&first_or_close(other))
        .then(one.len().cmp(&other.len()))
}

/// The first byte, and `>` where there is none.
fn first_or_close(bytes: &[u8]) -> u8
    ensures { result ≡ get_or bytes.now 0 62 }
{
    match bytes.first() {
        Some(byte) => *byte,
        None => b'>',
    }
}

/// Compares the printed names of two blank nodes.
fn compare_names(one: &Name, other: &Name) -> Ordering
    ensures { result ≡ slice_cmp nat_cmp (printed_name one.now) (printed_name other.now) }
{
    match (one, other) {
        (Name::Label(one), Name::Label(other)) => compare_labels(one, other),
        (Name::Label(one), Name::Fresh(other)) => compare_to_anonymous(one, other.get()),
        (Name::Fresh(one), Name::Label(other)) => compare_to_anonymous(other, one.get()).reverse(),
        (Name::Fresh(one), Name::Fresh(other)) => compare_digits(one.get(), other.get()),
    }
}

/// Compares the printed names of two labels. These are in the order of the labels, since a mark stands before each that
/// begins with `anon`, and another differs from such a one in its first four bytes.
fn compare_labels(one: &Text, other: &Text) -> Ordering
    ensures { result ≡ slice_cmp nat_cmp (printed_name (Name.Label one.now)) (printed_name (Name.Label other.now)) }
{
    one.as_str().cmp(other.as_str())
}

/// Compares the printed name of a label with that of an anonymous node, whatever its number is.
fn compare_to_anonymous(label: &Text, _number: u32) -> Ordering
    ensures { result ≡ slice_cmp nat_cmp (printed_name (Name.Label label.now)) (printed_name (Name.Fresh _number)) }
{
    if begins_with_anon(label) {
        Ordering::Greater
    } else {
        label.as_str().cmp("anon")
    }
}

/// Compares the digits of two numbers.
fn compare_digits(one: u32, other: u32) -> Ordering
    ensures { result ≡ slice_cmp nat_cmp (decimal one) (decimal other) }
{
    let mut left = Buffer::new();
    let mut right = Buffer::new();
    left.format(one).cmp(right.format(other))
}

/// Compares the texts of two literals: what their lexical forms have in common is passed over, and from there on byte
/// after byte is escaped as it is read.
fn compare_literals(one: &Literal, other: &Literal) -> Ordering
    ensures { result ≡ slice_cmp nat_cmp (literal_text one.now) (literal_text other.now) }
{
    let lexical = one.lex().as_str().as_bytes();
    let other_lexical = other.lex().as_str().as_bytes();
    let same = common_front(lexical, other_lexical);
    let (_, rest) = lexical.split_at(same);
    let (_, other_rest) = other_lexical.split_at(same);
    TextBytes::of(rest, one).cmp(TextBytes::of(other_rest, other))
}

/// How many bytes both begin with.
fn common_front(one: &[u8], other: &[u8]) -> usize
    ensures inside { result ≤ length one.now }
    ensures within { result ≤ length other.now }
    ensures same { take result one.now ≡ take result other.now }
{
    let both = one.len().min(other.len());
    for place in 0..both {
        if one[place] != other[place] {
            return place;
        }
    }
    both
}

/// The bytes of a literal's text that are left: the rest of an escape that has begun, a lexical form that is escaped as it
/// is read, what joins it to a name, that name, and what closes it.
#[derive(Drop)]
struct TextBytes<'a> {
    pending: Option<u8>,
    lexical: &'a [u8],
    joint: &'a [u8],
    name: &'a [u8],
    closing: &'a [u8],
}

impl<'a> TextBytes<'a> {
    /// The end of a lexical form, and what follows the lexical form of the literal.
    fn of(lexical: &'a [u8], literal: &'a Literal) -> TextBytes<'a>
        ensures { bytes_left result ≡ flat_map escaped_byte lexical.entry.now ++ (codes "\"" ++ suffix_text literal.entry.now literal.entry.now.lang) }
    {
        match literal.lang() {
            Some(tag) => TextBytes::quoted(lexical, "\"@", tag.as_str(), ""),
            None if is_string(literal.datatype()) => TextBytes::quoted(lexical, "\"", "", ""),
            None => TextBytes::quoted(lexical, "\"^^<", literal.datatype().as_str(), ">"),
        }
    }

    /// The end of a lexical form, and what follows it.
    fn quoted(lexical: &'a [u8], joint: &'a str, name: &'a str, closing: &'a str) -> TextBytes<'a>
        ensures { bytes_left result ≡ flat_map escaped_byte lexical.entry.now ++ (joint.entry.now ++ (name.entry.now ++ closing.entry.now)) }
    {
        TextBytes {
            pending: None,
            lexical,
            joint: joint.as_bytes(),
            name: name.as_bytes(),
            closing: closing.as_bytes(),
        }
    }
}

impl Iterator for TextBytes<'_> {
    type Item = u8;

    ghost next_gives = { YieldsFirst bytes_left };

    ghost remaining = { item_count bytes_left };

    fn next(&mut self) -> Option<u8> {
        if let Some(byte) = self.pending.take() {
            return Some(byte);
        }
        if let Some(byte) = take_first(&mut self.lexical) {
            self.pending = escape_of(byte);
            return Some(if self.pending.is_some() { b'\\' } else { byte });
        }
        if let Some(byte) = take_first(&mut self.joint) {
            return Some(byte);
        }
        if let Some(byte) = take_first(&mut self.name) {
            return Some(byte);
        }
        take_first(&mut self.closing)
    }
}

/// Whether a datatype is that of plain strings.
pub(crate) fn is_string(datatype: &Text) -> bool
    ensures { result ≡ same_text datatype.now xsd_string }
{
    datatype.as_str() == XSD_STRING
}

/// What stands behind the backslash where a byte of a quoted string is escaped (N-Triples, section 2.3).
pub(crate) fn escape_of(byte: u8) -> Option<u8>
    ensures escaped { IfSome result (λ e. escaped_byte byte ≡ 92 ∷ (e ∷ [])) }
    ensures plain { IfNone result (escaped_byte byte ≡ byte ∷ []) }
{
    match byte {
        b'"' => Some(b'"'),
        b'\\' => Some(b'\\'),
        b'\n' => Some(b'n'),
        b'\r' => Some(b'r'),
        _ => None,
    }
}

/// Takes the first byte off.
fn take_first(bytes: &mut &[u8]) -> Option<u8>
    ensures { YieldsFirst (λ s. s.now) bytes.old result bytes.new }
{
    let (first, rest) = bytes.split_first()?;
    *bytes = rest;
    Some(*first)
}
