//! Lines of N-Triples, and their fields.

ghost use Rattle.std.specs.Prelude.{◌≡◌, ◌-◌, IfOk, length, map, take};
ghost use Rattle.std.specs.List.{after_first, before_first, position};
ghost use Rattle.shard_checks.specs.Lines.{is_space, lines_of, object_of, predicate_of, subject_of};

use std::alloc::{AllocError, Global};

/// The lines of a text.
pub(crate) fn lines_of(alloc: Global, text: &[u8]) -> Result<Vec<&[u8]>, AllocError>
    ensures { IfOk result (λ v. map (λ x. x.now) v.items ≡ lines_of text.now) }
{
    text.split(|byte| *byte == b'\n').collect(alloc)
}

/// The fields of a line with a triple.
#[derive(Drop)]
pub(crate) struct Fields<'a> {
    /// The subject.
    pub(crate) subject: &'a [u8],
    /// The predicate.
    pub(crate) predicate: &'a [u8],
    /// The object.
    pub(crate) object: &'a [u8],
}

/// The fields of a line.
pub(crate) fn fields_of(line: &[u8]) -> Fields<'_>
    ensures subject { result.subject.now ≡ subject_of line.now }
    ensures predicate { result.predicate.now ≡ predicate_of line.now }
    ensures object { result.object.now ≡ object_of line.now }
{
    let (subject, behind) = cut(line);
    let (predicate, rest) = cut(behind);
    let object = without_end(rest);
    Fields {
        subject,
        predicate,
        object,
    }
}

/// What stands before and behind the first space; with none, the whole text and nothing.
fn cut(text: &[u8]) -> (&[u8], &[u8])
    ensures before { result.0.now ≡ before_first is_space text.now }
    ensures after { result.1.now ≡ after_first is_space text.now }
{
    match find_space(text) {
        Some(at) => (&text[..at], &text[at + 1..]),
        None => (text, &[]),
    }
}

/// The place of the first space.
fn find_space(text: &[u8]) -> Option<usize>
    ensures { result ≡ position is_space text.now }
{
    text.iter().position(|byte| *byte == b' ')
}

/// The text without its last two bytes.
fn without_end(text: &[u8]) -> &[u8]
    ensures { result.now ≡ take (length text.now - 2) text.now }
{
    &text[..text.len().saturating_sub(2)]
}
