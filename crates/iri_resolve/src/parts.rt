//! The components of a reference.

ghost use Rattle.std.specs.Prelude.{◌≡◌, ◌<◌};
ghost use Rattle.std.specs.List.{list_all};
ghost use Rattle.std.specs.Option.{option_copied};
ghost use Rattle.iri_resolve.specs.Text.{before, part_after, from};
ghost use Rattle.iri_resolve.specs.Decomposition.{IsDecomposition};
ghost use Rattle.iri_resolve.specs.Resolution.{text_of};
ghost use Rattle.iri_resolve.specs.Reference.{Components, components_of, components_lent, is_scheme, is_scheme_byte, front_scheme, after_scheme, authority_of, path_of};

/// The components of a reference, lent from its text (RFC 3986 section 3).
#[derive(Clone, Copy, Debug, PartialEq, Eq)]
pub struct Parts<'a> {
    /// What stands before the first `:`, if that is a letter and then letters, digits, `+`, `-` and
    /// `.` (section 3.1).
    pub scheme: Option<&'a str>,
    /// What stands behind `//`, up to the next `/`, `?` or `#` (section 3.2).
    pub authority: Option<&'a str>,
    /// The path, which may be empty (section 3.3).
    pub path: &'a str,
    /// What stands behind the first `?`, up to the `#` (section 3.4).
    pub query: Option<&'a str>,
    /// What stands behind the first `#` (section 3.5).
    pub fragment: Option<&'a str>,
}

/// Cuts a reference into its components (RFC 3986 section 3 and appendix B). Every text is one: it
/// never fails.
pub fn split(text: &str) -> Parts<'_>
    ensures parts { components_lent result ≡ components_of text.now }
    ensures whole { text_of (components_lent result) ≡ text.now }
    ensures decomposition { IsDecomposition text.now (components_lent result) }
    ensures unique { (c : Components) → IsDecomposition text.now c → c ≡ components_lent result }
{
    let (whole, fragment) = cut(text, '#');
    let (front, query) = cut(whole, '?');
    let (scheme, hierarchy) = cut_scheme(front);
    let (authority, path) = cut_authority(hierarchy);
    Parts {
        scheme,
        authority,
        path,
        query,
        fragment,
    }
}

/// What stands before the first `mark`, and behind it if there is one.
fn cut(text: &str, mark: char) -> (&str, Option<&str>)
    requires { mark < 128 }
    ensures before { result.0.now ≡ before mark text.now }
    ensures after { option_copied result.1 ≡ part_after mark text.now }
{
    match text.split_once(mark) {
        Some((front, rest)) => (front, Some(rest)),
        None => (text, None),
    }
}

/// The scheme, and what follows it.
fn cut_scheme(front: &str) -> (Option<&str>, &str)
    ensures scheme { option_copied result.0 ≡ front_scheme front.now }
    ensures rest { result.1.now ≡ after_scheme front.now }
{
    match front.split_once(':') {
        Some((name, rest)) if is_scheme(name) => (Some(name), rest),
        _ => (None, front),
    }
}

/// Whether a text may be a scheme.
fn is_scheme(name: &str) -> bool
    ensures { result ≡ is_scheme name.now }
{
    match name.as_bytes().split_first() {
        Some((first, rest)) => first.is_ascii_alphabetic() && may_follow_in_scheme(rest),
        None => false,
    }
}

/// Whether bytes may follow the first one of a scheme.
fn may_follow_in_scheme(bytes: &[u8]) -> bool
    ensures { result ≡ list_all is_scheme_byte bytes.now }
{
    bytes.iter().all(|byte| is_scheme_byte(*byte))
}

/// Whether a byte may follow the first one of a scheme.
fn is_scheme_byte(byte: u8) -> bool
    ensures { result ≡ is_scheme_byte byte }
{
    byte.is_ascii_alphanumeric() || byte == b'+' || byte == b'-' || byte == b'.'
}

/// The authority, and the path that follows it.
fn cut_authority(hierarchy: &str) -> (Option<&str>, &str)
    ensures authority { option_copied result.0 ≡ authority_of hierarchy.now }
    ensures path { result.1.now ≡ path_of hierarchy.now }
{
    match hierarchy.strip_prefix("//") {
        Some(rest) => {
            let (authority, path) = cut_before(rest, '/');
            (Some(authority), path)
        }
        None => (None, hierarchy),
    }
}

/// What stands before the first `mark`, and the text from it on.
fn cut_before(text: &str, mark: char) -> (&str, &str)
    requires { mark < 128 }
    ensures front { result.0.now ≡ before mark text.now }
    ensures rest { result.1.now ≡ from mark text.now }
{
    text.split_at(text.find(mark).unwrap_or(text.len()))
}
