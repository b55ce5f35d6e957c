//! Digits, signs and separators in a text.

ghost use Rattle.std.specs.Prelude.{◌≡◌, ◌==◌, ◌<◌, length};
ghost use Rattle.std.specs.List.{before_first, after_first, position};
ghost use Rattle.xs_text.specs.Digits.{are_digits, is_numeral, is_sign, unsigned_part, has_minus};

/// Whether the text has digits alone.
pub fn are_digits(text: &[u8]) -> bool
    ensures { result ≡ are_digits text.now }
{
    text.iter().all(u8::is_ascii_digit)
}

/// Whether the text is one digit or more.
pub fn is_numeral(text: &[u8]) -> bool
    ensures { result ≡ is_numeral text.now }
{
    !text.is_empty() && are_digits(text)
}

/// Whether the text begins with a minus.
pub fn has_minus(text: &[u8]) -> bool
    ensures { result ≡ has_minus text.now }
{
    matches!(text, [b'-', ..])
}

/// The text without one sign at its front.
pub fn unsigned_part(text: &[u8]) -> &[u8]
    ensures { result.now ≡ unsigned_part text.now }
{
    match text {
        [b'+' | b'-', rest @ ..] => rest,
        _ => text,
    }
}

/// The first place of a byte in the text.
fn find(text: &[u8], wanted: u8) -> Option<usize>
    ensures { result ≡ position (λ c. c == wanted) text.now }
{
    text.iter().position(|c| *c == wanted)
}

/// What stands before and behind the first separator; with none, the whole text and nothing.
pub fn split_once(text: &[u8], separator: u8) -> (&[u8], &[u8])
    ensures before { result.0.now ≡ before_first (λ c. c == separator) text.now }
    ensures after { result.1.now ≡ after_first (λ c. c == separator) text.now }
{
    match find(text, separator) {
        Some(at) => (&text[..at], &text[at + 1..]),
        None => (text, &[]),
    }
}
