//! Numbers by their canonical forms.

ghost use Rattle.std.specs.Prelude.{◌≡◌, ◌≢◌, ◌<◌, ◌^◌, ℕ, IfSome, IsNone};
ghost use Rattle.std.specs.Fmt.{decimal};

/// The unsigned long whose canonical form the text is: decimal digits without a sign and without zeros in front
/// (section 3.4.21); none where it is that of no number below 2^64.
pub fn unsigned_long(text: &str) -> Option<u64>
    ensures found { IfSome result (λ n. text.now ≡ decimal n) }
    ensures small { IfSome result (λ n. n < 2 ^ 64) }
    ensures missed { IsNone result → (n : ℕ) → n < 2 ^ 64 → text.now ≢ decimal n }
{
    if text.starts_with('+') {
        return None;
    }
    if text.len() > 1 && text.starts_with('0') {
        return None;
    }
    match text.parse() {
        Ok(n) => Some(n),
        Err(_) => None,
    }
}
