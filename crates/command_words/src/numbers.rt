//! The numbers of words.

ghost use Rattle.std.specs.Prelude.{ℕ, IfSome, IsNone, option_map};
ghost use Rattle.command_words.specs.Drills.{IsItems};
ghost use Rattle.command_words.specs.Requests.{IsBudget};

use xs_text::unsigned_long;

/// The greatest width of a pair that is looked into where no budget is given.
pub const DEFAULT_BUDGET: u64 = 1_048_576;

/// The greatest budget.
const MAX_BUDGET: u64 = 1_099_511_627_776;

/// The greatest number of items.
const MAX_ITEMS: u64 = 100_000;

/// The budget that an option's value gives, if that is a number within the limits, and the default where there is none.
pub fn budget(value: Option<&str>) -> Option<u64>
    ensures found { IfSome result (IsBudget (option_map (λ s. s.now) value.entry)) }
    ensures missed { IsNone result → (n : ℕ) → ¬ IsBudget (option_map (λ s. s.now) value.entry) n }
{
    let Some(text) = value else {
        return Some(DEFAULT_BUDGET);
    };
    match unsigned_long(text) {
        Some(n) if 1 <= n && n <= MAX_BUDGET => Some(n),
        _ => None,
    }
}

/// The number of items that a word gives, if that is a number within the limits.
pub(crate) fn items(text: &str) -> Option<u32>
    ensures found { IfSome result (IsItems text.now) }
    ensures missed { IsNone result → (n : ℕ) → ¬ IsItems text.now n }
{
    match unsigned_long(text) {
        Some(n) if 1 <= n && n <= MAX_ITEMS => Some(n as u32),
        _ => None,
    }
}
