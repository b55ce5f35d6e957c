//! What the lines of a script begin with.

ghost use Rattle.std.specs.Prelude.{ℕ, List, ◌≡◌, ◌≢◌, ◌∷◌, MatchOption};
ghost use Rattle.session_script.specs.Scripts.{character};
ghost use Rattle.session_script.specs.declared.signs.Sign.{Sign};

/// The character that a line with a command begins with.
#[derive(Clone, Copy, Debug, PartialEq, Eq)]
pub enum Sign {
    /// `+`, of a triple that is added.
    Plus,
    /// `-`, of a triple that is removed.
    Minus,
    /// `?`, of a question.
    Question,
}

/// The sign that a line begins with, and what stands behind it; `None` where it begins with none.
pub(crate) fn split_sign(line: &str) -> Option<(Sign, &str)>
    ensures { MatchOption result ((s : Sign) (behind : List ℕ) → line.now ≢ character s ∷ behind) (λ x. line.now ≡ character x.0 ∷ x.1.now) }
{
    if let Some(behind) = line.strip_prefix('+') {
        return Some((Sign::Plus, behind));
    }
    if let Some(behind) = line.strip_prefix('-') {
        return Some((Sign::Minus, behind));
    }
    match line.strip_prefix('?') {
        Some(behind) => Some((Sign::Question, behind)),
        None => None,
    }
}
