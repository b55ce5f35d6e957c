//! The categories of characters by their names (XML Schema Part 2, version 1.1, section G.4.2.2).
ghost use Rattle.std.specs.Prelude.{◌≡◌, ◌==◌, ◌&&◌, ◌∷◌, [], option_map};
ghost use Rattle.std.specs.List.{find};
ghost use Rattle.xs_pattern.specs.Spelling.{categories, named};

use crate::Kind;
use unicode::properties::{GeneralCategory, GeneralCategoryGroup};

/// The categories whose names have one letter.
const GROUPS: [(char, GeneralCategoryGroup); 7] = [
    ('L', GeneralCategoryGroup::Letter),
    ('M', GeneralCategoryGroup::Mark),
    ('N', GeneralCategoryGroup::Number),
    ('P', GeneralCategoryGroup::Punctuation),
    ('Z', GeneralCategoryGroup::Separator),
    ('S', GeneralCategoryGroup::Symbol),
    ('C', GeneralCategoryGroup::Other),
];

/// The categories whose names have two letters.
const CATEGORIES: [(char, char, GeneralCategory); 29] = [
    ('L', 'u', GeneralCategory::UppercaseLetter),
    ('L', 'l', GeneralCategory::LowercaseLetter),
    ('L', 't', GeneralCategory::TitlecaseLetter),
    ('L', 'm', GeneralCategory::ModifierLetter),
    ('L', 'o', GeneralCategory::OtherLetter),
    ('M', 'n', GeneralCategory::NonspacingMark),
    ('M', 'c', GeneralCategory::SpacingMark),
    ('M', 'e', GeneralCategory::EnclosingMark),
    ('N', 'd', GeneralCategory::DecimalNumber),
    ('N', 'l', GeneralCategory::LetterNumber),
    ('N', 'o', GeneralCategory::OtherNumber),
    ('P', 'c', GeneralCategory::ConnectorPunctuation),
    ('P', 'd', GeneralCategory::DashPunctuation),
    ('P', 's', GeneralCategory::OpenPunctuation),
    ('P', 'e', GeneralCategory::ClosePunctuation),
    ('P', 'i', GeneralCategory::InitialPunctuation),
    ('P', 'f', GeneralCategory::FinalPunctuation),
    ('P', 'o', GeneralCategory::OtherPunctuation),
    ('Z', 's', GeneralCategory::SpaceSeparator),
    ('Z', 'l', GeneralCategory::LineSeparator),
    ('Z', 'p', GeneralCategory::ParagraphSeparator),
    ('S', 'm', GeneralCategory::MathSymbol),
    ('S', 'c', GeneralCategory::CurrencySymbol),
    ('S', 'k', GeneralCategory::ModifierSymbol),
    ('S', 'o', GeneralCategory::OtherSymbol),
    ('C', 'c', GeneralCategory::Control),
    ('C', 'f', GeneralCategory::Format),
    ('C', 'o', GeneralCategory::PrivateUse),
    ('C', 'n', GeneralCategory::Unassigned),
];

/// The group of the letter in the table.
fn listed_group(letter: char) -> Option<GeneralCategoryGroup>
    ensures { result ≡ option_map (λ e. e.1) (find (λ e. e.0 == letter) GROUPS) }
{
    GROUPS
        .iter()
        .find(|entry| entry.0 == letter)
        .map(|entry| entry.1)
}

/// The category of the letters in the table.
fn listed_category(first: char, second: char) -> Option<GeneralCategory>
    ensures { result ≡ option_map (λ e. e.2) (find (λ e. e.0 == first && e.1 == second) CATEGORIES) }
{
    CATEGORIES
        .iter()
        .find(|entry| entry.0 == first && entry.1 == second)
        .map(|entry| entry.2)
}

/// The category whose name is this letter.
pub(crate) fn group(letter: char) -> Option<Kind>
    ensures { result ≡ named categories (letter ∷ []) }
{
    listed_group(letter).map(Kind::Group)
}

/// The category whose name is these two letters.
pub(crate) fn category(first: char, second: char) -> Option<Kind>
    ensures { result ≡ named categories (first ∷ second ∷ []) }
{
    listed_category(first, second).map(Kind::Category)
}
