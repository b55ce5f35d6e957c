//! What words ask for, before it is checked, by what `clap` finds.

ghost use Rattle.std.specs.Prelude.{◌≡◌, ℕ, IfErr, IfOk, IfSome, IsNone, option_map};
ghost use Rattle.clap.specs.Words.{found_of, rows_of};
ghost use Rattle.command_words.specs.Checks.{arguments};
ghost use Rattle.command_words.specs.Lent.{Because};
ghost use Rattle.tool_words.specs.Lent.{budgeted_of, converting_of, explained_of, scripted_of};
ghost use Rattle.tool_words.specs.Requests.{Budgeted as Limited, Converting as Wanted, Explained as Questioned, IsBudgeted, IsExplained, IsFlag, IsLimit, IsNamed, IsScripted, Scripted as Written};

use crate::call::Converting;
use clap::ArgMatches;
use command_words::matches::{value_of, value_or};
use command_words::numbers::budget;
use command_words::{DEFAULT_BASE, Given, WordsError, read_given};
use std::alloc::Global;

/// What every command of files is given, and a budget.
#[derive(Drop)]
pub struct Budgeted<'a> {
    /// The schema and the data.
    pub given: Given<'a>,
    /// The greatest width of a pair that is looked into.
    pub budget: u64,
}

/// What is given with a script.
#[derive(Drop)]
pub struct Scripted<'a> {
    /// What is given beside it.
    pub budgeted: Budgeted<'a>,
    /// The name of the script's file.
    pub script: &'a str,
}

/// What is given with a map whose answers are to be explained.
#[derive(Drop)]
pub struct Explained<'a> {
    /// What is given beside it.
    pub budgeted: Budgeted<'a>,
    /// The name of the map's file.
    pub map: &'a str,
    /// How much is printed under one line.
    pub limit: u64,
    /// Whether it is printed as JSON.
    pub json: bool,
}

/// How much is printed under one line where nothing is said of it.
const DEFAULT_LIMIT: u64 = 20;

/// The limit that an option's value gives, if that is a number within the limits of budgets, and 20 where there is none.
fn limit(value: Option<&str>) -> Option<u64>
    ensures found { IfSome result (IsLimit (option_map (λ s. s.now) value.entry)) }
    ensures missed { IsNone result → (n : ℕ) → ¬ IsLimit (option_map (λ s. s.now) value.entry) n }
{
    match value {
        None => Some(DEFAULT_LIMIT),
        Some(_) => budget(value),
    }
}

/// Whether a flag is given.
fn is_given(value: Option<&str>) -> bool
    ensures { IsFlag (option_map (λ s. s.now) value.entry) result }
{
    match value {
        Some(text) => text == "true",
        None => false,
    }
}

/// The name of a schema file and its base, and `None` where no file is named.
pub fn read_named<'a>(matches: &ArgMatches<'a>) -> Option<Converting<'a>>
    ensures found { IfSome result (λ c. IsNamed (rows_of (found_of matches.now)) (converting_of c)) }
    ensures missed { IsNone result → (c : Wanted) → ¬ IsNamed (rows_of (found_of matches.now)) c }
{
    let schema = value_of(matches, "schema")?;
    Some(Converting {
        schema,
        schema_base: value_or(matches, "schema-base", DEFAULT_BASE),
    })
}

/// What is given, and the budget. It fails with `Arguments` where the schema or the data have no file, or the budget is no
/// number within its limits.
pub fn read_budgeted<'a>(
    alloc: Global,
    matches: &ArgMatches<'a>,
) -> Result<Budgeted<'a>, WordsError<'a>>
    ensures ok { IfOk result (λ b. IsBudgeted (rows_of (found_of matches.now)) (budgeted_of b)) }
    ensures fault { IfErr result (Because (λ f. (f ≡ arguments) × ((b : Limited) → ¬ IsBudgeted (rows_of (found_of matches.now)) b))) }
{
    let Some(budget) = budget(value_of(matches, "budget")) else {
        return Err(WordsError::Arguments);
    };
    let given = read_given(alloc, matches)?;
    Ok(Budgeted { given, budget })
}

/// What is given with a script. It fails with `Arguments` where the script has no file too.
pub fn read_scripted<'a>(
    alloc: Global,
    matches: &ArgMatches<'a>,
) -> Result<Scripted<'a>, WordsError<'a>>
    ensures ok { IfOk result (λ s. IsScripted (rows_of (found_of matches.now)) (scripted_of s)) }
    ensures fault { IfErr result (Because (λ f. (f ≡ arguments) × ((s : Written) → ¬ IsScripted (rows_of (found_of matches.now)) s))) }
{
    let Some(script) = value_of(matches, "script") else {
        return Err(WordsError::Arguments);
    };
    let budgeted = read_budgeted(alloc, matches)?;
    Ok(Scripted { budgeted, script })
}

/// What is given with a map whose answers are to be explained. It fails with `Arguments` where the map has no file, or the limit
/// is no number within its limits, too.
pub fn read_explained<'a>(
    alloc: Global,
    matches: &ArgMatches<'a>,
) -> Result<Explained<'a>, WordsError<'a>>
    ensures ok { IfOk result (λ e. IsExplained (rows_of (found_of matches.now)) (explained_of e)) }
    ensures fault { IfErr result (Because (λ f. (f ≡ arguments) × ((e : Questioned) → ¬ IsExplained (rows_of (found_of matches.now)) e))) }
{
    let Some(map) = value_of(matches, "map") else {
        return Err(WordsError::Arguments);
    };
    let Some(limit) = limit(value_of(matches, "limit")) else {
        return Err(WordsError::Arguments);
    };
    let budgeted = read_budgeted(alloc, matches)?;
    let json = is_given(value_of(matches, "json"));
    Ok(Explained {
        budgeted,
        map,
        limit,
        json,
    })
}
