//! What `clap` finds in words.

ghost use Rattle.std.specs.Prelude.{◌≡◌, ◌≢◌, ◌∷◌, IfErr, IfOk, IfSome, IsNone, List, [], map, option_map, string_bytes, unwrap_or};
ghost use Rattle.clap.specs.Words.{Text, all_of, app_of, first_of, found_of, rows_of};
ghost use Rattle.command_words.specs.Checks.{arguments};
ghost use Rattle.command_words.specs.Commands.{IsCovered, faults, rows};
ghost use Rattle.command_words.specs.Lent.{Because};

use crate::error::WordsError;
use clap::error::ErrorKind;
use clap::{ArgMatches, Command};
use std::alloc::{AllocError, Global};

/// The words behind a command's name, if the first one is that.
pub fn words_behind<'a>(words: &'a [String], name: &str) -> Option<&'a [String]>
    ensures found { IfSome result (λ b. map string_bytes words.entry.now ≡ name.now ∷ map string_bytes b.now) }
    ensures missed { IsNone result → (behind : List Text) → map string_bytes words.entry.now ≢ name.now ∷ behind }
{
    let [first, behind @ ..] = words else {
        return None;
    };
    if first.as_str() == name {
        Some(behind)
    } else {
        None
    }
}

/// What the command finds in the words, or `None` where `clap` refuses them.
pub fn matches_of<'a>(
    command: Command<'a>,
    words: &'a [String],
) -> Result<Option<ArgMatches<'a>>, WordsError<'a>>
    requires { IsCovered (app_of command) }
    ensures some { IfOk result (λ o. IfSome o (λ m. (faults (app_of command.entry) (map string_bytes words.entry.now) ≡ []) × (rows_of (found_of m) ≡ rows (app_of command.entry) (map string_bytes words.entry.now)))) }
    ensures none { IfOk result (λ o. IsNone o → faults (app_of command.entry) (map string_bytes words.entry.now) ≢ []) }
    ensures err { IfErr result (λ e. e ≡ WordsError.Memory) }
{
    match command.try_get_matches_from(words) {
        Ok(matches) => Ok(Some(matches)),
        Err(error) => match error.kind() {
            ErrorKind::OutOfMemory => Err(WordsError::Memory),
            _ => Ok(None),
        },
    }
}

/// What the command finds in the words. It fails with `Arguments` where `clap` refuses them.
pub(crate) fn accepted<'a>(
    command: Command<'a>,
    words: &'a [String],
) -> Result<ArgMatches<'a>, WordsError<'a>>
    requires { IsCovered (app_of command) }
    ensures ok { IfOk result (λ m. (faults (app_of command.entry) (map string_bytes words.entry.now) ≡ []) × (rows_of (found_of m) ≡ rows (app_of command.entry) (map string_bytes words.entry.now))) }
    ensures fault { IfErr result (Because (λ f. (f ≡ arguments) × (faults (app_of command.entry) (map string_bytes words.entry.now) ≢ []))) }
{
    match matches_of(command, words)? {
        Some(matches) => Ok(matches),
        None => Err(WordsError::Arguments),
    }
}

/// The value of an option, if it is given.
pub fn value_of<'a>(matches: &ArgMatches<'a>, name: &str) -> Option<&'a str>
    ensures { option_map (λ s. s.now) result ≡ first_of name.now (rows_of (found_of matches.now)) }
{
    matches.get_str(name)
}

/// The value of an option, or this one where none is given.
pub fn value_or<'a>(matches: &ArgMatches<'a>, name: &str, default: &'a str) -> &'a str
    ensures { result.now ≡ unwrap_or (first_of name.now (rows_of (found_of matches.now))) default.entry.now }
{
    match value_of(matches, name) {
        Some(value) => value,
        None => default,
    }
}

/// All values of an argument.
pub fn values_of<'a>(
    alloc: Global,
    matches: &ArgMatches<'a>,
    name: &str,
) -> Result<Vec<&'a str>, AllocError>
    ensures { IfOk result (λ v. map (λ s. s.now) v.items ≡ unwrap_or (all_of name.now (rows_of (found_of matches.now))) []) }
{
    match matches.get_strs(name) {
        Some(values) => {
            let all = values.to_vec(alloc)?;
            Ok(all)
        }
        None => Ok(Vec::new(alloc)),
    }
}
