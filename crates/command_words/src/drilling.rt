//! The words of a drill.

ghost use Rattle.std.specs.Prelude.{◌≡◌, IfErr, IfOk, IfSome, IsNone, map, string_bytes};
ghost use Rattle.clap.specs.Words.{found_of, rows_of};
ghost use Rattle.command_words.specs.Checks.{arguments};
ghost use Rattle.command_words.specs.Drills.{Drill, IsFoundDrill, IsGivenDrill};
ghost use Rattle.command_words.specs.Lent.{Because, drill_of};

use crate::command::Drilling;
use crate::commands::drill;
use crate::error::WordsError;
use crate::matches::{accepted, value_of};
use crate::numbers::items;
use clap::ArgMatches;
use std::alloc::Global;

/// The drill that is asked for, by what `clap` finds, and `None` where that is none.
fn drilling<'a>(matches: &ArgMatches<'a>) -> Option<Drilling<'a>>
    ensures found { IfSome result (λ d. IsGivenDrill (rows_of (found_of matches.now)) (drill_of d)) }
    ensures missed { IsNone result → (d : Drill) → ¬ IsGivenDrill (rows_of (found_of matches.now)) d }
{
    let text = value_of(matches, "items")?;
    let items = items(text)?;
    Some(Drilling {
        items,
        proof: value_of(matches, "proof"),
    })
}

/// What the words behind `drill` ask for.
pub fn read_drill<'a>(alloc: Global, words: &'a [String]) -> Result<Drilling<'a>, WordsError<'a>>
    ensures ok { IfOk result (λ d. IsFoundDrill (map string_bytes words.entry.now) (drill_of d)) }
    ensures fault { IfErr result (Because (λ f. (f ≡ arguments) × ((d : Drill) → ¬ IsFoundDrill (map string_bytes words.entry.now) d))) }
{
    let command = drill(alloc)?;
    let matches = accepted(command, words)?;
    let asked = drilling(&matches);
    drop(matches);
    match asked {
        Some(drilling) => Ok(drilling),
        None => Err(WordsError::Arguments),
    }
}
