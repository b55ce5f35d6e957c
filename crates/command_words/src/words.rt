//! The words of a call.

ghost use Rattle.std.specs.Prelude.{◌≡◌, IfErr, IfOk, IsErrAnd, MatchResult, map, string_bytes};
ghost use Rattle.command_words.specs.Asked.{Command as Asking, IsAsked, IsFirstFault};
ghost use Rattle.command_words.specs.Checks.{Fault};
ghost use Rattle.command_words.specs.Drills.{Call as Calling, IsCall, IsFault};
ghost use Rattle.command_words.specs.Lent.{Because, call_of, command_of};

use crate::checks::checked;
use crate::command::{Call, Command};
use crate::drilling::read_drill;
use crate::error::WordsError;
use crate::matches::words_behind;
use crate::requests::read_request;
use std::alloc::Global;

/// What the words behind the program's name ask of files, or the first thing that is wrong with that.
fn read_command<'a>(alloc: Global, words: &'a [String]) -> Result<Command<'a>, WordsError<'a>>
    ensures asked { IfOk result (λ c. IsAsked (map string_bytes words.entry.now) (command_of c)) }
    ensures complete { (c : Asking) → IsAsked (map string_bytes words.entry.now) c → MatchResult result (λ d. command_of d ≡ c) (Because (λ f. ⊥)) }
    ensures refused { IfErr result (Because (IsFirstFault (map string_bytes words.entry.now))) }
    ensures refuses { (f : Fault) → IsFirstFault (map string_bytes words.entry.now) f → IsErrAnd result (Because (λ g. g ≡ f)) }
{
    let request = read_request(alloc, words)?;
    checked(alloc, request)
}

/// What the words behind the program's name ask for. It fails with the first thing that is wrong with them, in this order:
/// `Arguments`; `Ending` of the schema's name, then of the data's; for each import word in turn `Import` and then `Ending` of
/// its file's name; `Base` of the schema, then of the data; `Same` of the proof's name, then of that under which it is to be
/// stored.
pub fn read<'a>(alloc: Global, words: &'a [String]) -> Result<Call<'a>, WordsError<'a>>
    ensures asked { IfOk result (λ c. IsCall (map string_bytes words.entry.now) (call_of c)) }
    ensures complete { (c : Calling) → IsCall (map string_bytes words.entry.now) c → MatchResult result (λ d. call_of d ≡ c) (Because (λ f. ⊥)) }
    ensures refused { IfErr result (Because (IsFault (map string_bytes words.entry.now))) }
    ensures refuses { (f : Fault) → IsFault (map string_bytes words.entry.now) f → IsErrAnd result (Because (λ g. g ≡ f)) }
{
    if let Some(behind) = words_behind(words, "drill") {
        let drilling = read_drill(alloc, behind)?;
        return Ok(Call::Drill(drilling));
    }
    let command = read_command(alloc, words)?;
    Ok(Call::Files(command))
}
