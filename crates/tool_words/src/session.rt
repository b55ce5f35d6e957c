//! The words of `typing_session`.

ghost use Rattle.std.specs.Prelude.{◌≡◌, IfErr, IfOk, IsErrAnd, MatchResult, map, string_bytes};
ghost use Rattle.command_words.specs.Checks.{Fault};
ghost use Rattle.command_words.specs.Lent.{Because};
ghost use Rattle.tool_words.specs.Asked.{Editing as Asking, IsEditing, IsEditingFault};
ghost use Rattle.tool_words.specs.Lent.{editing_of};

use crate::call::Editing;
use crate::commands::session;
use crate::requests::{Budgeted, Scripted, read_scripted};
use command_words::WordsError;
use command_words::checks::checked_inputs;
use command_words::matches::matches_of;
use std::alloc::Global;

/// What the words ask for, or the first thing that is wrong with them.
fn read_editing<'a>(alloc: Global, words: &'a [String]) -> Result<Editing<'a>, WordsError<'a>>
    ensures ok { IfOk result (λ e. IsEditing (map string_bytes words.entry.now) (editing_of e)) }
    ensures fault { IfErr result (Because (IsEditingFault (map string_bytes words.entry.now))) }
{
    let command = session(alloc)?;
    let Some(matches) = matches_of(command, words)? else {
        return Err(WordsError::Arguments);
    };
    let Scripted { budgeted, script } = read_scripted(alloc, &matches)?;
    let Budgeted { given, budget } = budgeted;
    let inputs = checked_inputs(alloc, given)?;
    Ok(Editing {
        inputs,
        script,
        budget,
    })
}

/// What the words behind the program's name ask of `typing_session`:
/// `--schema F --data F --script F [--budget N] [--schema-base I] [--data-base I] [IRI=FILE ..]`. It fails with the first thing
/// that is wrong with them, in this order: `Arguments`; `Ending` of the schema's name, then of the data's; for each import word
/// in turn `Import` and then `Ending` of its file's name; `Base` of the schema, then of the data.
pub fn read_session<'a>(alloc: Global, words: &'a [String]) -> Result<Editing<'a>, WordsError<'a>>
    ensures asked { IfOk result (λ e. IsEditing (map string_bytes words.entry.now) (editing_of e)) }
    ensures complete { (e : Asking) → IsEditing (map string_bytes words.entry.now) e → MatchResult result (λ d. editing_of d ≡ e) (Because (λ f. ⊥)) }
    ensures refused { IfErr result (Because (IsEditingFault (map string_bytes words.entry.now))) }
    ensures refuses { (f : Fault) → IsEditingFault (map string_bytes words.entry.now) f → IsErrAnd result (Because (λ g. g ≡ f)) }
{
    read_editing(alloc, words)
}
