//! The commands as `clap` takes them.

ghost use Rattle.std.specs.Prelude.{◌≡◌, IfOk, codes, false};
ghost use Rattle.clap.specs.Words.{app_of, rule_of, with_rule};
ghost use Rattle.command_words.specs.Commands.{needed, option};
ghost use Rattle.tool_words.specs.Commands.{convert, covers, explain, extents, flag, followed, lines, reached, session};

use clap::{Arg, ArgAction, Command};
use command_words::commands::{bare, needed, option, over_files, rest, with, with_bases};
use std::alloc::{AllocError, Global};

/// The command `convert`.
pub fn convert<'a>(alloc: Global) -> Result<Command<'a>, AllocError>
    ensures { IfOk result (λ c. app_of c ≡ convert) }
{
    let command = with(bare(alloc, "convert"), needed(option(alloc, "schema")))?;
    with(command, option(alloc, "schema-base"))
}

/// The command `extents`.
pub fn extents<'a>(alloc: Global) -> Result<Command<'a>, AllocError>
    ensures { IfOk result (λ c. app_of c ≡ extents) }
{
    let command = over_files(alloc, "extents")?;
    let command = with(command, option(alloc, "budget"))?;
    with_bases(alloc, command)
}

/// An option without a value.
fn flag<'a>(alloc: Global, name: &'a str) -> Arg<'a>
    ensures rule { rule_of result ≡ flag name.entry.now }
    ensures local { result.global ≡ false }
{
    Arg::new(alloc, name).long(name).action(ArgAction::SetTrue)
}

/// The command with, behind its arguments, the options for the map and for the budget.
fn with_map<'a>(alloc: Global, command: Command<'a>) -> Result<Command<'a>, AllocError>
    ensures { IfOk result (λ c. app_of c ≡ with_rule (with_rule (app_of command.entry) (needed (option (codes "map")))) (option (codes "budget"))) }
{
    let command = with(command, needed(option(alloc, "map")))?;
    with(command, option(alloc, "budget"))
}

/// The command with, behind its arguments, the options for how much is printed and for JSON.
fn with_form<'a>(alloc: Global, command: Command<'a>) -> Result<Command<'a>, AllocError>
    ensures { IfOk result (λ c. app_of c ≡ with_rule (with_rule (app_of command.entry) (option (codes "limit"))) (flag (codes "json"))) }
{
    let command = with(command, option(alloc, "limit"))?;
    with(command, flag(alloc, "json"))
}

/// The command `explain`.
pub fn explain<'a>(alloc: Global) -> Result<Command<'a>, AllocError>
    ensures { IfOk result (λ c. app_of c ≡ explain) }
{
    let command = over_files(alloc, "explain")?;
    let command = with_map(alloc, command)?;
    let command = with_form(alloc, command)?;
    with_bases(alloc, command)
}

/// The command `lines`.
pub fn lines<'a>(alloc: Global) -> Result<Command<'a>, AllocError>
    ensures { IfOk result (λ c. app_of c ≡ lines) }
{
    let command = with(bare(alloc, "lines"), needed(option(alloc, "data")))?;
    let command = with(command, option(alloc, "prefix"))?;
    with(command, option(alloc, "data-base"))
}

/// The command `followed`.
pub fn followed<'a>(alloc: Global) -> Result<Command<'a>, AllocError>
    ensures { IfOk result (λ c. app_of c ≡ followed) }
{
    let command = with(bare(alloc, "followed"), needed(option(alloc, "schema")))?;
    let command = with(command, option(alloc, "schema-base"))?;
    with(command, rest(alloc, "imports"))
}

/// The command `reached`.
pub fn reached<'a>(alloc: Global) -> Result<Command<'a>, AllocError>
    ensures { IfOk result (λ c. app_of c ≡ reached) }
{
    let command = over_files(alloc, "reached")?;
    let command = with(command, needed(option(alloc, "map")))?;
    with_bases(alloc, command)
}

/// The command `covers`.
pub fn covers<'a>(alloc: Global) -> Result<Command<'a>, AllocError>
    ensures { IfOk result (λ c. app_of c ≡ covers) }
{
    let command = with(bare(alloc, "covers"), needed(option(alloc, "followed")))?;
    let command = with(command, needed(option(alloc, "part")))?;
    with(command, rest(alloc, "shards"))
}

/// The words of `typing_session`.
pub fn session<'a>(alloc: Global) -> Result<Command<'a>, AllocError>
    ensures { IfOk result (λ c. app_of c ≡ session) }
{
    let command = over_files(alloc, "typing_session")?;
    let command = with(command, needed(option(alloc, "script")))?;
    let command = with(command, option(alloc, "budget"))?;
    with_bases(alloc, command)
}
