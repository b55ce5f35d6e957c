//! The commands as `clap` takes them.

ghost use Rattle.std.specs.Prelude.{◌≡◌, ◌∷◌, IfOk, [], codes, false};
ghost use Rattle.clap.specs.Words.{app_of, rule_of, with_rule};
ghost use Rattle.command_words.specs.Commands.{check, command, needed, option, rest, upgrade, validate};
ghost use Rattle.command_words.specs.Drills.{drill, word};

use clap::{Arg, ArgAction, Command};
use std::alloc::{AllocError, Global};

/// An option with one value.
pub fn option<'a>(alloc: Global, name: &'a str) -> Arg<'a>
    ensures rule { rule_of result ≡ option name.entry.now }
    ensures local { result.global ≡ false }
{
    Arg::new(alloc, name).long(name).action(ArgAction::Set)
}

/// An argument that has to be given.
pub fn needed<'a>(arg: Arg<'a>) -> Arg<'a>
    requires { arg.global ≡ false }
    ensures rule { rule_of result ≡ needed (rule_of arg.entry) }
    ensures local { result.global ≡ false }
{
    arg.required(true)
}

/// An argument with one value, which stands alone.
pub fn word<'a>(alloc: Global, name: &'a str) -> Arg<'a>
    ensures rule { rule_of result ≡ word name.entry.now }
    ensures local { result.global ≡ false }
{
    Arg::new(alloc, name).action(ArgAction::Set)
}

/// The last argument, which takes any number of words.
pub fn rest<'a>(alloc: Global, name: &'a str) -> Arg<'a>
    ensures rule { rule_of result ≡ rest name.entry.now }
    ensures local { result.global ≡ false }
{
    Arg::new(alloc, name).action(ArgAction::Append)
}

/// A command without arguments, and without help and version flags.
pub fn bare<'a>(alloc: Global, name: &'a str) -> Command<'a>
    ensures { app_of result ≡ command name.entry.now [] }
{
    Command::new(alloc, name)
        .no_binary_name(true)
        .disable_help_flag(true)
        .disable_version_flag(true)
}

/// The command with one more argument.
pub fn with<'a>(command: Command<'a>, arg: Arg<'a>) -> Result<Command<'a>, AllocError>
    requires { arg.global ≡ false }
    ensures { IfOk result (λ c. app_of c ≡ with_rule (app_of command.entry) (rule_of arg.entry)) }
{
    let wider = command.arg(arg)?;
    Ok(wider)
}

/// A command of this name with the options for the schema and the data. It fails where memory runs out.
pub fn over_files<'a>(alloc: Global, name: &'a str) -> Result<Command<'a>, AllocError>
    ensures { IfOk result (λ c. app_of c ≡ command name.entry.now (needed (option (codes "schema")) ∷ needed (option (codes "data")) ∷ [])) }
{
    let command = with(bare(alloc, name), needed(option(alloc, "schema")))?;
    with(command, needed(option(alloc, "data")))
}

/// The command with, behind its arguments, the options for both bases and the import words. It fails where memory runs out.
pub fn with_bases<'a>(alloc: Global, command: Command<'a>) -> Result<Command<'a>, AllocError>
    ensures { IfOk result (λ c. app_of c ≡ with_rule (with_rule (with_rule (app_of command.entry) (option (codes "schema-base"))) (option (codes "data-base"))) (rest (codes "imports"))) }
{
    let command = with(command, option(alloc, "schema-base"))?;
    let command = with(command, option(alloc, "data-base"))?;
    with(command, rest(alloc, "imports"))
}

/// The command with, behind its arguments, the options for the map, for the proof that is to be stored and for the budget.
fn with_map<'a>(alloc: Global, command: Command<'a>) -> Result<Command<'a>, AllocError>
    ensures { IfOk result (λ c. app_of c ≡ with_rule (with_rule (with_rule (app_of command.entry) (needed (option (codes "map")))) (option (codes "proof"))) (option (codes "budget"))) }
{
    let command = with(command, needed(option(alloc, "map")))?;
    let command = with(command, option(alloc, "proof"))?;
    with(command, option(alloc, "budget"))
}

/// The command with, behind its arguments, the options for the proof and for the name under which it is to be stored.
fn with_proofs<'a>(alloc: Global, command: Command<'a>) -> Result<Command<'a>, AllocError>
    ensures { IfOk result (λ c. app_of c ≡ with_rule (with_rule (app_of command.entry) (needed (option (codes "proof")))) (needed (option (codes "to")))) }
{
    let command = with(command, needed(option(alloc, "proof")))?;
    with(command, needed(option(alloc, "to")))
}

/// The command `validate`.
pub(crate) fn validate<'a>(alloc: Global) -> Result<Command<'a>, AllocError>
    ensures { IfOk result (λ c. app_of c ≡ validate) }
{
    let command = over_files(alloc, "validate")?;
    let command = with_map(alloc, command)?;
    with_bases(alloc, command)
}

/// The command `check`.
pub(crate) fn check<'a>(alloc: Global) -> Result<Command<'a>, AllocError>
    ensures { IfOk result (λ c. app_of c ≡ check) }
{
    let command = over_files(alloc, "check")?;
    let command = with(command, needed(option(alloc, "proof")))?;
    with_bases(alloc, command)
}

/// The command `upgrade`.
pub(crate) fn upgrade<'a>(alloc: Global) -> Result<Command<'a>, AllocError>
    ensures { IfOk result (λ c. app_of c ≡ upgrade) }
{
    let command = over_files(alloc, "upgrade")?;
    let command = with_proofs(alloc, command)?;
    with_bases(alloc, command)
}

/// The command `drill`.
pub(crate) fn drill<'a>(alloc: Global) -> Result<Command<'a>, AllocError>
    ensures { IfOk result (λ c. app_of c ≡ drill) }
{
    let command = with(bare(alloc, "drill"), needed(word(alloc, "items")))?;
    with(command, option(alloc, "proof"))
}
