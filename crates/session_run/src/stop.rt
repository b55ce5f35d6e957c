//! Why a call ends before its answers.

ghost use Rattle.std.specs.Prelude.{◌≡◌};
ghost use Rattle.session_run.specs.Stopping.{IsCommandStop, IsScriptStop, stop_of};
ghost use Rattle.session_run.specs.declared.stop.Stop.TheVariants.{Memory};

use crate::error::CommandError;
use session_script::ScriptError;
use shex_inputs::{InputError, Refusal as InputRefusal, Source};
use std::alloc::AllocError;

/// A file that the words name.
#[derive(Clone, Copy, Debug, PartialEq, Eq)]
pub enum File {
    /// A file of the schema or the data file.
    Input(Source),
    /// The script.
    Script,
}

/// Why a file is refused. Want of memory is never the cause.
#[derive(Debug, Drop)]
pub enum Refusal {
    /// A file of the schema or the data file is not taken.
    Input(InputRefusal),
    /// The script has more than 67,108,864 bytes.
    Size,
    /// The bytes of the script's file are no script.
    Script(ScriptError),
    /// A command of the script is refused.
    Command(CommandError),
}

/// Why there are no answers.
#[derive(Debug, Drop)]
pub enum Stop {
    /// A file is refused.
    Refused(Refusal),
    /// The file was not fetched.
    Failed(File),
    /// Memory ran out.
    Memory,
}

impl From<AllocError> for Stop {
    ghost from_gives = { λ _ e. e ≡ Memory };

    fn from(_error: AllocError) -> Stop {
        Stop::Memory
    }
}

impl From<InputError> for Stop {
    ghost from_gives = { λ e s. s ≡ stop_of e };

    fn from(error: InputError) -> Stop {
        match error {
            InputError::Refused(refusal) => Stop::Refused(Refusal::Input(refusal)),
            InputError::Failed(source) => Stop::Failed(File::Input(source)),
            InputError::Memory => Stop::Memory,
        }
    }
}

impl From<ScriptError> for Stop {
    ghost from_gives = { λ e s. IsScriptStop e s };

    fn from(error: ScriptError) -> Stop {
        match error {
            ScriptError::Memory => Stop::Memory,
            error => Stop::Refused(Refusal::Script(error)),
        }
    }
}

impl From<CommandError> for Stop {
    ghost from_gives = { λ e s. IsCommandStop e s };

    fn from(error: CommandError) -> Stop {
        match error {
            CommandError::Memory => Stop::Memory,
            error => Stop::Refused(Refusal::Command(error)),
        }
    }
}
