//! Why a command of a script is refused.

ghost use Rattle.std.specs.Prelude.{◌≡◌};
ghost use Rattle.session_run.specs.declared.error.CommandError.TheVariants.{Full, Memory, Pairs};
ghost use Rattle.session_run.specs.Running.{add_error, ask_error, put_error};

use graph_index::graph::AddError;
use rdf_terms::table::PutError;
use schema_tree::labels::Label;
use std::alloc::AllocError;
use std::error::Error;
use std::fmt;
use typing_session::AskError;

/// Why a command of a script is refused. It shows the text that a program prints for it.
#[derive(Debug, Drop)]
pub enum CommandError {
    /// A question names this label, which the schema does not declare.
    Label(Label),
    /// The start is asked for, and the schema has none.
    NoStart,
    /// The table of terms, of at most 4,294,967,295, or the graph, of at most 4,000,000 triples, cannot take up what the command
    /// names.
    Full,
    /// The question reaches more than 4,194,304 pairs.
    Pairs,
    /// Memory ran out.
    Memory,
}

impl fmt::Display for CommandError {
    ghost use Rattle.std.specs.Prelude.{Some};
    ghost use Rattle.session_run.specs.Messages.{command_text};

    ghost output = { λ e. Some (command_text e) };

    fn fmt<W: fmt::Write>(&self, f: &mut fmt::Formatter<W>) -> fmt::Result {
        match self {
            CommandError::Label(label) => write!(f, "Label({label})"),
            CommandError::NoStart => f.write_str("NoStart"),
            CommandError::Full => f.write_str("Full"),
            CommandError::Pairs => f.write_str("Pairs"),
            CommandError::Memory => f.write_str("Memory"),
        }
    }
}

impl Error for CommandError {}

impl From<AllocError> for CommandError {
    ghost from_gives = { λ _ e. e ≡ Memory };

    fn from(_error: AllocError) -> CommandError {
        CommandError::Memory
    }
}

impl From<PutError> for CommandError {
    ghost from_gives = { λ p e. e ≡ put_error p };

    fn from(error: PutError) -> CommandError {
        match error {
            PutError::Full => CommandError::Full,
            PutError::Memory => CommandError::Memory,
        }
    }
}

impl From<AddError> for CommandError {
    ghost from_gives = { λ a e. e ≡ add_error a };

    fn from(error: AddError) -> CommandError {
        match error {
            AddError::Full => CommandError::Full,
            AddError::Memory => CommandError::Memory,
        }
    }
}

impl From<AskError> for CommandError {
    ghost from_gives = { λ a e. e ≡ ask_error a };

    fn from(error: AskError) -> CommandError {
        match error {
            AskError::Pairs => CommandError::Pairs,
            AskError::Memory => CommandError::Memory,
        }
    }
}
