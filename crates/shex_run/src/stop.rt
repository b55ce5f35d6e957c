//! Why a call ends before its answers.

ghost use Rattle.std.specs.Prelude.{◌≡◌, ◌<◌};
ghost use Rattle.shex_run.specs.Statuses.{refusal_status};
ghost use Rattle.shex_run.specs.Stopping.{check_stop, stop_of};

use proof_checker::CheckError;
use shex_inputs::{InputError, Refusal as InputRefusal, Source};
use std::alloc::AllocError;

/// A file that the words name.
#[derive(Clone, Copy, Debug, PartialEq, Eq)]
pub enum File {
    /// A file of the inputs.
    Input(Source),
    /// The proof: `validate` stores it, and `check` and `upgrade` read it.
    Proof,
    /// The file in which `upgrade` stores the proof.
    Upgraded,
}

/// Why a file is refused. Want of memory is never the cause.
#[derive(Debug, Drop)]
pub enum Refusal {
    /// A file of the inputs is not taken.
    Input(InputRefusal),
    /// The bytes of the proof that is checked are none, or it is not current or not accepted, or the table of terms cannot take up
    /// its nodes.
    Proof(CheckError),
}

impl Refusal {
    /// The status of a call that ends with the refusal: 3 for inputs, and for a current proof whose nodes the table of terms cannot
    /// take up, and 6 for each other proof.
    pub fn status(&self) -> u8
        ensures status { result ≡ refusal_status self.now }
        ensures low { result < 7 }
    {
        match self {
            Refusal::Input(_) => 3,
            Refusal::Proof(CheckError::Full) => 3,
            Refusal::Proof(_) => 6,
        }
    }
}

/// Why there is no answer.
#[derive(Debug, Drop)]
pub enum Stop {
    /// A file is refused.
    Refused(Refusal),
    /// The file was not fetched, or not stored.
    Failed(File),
    /// Memory ran out.
    Memory,
}

impl From<AllocError> for Stop {
    ghost use Rattle.std.specs.Prelude.{◌≡◌};
    ghost use Rattle.shex_run.specs.declared.stop.Stop.TheVariants.{Memory};

    ghost from_gives = { λ _ e. e ≡ Memory };

    fn from(_error: AllocError) -> Stop {
        Stop::Memory
    }
}

/// Why there is no answer where the inputs are not taken.
pub fn stop_of(error: InputError) -> Stop
    ensures { result ≡ stop_of error }
{
    match error {
        InputError::Refused(refusal) => Stop::Refused(Refusal::Input(refusal)),
        InputError::Failed(source) => Stop::Failed(File::Input(source)),
        InputError::Memory => Stop::Memory,
    }
}

/// Why there is no answer where a proof is not accepted.
pub fn check_stop(error: CheckError) -> Stop
    ensures { result ≡ check_stop error }
{
    match error {
        CheckError::Memory => Stop::Memory,
        error => Stop::Refused(Refusal::Proof(error)),
    }
}
