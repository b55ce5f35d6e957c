//! What words ask for.

use input_names::Inputs;

/// What `validate` asks for.
#[derive(Debug, Drop, PartialEq, Eq)]
pub struct Validation<'a> {
    /// The schema and the data.
    pub inputs: Inputs<'a>,
    /// The name of the file with the shape map.
    pub map: &'a str,
    /// The name under which the proof of the answers is to be stored, if it is.
    pub proof: Option<&'a str>,
    /// The greatest width of a pair that is looked into, from 1 to 1,099,511,627,776 and by default 1,048,576.
    pub budget: u64,
}

/// What `check` asks for.
#[derive(Debug, Drop, PartialEq, Eq)]
pub struct Checking<'a> {
    /// The schema and the data.
    pub inputs: Inputs<'a>,
    /// The name of the file with the proof.
    pub proof: &'a str,
}

/// What `upgrade` asks for.
#[derive(Debug, Drop, PartialEq, Eq)]
pub struct Upgrading<'a> {
    /// The schema and the data.
    pub inputs: Inputs<'a>,
    /// The name of the file with the proof.
    pub proof: &'a str,
    /// The name under which the proof is to be stored in the newest format.
    pub to: &'a str,
}

/// What words ask of the files that they name.
#[derive(Debug, Drop, PartialEq, Eq)]
pub enum Command<'a> {
    /// To validate the associations of a map.
    Validate(Validation<'a>),
    /// To check a proof.
    Check(Checking<'a>),
    /// To check a proof and to store it in the newest format.
    Upgrade(Upgrading<'a>),
}

/// What `drill` asks for.
#[derive(Debug, Drop, PartialEq, Eq)]
pub struct Drilling<'a> {
    /// How many items the data are to have, from 1 to 100,000.
    pub items: u32,
    /// The name under which the proof of the answers is to be stored, if it is.
    pub proof: Option<&'a str>,
}

/// What words ask for.
#[derive(Debug, Drop, PartialEq, Eq)]
pub enum Call<'a> {
    /// Something of the files that they name.
    Files(Command<'a>),
    /// To validate made inputs.
    Drill(Drilling<'a>),
}

impl<'a> Command<'a> {
    ghost use Rattle.std.specs.Prelude.{◌≡◌};
    ghost use Rattle.command_words.specs.Lent.{command_of, command_with};
    ghost use Rattle.command_words.specs.Requests.{Task};

    /// What the command is given, whichever it is.
    pub fn inputs<'b>(&'b self) -> &'b Inputs<'a>
        ensures { (task : Task) × (command_of self.entry.now ≡ command_with result.now task) }
    {
        match self {
            Command::Validate(validation) => &validation.inputs,
            Command::Check(checking) => &checking.inputs,
            Command::Upgrade(upgrading) => &upgrading.inputs,
        }
    }
}
