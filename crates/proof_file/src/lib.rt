//! Proofs of answers as data, and when one is accepted.
#![tactic(auto)]

ghost use Rattle.proof_file.specs.Laws.{OneRejection, Soundness};

pub(crate) mod fields;
pub mod head;
pub mod laws;
pub mod line;
pub mod lines;
pub mod read;
pub mod write;

use crate::head::Head;
use rdf_terms::items::Items;
use rdf_terms::terms::Term;
use schema_tree::schema::Target;
use schema_tree::verdicts::{Place, State};
use std::fmt;

/// What a record says of its pair, and what shows it.
#[derive(Debug, Drop)]
pub enum RecordKind {
    /// The node has the Shape: a place for each relevant triple, in the order of the neighbourhood.
    Plus(Items<Place>),
    /// The node has not the Shape: the rank at which the pair goes, and states from which no match is reached.
    Minus(u32, Items<State>),
}

/// A pair of a node and a Shape, and what is said of it.
#[derive(Debug, Drop)]
pub struct Record {
    /// The number of a node line, from 0.
    pub node: u32,
    /// The number of a Shape of the schema, from 0.
    pub shape: u32,
    /// What is said of the pair.
    pub kind: RecordKind,
}

/// The records of one stratum.
#[derive(Debug, Drop)]
pub struct Section {
    /// The stratum.
    pub stratum: u32,
    /// Its records.
    pub records: Items<Record>,
}

/// That a node satisfies the expression of a target, or does not.
#[derive(Debug, Drop)]
pub struct Claim {
    /// Whether the node satisfies it.
    pub holds: bool,
    /// The number of a node line, from 0.
    pub node: u32,
    /// What the node is asked to satisfy.
    pub target: Target,
}

/// A proof: records that rest on one another, stratum by stratum, and claims that rest on all records.
#[derive(Debug, Drop)]
pub struct Proof {
    /// What stands at its head, if it is of format 2. A proof of format 1 has none.
    pub head: Option<Head>,
    /// The terms of the node lines.
    pub nodes: Items<Term>,
    /// The sections.
    pub sections: Items<Section>,
    /// The claims.
    pub claims: Items<Claim>,
}

/// The checks that an item of a proof has to pass. It shows the name of the check.
#[derive(Clone, Copy, Debug, PartialEq, Eq)]
pub enum Why {
    /// The number of the node is that of a node line.
    Node,
    /// The number of the Shape is that of a Shape.
    Shape,
    /// The section's stratum is the Shape's.
    Stratum,
    /// The places are one for each relevant triple, each where it can be by predicate, direction, EXTRA and CLOSED.
    Places,
    /// The values at the places are satisfied, or not satisfied where a triple stays in the remainder.
    Value,
    /// The counts of the places match the Shape's expression.
    Counts,
    /// The states leave no match.
    States,
    /// The claim is sure by all records.
    Claim,
}

impl fmt::Display for Why {
    ghost use Rattle.std.specs.Prelude.{Some};
    ghost use Rattle.proof_file.specs.Messages.{why_text};

    ghost output = { λ why. Some (why_text why) };

    fn fmt<W: fmt::Write>(&self, f: &mut fmt::Formatter<W>) -> fmt::Result {
        match self {
            Why::Node => f.write_str("Node"),
            Why::Shape => f.write_str("Shape"),
            Why::Stratum => f.write_str("Stratum"),
            Why::Places => f.write_str("Places"),
            Why::Value => f.write_str("Value"),
            Why::Counts => f.write_str("Counts"),
            Why::States => f.write_str("States"),
            Why::Claim => f.write_str("Claim"),
        }
    }
}

/// Claims that what an accepted proof says is true of every complete typing over terms that hold its node lines.
pub fn accepted_is_true()
    ensures { Soundness }
{}

/// Claims that what is rejected is not accepted, and that a rejection names one item and one check.
pub fn rejected_is_one()
    ensures { OneRejection }
{}
