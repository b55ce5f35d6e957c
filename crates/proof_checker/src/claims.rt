//! The claims of a proof that is accepted.

ghost use Rattle.std.specs.Prelude.{◌<◌, ◌≡◌, Contains, IfOk, Some, length, option_map, slice_get};
ghost use Rattle.proof_file.specs.declared.Claim.{Claim as Given};
ghost use Rattle.proof_file.specs.Answers.{AreClaimed, answer_with};

use proof_file::Claim;
use rdf_terms::terms::TermId;
use schema_tree::schema::Answer;
use std::alloc::{AllocError, Global};
use std::marker::Model;

/// The claims of a proof in their order, each with the number of its node's term.
#[derive(Debug, Drop)]
pub struct Claims {
    answers: Vec<Answer>,
}

impl Model for Claims {
    ghost use Rattle.std.specs.Prelude.{List};
    ghost use Rattle.schema_tree.specs.declared.schema.Answer.{Answer};

    ghost Value = { List Answer };

    ghost view = { λ c. c.answers.items };
}

impl Claims {
    /// The claims of these answers.
    pub(crate) fn of(answers: Vec<Answer>) -> Claims
        ensures { result ≡ answers.items }
    {
        Claims { answers }
    }

    /// The claims, without taking memory.
    pub fn list(&self) -> &[Answer]
        ensures { result.now ≡ self.now }
    {
        self.answers.as_slice()
    }
}

/// The answer that a claim gives, whose node has a line.
fn answer(nodes: &[TermId], claim: Claim) -> Answer
    requires { claim.node < length nodes.now }
    ensures { option_map (answer_with claim) (slice_get nodes.now claim.node) ≡ Some result }
{
    Answer {
        node: nodes[claim.node as usize],
        target: claim.target,
        holds: claim.holds,
    }
}

/// The answers that the claims give, each of whose nodes has a line.
pub(crate) fn answers(
    alloc: Global,
    nodes: &[TermId],
    claims: Vec<Claim>,
) -> Result<Vec<Answer>, AllocError>
    requires { (c : Given) → Contains claims.items c → c.node < length nodes.now }
    ensures { IfOk result (λ v. AreClaimed nodes.now claims.items v.items) }
{
    let mut answers = Vec::with_capacity(alloc, claims.len())?;
    for claim in claims {
        answers.push(answer(nodes, claim))?;
    }
    Ok(answers)
}
