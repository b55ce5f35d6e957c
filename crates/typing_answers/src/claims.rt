//! The claims of a proof.

ghost use Rattle.std.specs.Prelude.{◌≡◌, ◌<◌, Contains, IfOk, length, map};
ghost use Rattle.schema_tree.specs.declared.schema.Answer.{Answer as Given};
ghost use Rattle.typing_answers.specs.Numbering.{claim_by};

use crate::nodes::place_of;
use proof_file::Claim;
use schema_tree::schema::Answer;
use std::alloc::{AllocError, Global};

/// The claim of an answer whose node has its number in a list.
fn claim_of(alloc: Global, by_number: &[u32], answer: &Answer) -> Result<Claim, AllocError>
    requires { answer.now.node.0 < length by_number.now }
    ensures { IfOk result (λ c. c ≡ claim_by by_number.now answer.now) }
{
    Ok(Claim {
        holds: answer.holds,
        node: place_of(by_number, answer.node),
        target: answer.target.try_clone(alloc)?,
    })
}

/// The claims of answers, in their order, whose nodes have their numbers in a list.
pub(crate) fn claims_of(
    alloc: Global,
    by_number: &[u32],
    answers: &[Answer],
) -> Result<Vec<Claim>, AllocError>
    requires { (x : Given) → Contains answers.now x → x.node.0 < length by_number.now }
    ensures { IfOk result (λ v. v.items ≡ map (claim_by by_number.now) answers.now) }
{
    let mut claims = Vec::new(alloc);
    for answer in answers {
        claims.push(claim_of(alloc, by_number, answer)?)?;
    }
    Ok(claims)
}
