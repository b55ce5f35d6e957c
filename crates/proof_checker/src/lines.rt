//! The terms of node lines in a table.

ghost use Rattle.std.specs.Prelude.{◌≡◌, IfOk, OnOk};
ghost use Rattle.lists.specs.Distinct.{AreDistinct};
ghost use Rattle.proof_file.specs.Accepts.{AreNumbers};
ghost use Rattle.proof_checker.specs.Checks.{CannotTake, KeepsTerms, TakesUp};

use rdf_terms::table::{PutError, TermTable};
use rdf_terms::terms::{Term, TermId};
use std::alloc::Global;

/// Puts the terms into the table, one after another, and gives their numbers. It fails as `Full` where the table cannot
/// take all of them; then it has taken some.
pub fn take_up(
    alloc: Global,
    terms: &mut TermTable,
    lines: Vec<Term>,
) -> Result<Vec<TermId>, PutError>
    ensures numbers { IfOk result (λ nodes. AreNumbers terms.new lines.items nodes.items) }
    ensures table { OnOk result (TakesUp terms.old lines.items terms.new) }
    ensures full { result ≡ Err PutError.Full → CannotTake terms.old lines.items }
    ensures kept { KeepsTerms terms.old terms.new }
    ensures distinct { AreDistinct terms.new }
{
    // The length of a table tells contracts that its terms are distinct.
    let _distinct = terms.len();
    let Ok(mut nodes) = Vec::with_capacity(alloc, lines.len()) else {
        return Err(PutError::Memory);
    };
    for term in lines {
        let node = terms.put(term)?;
        let Ok(()) = nodes.push(node) else {
            return Err(PutError::Memory);
        };
    }
    Ok(nodes)
}
