//! The check of a proof that is given.

ghost use Rattle.std.specs.Prelude.{All, IfErr, IfOk};
ghost use Rattle.graph_index.specs.Laws.{IsOfTable};
ghost use Rattle.lists.specs.Distinct.{AreDistinct};
ghost use Rattle.schema_tree.specs.Edges.{IsStratum};
ghost use Rattle.schema_tree.specs.Loaded.{IsLoaded};
ghost use Rattle.shex_inputs.specs.Held.{held_by};
ghost use Rattle.shex_run.specs.Checking.{ConfirmStops, Confirms};

use crate::stop::{Stop, check_stop};
use proof_checker::check;
use proof_file::head::Digests;
use schema_tree::laws::typing_is_one;
use shape_map::write_result;
use shex_inputs::Holding;
use std::alloc::Global;

/// The result map of the claims of a proof that is current and accepted; else it is refused for what the check finds, or fails as
/// `Memory`. The graph is sealed first, and where the bytes are a proof of these files, the table takes up its nodes.
pub fn confirm(
    alloc: Global,
    holding: &mut Holding,
    digests: &Digests,
    proof: &[u8],
) -> Result<Vec<u8>, Stop>
    requires loaded { IsLoaded holding.old.schema }
    requires strata { IsStratum holding.old.schema holding.old.strata }
    requires distinct { AreDistinct holding.old.terms }
    requires of_table { All (IsOfTable holding.old.terms) holding.old.graph.triples }
    ensures confirmed { IfOk result (λ text. Confirms (held_by holding.old digests.now) proof.now text.items) }
    ensures stops { IfErr result (ConfirmStops (held_by holding.old digests.now) proof.now) }
{
    // The law by which there is a complete typing.
    typing_is_one();
    holding.graph.seal(&holding.terms)?;
    let checked = check(
        alloc,
        &holding.schema,
        &holding.graph,
        &mut holding.terms,
        digests,
        proof,
    );
    // The length of a table tells contracts that it is within the limit.
    let _count = holding.terms.len();
    let claims = match checked {
        Ok(claims) => claims,
        Err(error) => return Err(check_stop(error)),
    };
    let mut text = Vec::new(alloc);
    match write_result(alloc, &holding.terms, claims.list(), &mut text) {
        Ok(()) => Ok(text),
        Err(_) => Err(Stop::Memory),
    }
}
