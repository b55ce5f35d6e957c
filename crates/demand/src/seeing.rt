//! Pairs that are put into the table of those that were seen.

ghost use Rattle.std.specs.Prelude.{◌≡◌, IfErr, OnOk, map};
ghost use Rattle.lists.specs.Additions.{Adds};
ghost use Rattle.schema_tree.specs.Entries.{pair_of};
ghost use Rattle.demand.specs.Closing.{Grows, StopsAt, StopsOver};

use crate::error::DemandError;
use crate::table::{PairError, PairTable};
use rdf_terms::terms::TermId;
use schema_tree::schema::{Pair, ShapeId};

/// Puts a pair into the table.
fn see(seen: &mut PairTable, pair: Pair) -> Result<(), DemandError>
    ensures adds { OnOk result (Adds seen.old pair seen.new) }
    ensures stops { IfErr result (StopsAt seen.old pair) }
{
    match seen.put(pair) {
        Ok(()) => Ok(()),
        Err(PairError::Full) => Err(DemandError::Pairs),
        Err(PairError::Memory) => Err(DemandError::Memory),
    }
}

/// Puts each of the pairs into the table.
pub(crate) fn see_all(seen: &mut PairTable, pairs: &[Pair]) -> Result<(), DemandError>
    ensures grows { OnOk result (Grows seen.old pairs.now seen.new) }
    ensures stops { IfErr result (StopsOver seen.old pairs.now) }
{
    for pair in pairs {
        see(seen, *pair)?;
    }
    Ok(())
}

/// Puts the node with each of the Shapes into the table.
pub(crate) fn see_node(
    seen: &mut PairTable,
    node: TermId,
    shapes: &[ShapeId],
) -> Result<(), DemandError>
    ensures grows { OnOk result (Grows seen.old (map (pair_of node) shapes.now) seen.new) }
    ensures stops { IfErr result (StopsOver seen.old (map (pair_of node) shapes.now)) }
{
    for shape in shapes {
        let shape = *shape;
        see(seen, Pair { node, shape })?;
    }
    Ok(())
}
