//! The extents of the labels of a schema in a graph.

ghost use Rattle.std.specs.Prelude.{◌≡◌, ◌-◌, ◌<◌, ◌^◌, All, Contains, IfErr, IfOk, false, length};
ghost use Rattle.graph_index.specs.Contents.{IsSealedWith};
ghost use Rattle.graph_index.specs.Laws.{IsOfTable};
ghost use Rattle.schema_tree.specs.declared.schema.Answer.{Answer as Given};
ghost use Rattle.schema_tree.specs.Edges.{IsStratum};
ghost use Rattle.schema_tree.specs.Loaded.{IsLoaded};
ghost use Rattle.label_extents.specs.Demanded.{AreTooMany, Explains};
ghost use Rattle.label_extents.specs.Extents.{AreExtents};
ghost use Rattle.label_extents.specs.Found.{AreFound, AreMembers, HoldDecided};

use crate::error::ExtentsError;
use crate::members::members_of;
use crate::nodes::nodes_of;
use crate::roots::demanded;
use graph_index::graph::Graph;
use rdf_terms::items::Items;
use rdf_terms::table::TermTable;
use schema_tree::laws::verdict_is_one;
use schema_tree::schema::{Answer, Schema};
use std::alloc::{AllocError, Global};
use strata::list::Strata;
use typing_answers::laws::sure_answers_are_true;
use typing_refiner::building::WidePair;
use typing_refiner::{Refined, Wanted, refine};

/// The extents of the labels of a schema in a graph, as far as they are known.
#[derive(Drop)]
pub struct Extents {
    /// The members: of each label, in reading order, the nodes of the graph that satisfy its expression, in the order of their texts,
    /// as answers that hold. Those are left out on which the verdict is Unknown.
    pub members: Items<Answer>,
    /// Whether the verdict on some node of the graph with some label is Unknown, so that its membership is not told.
    pub undecided: bool,
    /// The pairs that the nodes with the labels reach and whose Width is above the budget, in the order of the texts of their nodes
    /// and then of their Shapes.
    pub wide: Items<WidePair>,
}

/// The pairs whose Width is above the budget.
fn wide_of(alloc: Global, refined: &Refined) -> Result<Vec<WidePair>, AllocError>
    ensures { IfOk result (λ v. v.items ≡ refined.now.wide) }
{
    Vec::from_slice(alloc, refined.wide())
}

/// The extents of the labels of a schema in a graph (ShEx 2.1, section 5.2): with each declared label, in reading order, the subjects
/// and objects of the graph's triples that satisfy its expression by the complete typing, in the order of their texts. Pairs whose
/// Width is above the budget, which is below 18,446,744,073,709,551,615, are not looked into: nodes on which the verdict is then
/// Unknown are left out. The graph is sealed with the table of its terms, and the strata are those of the schema.
///
/// It fails as `Pairs` exactly where the nodes with the expressions of the labels reach more than 4,194,304 pairs, and as `Memory`.
pub fn extents_of(
    alloc: Global,
    schema: &Schema,
    graph: &Graph,
    terms: &TermTable,
    strata: &Strata,
    budget: u64,
) -> Result<Extents, ExtentsError>
    requires loaded { IsLoaded schema.now }
    requires strata { IsStratum schema.now strata.now }
    requires sealed { IsSealedWith terms.now graph.now }
    requires budget { budget < 2 ^ 64 - 1 }

    // What is found are the extents but for what is Unknown, by the verdicts of refinement over the demanded pairs.
    ensures found { IfOk result (AreFound schema.now terms.now graph.now.triples strata.now budget) }

    // Each is a member, and each member that depends on no wide pair is there.
    ensures members { IfOk result (λ x. AreMembers schema.now terms.now graph.now.triples x.members) }
    ensures decided { IfOk result (λ x. HoldDecided schema.now terms.now graph.now.triples budget x.members) }

    // Where nothing is Unknown, they are the extents.
    ensures whole { IfOk result (λ x. x.undecided ≡ false → AreExtents schema.now terms.now graph.now.triples x.members) }

    // They are refused exactly where too many pairs are demanded, or for want of memory.
    ensures refused { IfErr result (Explains schema.now graph.now.triples) }
    ensures few { IfOk result (λ x. ¬ AreTooMany schema.now graph.now.triples) }

    // They can be printed.
    ensures of_table { All (IsOfTable terms.now) graph.now.triples → IfOk result (λ x. (a : Given) → Contains x.members a → a.node.0 < length terms.now) }
{
    // The laws by which what is sure is true, and by which one verdict is sure.
    sure_answers_are_true();
    verdict_is_one();
    let ordered = nodes_of(alloc, graph, terms)?;
    let nodes = ordered.as_slice();
    let pairs = demanded(alloc, schema, graph, terms, nodes)?;
    let refined = refine(
        alloc,
        schema,
        graph,
        terms,
        strata,
        &pairs,
        budget,
        Wanted::Verdicts,
    )?;
    let found = members_of(alloc, schema, terms, &refined, nodes)?;
    let wide = wide_of(alloc, &refined)?;
    Ok(Extents {
        members: Items::of(found.answers),
        undecided: found.undecided,
        wide: Items::of(wide),
    })
}
