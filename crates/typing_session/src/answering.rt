//! The answer to a question, by the verdicts that are kept and those that are found.

ghost use Rattle.std.specs.Prelude.{ℕ, ◌≡◌, ◌≤◌, ◌+◌, Contains, IfOk, OnErr, OnOk, length};
ghost use Rattle.std.specs.List.Sorted.{IsStrictlySortedBy};
ghost use Rattle.demand.specs.Demand.{AreAsked};
ghost use Rattle.demand.specs.Links.{AreLinks};
ghost use Rattle.demand.specs.Orders.{compare_pairs, max_pairs};
ghost use Rattle.graph_index.specs.Contents.{IsSealedWith};
ghost use Rattle.schema_tree.specs.declared.schema.Pair.{Pair as Held};
ghost use Rattle.schema_tree.specs.declared.verdicts.Verdict.{Verdict as Found};
ghost use Rattle.schema_tree.specs.Loaded.{IsLoaded};
ghost use Rattle.schema_tree.specs.Needs.{HoldNeeds};
ghost use Rattle.typing_refiner.specs.Building.{AreWidths};
ghost use Rattle.typing_refiner.specs.Posed.{IsPosed};
ghost use Rattle.typing_refiner.specs.Statements.{CountNeeds, most_of};
ghost use Rattle.typing_session.specs.Kept.{pairs_of};
ghost use Rattle.typing_session.specs.Questions.{AreFresh, IsAnswer, IsAnswerByAll, IsTrueAnswer, IsUnknownOnlyWide, ReachesTooMany, root_of};
ghost use Rattle.typing_session.specs.Sound.{AreKeptFor, HaveVerdicts};
ghost use Rattle.typing_session.specs.Walks.{HoldOrKeepNeeds};

use crate::error::AskError;
use crate::fresh::fresh;
use crate::kept::Kept;
use demand::links::Link;
use demand::table::MAX_PAIRS;
use demand::{DemandError, Pairs, Root, close};
use graph_index::graph::Graph;
use locality_laws::laws::strata_are_independent;
use rdf_terms::items::Items;
use rdf_terms::table::TermTable;
use rdf_terms::terms::TermId;
use schema_tree::laws::{
    layers_are_meanings, refinement_is_complete, refinement_is_one, refinement_is_true,
    satisfaction_is_decided, sure_is_true, verdict_is_one, width_is_one,
};
use schema_tree::schema::{ExprId, Pair, Schema};
use schema_tree::sure::sure;
use schema_tree::verdicts::Verdict;
use std::alloc::{AllocError, Global};
use std::sync::ledger::Ledger;
use tally::Steps;
use typing_refiner::Question;

/// The pairs that a node with an expression reaches. It is refused as `Pairs` exactly where these are more than 4,194,304.
pub(crate) fn reached(
    alloc: Global,
    schema: &Schema,
    graph: &Graph,
    terms: &TermTable,
    node: TermId,
    expr: ExprId,
) -> Result<Pairs, AskError>
    requires loaded { IsLoaded schema.now }
    requires sealed { IsSealedWith terms.now graph.now }
    ensures asked { IfOk result (AreAsked schema.now terms.now graph.now.triples (root_of node expr)) }
    ensures closed { IfOk result (HoldNeeds schema.now graph.now.triples) }
    ensures many { (result ≡ Err AskError.Pairs) → ReachesTooMany schema.now graph.now.triples node expr }
    ensures few { IfOk result (λ p. ¬ ReachesTooMany schema.now graph.now.triples node expr) }
{
    let root = Root { node, expr };
    match close(alloc, schema, graph, terms, [root].as_slice()) {
        Ok(pairs) => Ok(pairs),
        Err(DemandError::Pairs) => Err(AskError::Pairs),
        Err(DemandError::Memory) => Err(AskError::Memory),
    }
}

/// The pairs that a node with an expression reaches and on which no verdict is kept, in order. It is refused as `Pairs` exactly
/// where all that the two reach are more than 4,194,304; `links` are those of the schema.
pub(crate) fn asked(
    alloc: Global,
    schema: &Schema,
    links: &[Items<Link>],
    graph: &Graph,
    terms: &TermTable,
    kept: &Kept,
    node: TermId,
    expr: ExprId,
) -> Result<Vec<Pair>, AskError>
    requires loaded { IsLoaded schema.now }
    requires links { AreLinks schema.now links.now }
    requires sealed { IsSealedWith terms.now graph.now }
    requires closed { HoldNeeds schema.now graph.now.triples (pairs_of kept.now) }
    ensures fresh { IfOk result (λ v. AreFresh schema.now terms.now graph.now.triples (pairs_of kept.now) node expr v.items) }
    ensures few_fresh { IfOk result (λ v. length v.items ≤ max_pairs) }
    ensures many { (result ≡ Err AskError.Pairs) → ReachesTooMany schema.now graph.now.triples node expr }
    ensures few { IfOk result (λ v. ¬ ReachesTooMany schema.now graph.now.triples node expr) }
{
    let found = fresh(alloc, schema, links, graph, terms, kept, node, expr)?;
    if kept.len() <= MAX_PAIRS - found.len() {
        return Ok(found);
    }
    // How many of the kept ones are reached is not known.
    let _all = reached(alloc, schema, graph, terms, node, expr)?;
    Ok(found)
}

/// Finds and keeps the verdicts on pairs on which none is kept, while all that they need besides is; `links` are those of the
/// schema. A refusal changes nothing.
fn keep_fresh<L: Ledger>(
    alloc: Global,
    question: &Question<'_>,
    links: &[Items<Link>],
    fresh: &[Pair],
    kept: &mut Kept,
    steps: &mut Steps<L>,
) -> Result<(), AllocError>
    requires posed { IsPosed question.now }
    requires links { AreLinks question.now.schema.now links.now }
    requires sorted { IsStrictlySortedBy (compare_pairs question.now.terms.now) fresh.now }
    requires few { length fresh.now ≤ max_pairs }
    requires apart { (q : Held) → Contains fresh.now q → ¬ Contains (pairs_of kept.old) q }
    requires whole { HoldOrKeepNeeds question.now.schema.now question.now.graph.now.triples (pairs_of kept.old) fresh.now }
    requires verdicts { HaveVerdicts question.now.schema.now question.now.terms.now question.now.graph.now.triples question.now.strata.now question.now.budget kept.old }
    ensures kept { OnOk result (AreKeptFor question.now.schema.now question.now.terms.now question.now.graph.now.triples question.now.strata.now question.now.budget fresh.now kept.old kept.new) }
    ensures err { OnErr result (kept.new ≡ kept.old) }
    ensures bounded { (width count : Held → ℕ) → AreWidths question.now.schema.now question.now.terms.now question.now.graph.now.triples width → CountNeeds question.now.schema.now question.now.graph.now.triples fresh.now count →
        steps.new ≤ steps.old + most_of question.now.schema.now question.now.terms.now question.now.graph.now.triples question.now.budget width count fresh.now }
{
    let found = question.refine_from(alloc, links, fresh, &*kept, steps)?;
    kept.keep_all(fresh, &found)?;
    Ok(())
}

/// The verdict on a node with an expression that reaches these pairs besides kept ones; verdicts are kept on them then.
/// `links` are those of the schema. A refusal changes nothing.
pub(crate) fn answer<L: Ledger>(
    alloc: Global,
    question: &Question<'_>,
    links: &[Items<Link>],
    fresh: &[Pair],
    node: TermId,
    expr: ExprId,
    kept: &mut Kept,
    steps: &mut Steps<L>,
) -> Result<Verdict, AllocError>
    requires posed { IsPosed question.now }
    requires links { AreLinks question.now.schema.now links.now }
    requires fresh { AreFresh question.now.schema.now question.now.terms.now question.now.graph.now.triples (pairs_of kept.old) node expr fresh.now }
    requires few { length fresh.now ≤ max_pairs }
    requires verdicts { HaveVerdicts question.now.schema.now question.now.terms.now question.now.graph.now.triples question.now.strata.now question.now.budget kept.old }
    ensures answer { IfOk result (IsAnswer question.now.schema.now question.now.terms.now question.now.graph.now.triples question.now.strata.now question.now.budget node expr) }
    ensures no_other { IfOk result (λ v. (w : Found) → IsAnswer question.now.schema.now question.now.terms.now question.now.graph.now.triples question.now.strata.now question.now.budget node expr w → w ≡ v) }
    ensures by_all { IfOk result (IsAnswerByAll question.now.schema.now question.now.terms.now question.now.graph.now.triples question.now.budget node expr) }
    ensures true_answer { IfOk result (IsTrueAnswer question.now.schema.now question.now.terms.now question.now.graph.now.triples question.now.strata.now node expr) }
    ensures only_wide { IfOk result (IsUnknownOnlyWide question.now.schema.now question.now.terms.now question.now.graph.now.triples question.now.budget node expr) }
    ensures kept { OnOk result (AreKeptFor question.now.schema.now question.now.terms.now question.now.graph.now.triples question.now.strata.now question.now.budget fresh.now kept.old kept.new) }
    ensures err { OnErr result (kept.new ≡ kept.old) }
    ensures bounded { (width count : Held → ℕ) → AreWidths question.now.schema.now question.now.terms.now question.now.graph.now.triples width → CountNeeds question.now.schema.now question.now.graph.now.triples fresh.now count →
        steps.new ≤ steps.old + most_of question.now.schema.now question.now.terms.now question.now.graph.now.triples question.now.budget width count fresh.now }
{
    layers_are_meanings();
    refinement_is_one();
    refinement_is_true();
    refinement_is_complete();
    satisfaction_is_decided();
    strata_are_independent();
    sure_is_true();
    verdict_is_one();
    width_is_one();
    let before = kept.len();
    keep_fresh(alloc, question, links, fresh, kept, steps)?;
    // The number of verdicts tells contracts that their pairs are distinct.
    let _after = kept.len();
    match sure(alloc, question.schema, question.terms, node, expr, &*kept) {
        Ok(verdict) => Ok(verdict),
        Err(error) => {
            kept.truncate(before);
            Err(error)
        }
    }
}
