//! Verdicts on pairs by refinement.

ghost use Rattle.std.specs.Prelude.{ℕ, [], ◌≡◌, ◌≤◌, ◌<◌, ◌+◌, ◌-◌, ◌^◌, IfOk, length, map};
ghost use Rattle.std.specs.List.Sorted.{IsStrictlySortedBy};
ghost use Rattle.graph_index.specs.Contents.{IsSealedWith};
ghost use Rattle.lists.specs.Distinct.{AreDistinct};
ghost use Rattle.schema_tree.specs.declared.schema.Pair.{Pair as Held};
ghost use Rattle.schema_tree.specs.Edges.{IsStratified};
ghost use Rattle.schema_tree.specs.Loaded.{IsLoaded};
ghost use Rattle.schema_tree.specs.Needs.{HoldNeeds};
ghost use Rattle.demand.specs.Links.{AreLinks};
ghost use Rattle.demand.specs.Orders.{compare_pairs, max_pairs};
ghost use Rattle.locality_laws.specs.Local.{AreKept};
ghost use Rattle.removal_laws.specs.Marks.{known_by};
ghost use Rattle.typing_refiner.specs.declared.wanted.Wanted.TheVariants as Wanteds;
ghost use Rattle.typing_refiner.specs.Building.{AreNeeds, AreWidths, is_within, wide_of};
ghost use Rattle.typing_refiner.specs.Evidence.{AreAccepted, AreFine, AreShownBy};
ghost use Rattle.typing_refiner.specs.Posed.{IsPosed};
ghost use Rattle.typing_refiner.specs.Refined.{IsRefinedOn, verdicts_of};
ghost use Rattle.typing_refiner.specs.Refinement.{known_by_it};
ghost use Rattle.typing_refiner.specs.Statements.{AreTrue, AreTrueByAll, AreVerdictsByAll, AreVerdictsOn, AreVerdictsOnByAll};
ghost use Rattle.typing_refiner.specs.Statements.{CountNeeds, IsRefinementOf, IsUnknownOnlyWide, most_of};

use crate::building::{needing, table_of, tell_widths};
use crate::found::{Nothing, Refined};
use crate::ground::Ground;
use crate::strata_loop::Verdicts;
use crate::wanted::Wanted;
use demand::Pairs;
use demand::links::{Link, links};
use demand::table::PairTable;
use graph_index::graph::Graph;
use locality_laws::laws::{
    refinement_is_local, strata_are_bounded, strata_are_independent, verdict_is_one,
};
use rdf_terms::items::Items;
use rdf_terms::table::TermTable;
use schema_tree::laws::{
    refinement_is_complete, refinement_is_true, strata_are_alike, typing_is_one, width_is_one,
};
use schema_tree::schema::{Pair, Schema};
use schema_tree::sure::View;
use std::alloc::{AllocError, Global};
use std::marker::Brand;
use std::sync::ledger::{Blank, Ledger};
use strata::list::Strata;
use tally::Steps;

/// What refinement is asked: verdicts on pairs of a node of the graph and a Shape of the schema.
#[derive(Clone, Copy)]
pub struct Question<'a> {
    /// The schema, which is loaded.
    pub schema: &'a Schema,
    /// The graph, which is sealed with the terms.
    pub graph: &'a Graph,
    /// The terms.
    pub terms: &'a TermTable,
    /// The stratum of each Shape.
    pub strata: &'a Strata,
    /// The greatest Width that is looked into.
    pub budget: u64,
    /// What is to be given.
    pub wanted: Wanted,
}

impl Question<'_> {
    /// The verdicts on the pairs of a table, and records of them where these are wanted.
    fn refine_in<K: View, L: Ledger>(
        &self,
        alloc: Global,
        table: &PairTable,
        narrow: &[bool],
        needing: &[Vec<u32>],
        kept: &K,
        steps: &mut Steps<L>,
    ) -> Result<Verdicts, AllocError>
        requires posed { IsPosed self.now }
        requires sorted { IsStrictlySortedBy (compare_pairs self.now.terms.now) table.now }
        requires narrow { (width : Held → ℕ) → AreWidths self.now.schema.now self.now.terms.now self.now.graph.now.triples width → narrow.now ≡ map (is_within width self.now.budget) table.now }
        requires needing { AreNeeds self.now.schema.now self.now.graph.now.triples table.now (map (λ l. l.items) needing.now) }
        ensures refined { IfOk result (λ v. IsRefinedOn self.now.schema.now self.now.terms.now self.now.graph.now.triples self.now.strata.now table.now self.now.budget (K.known kept.now) (known_by (K.known kept.now) table.now v.marks.items)) }
        ensures shown { (self.now.wanted ≡ Wanteds.Records) → HoldNeeds self.now.schema.now self.now.graph.now.triples table.now → IfOk result (λ v. AreShownBy self.now.schema.now self.now.terms.now self.now.graph.now.triples self.now.strata.now table.now self.now.budget (verdicts_of table.now v.marks.items) v.records.nodes.items v.records.sections.items) }
        ensures unrecorded { (self.now.wanted ≡ Wanteds.Verdicts) →
            IfOk result (λ v. (v.records.nodes.items ≡ []) × (v.records.sections.items ≡ [])) }
        ensures bounded { (width count : Held → ℕ) → AreWidths self.now.schema.now self.now.terms.now self.now.graph.now.triples width → CountNeeds self.now.schema.now self.now.graph.now.triples table.now count →
            steps.new ≤ steps.old + most_of self.now.schema.now self.now.terms.now self.now.graph.now.triples self.now.budget width count table.now }
    {
        width_is_one();
        strata_are_bounded();
        let _count = table.len();
        let ground = Ground {
            schema: self.schema,
            graph: self.graph,
            terms: self.terms,
            strata: self.strata.list(),
            table,
            narrow,
            needing,
            budget: self.budget,
            wanted: self.wanted,
        };
        ground.refine_shown(alloc, kept, steps)
    }

    /// The verdicts on the pairs of a table, where it is told which of them are within the budget, and records of them where
    /// these are wanted; `links` are those of the schema.
    fn refine_told<K: View, L: Ledger>(
        &self,
        alloc: Global,
        links: &[Items<Link>],
        table: &PairTable,
        narrow: &[bool],
        kept: &K,
        steps: &mut Steps<L>,
    ) -> Result<Verdicts, AllocError>
        requires posed { IsPosed self.now }
        requires links { AreLinks self.now.schema.now links.now }
        requires sorted { IsStrictlySortedBy (compare_pairs self.now.terms.now) table.now }
        requires narrow { (width : Held → ℕ) → AreWidths self.now.schema.now self.now.terms.now self.now.graph.now.triples width → narrow.now ≡ map (is_within width self.now.budget) table.now }
        ensures refined { IfOk result (λ v. IsRefinedOn self.now.schema.now self.now.terms.now self.now.graph.now.triples self.now.strata.now table.now self.now.budget (K.known kept.now) (known_by (K.known kept.now) table.now v.marks.items)) }
        ensures shown { (self.now.wanted ≡ Wanteds.Records) → HoldNeeds self.now.schema.now self.now.graph.now.triples table.now → IfOk result (λ v. AreShownBy self.now.schema.now self.now.terms.now self.now.graph.now.triples self.now.strata.now table.now self.now.budget (verdicts_of table.now v.marks.items) v.records.nodes.items v.records.sections.items) }
        ensures unrecorded { (self.now.wanted ≡ Wanteds.Verdicts) →
            IfOk result (λ v. (v.records.nodes.items ≡ []) × (v.records.sections.items ≡ [])) }
        ensures bounded { (width count : Held → ℕ) → AreWidths self.now.schema.now self.now.terms.now self.now.graph.now.triples width → CountNeeds self.now.schema.now self.now.graph.now.triples table.now count →
            steps.new ≤ steps.old + most_of self.now.schema.now self.now.terms.now self.now.graph.now.triples self.now.budget width count table.now }
    {
        let needing = needing(alloc, self.schema, self.graph, self.terms, links, table)?;
        self.refine_in(alloc, table, narrow, needing.as_slice(), kept, steps)
    }

    /// Refines pairs over what is kept of others; `links` are those of the schema.
    fn refine_over<K: View, L: Ledger>(
        &self,
        alloc: Global,
        links: &[Items<Link>],
        pairs: &[Pair],
        kept: &K,
        steps: &mut Steps<L>,
    ) -> Result<Refined, AllocError>
        requires posed { IsPosed self.now }
        requires links { AreLinks self.now.schema.now links.now }
        requires distinct { AreDistinct pairs.now }
        requires sorted { IsStrictlySortedBy (compare_pairs self.now.terms.now) pairs.now }
        requires few { length pairs.now ≤ max_pairs }
        ensures refined { IfOk result (λ r. IsRefinedOn self.now.schema.now self.now.terms.now self.now.graph.now.triples self.now.strata.now pairs.now self.now.budget (K.known kept.now) (known_by (K.known kept.now) pairs.now r.marks)) }
        ensures table { IfOk result (λ r. r.pairs ≡ pairs.now) }
        ensures wide { IfOk result (λ r. (width : Held → ℕ) → AreWidths self.now.schema.now self.now.terms.now self.now.graph.now.triples width → r.wide ≡ wide_of width self.now.budget pairs.now) }
        ensures shown { (self.now.wanted ≡ Wanteds.Records) → HoldNeeds self.now.schema.now self.now.graph.now.triples pairs.now → IfOk result (λ r. AreShownBy self.now.schema.now self.now.terms.now self.now.graph.now.triples self.now.strata.now pairs.now self.now.budget (known_by_it r) r.nodes r.sections) }
        ensures unrecorded { (self.now.wanted ≡ Wanteds.Verdicts) → IfOk result (λ r. (r.nodes ≡ []) × (r.sections ≡ [])) }
        ensures bounded { (width count : Held → ℕ) → AreWidths self.now.schema.now self.now.terms.now self.now.graph.now.triples width → CountNeeds self.now.schema.now self.now.graph.now.triples pairs.now count →
            steps.new ≤ steps.old + most_of self.now.schema.now self.now.terms.now self.now.graph.now.triples self.now.budget width count pairs.now }
    {
        let told = tell_widths(
            alloc,
            self.schema,
            self.graph,
            self.terms,
            pairs,
            self.budget,
        )?;
        let table = table_of(alloc, pairs)?;
        let narrow = told.narrow.as_slice();
        let found = self.refine_told(alloc, links, &table, narrow, kept, steps)?;
        Ok(Refined {
            table,
            marks: found.marks,
            wide: told.wide,
            records: found.records,
        })
    }

    /// Refines pairs over nothing that is kept, and counts steps that nobody reads; `links` are those of the schema.
    fn refine_alone<L: Ledger>(
        &self,
        blank: Blank,
        alloc: Global,
        links: &[Items<Link>],
        pairs: &[Pair],
    ) -> Result<Refined, AllocError>
        requires name { blank.name ≡ L.name }
        requires parts { blank.parts ≡ L.parts }
        requires some { 0 < blank.parts }
        requires posed { IsPosed self.now }
        requires links { AreLinks self.now.schema.now links.now }
        requires closed { HoldNeeds self.now.schema.now self.now.graph.now.triples pairs.now }
        requires distinct { AreDistinct pairs.now }
        requires sorted { IsStrictlySortedBy (compare_pairs self.now.terms.now) pairs.now }
        requires few { length pairs.now ≤ max_pairs }
        ensures refined { IfOk result (λ r. IsRefinementOf self.now.schema.now self.now.terms.now self.now.graph.now.triples self.now.strata.now self.now.budget pairs.now (known_by_it r)) }
        ensures table { IfOk result (λ r. r.pairs ≡ pairs.now) }
        ensures wide { IfOk result (λ r. (width : Held → ℕ) → AreWidths self.now.schema.now self.now.terms.now self.now.graph.now.triples width → r.wide ≡ wide_of width self.now.budget pairs.now) }
        ensures shown { (self.now.wanted ≡ Wanteds.Records) → IfOk result (λ r. AreShownBy self.now.schema.now self.now.terms.now self.now.graph.now.triples self.now.strata.now pairs.now self.now.budget (known_by_it r) r.nodes r.sections) }
        ensures unrecorded { (self.now.wanted ≡ Wanteds.Verdicts) → IfOk result (λ r. (r.nodes ≡ []) × (r.sections ≡ [])) }
    {
        let mut steps = Steps::<L>::new(blank);
        self.refine_over(alloc, links, pairs, &Nothing, &mut steps)
    }

    /// The verdicts of refinement on a list of pairs, over what is kept of those that they need besides: on each pair of the
    /// list the verdict that refinement of all that it needs would give, and Unknown on every other. `links` are those of the
    /// schema, which is not gone through, so a small list takes little time by a large schema. For each pair whose Width is
    /// within the budget it ticks at most (2 × k + 3) × (d + 1) × Width times, where k is how many pairs of the list it needs
    /// and d is how many of its node's triples are relevant. Where records are wanted, they are made as those of `refine`, and
    /// show the verdicts where the list holds all that it needs.
    pub fn refine_from<K: View, L: Ledger>(
        &self,
        alloc: Global,
        links: &[Items<Link>],
        pairs: &[Pair],
        kept: &K,
        steps: &mut Steps<L>,
    ) -> Result<Refined, AllocError>
        requires posed { IsPosed self.now }
        requires links { AreLinks self.now.schema.now links.now }
        requires distinct { AreDistinct pairs.now }
        requires sorted { IsStrictlySortedBy (compare_pairs self.now.terms.now) pairs.now }
        requires few { length pairs.now ≤ max_pairs }
        requires kept { AreKept self.now.schema.now self.now.terms.now self.now.graph.now.triples self.now.strata.now self.now.budget (K.known kept.now) pairs.now }

        // The verdicts are those of refinement of all that the list needs, and true of every complete typing, by whichever strata.
        ensures verdicts { IfOk result (λ r. AreVerdictsOn self.now.schema.now self.now.terms.now self.now.graph.now.triples self.now.strata.now self.now.budget pairs.now (known_by_it r)) }
        ensures true_by_all { IfOk result (λ r. AreTrueByAll self.now.schema.now self.now.terms.now self.now.graph.now.triples self.now.strata.now self.now.budget pairs.now (known_by_it r)) }

        // They are the same by any strata, so those by the least.
        ensures by_all { IfOk result (λ r. AreVerdictsOnByAll self.now.schema.now self.now.terms.now self.now.graph.now.triples self.now.budget pairs.now (known_by_it r)) }

        // A pair of the list is Unknown only where it reaches one whose Width is above the budget.
        ensures only_wide { IfOk result (λ r. IsUnknownOnlyWide self.now.schema.now self.now.terms.now self.now.graph.now.triples self.now.strata.now self.now.budget pairs.now (known_by_it r)) }
        ensures wide { IfOk result (λ r. (width : Held → ℕ) → AreWidths self.now.schema.now self.now.terms.now self.now.graph.now.triples width → r.wide ≡ wide_of width self.now.budget pairs.now) }

        // Where records are wanted and the list holds all that it needs, they show exactly the verdicts, and are accepted.
        ensures records { (self.now.wanted ≡ Wanteds.Records) → HoldNeeds self.now.schema.now self.now.graph.now.triples pairs.now → IfOk result (λ r. AreShownBy self.now.schema.now self.now.terms.now self.now.graph.now.triples self.now.strata.now pairs.now self.now.budget (known_by_it r) r.nodes r.sections) }
        ensures fine { (self.now.wanted ≡ Wanteds.Records) → HoldNeeds self.now.schema.now self.now.graph.now.triples pairs.now → IfOk result (λ r. AreFine r.sections) }
        ensures accepted { (self.now.wanted ≡ Wanteds.Records) → HoldNeeds self.now.schema.now self.now.graph.now.triples pairs.now → IfOk result (λ r. AreAccepted self.now.schema.now self.now.terms.now self.now.graph.now.triples self.now.strata.now pairs.now r.nodes r.sections) }

        // Where the verdicts alone are wanted, nothing is recorded.
        ensures unrecorded { (self.now.wanted ≡ Wanteds.Verdicts) → IfOk result (λ r. (r.nodes ≡ []) × (r.sections ≡ [])) }

        // However it ends, it ticks at most so often.
        ensures bounded { (width count : Held → ℕ) → AreWidths self.now.schema.now self.now.terms.now self.now.graph.now.triples width → CountNeeds self.now.schema.now self.now.graph.now.triples pairs.now count →
            steps.new ≤ steps.old + most_of self.now.schema.now self.now.terms.now self.now.graph.now.triples self.now.budget width count pairs.now }
    {
        refinement_is_local();
        verdict_is_one();
        typing_is_one();
        strata_are_alike();
        strata_are_independent();
        // The length of a graph tells contracts that it is within the limit.
        let _held = self.graph.len();
        self.refine_over(alloc, links, pairs, kept, steps)
    }
}

/// The verdicts of refinement on pairs that hold all that they need. From the lowest stratum on, the pairs of a stratum
/// whose Width is within the budget go, the first of them next, as long as one cannot match; of those that are left, the
/// greatest set whose pairs match with one another is Yes. Where records are wanted, each pair with Yes or No has one.
pub fn refine(
    alloc: Global,
    schema: &Schema,
    graph: &Graph,
    terms: &TermTable,
    strata: &Strata,
    pairs: &Pairs,
    budget: u64,
    wanted: Wanted,
) -> Result<Refined, AllocError>
    requires loaded { IsLoaded schema.now }
    requires sealed { IsSealedWith terms.now graph.now }
    requires stratified { IsStratified schema.now strata.now }
    requires sorted { IsStrictlySortedBy (compare_pairs terms.now) pairs.now }
    requires closed { HoldNeeds schema.now graph.now.triples pairs.now }
    requires budget { budget < 2 ^ 64 - 1 }

    // The verdicts are those of refinement, and true of every complete typing, by whichever strata.
    ensures verdicts { IfOk result (λ r. IsRefinementOf schema.now terms.now graph.now.triples strata.now budget pairs.now (known_by_it r)) }
    ensures true_verdicts { IfOk result (λ r. AreTrue schema.now terms.now graph.now.triples strata.now budget pairs.now (known_by_it r)) }
    ensures true_by_all { IfOk result (λ r. AreTrueByAll schema.now terms.now graph.now.triples strata.now budget pairs.now (known_by_it r)) }

    // They are the same by any strata, so those by the least.
    ensures by_all { IfOk result (λ r. AreVerdictsByAll schema.now terms.now graph.now.triples budget pairs.now (known_by_it r)) }

    // A pair is Unknown only where it reaches one whose Width is above the budget.
    ensures only_wide { IfOk result (λ r. IsUnknownOnlyWide schema.now terms.now graph.now.triples strata.now budget pairs.now (known_by_it r)) }
    ensures wide { IfOk result (λ r. (width : Held → ℕ) → AreWidths schema.now terms.now graph.now.triples width → r.wide ≡ wide_of width budget pairs.now) }

    // The records show exactly the verdicts, and are accepted.
    ensures records { (wanted ≡ Wanteds.Records) → IfOk result (λ r. AreShownBy schema.now terms.now graph.now.triples strata.now pairs.now budget (known_by_it r) r.nodes r.sections) }
    ensures fine { (wanted ≡ Wanteds.Records) → IfOk result (λ r. AreFine r.sections) }
    ensures accepted { (wanted ≡ Wanteds.Records) → IfOk result (λ r. AreAccepted schema.now terms.now graph.now.triples strata.now pairs.now r.nodes r.sections) }

    // Where the verdicts alone are wanted, nothing is recorded.
    ensures unrecorded { (wanted ≡ Wanteds.Verdicts) → IfOk result (λ r. (r.nodes ≡ []) × (r.sections ≡ [])) }
{
    refinement_is_true();
    refinement_is_complete();
    typing_is_one();
    strata_are_alike();
    strata_are_independent();
    width_is_one();
    let links = links(alloc, schema)?;
    let list = pairs.list();
    // The length of a graph tells contracts that it is within the limit.
    let _held = graph.len();
    let question = Question {
        schema,
        graph,
        terms,
        strata,
        budget,
        wanted,
    };
    question.refine_alone::<Brand>(Blank::new(1), alloc, links.as_slice(), list)
}
