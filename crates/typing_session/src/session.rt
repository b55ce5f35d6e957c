//! A graph that is edited and asked again and again, with the verdicts that outlive the edits.

ghost use Rattle.std.specs.Prelude.{ℕ, List, [], ◌∷◌, ◌≡◌, ◌≤◌, ◌<◌, ◌+◌, ◌-◌, ◌^◌, ◌↔◌, All, Contains, IfOk, IfSome, IsNone, IsTrue, OnErr, OnOk, Some, length, slice_get};
ghost use Rattle.std.specs.Bool.{OnFalse, OnTrue};
ghost use Rattle.std.specs.List.Sorted.{IsPermutation};
ghost use Rattle.graph_index.specs.Contents.{IsSealedWith, max_triples};
ghost use Rattle.graph_index.specs.Laws.{IsOfTable};
ghost use Rattle.lists.specs.Additions.{Adds};
ghost use Rattle.lists.specs.Distinct.{AreDistinct};
ghost use Rattle.locality_laws.specs.Local.{IsVerdict};
ghost use Rattle.rdf_terms.specs.Tables.{max_terms};
ghost use Rattle.schema_tree.specs.declared.schema.Pair.{Pair as Held};
ghost use Rattle.schema_tree.specs.declared.verdicts.Verdict.{Verdict as Found};
ghost use Rattle.schema_tree.specs.Edges.{IsStratified};
ghost use Rattle.schema_tree.specs.Loaded.{HasTarget, IsLoaded, IsTarget};
ghost use Rattle.schema_tree.specs.Needs.{Reaches};
ghost use Rattle.typing_refiner.specs.Building.{AreWidths};
ghost use Rattle.typing_refiner.specs.Statements.{CountNeeds, most_of};
ghost use Rattle.typing_session.specs.Edits.{Loses};
ghost use Rattle.typing_session.specs.Questions.{AreFresh, IsAnswer, IsAnswerByAll, IsTrueAnswer, IsUnknownOnlyWide, IsVerdictByAll, Keeps, ReachesTooMany};
ghost use Rattle.typing_session.specs.Seen.{with_graph, with_kept, with_terms};
ghost use Rattle.typing_session.specs.Widths.{AreReachedWide};

use crate::answering::{answer, asked, reached};
use crate::error::AskError;
use crate::kept::Kept;
use crate::laws::{edits_are_local, growth_is_local};
use crate::reaching::reaching;
use crate::references::{References, find_references, found_references};
use crate::widths::wide_among;
use graph_index::graph::{AddError, Graph, MAX_TRIPLES};
use graph_index::laws::sealing_outlives_growth;
use locality_laws::laws::strata_are_independent;
use rdf_terms::table::{PutError, TermTable};
use rdf_terms::terms::{Term, TermId, Triple};
use schema_tree::laws::width_is_one;
use schema_tree::schema::{ExprId, Pair, Schema, Target};
use schema_tree::verdicts::Verdict;
use std::alloc::{AllocError, Global};
use std::marker::Model;
use std::sync::ledger::Ledger;
use strata::list::Strata;
use tally::Steps;
use typing_refiner::building::WidePair;
use typing_refiner::{Question, Wanted};

/// A graph with its terms and a schema, and verdicts on pairs of a node and a Shape that are kept from question to question.
#[derive(Drop)]
pub struct Session {
    alloc: Global,
    schema: Schema,
    // The references between the Shapes, once a question or an edit has asked for them.
    references: Option<References>,
    graph: Graph,
    terms: TermTable,
    strata: Strata,
    budget: u64,
    kept: Kept,
}

impl Model for Session {
    ghost use Rattle.std.specs.Coded.{codes};
    ghost use Rattle.std.specs.Prelude.{IfSome};
    ghost use Rattle.schema_tree.specs.PlanCodes.{coded_plan};
    ghost use Rattle.typing_session.specs.Kept.{pairs_of};
    ghost use Rattle.typing_session.specs.References.{AreReferences};
    ghost use Rattle.typing_session.specs.Seen.{Seen};
    ghost use Rattle.typing_session.specs.Sound.{AreSound, IsHeld, IsReady};

    ghost Value = { Seen };

    ghost coded = { Prim.hlevel (codes, coded_plan) };

    ghost view = { λ x. record { graph = x.graph.triples; terms = x.terms; schema = x.schema; strata = x.strata; budget = x.budget; kept = pairs_of x.kept } };

    ghost invariant = { λ x. IsReady x.schema x.strata x.budget × IsHeld x.terms x.graph × AreSound x.schema x.terms x.graph x.strata x.budget x.kept
        × IfSome x.references (AreReferences x.schema) };
}

impl Session {
    /// A session in which nothing is kept. The graph is sealed with the terms, which are those of its triples.
    pub fn new(
        alloc: Global,
        schema: Schema,
        graph: Graph,
        terms: TermTable,
        strata: Strata,
        budget: u64,
    ) -> Session
        requires loaded { IsLoaded schema }
        requires stratified { IsStratified schema strata }
        requires budget { budget < 2 ^ 64 - 1 }
        requires sealed { IsSealedWith terms graph }
        requires ends { All (IsOfTable terms) graph.triples }
        ensures { result ≡ record { graph = graph.triples; terms = terms; schema = schema; strata = strata; budget = budget; kept = [] } }
    {
        Session {
            alloc,
            schema,
            references: None,
            graph,
            terms,
            strata,
            budget,
            kept: Kept::new(alloc),
        }
    }

    /// The number of the term, which goes last where it is new. It fails as `Full` where the term is new and there are
    /// 4,294,967,295 terms; a refusal changes nothing.
    pub fn term(&mut self, term: Term) -> Result<TermId, PutError>
        ensures number { IfOk result (λ id. slice_get self.new.terms id.0 ≡ Some term) }
        ensures added { OnOk result (Adds self.old.terms term self.new.terms) }
        ensures full { (result ≡ Err PutError.Full) ↔ ((¬ Contains self.old.terms term) × (length self.old.terms ≡ max_terms)) }
        ensures alone { self.new ≡ with_terms self.new.terms self.old }
        ensures err { OnErr result (self.new ≡ self.old) }
    {
        growth_is_local();
        sealing_outlives_growth();
        // The number of verdicts tells contracts that their pairs are distinct.
        let _kept = self.kept.len();
        self.terms.put(term)
    }

    /// The expression of a target, and `None` exactly where the label is not declared or there is no start.
    pub fn target(&self, target: &Target) -> Option<ExprId>
        ensures found { IfSome result (IsTarget self.now.schema target.now) }
        ensures absent { IsNone result ↔ (¬ HasTarget self.now.schema target.now) }
    {
        self.schema.target(target)
    }

    /// Adds a triple of the session's terms, and answers whether it is new; then of the kept pairs exactly those are lost
    /// that reach a pair at its subject or object. It fails as `Full` where the triple is new and the graph holds
    /// 4,000,000; a refusal changes nothing.
    pub fn add(&mut self, triple: Triple) -> Result<bool, AddError>
        requires ids { IsOfTable self.old.terms triple }
        ensures new { IfOk result (λ new. IsTrue new ↔ (¬ Contains self.old.graph triple)) }
        ensures added { OnOk result (Adds self.old.graph triple self.new.graph) }
        ensures full { (result ≡ Err AddError.Full) ↔ ((¬ Contains self.old.graph triple) × (length self.old.graph ≡ max_triples)) }
        ensures loses { IfOk result (λ new. OnTrue new (Loses self.old.schema self.old.graph triple self.old.kept self.new.kept)) }
        ensures loses_after { IfOk result (λ new. OnTrue new (Loses self.old.schema self.new.graph triple self.old.kept self.new.kept)) }
        ensures held { IfOk result (λ new. OnFalse new (self.new ≡ self.old)) }
        ensures alone { self.new ≡ with_graph self.new.graph self.new.kept self.old }
        ensures err { OnErr result (self.new ≡ self.old) }
    {
        edits_are_local();
        if self.graph.holds(triple) {
            return Ok(false);
        }
        if self.graph.len() as usize >= MAX_TRIPLES {
            return Err(AddError::Full);
        }
        let Ok(touched) = reaching(
            self.alloc,
            &self.schema,
            &mut self.references,
            &self.graph,
            &self.terms,
            &self.kept,
            triple,
        ) else {
            return Err(AddError::Memory);
        };
        self.graph.insert_sealed(triple, &self.terms)?;
        self.kept.forget_all(touched.as_slice());
        Ok(true)
    }

    /// Removes a triple, and answers whether it was held; then of the kept pairs exactly those are lost that reach a pair at
    /// its subject or object. A refusal changes nothing.
    pub fn remove(&mut self, triple: Triple) -> Result<bool, AllocError>
        ensures held { IfOk result (λ held. IsTrue held ↔ Contains self.old.graph triple) }
        ensures removed { IfOk result (λ held. OnTrue held (IsPermutation self.old.graph (triple ∷ self.new.graph))) }
        ensures loses { IfOk result (λ held. OnTrue held (Loses self.old.schema self.old.graph triple self.old.kept self.new.kept)) }
        ensures loses_after { IfOk result (λ held. OnTrue held (Loses self.old.schema self.new.graph triple self.old.kept self.new.kept)) }
        ensures absent { IfOk result (λ held. OnFalse held (self.new ≡ self.old)) }
        ensures alone { self.new ≡ with_graph self.new.graph self.new.kept self.old }
        ensures err { OnErr result (self.new ≡ self.old) }
    {
        edits_are_local();
        // The length of a graph tells contracts that its triples are distinct.
        let _held = self.graph.len();
        if !self.graph.holds(triple) {
            return Ok(false);
        }
        let lost = reaching(
            self.alloc,
            &self.schema,
            &mut self.references,
            &self.graph,
            &self.terms,
            &self.kept,
            triple,
        )?;
        self.graph.remove_sealed(triple, &self.terms)?;
        self.kept.forget_all(lost.as_slice());
        Ok(true)
    }

    /// The verdict that is kept on a pair, which is that of refinement over the graph as it is, and `None` exactly where
    /// none is kept. It takes no memory.
    pub fn peek(&self, pair: Pair) -> Option<Verdict>
        ensures verdict { IfSome result (IsVerdict self.now.schema self.now.terms self.now.graph self.now.strata self.now.budget pair) }
        ensures by_all { IfSome result (IsVerdictByAll self.now.schema self.now.terms self.now.graph self.now.budget pair) }
        ensures absent { IsNone result ↔ (¬ Contains self.now.kept pair) }
    {
        strata_are_independent();
        self.kept.get(pair)
    }

    /// The verdict on a node of the session's terms with an expression: what the expression is at the node under the verdicts
    /// of refinement of all pairs that the two reach in the graph as it is, whatever was added, removed and asked before. Then
    /// verdicts on these pairs are kept, and on those on which they were. Of the steps that refinement takes it ticks at most
    /// those for the pairs on which none was kept, so never where verdicts on all were. It does not ask what others need, as
    /// long as these and the kept ones are at most 4,194,304. It fails as `Pairs` exactly where the two reach more than
    /// 4,194,304 pairs; a refusal changes nothing.
    pub fn ask<L: Ledger>(
        &mut self,
        node: TermId,
        expr: ExprId,
        steps: &mut Steps<L>,
    ) -> Result<Verdict, AskError>
        requires node { node.0 < length self.old.terms }
        ensures answer { IfOk result (IsAnswer self.old.schema self.old.terms self.old.graph self.old.strata self.old.budget node expr) }
        ensures no_other { IfOk result (λ v. (w : Found) → IsAnswer self.old.schema self.old.terms self.old.graph self.old.strata self.old.budget node expr w → w ≡ v) }
        ensures by_all { IfOk result (IsAnswerByAll self.old.schema self.old.terms self.old.graph self.old.budget node expr) }
        ensures true_answer { IfOk result (IsTrueAnswer self.old.schema self.old.terms self.old.graph self.old.strata node expr) }
        ensures only_wide { IfOk result (IsUnknownOnlyWide self.old.schema self.old.terms self.old.graph self.old.budget node expr) }
        ensures keeps { OnOk result (Keeps self.old.schema self.old.graph node expr self.old.kept self.new.kept) }
        ensures alone { self.new ≡ with_kept self.new.kept self.old }
        ensures err { OnErr result (self.new ≡ self.old) }
        ensures many { (result ≡ Err AskError.Pairs) → ReachesTooMany self.old.schema self.old.graph node expr }
        ensures few { IfOk result (λ v. ¬ ReachesTooMany self.old.schema self.old.graph node expr) }
        ensures bounded { (fresh : List Held) (width count : Held → ℕ) → AreFresh self.old.schema self.old.terms self.old.graph self.old.kept node expr fresh →
            AreWidths self.old.schema self.old.terms self.old.graph width → CountNeeds self.old.schema self.old.graph fresh count →
            steps.new ≤ steps.old + most_of self.old.schema self.old.terms self.old.graph self.old.budget width count fresh }
        ensures silent { ((q : Held) → Reaches self.old.schema self.old.graph node expr q → Contains self.old.kept q) → steps.new ≤ steps.old }
    {
        width_is_one();
        find_references(self.alloc, &self.schema, &mut self.references)?;
        let links = found_references(&self.references).links.as_slice();
        let fresh = asked(
            self.alloc,
            &self.schema,
            links,
            &self.graph,
            &self.terms,
            &self.kept,
            node,
            expr,
        )?;
        let question = Question {
            schema: &self.schema,
            graph: &self.graph,
            terms: &self.terms,
            strata: &self.strata,
            budget: self.budget,
            wanted: Wanted::Verdicts,
        };
        let verdict = answer(
            self.alloc,
            &question,
            links,
            fresh.as_slice(),
            node,
            expr,
            &mut self.kept,
            steps,
        )?;
        Ok(verdict)
    }

    /// The terms of the session.
    pub fn terms(&self) -> &TermTable
        ensures { result.now ≡ self.now.terms }
    {
        &self.terms
    }

    /// The greatest Width that is looked into.
    pub fn budget(&self) -> u64
        ensures { result ≡ self.now.budget }
    {
        self.budget
    }

    /// The pairs that a node with an expression reaches and whose Width is above the budget, in the order of the texts of
    /// their nodes and then of their Shapes. It fails as `Pairs` exactly where the two reach more than 4,194,304 pairs.
    pub fn wide(&self, node: TermId, expr: ExprId) -> Result<Vec<WidePair>, AskError>
        ensures wide { IfOk result (λ w. AreReachedWide self.now.schema self.now.terms self.now.graph self.now.budget node expr w.items) }
        ensures many { (result ≡ Err AskError.Pairs) → ReachesTooMany self.now.schema self.now.graph node expr }
        ensures few { IfOk result (λ w. ¬ ReachesTooMany self.now.schema self.now.graph node expr) }
    {
        let pairs = reached(
            self.alloc,
            &self.schema,
            &self.graph,
            &self.terms,
            node,
            expr,
        )?;
        let wide = wide_among(
            self.alloc,
            &self.schema,
            &self.graph,
            &self.terms,
            pairs.list(),
            self.budget,
        )?;
        Ok(wide)
    }
}
