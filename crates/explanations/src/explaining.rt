//! The explanation of associations.

ghost use Rattle.std.specs.Prelude.{ℕ, ◌≡◌, ◌≤◌, ◌<◌, ◌+◌, ◌^◌, ◌++◌, ◌∷◌, [], List, Contains, IfOk, OnOk, Some, length, slice_get, take, if◌then◌else◌};
ghost use Rattle.std.specs.List.{AllByRecursion, AllZip, flat_map};
ghost use Rattle.graph_index.specs.Contents.{IsSealedWith};
ghost use Rattle.rdf_terms.specs.declared.terms.Term.{Term};
ghost use Rattle.schema_tree.specs.declared.schema.Schema.{Schema as Tree};
ghost use Rattle.schema_tree.specs.declared.verdicts.Verdict.TheVariants as Verdicts;
ghost use Rattle.schema_tree.specs.Entries.{entry};
ghost use Rattle.schema_tree.specs.Loaded.{IsEntry, IsLoaded};
ghost use Rattle.schema_tree.specs.Matches.{fits};
ghost use Rattle.schema_tree.specs.Sure.{IsSure, Known};
ghost use Rattle.nonconformance.specs.Causes.{AreCauses};
ghost use Rattle.nonconformance.specs.Reasons.{IsKnownReason};
ghost use Rattle.nonconformance.specs.declared.reason.Reason.TheVariants.{Unmatched};
ghost use Rattle.shape_map.specs.declared.resolve.Association.{Association as Asked};
ghost use Rattle.explanations.specs.declared.explanation.Block.{Block as Piece};
ghost use Rattle.explanations.specs.declared.subject.Subject.{Subject as About};
ghost use Rattle.explanations.specs.declared.subject.Subject.TheVariants as Abouts;
ghost use Rattle.explanations.specs.Blocks.{HasMisfits, HasOffers, IsBlock, IsMisfit, IsToldCause, IsToldReason, IsWhy, IsWhyOf, fitting, members_of};
ghost use Rattle.explanations.specs.Explanations.{IsAskedWhy, IsExplanation, IsTold};
ghost use Rattle.explanations.specs.Finding.{AreTold, IsConstraint, IsRefused, IsSeen};
ghost use Rattle.explanations.specs.Laws.{NoneCanMatch};
ghost use Rattle.explanations.specs.Mentions.{asked_mentions, block_mentions, blocks_of, cause_mentions, misfit_mentions, reason_mentions, told_mentions, why_mentions};
ghost use Rattle.explanations.specs.Numbers.{Fails, FailsAt, GoesOn, Numbers};

use crate::explanation::{Block, Explanation, Misfit, Told, ToldCause, ToldReason, Why};
use crate::subject::Subject;
use crate::subjects::Subjects;
use graph_index::graph::Graph;
use nonconformance::cause::Cause;
use nonconformance::causes::causes_of;
use nonconformance::finding::{offers_of, reasons_of};
use nonconformance::laws::reasons_are_whole;
use nonconformance::offers::Offer;
use nonconformance::reason::Reason;
use rdf_terms::items::Items;
use rdf_terms::table::TermTable;
use rdf_terms::terms::{TermId, Triple};
use schema_tree::schema::{Expr, ExprId, Occurrence, Pair, Schema};
use schema_tree::sure::{View, sure};
use schema_tree::verdicts::Verdict;
use shape_map::Association;
use std::alloc::{AllocError, Global};

/// The number of a subject, in place of why it fails.
fn see(seen: &mut Subjects, subject: Subject) -> Result<Why, AllocError>
    ensures numbers { IfOk result (λ w. (s : Tree) (terms : List Term) (view : Known) → Fails s terms view subject →
        Numbers s terms view seen.old (why_mentions w) seen.new) }
    ensures is { IfOk result (λ w. (all : List About) → GoesOn seen.new all → IsSeen all subject w) }
{
    let number = seen.number(subject)?;
    Ok(Why::See(number + 1))
}

/// Puts the number of an occurrence behind the others, where it fits the triple.
fn push_fitting(
    number: u16,
    occurrence: Occurrence,
    node: TermId,
    triple: Triple,
    numbers: &mut Vec<u16>,
) -> Result<(), AllocError>
    ensures { OnOk result (numbers.new.items ≡ numbers.old.items ++ (if fits occurrence node triple then number ∷ [] else [])) }
{
    if occurrence.fits(node, triple) {
        numbers.push(number)?;
    }
    Ok(())
}

/// The numbers of the occurrences that fit a triple of the node.
fn fitting(
    alloc: Global,
    node: TermId,
    triple: Triple,
    occs: &[Occurrence],
) -> Result<Vec<u16>, AllocError>
    requires { length occs.now ≤ 256 }
    ensures { IfOk result (λ v. v.items ≡ fitting node triple occs.now) }
{
    let mut numbers = Vec::new(alloc);
    for i in 0..occs.len() {
        push_fitting(i as u16, occs[i], node, triple, &mut numbers)?;
    }
    Ok(numbers)
}

/// What is explained: nodes of a graph under a schema, by what is known of pairs.
#[derive(Drop)]
struct Source<'a, V> {
    alloc: Global,
    schema: &'a Schema,
    graph: &'a Graph,
    terms: &'a TermTable,
    view: &'a V,
}

impl<V: View> Source<'_, V> {
    /// The first part of a node constraint that does not hold for the node.
    fn failed_part(&self, node: TermId, expr: ExprId) -> Result<Why, AllocError>
        requires loaded { IsLoaded self.now.schema.now }
        requires fails { FailsAt self.now.schema.now self.now.terms.now (V.known self.now.view.now) node expr }
        requires constraint { IsConstraint (entry self.now.schema.now expr) }
        ensures mentions { IfOk result (λ w. why_mentions w ≡ []) }
        ensures is { IfOk result (λ w. (all : List About) → IsWhyOf self.now.schema.now self.now.terms.now (V.known self.now.view.now) all node expr
            (entry self.now.schema.now expr) w) }
    {
        let causes = causes_of(self.alloc, self.schema, self.terms, self.view, node, expr)?;
        let Some(cause) = causes.as_slice().first() else {
            unreachable!()
        };
        let Cause::FailedPart(part) = cause else {
            unreachable!()
        };
        Ok(Why::Part(*part))
    }

    /// Why the node does not satisfy the expression.
    fn why(&self, node: TermId, expr: ExprId, seen: &mut Subjects) -> Result<Why, AllocError>
        requires loaded { IsLoaded self.now.schema.now }
        requires fails { FailsAt self.now.schema.now self.now.terms.now (V.known self.now.view.now) node expr }
        ensures numbers { IfOk result (λ w. Numbers self.now.schema.now self.now.terms.now (V.known self.now.view.now) seen.old (why_mentions w) seen.new) }
        ensures is { IfOk result (λ w. (all : List About) → GoesOn seen.new all →
            IsWhy self.now.schema.now self.now.terms.now (V.known self.now.view.now) all node expr w) }
    {
        match self.schema.exprs.as_slice().get(expr.0 as usize) {
            Some(Expr::And(_)) => see(seen, Subject::Expr(node, expr)),
            Some(Expr::Or(_)) => see(seen, Subject::Expr(node, expr)),
            Some(Expr::Not(_)) => see(seen, Subject::Expr(node, expr)),
            Some(Expr::Node(_)) => self.failed_part(node, expr),
            Some(Expr::Shape(shape)) => {
                let shape = *shape;
                see(seen, Subject::Pair(Pair { node, shape }))
            }
            None => unreachable!(),
        }
    }

    /// Why the node does not satisfy each of the expressions.
    fn whys(
        &self,
        node: TermId,
        exprs: &[ExprId],
        seen: &mut Subjects,
    ) -> Result<Vec<Why>, AllocError>
        requires loaded { IsLoaded self.now.schema.now }
        requires fail { AllByRecursion (FailsAt self.now.schema.now self.now.terms.now (V.known self.now.view.now) node) exprs.now }
        ensures numbers { IfOk result (λ v. Numbers self.now.schema.now self.now.terms.now (V.known self.now.view.now) seen.old
            (flat_map why_mentions v.items) seen.new) }
        ensures are { IfOk result (λ v. (all : List About) → GoesOn seen.new all →
            AllZip (IsWhy self.now.schema.now self.now.terms.now (V.known self.now.view.now) all node) exprs.now v.items) }
    {
        let mut whys = Vec::new(self.alloc);
        for expr in exprs {
            whys.push(self.why(node, *expr, seen)?)?;
        }
        Ok(whys)
    }

    /// Why the constraint of this number, which fits the triple, does not take it.
    fn misfit(
        &self,
        occs: &[Occurrence],
        number: u16,
        triple: Triple,
        seen: &mut Subjects,
    ) -> Result<Misfit, AllocError>
        requires loaded { IsLoaded self.now.schema.now }
        requires refused { IsRefused self.now.schema.now self.now.terms.now (V.known self.now.view.now) occs.now triple number }
        ensures numbers { IfOk result (λ m. Numbers self.now.schema.now self.now.terms.now (V.known self.now.view.now) seen.old
            (misfit_mentions m) seen.new) }
        ensures is { IfOk result (λ m. (all : List About) → GoesOn seen.new all →
            IsMisfit self.now.schema.now self.now.terms.now (V.known self.now.view.now) all occs.now triple number m) }
    {
        let occurrence = occs[number as usize];
        let node = occurrence.other_end(triple);
        let Some(value) = occurrence.value else {
            unreachable!()
        };
        let why = self.why(node, value, seen)?;
        Ok(Misfit {
            constraint: number,
            node,
            value,
            why,
        })
    }

    /// Why the constraints of these numbers, which fit the triple, do not take it.
    fn misfits(
        &self,
        occs: &[Occurrence],
        numbers: &[u16],
        triple: Triple,
        seen: &mut Subjects,
    ) -> Result<Vec<Misfit>, AllocError>
        requires loaded { IsLoaded self.now.schema.now }
        requires refused { AllByRecursion (IsRefused self.now.schema.now self.now.terms.now (V.known self.now.view.now) occs.now triple) numbers.now }
        ensures numbers { IfOk result (λ v. Numbers self.now.schema.now self.now.terms.now (V.known self.now.view.now) seen.old
            (flat_map misfit_mentions v.items) seen.new) }
        ensures are { IfOk result (λ v. (all : List About) → GoesOn seen.new all →
            AllZip (IsMisfit self.now.schema.now self.now.terms.now (V.known self.now.view.now) all occs.now triple) numbers.now v.items) }
    {
        let mut misfits = Vec::new(self.alloc);
        for number in numbers {
            misfits.push(self.misfit(occs, *number, triple, seen)?)?;
        }
        Ok(misfits)
    }

    /// Why no triple constraint takes the triple of a pair, which is a reason that the node does not have the Shape.
    fn misfits_of(
        &self,
        pair: Pair,
        triple: Triple,
        seen: &mut Subjects,
    ) -> Result<Vec<Misfit>, AllocError>
        requires loaded { IsLoaded self.now.schema.now }
        requires shape { pair.shape.0 < length self.now.schema.now.shapes }
        requires reason { IsKnownReason self.now.schema.now self.now.terms.now self.now.graph.now.triples (V.known self.now.view.now) pair (Unmatched triple) }
        ensures numbers { IfOk result (λ v. Numbers self.now.schema.now self.now.terms.now (V.known self.now.view.now) seen.old
            (flat_map misfit_mentions v.items) seen.new) }
        ensures are { IfOk result (λ v. (all : List About) → GoesOn seen.new all →
            HasMisfits self.now.schema.now self.now.terms.now (V.known self.now.view.now) all pair (Unmatched triple) v.items) }
    {
        reasons_are_whole();
        let shape = &self.schema.shapes.as_slice()[pair.shape.0 as usize];
        let occs = shape.occs.as_slice();
        let numbers = fitting(self.alloc, pair.node, triple, occs)?;
        self.misfits(occs, numbers.as_slice(), triple, seen)
    }

    /// What a reason of a pair rests on.
    fn grounds(
        &self,
        pair: Pair,
        reason: &Reason,
        seen: &mut Subjects,
    ) -> Result<Vec<Misfit>, AllocError>
        requires loaded { IsLoaded self.now.schema.now }
        requires shape { pair.shape.0 < length self.now.schema.now.shapes }
        requires reason { IsKnownReason self.now.schema.now self.now.terms.now self.now.graph.now.triples (V.known self.now.view.now) pair reason.now }
        ensures numbers { IfOk result (λ v. Numbers self.now.schema.now self.now.terms.now (V.known self.now.view.now) seen.old
            (flat_map misfit_mentions v.items) seen.new) }
        ensures are { IfOk result (λ v. (all : List About) → GoesOn seen.new all →
            HasMisfits self.now.schema.now self.now.terms.now (V.known self.now.view.now) all pair reason.now v.items) }
    {
        match reason {
            Reason::Unmatched(triple) => self.misfits_of(pair, *triple, seen),
            _ => Ok(Vec::new(self.alloc)),
        }
    }

    /// Where a reason of a pair is that no places match, the places that are allowed for each relevant triple.
    fn offers(&self, pair: Pair, reason: &Reason) -> Result<Vec<Offer>, AllocError>
        requires loaded { IsLoaded self.now.schema.now }
        requires sealed { IsSealedWith self.now.terms.now self.now.graph.now }
        requires shape { pair.shape.0 < length self.now.schema.now.shapes }
        ensures { IfOk result (λ v. HasOffers self.now.schema.now self.now.terms.now self.now.graph.now.triples (V.known self.now.view.now) pair reason.now
            v.items) }
    {
        match reason {
            Reason::NoMatchingPlaces => offers_of(
                self.alloc,
                self.schema,
                self.graph,
                self.terms,
                self.view,
                pair,
            ),
            _ => Ok(Vec::new(self.alloc)),
        }
    }

    /// A reason of a pair with what it rests on.
    fn told_reason(
        &self,
        pair: Pair,
        reason: Reason,
        seen: &mut Subjects,
    ) -> Result<ToldReason, AllocError>
        requires loaded { IsLoaded self.now.schema.now }
        requires sealed { IsSealedWith self.now.terms.now self.now.graph.now }
        requires shape { pair.shape.0 < length self.now.schema.now.shapes }
        requires reason { IsKnownReason self.now.schema.now self.now.terms.now self.now.graph.now.triples (V.known self.now.view.now) pair reason }
        ensures numbers { IfOk result (λ x. Numbers self.now.schema.now self.now.terms.now (V.known self.now.view.now) seen.old
            (reason_mentions x) seen.new) }
        ensures is { IfOk result (λ x. (all : List About) → GoesOn seen.new all →
            IsToldReason self.now.schema.now self.now.terms.now (V.known self.now.view.now) all self.now.graph.now.triples pair reason x) }
    {
        let misfits = self.grounds(pair, &reason, seen)?;
        let offers = self.offers(pair, &reason)?;
        Ok(ToldReason {
            reason,
            misfits: Items::of(misfits),
            offers: Items::of(offers),
        })
    }

    /// The reasons of a pair, each with what it rests on.
    fn told_reasons(
        &self,
        pair: Pair,
        reasons: Vec<Reason>,
        seen: &mut Subjects,
    ) -> Result<Vec<ToldReason>, AllocError>
        requires loaded { IsLoaded self.now.schema.now }
        requires sealed { IsSealedWith self.now.terms.now self.now.graph.now }
        requires shape { pair.shape.0 < length self.now.schema.now.shapes }
        requires reasons { AllByRecursion (IsKnownReason self.now.schema.now self.now.terms.now self.now.graph.now.triples (V.known self.now.view.now) pair)
            reasons.items }
        ensures numbers { IfOk result (λ v. Numbers self.now.schema.now self.now.terms.now (V.known self.now.view.now) seen.old
            (flat_map reason_mentions v.items) seen.new) }
        ensures are { IfOk result (λ v. (all : List About) → GoesOn seen.new all →
            AllZip (IsToldReason self.now.schema.now self.now.terms.now (V.known self.now.view.now) all self.now.graph.now.triples pair) reasons.items
            v.items) }
    {
        let mut told = Vec::new(self.alloc);
        for reason in reasons {
            told.push(self.told_reason(pair, reason, seen)?)?;
        }
        Ok(told)
    }

    /// The block of a pair.
    fn block_of_pair(&self, pair: Pair, seen: &mut Subjects) -> Result<Block, AllocError>
        requires loaded { IsLoaded self.now.schema.now }
        requires sealed { IsSealedWith self.now.terms.now self.now.graph.now }
        requires refuted { NoneCanMatch self.now.schema.now self.now.terms.now self.now.graph.now.triples (V.known self.now.view.now) }
        requires fails { Fails self.now.schema.now self.now.terms.now (V.known self.now.view.now) (Abouts.Pair pair) }
        ensures numbers { IfOk result (λ b. Numbers self.now.schema.now self.now.terms.now (V.known self.now.view.now) seen.old
            (block_mentions b) seen.new) }
        ensures is { IfOk result (λ b. (all : List About) → GoesOn seen.new all →
            IsBlock self.now.schema.now self.now.terms.now (V.known self.now.view.now) all self.now.graph.now.triples (Abouts.Pair pair) b) }
    {
        let reasons = reasons_of(
            self.alloc,
            self.schema,
            self.graph,
            self.terms,
            self.view,
            pair,
        )?;
        let told = self.told_reasons(pair, reasons, seen)?;
        Ok(Block::Reasons(pair, Items::of(told)))
    }

    /// Why the node does not satisfy the members that a cause names.
    fn members(
        &self,
        node: TermId,
        cause: &Cause,
        seen: &mut Subjects,
    ) -> Result<Vec<Why>, AllocError>
        requires loaded { IsLoaded self.now.schema.now }
        requires fail { AllByRecursion (FailsAt self.now.schema.now self.now.terms.now (V.known self.now.view.now) node) (members_of cause.now) }
        ensures numbers { IfOk result (λ v. Numbers self.now.schema.now self.now.terms.now (V.known self.now.view.now) seen.old
            (flat_map why_mentions v.items) seen.new) }
        ensures are { IfOk result (λ v. (all : List About) → GoesOn seen.new all →
            AllZip (IsWhy self.now.schema.now self.now.terms.now (V.known self.now.view.now) all node) (members_of cause.now) v.items) }
    {
        match cause {
            Cause::Member(member) => self.whys(node, &[*member], seen),
            Cause::NoMember(members) => self.whys(node, members.as_slice(), seen),
            Cause::Negated(_) => Ok(Vec::new(self.alloc)),
            Cause::FailedPart(_) => Ok(Vec::new(self.alloc)),
            Cause::Lacks(_) => Ok(Vec::new(self.alloc)),
        }
    }

    /// A cause of a node with an expression, with what it rests on.
    fn told_cause(
        &self,
        node: TermId,
        cause: Cause,
        seen: &mut Subjects,
    ) -> Result<ToldCause, AllocError>
        requires loaded { IsLoaded self.now.schema.now }
        requires fail { AllByRecursion (FailsAt self.now.schema.now self.now.terms.now (V.known self.now.view.now) node) (members_of cause) }
        ensures numbers { IfOk result (λ x. Numbers self.now.schema.now self.now.terms.now (V.known self.now.view.now) seen.old
            (cause_mentions x) seen.new) }
        ensures is { IfOk result (λ x. (all : List About) → GoesOn seen.new all →
            IsToldCause self.now.schema.now self.now.terms.now (V.known self.now.view.now) all node cause x) }
    {
        let members = self.members(node, &cause, seen)?;
        Ok(ToldCause {
            cause,
            members: Items::of(members),
        })
    }

    /// The causes of a node with an expression, each with what it rests on.
    fn told_causes(
        &self,
        node: TermId,
        expr: ExprId,
        causes: Vec<Cause>,
        seen: &mut Subjects,
    ) -> Result<Vec<ToldCause>, AllocError>
        requires loaded { IsLoaded self.now.schema.now }
        requires entry { IsEntry self.now.schema.now expr }
        requires causes { AreCauses self.now.schema.now self.now.terms.now (V.known self.now.view.now) node expr causes.items }
        ensures numbers { IfOk result (λ v. Numbers self.now.schema.now self.now.terms.now (V.known self.now.view.now) seen.old
            (flat_map cause_mentions v.items) seen.new) }
        ensures are { IfOk result (λ v. (all : List About) → GoesOn seen.new all →
            AllZip (IsToldCause self.now.schema.now self.now.terms.now (V.known self.now.view.now) all node) causes.items v.items) }
    {
        let mut told = Vec::new(self.alloc);
        for cause in causes {
            told.push(self.told_cause(node, cause, seen)?)?;
        }
        Ok(told)
    }

    /// The block of a node with an expression.
    fn block_of_expr(
        &self,
        node: TermId,
        expr: ExprId,
        seen: &mut Subjects,
    ) -> Result<Block, AllocError>
        requires loaded { IsLoaded self.now.schema.now }
        requires fails { FailsAt self.now.schema.now self.now.terms.now (V.known self.now.view.now) node expr }
        ensures numbers { IfOk result (λ b. Numbers self.now.schema.now self.now.terms.now (V.known self.now.view.now) seen.old
            (block_mentions b) seen.new) }
        ensures is { IfOk result (λ b. (all : List About) → GoesOn seen.new all →
            IsBlock self.now.schema.now self.now.terms.now (V.known self.now.view.now) all self.now.graph.now.triples (Abouts.Expr node expr) b) }
    {
        let causes = causes_of(self.alloc, self.schema, self.terms, self.view, node, expr)?;
        let told = self.told_causes(node, expr, causes, seen)?;
        Ok(Block::Causes(node, expr, Items::of(told)))
    }

    /// The block of a subject.
    fn block(&self, subject: Subject, seen: &mut Subjects) -> Result<Block, AllocError>
        requires loaded { IsLoaded self.now.schema.now }
        requires sealed { IsSealedWith self.now.terms.now self.now.graph.now }
        requires refuted { NoneCanMatch self.now.schema.now self.now.terms.now self.now.graph.now.triples (V.known self.now.view.now) }
        requires fails { Fails self.now.schema.now self.now.terms.now (V.known self.now.view.now) subject }
        ensures numbers { IfOk result (λ b. Numbers self.now.schema.now self.now.terms.now (V.known self.now.view.now) seen.old
            (block_mentions b) seen.new) }
        ensures is { IfOk result (λ b. (all : List About) → GoesOn seen.new all →
            IsBlock self.now.schema.now self.now.terms.now (V.known self.now.view.now) all self.now.graph.now.triples subject b) }
    {
        match subject {
            Subject::Pair(pair) => self.block_of_pair(pair, seen),
            Subject::Expr(node, expr) => self.block_of_expr(node, expr, seen),
        }
    }

    /// The blocks of the subjects from this number on, and of those that they mention.
    fn blocks(&self, from: usize, seen: &mut Subjects) -> Result<Vec<Block>, AllocError>
        requires loaded { IsLoaded self.now.schema.now }
        requires sealed { IsSealedWith self.now.terms.now self.now.graph.now }
        requires refuted { NoneCanMatch self.now.schema.now self.now.terms.now self.now.graph.now.triples (V.known self.now.view.now) }
        requires fail { AllByRecursion (Fails self.now.schema.now self.now.terms.now (V.known self.now.view.now)) seen.old }
        requires from { from ≤ length seen.old }
        ensures numbers { IfOk result (λ v. Numbers self.now.schema.now self.now.terms.now (V.known self.now.view.now) seen.old
            (flat_map block_mentions v.items) seen.new) }
        ensures count { IfOk result (λ v. length seen.new ≡ from + length v.items) }
        ensures are { IfOk result (λ v. (all : List About) (front : List Piece) → GoesOn seen.new all →
            AllZip (IsBlock self.now.schema.now self.now.terms.now (V.known self.now.view.now) all self.now.graph.now.triples) (take from all) front →
            AllZip (IsBlock self.now.schema.now self.now.terms.now (V.known self.now.view.now) all self.now.graph.now.triples)
            (take (length seen.new) all) (front ++ v.items)) }
    {
        let mut blocks = Vec::new(self.alloc);
        let mut at = from;
        while at < seen.len() {
            blocks.push(self.block(seen.at(at), seen)?)?;
            at += 1;
        }
        Ok(blocks)
    }

    /// Why an association is not as asked, where the verdict on its expression is this.
    fn asked_why(
        &self,
        association: &Association,
        verdict: Verdict,
        seen: &mut Subjects,
    ) -> Result<Option<Why>, AllocError>
        requires loaded { IsLoaded self.now.schema.now }
        requires entry { IsEntry self.now.schema.now association.now.expr }
        requires sure { IsSure self.now.schema.now self.now.terms.now (V.known self.now.view.now) association.now.node association.now.expr verdict }
        ensures numbers { IfOk result (λ w. Numbers self.now.schema.now self.now.terms.now (V.known self.now.view.now) seen.old
            (asked_mentions w) seen.new) }
        ensures is { IfOk result (λ w. (all : List About) → GoesOn seen.new all →
            IsAskedWhy (IsWhy self.now.schema.now self.now.terms.now (V.known self.now.view.now) all association.now.node association.now.expr)
            association.now.want verdict w) }
    {
        if association.want && verdict == Verdict::No {
            Ok(Some(self.why(association.node, association.expr, seen)?))
        } else {
            Ok(None)
        }
    }

    /// What is told of an association, where what was seen before has its blocks.
    fn told(&self, association: &Association, seen: &mut Subjects) -> Result<Told, AllocError>
        requires loaded { IsLoaded self.now.schema.now }
        requires sealed { IsSealedWith self.now.terms.now self.now.graph.now }
        requires refuted { NoneCanMatch self.now.schema.now self.now.terms.now self.now.graph.now.triples (V.known self.now.view.now) }
        requires fail { AllByRecursion (Fails self.now.schema.now self.now.terms.now (V.known self.now.view.now)) seen.old }
        requires entry { IsEntry self.now.schema.now association.now.expr }
        ensures numbers { IfOk result (λ t. Numbers self.now.schema.now self.now.terms.now (V.known self.now.view.now) seen.old
            (told_mentions t) seen.new) }
        ensures count { IfOk result (λ t. length seen.new ≡ length seen.old + length t.blocks) }
        ensures is { IfOk result (λ t. (all : List About) → GoesOn seen.new all →
            IsTold self.now.schema.now self.now.terms.now (V.known self.now.view.now) all association.now t) }
        ensures blocks { IfOk result (λ t. (all : List About) (front : List Piece) → GoesOn seen.new all →
            AllZip (IsBlock self.now.schema.now self.now.terms.now (V.known self.now.view.now) all self.now.graph.now.triples)
            (take (length seen.old) all) front →
            AllZip (IsBlock self.now.schema.now self.now.terms.now (V.known self.now.view.now) all self.now.graph.now.triples)
            (take (length seen.new) all) (front ++ t.blocks)) }
    {
        let from = seen.len();
        let verdict = sure(
            self.alloc,
            self.schema,
            self.terms,
            association.node,
            association.expr,
            self.view,
        )?;
        let why = self.asked_why(association, verdict, seen)?;
        let blocks = self.blocks(from, seen)?;
        Ok(Told {
            verdict,
            why,
            blocks: Items::of(blocks),
        })
    }

    /// What is told of associations, where no subject was seen before.
    fn answers(
        &self,
        associations: &[Association],
        seen: &mut Subjects,
    ) -> Result<Vec<Told>, AllocError>
        requires loaded { IsLoaded self.now.schema.now }
        requires sealed { IsSealedWith self.now.terms.now self.now.graph.now }
        requires refuted { NoneCanMatch self.now.schema.now self.now.terms.now self.now.graph.now.triples (V.known self.now.view.now) }
        requires asked { (a : Asked) → Contains associations.now a → IsEntry self.now.schema.now a.expr }
        requires none { seen.old ≡ [] }
        ensures { IfOk result (λ v. AreTold self.now.schema.now self.now.terms.now (V.known self.now.view.now) self.now.graph.now.triples
            seen.new associations.now v.items) }
    {
        let mut answers = Vec::new(self.alloc);
        for association in associations {
            answers.push(self.told(association, seen)?)?;
        }
        Ok(answers)
    }
}

/// Why associations are not as asked, by what is known of pairs (ShEx 2.1, sections 5.2 and 5.5.2): of each association the verdict
/// on its expression, and, where its node was asked to satisfy it and does not, why. A node with a Shape, and a node with a ShapeAnd, a
/// ShapeOr or a ShapeNot, is explained in one block, where it is mentioned first, and has the block's number wherever else it is
/// mentioned. No pair can match that is known not to be satisfied, as it is of what refinement comes to. It fails for want of memory
/// alone.
pub fn explain<V: View>(
    alloc: Global,
    schema: &Schema,
    graph: &Graph,
    terms: &TermTable,
    view: &V,
    associations: &[Association],
) -> Result<Explanation, AllocError>
    requires loaded { IsLoaded schema.now }
    requires sealed { IsSealedWith terms.now graph.now }
    requires refuted { NoneCanMatch schema.now terms.now graph.now.triples (V.known view.now) }
    requires asked { (a : Asked) → Contains associations.now a → IsEntry schema.now a.expr }
    ensures told { IfOk result (IsExplanation schema.now terms.now (V.known view.now) graph.now.triples associations.now) }
    ensures few { IfOk result (λ x. length (blocks_of x) < 2 ^ 63) }
{
    let source = Source {
        alloc,
        schema,
        graph,
        terms,
        view,
    };
    let mut seen = Subjects::new(alloc);
    let answers = source.answers(associations, &mut seen)?;
    // The number of subjects tells contracts that they are distinct, and not too many.
    let _count = seen.len();
    Ok(Explanation {
        answers: Items::of(answers),
    })
}
