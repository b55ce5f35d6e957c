//! The reasons of a pair.

ghost use Rattle.std.specs.Prelude.{◌≡◌, ◌<◌, ◌≤◌, ◌^◌, ◌++◌, ◌∷◌, [], List, Contains, IfOk, OnOk, Some, length};
ghost use Rattle.std.specs.List.{AllByRecursion, flat_map};
ghost use Rattle.rdf_terms.specs.declared.terms.Term.{Term};
ghost use Rattle.tally.specs.Plan.{plan_of};
ghost use Rattle.tally.specs.Span.{IsSound};
ghost use Rattle.tally.specs.Symbols.{Covers, IsDistinct};
ghost use Rattle.graph_index.specs.Contents.{IsSealedWith};
ghost use Rattle.schema_tree.specs.Loaded.{BodyOk, IsLoaded};
ghost use Rattle.schema_tree.specs.Places.{PairCanMatch};
ghost use Rattle.schema_tree.specs.declared.verdicts.Lean.TheVariants.{Possible};
ghost use Rattle.nonconformance.specs.Found.{AreFound};
ghost use Rattle.nonconformance.specs.Offers.{AddsCounted, AreKnownOffers, Concludes, IsSaidOf, counted_by, few_by, forbidden_by, many_by, unmatched_by};
ghost use Rattle.nonconformance.specs.Reasons.{IsForced, IsKnownReason, IsNamed, IsOfConstraint, IsOfTriple, IsPlainCase};
ghost use Rattle.nonconformance.specs.declared.reason.Reason.TheVariants.{NoMatchingPlaces};
ghost use Rattle.nonconformance.specs.declared.reason.Reason.{Reason as Told};

use crate::bounds::{least_of, most_of};
use crate::laws::bounds_are_kept;
use crate::numbers::{bound_counts, may_match, serving_counts};
use crate::offers::{Offer, bound_to, offers, serving};
use crate::reason::Reason;
use crate::sets::sets_of;
use bag_match::arcs::{fits_any, relevant};
use bag_match::places::{Judge, Values};
use graph_index::graph::Graph;
use rdf_terms::items::Items;
use rdf_terms::table::TermTable;
use rdf_terms::terms::{TermId, Triple};
use schema_tree::schema::{Pair, Schema, Shape};
use schema_tree::sure::View;
use schema_tree::verdicts::Lean;
use std::alloc::{AllocError, Global};
use tally::Count;
use tally::laws::{box_holds_copies, interval_has_copies, own_symbols_decide};

/// Puts the arc out behind the reasons, where the Shape is closed and no triple constraint fits it.
fn push_forbidden(
    shape: &Shape,
    node: TermId,
    triple: Triple,
    reasons: &mut Vec<Reason>,
) -> Result<(), AllocError>
    ensures { OnOk result (reasons.new.items ≡ reasons.old.items ++ forbidden_by shape.now node triple) }
{
    if shape.closed && !fits_any(shape.occs.as_slice(), node, triple) {
        reasons.push(Reason::Forbidden(triple))?;
    }
    Ok(())
}

/// Puts the triple behind the reasons, where no place is allowed for it.
fn push_unmatched(offer: &Offer, reasons: &mut Vec<Reason>) -> Result<(), AllocError>
    ensures { OnOk result (reasons.new.items ≡ reasons.old.items ++ unmatched_by offer.now) }
{
    if offer.places.as_slice().is_empty() {
        reasons.push(Reason::Unmatched(offer.triple))?;
    }
    Ok(())
}

/// Puts behind the reasons that these triple constraints take more triples than there are for them.
fn push_too_few(
    alloc: Global,
    constraints: &[u16],
    least: u64,
    found: Vec<Triple>,
    reasons: &mut Vec<Reason>,
) -> Result<(), AllocError>
    ensures { OnOk result (reasons.new.items ≡ reasons.old.items ++ few_by found.items constraints.now least) }
{
    if (found.len() as u64) < least {
        let constraints = Items::of(constraints.to_vec(alloc)?);
        reasons.push(Reason::TooFew(constraints, least, Items::of(found)))?;
    }
    Ok(())
}

/// Puts behind the reasons that there are more triples for these triple constraints alone than they take.
fn push_too_many(
    alloc: Global,
    constraints: &[u16],
    most: Option<u64>,
    found: Vec<Triple>,
    reasons: &mut Vec<Reason>,
) -> Result<(), AllocError>
    ensures { OnOk result (reasons.new.items ≡ reasons.old.items ++ many_by found.items constraints.now most) }
{
    let Some(most) = most else {
        return Ok(());
    };
    if most < found.len() as u64 {
        let constraints = Items::of(constraints.to_vec(alloc)?);
        reasons.push(Reason::TooMany(constraints, most, Items::of(found)))?;
    }
    Ok(())
}

/// Puts behind the reasons what is wrong with the number of triples for these triple constraints.
fn push_counted(
    alloc: Global,
    body: &Count,
    offers: &[Offer],
    constraints: &[u16],
    reasons: &mut Vec<Reason>,
) -> Result<(), AllocError>
    ensures { OnOk result (reasons.new.items ≡ reasons.old.items ++ counted_by (plan_of body.now) offers.now constraints.now) }
{
    let found = serving(alloc, offers, constraints)?;
    push_too_few(
        alloc,
        constraints,
        least_of(body, constraints),
        found,
        reasons,
    )?;
    let found = bound_to(alloc, offers, constraints)?;
    push_too_many(
        alloc,
        constraints,
        most_of(body, constraints),
        found,
        reasons,
    )
}

/// Puts the arcs out behind the reasons that are forbidden.
fn push_all_forbidden(
    shape: &Shape,
    node: TermId,
    triples: &[Triple],
    reasons: &mut Vec<Reason>,
) -> Result<(), AllocError>
    ensures { OnOk result (reasons.new.items ≡ reasons.old.items ++ flat_map (forbidden_by shape.now node) triples.now) }
{
    for triple in triples {
        push_forbidden(shape, node, *triple, reasons)?;
    }
    Ok(())
}

/// Puts the triples behind the reasons for which no place is allowed.
fn push_all_unmatched(offers: &[Offer], reasons: &mut Vec<Reason>) -> Result<(), AllocError>
    ensures { OnOk result (reasons.new.items ≡ reasons.old.items ++ flat_map unmatched_by offers.now) }
{
    for offer in offers {
        push_unmatched(offer, reasons)?;
    }
    Ok(())
}

/// Puts behind the reasons what is wrong with the number of triples for each of these sets of triple constraints.
fn push_all_counted(
    alloc: Global,
    body: &Count,
    offers: &[Offer],
    sets: &[Items<u16>],
    reasons: &mut Vec<Reason>,
) -> Result<(), AllocError>
    ensures { OnOk result (reasons.new.items ≡ reasons.old.items ++ flat_map (counted_by (plan_of body.now) offers.now) sets.now) }
{
    for set in sets {
        push_counted(alloc, body, offers, set.as_slice(), reasons)?;
    }
    Ok(())
}

/// What is wrong with the numbers of triples.
fn push_counts(
    alloc: Global,
    shape: &Shape,
    offers: &[Offer],
    reasons: &mut Vec<Reason>,
) -> Result<(), AllocError>
    requires { length shape.now.occs ≤ 256 }
    ensures { OnOk result (AddsCounted (length shape.now.occs) shape.now.body offers.now reasons.old.items reasons.new.items) }
{
    match &shape.body {
        Some(body) => {
            let sets = sets_of(alloc, body.count(), shape.occs.as_slice())?;
            push_all_counted(alloc, body.count(), offers, sets.as_slice(), reasons)
        }
        None => Ok(()),
    }
}

/// Puts behind the reasons, which are none, that no numbers of triples match, or else that no places match.
fn push_said(
    alloc: Global,
    body: &Count,
    count: usize,
    offers: &[Offer],
    reasons: &mut Vec<Reason>,
) -> Result<(), AllocError>
    requires few { length offers.now < 2 ^ 31 }
    requires count { count ≤ 256 }
    requires none { reasons.old.items ≡ [] }
    requires distinct { IsDistinct (plan_of body.now) }
    requires sound { IsSound (plan_of body.now) }
    requires covers { Covers count (plan_of body.now) }
    ensures { OnOk result (IsSaidOf count (Some (plan_of body.now)) offers.now reasons.new.items) }
{
    let low = bound_counts(alloc, offers, count)?;
    let high = serving_counts(alloc, offers, count)?;
    if may_match(body, low.as_slice(), high.as_slice()) {
        reasons.push(Reason::NoMatchingPlaces)?;
        return Ok(());
    }
    reasons.push(Reason::NoMatchingCounts(Items::of(low), Items::of(high)))?;
    Ok(())
}

/// Puts behind the reasons that no places match.
fn push_no_places(reasons: &mut Vec<Reason>) -> Result<(), AllocError>
    ensures { OnOk result (reasons.new.items ≡ reasons.old.items ++ NoMatchingPlaces ∷ []) }
{
    reasons.push(Reason::NoMatchingPlaces)?;
    Ok(())
}

/// Puts behind the reasons what can be said where there is none.
fn conclude(
    alloc: Global,
    shape: &Shape,
    offers: &[Offer],
    reasons: &mut Vec<Reason>,
) -> Result<(), AllocError>
    requires few { length offers.now < 2 ^ 31 }
    requires count { length shape.now.occs ≤ 256 }
    requires body { BodyOk shape.now.occs shape.now.body }
    ensures { OnOk result (Concludes (length shape.now.occs) shape.now.body offers.now reasons.old.items reasons.new.items) }
{
    if !reasons.is_empty() {
        return Ok(());
    }
    match &shape.body {
        Some(body) => push_said(
            alloc,
            body.count(),
            shape.occs.as_slice().len(),
            offers,
            reasons,
        ),
        None => push_no_places(reasons),
    }
}

/// The reasons why a node does not have a Shape, as far as values are judged.
fn found_in<J: Judge>(
    alloc: Global,
    judge: &J,
    graph: &Graph,
    shape: &Shape,
    node: TermId,
) -> Result<Vec<Reason>, AllocError>
    requires ready { J.ready judge.now }
    requires few { length shape.now.occs ≤ 256 }
    requires body { BodyOk shape.now.occs shape.now.body }
    requires sealed { (terms : List Term) × IsSealedWith terms graph.now }
    ensures { IfOk result (λ v. (terms : List Term) → IsSealedWith terms graph.now →
        AreFound (J.hold judge.now) (J.fail judge.now) terms graph.now.triples shape.now node v.items) }
{
    // The length of a graph tells contracts that it is within the limit.
    let _held = graph.len();
    let triples = relevant(alloc, graph, shape, node)?;
    let offers = offers(alloc, judge, shape, node, &triples)?;
    let mut reasons = Vec::new(alloc);
    push_all_forbidden(shape, node, graph.outs(node), &mut reasons)?;
    push_all_unmatched(offers.as_slice(), &mut reasons)?;
    push_counts(alloc, shape, offers.as_slice(), &mut reasons)?;
    conclude(alloc, shape, offers.as_slice(), &mut reasons)?;
    Ok(reasons)
}

/// The reasons why a pair that cannot match by what is known does not (ShEx 2.1, section 5.5.2): each triple that CLOSED
/// forbids, each that no triple constraint takes and that may not be left over, and the triple constraints that want more
/// triples, or allow fewer, than there are for them. Only where there is none of these is it said that no numbers of triples
/// match, and only where some do, that no places match.
pub fn reasons_of<V: View>(
    alloc: Global,
    schema: &Schema,
    graph: &Graph,
    terms: &TermTable,
    view: &V,
    pair: Pair,
) -> Result<Vec<Reason>, AllocError>
    requires loaded { IsLoaded schema.now }
    requires sealed { IsSealedWith terms.now graph.now }
    requires shape { pair.shape.0 < length schema.now.shapes }
    requires fails { ¬ PairCanMatch schema.now terms.now graph.now.triples (V.known view.now) Possible pair }

    // Each is a reason by what is known, which alone is enough, and there is at least one.
    ensures sound { IfOk result (λ v. AllByRecursion (IsKnownReason schema.now terms.now graph.now.triples (V.known view.now) pair) v.items) }
    ensures some { IfOk result (λ v. 0 < length v.items) }

    // Each triple that is forbidden, and each that is not matched, is named, and each triple constraint for which alone there
    // are too few, or too many, triples.
    ensures whole { IfOk result (λ v. (r : Told) → IsOfTriple r →
        IsKnownReason schema.now terms.now graph.now.triples (V.known view.now) pair r → Contains v.items r) }

    ensures counted { IfOk result (λ v. (r : Told) → IsOfConstraint schema.now pair r →
        IsKnownReason schema.now terms.now graph.now.triples (V.known view.now) pair r → Contains v.items r) }

    // A reason that names neither a triple nor triple constraints stands alone.
    ensures alone { IfOk result (λ v. (r : Told) → ¬ IsNamed r → Contains v.items r → v.items ≡ r ∷ []) }

    // That no places match is said only where some triple has a choice of places. Where none has and the expression is flat,
    // each reason names a triple or triple constraints.
    ensures forced { IsForced schema.now terms.now graph.now.triples (V.known view.now) pair → IfOk result (λ v. ¬ Contains v.items NoMatchingPlaces) }
    ensures named { IsPlainCase schema.now terms.now graph.now.triples (V.known view.now) pair → IfOk result (λ v. AllByRecursion IsNamed v.items) }
{
    // The laws of the numbers of triples.
    bounds_are_kept();
    box_holds_copies();
    interval_has_copies();
    own_symbols_decide();
    let shape = &schema.shapes.as_slice()[pair.shape.0 as usize];
    let judge = Values {
        schema,
        terms,
        view,
        lean: Lean::Possible,
    };
    found_in(alloc, &judge, graph, shape, pair.node)
}

/// The relevant triples of a pair, in the order of its neighbourhood, each with the places that what is known allows for it
/// (ShEx 2.1, section 5.5.2): what can be said where no places match.
pub fn offers_of<V: View>(
    alloc: Global,
    schema: &Schema,
    graph: &Graph,
    terms: &TermTable,
    view: &V,
    pair: Pair,
) -> Result<Vec<Offer>, AllocError>
    requires loaded { IsLoaded schema.now }
    requires sealed { IsSealedWith terms.now graph.now }
    requires shape { pair.shape.0 < length schema.now.shapes }
    ensures { IfOk result (λ v. AreKnownOffers schema.now terms.now graph.now.triples (V.known view.now) pair v.items) }
{
    let shape = &schema.shapes.as_slice()[pair.shape.0 as usize];
    let judge = Values {
        schema,
        terms,
        view,
        lean: Lean::Possible,
    };
    let triples = relevant(alloc, graph, shape, pair.node)?;
    offers(alloc, &judge, shape, pair.node, &triples)
}
