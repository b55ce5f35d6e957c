//! Reasons and causes in the text of an explanation.

ghost use Rattle.std.specs.Prelude.{◌≡◌, ◌++◌, ◌-◌, [], IfOk, OnOk, codes};
ghost use Rattle.std.specs.List.{flat_map, list_any};
ghost use Rattle.std.specs.Fmt.{decimal};
ghost use Rattle.std.specs.Option.{option_copied};
ghost use Rattle.nonconformance.specs.declared.reason.Reason.TheVariants.{NoMatchingPlaces, Unmatched};
ghost use Rattle.explanation_texts.specs.Words.{constraint_text, constraints_text, limited, more_text, triple_text};
ghost use Rattle.explanation_texts.specs.Reasons.{constraint_at, count_text, counts_text, fits_text, found_text, inner_margin, is_rest, member_line, member_lines, member_text, misfit_line, negated_text, no_member_text, offer_line, or_left, range_text, reason_text, separator, told_cause_text, told_reason_text, triple_line, untaken};

use crate::setting::Setting;
use crate::words::{
    push_constraint, push_constraints, push_number, push_rest, push_term, push_triple, shown,
};
use explanations::explanation::{Misfit, ToldCause, ToldReason, Why};
use nonconformance::cause::Cause;
use nonconformance::offers::Offer;
use nonconformance::reason::Reason;
use rdf_terms::terms::{TermId, Triple};
use schema_tree::schema::{ExprId, Occurrence};
use schema_tree::verdicts::Place;
use std::alloc::{AllocError, Global};

/// How far in a line below another stands.
const INNER_MARGIN: &[u8] = b"    ";

/// What stands before the item of this number in a list.
fn separator(number: usize) -> &'static [u8]
    ensures { result.now ≡ separator number }
{
    if number == 0 { b"" } else { b", " }
}

/// Appends a number, or two of which the first is less.
fn push_range(
    alloc: Global,
    low: u32,
    high: Option<&u32>,
    out: &mut Vec<u8>,
) -> Result<(), AllocError>
    ensures { OnOk result (out.new.items ≡ out.old.items ++ range_text low (option_copied high.entry)) }
{
    push_number(alloc, u64::from(low), out)?;
    match high {
        Some(high) if low != *high => {
            out.extend_from_slice(b" to ")?;
            push_number(alloc, u64::from(*high), out)
        }
        _ => Ok(()),
    }
}

/// Puts the triple constraint of a place behind the others, if the place is not the remainder.
fn push_constraint_at(place: Place, numbers: &mut Vec<u16>) -> Result<(), AllocError>
    ensures { OnOk result (numbers.new.items ≡ numbers.old.items ++ constraint_at place) }
{
    if let Place::At(number) = place {
        numbers.push(number)?;
    }
    Ok(())
}

/// The triple constraints among places.
pub(crate) fn constraints_at(alloc: Global, places: &[Place]) -> Result<Vec<u16>, AllocError>
    ensures { IfOk result (λ v. v.items ≡ flat_map constraint_at places.now) }
{
    let mut numbers = Vec::new(alloc);
    for place in places {
        push_constraint_at(*place, &mut numbers)?;
    }
    Ok(numbers)
}

/// Whether the place is the remainder.
fn is_rest(place: Place) -> bool
    ensures { result ≡ is_rest place }
{
    matches!(place, Place::Rest)
}

/// Whether one of the places is the remainder.
pub(crate) fn may_be_left(places: &[Place]) -> bool
    ensures { result ≡ list_any is_rest places.now }
{
    places.iter().any(|place| is_rest(*place))
}

/// What is said of a triple that no triple constraint may take.
fn untaken(left: bool) -> &'static [u8]
    ensures { result.now ≡ untaken left }
{
    if left {
        b" may be left over"
    } else {
        b" fits nothing"
    }
}

/// Appends, behind the triple constraints that may take a triple, that it may be left over, where it may.
fn push_or_left(left: bool, out: &mut Vec<u8>) -> Result<(), AllocError>
    ensures { OnOk result (out.new.items ≡ out.old.items ++ or_left left) }
{
    if left {
        out.extend_from_slice(b", or may be left over")?;
    }
    Ok(())
}

impl Setting<'_> {
    /// Appends a triple below a line.
    fn push_triple_line(&self, triple: Triple, out: &mut Vec<u8>) -> Result<(), AllocError>
        ensures { OnOk result (out.new.items ≡ out.old.items ++ triple_line self.now.terms.now triple) }
    {
        out.extend_from_slice(INNER_MARGIN)?;
        push_triple(self.alloc, self.terms, triple, out)?;
        out.extend_from_slice(b"\n")
    }

    /// Appends triples below a line.
    fn push_triple_lines(&self, triples: &[Triple], out: &mut Vec<u8>) -> Result<(), AllocError>
        ensures { OnOk result (out.new.items ≡ out.old.items ++ flat_map (triple_line self.now.terms.now) triples.now) }
    {
        for triple in triples {
            self.push_triple_line(*triple, out)?;
        }
        Ok(())
    }

    /// Appends how many there are more than are shown.
    pub(crate) fn push_more(
        &self,
        margin: &[u8],
        count: usize,
        out: &mut Vec<u8>,
    ) -> Result<(), AllocError>
        ensures { OnOk result (out.new.items ≡ out.old.items ++ more_text margin.now (count - self.now.limit)) }
    {
        push_rest(self.alloc, margin, count, self.limit, out)
    }

    /// Appends how many triples were found, and the triples.
    fn push_found(&self, found: &[Triple], out: &mut Vec<u8>) -> Result<(), AllocError>
        ensures { OnOk result (out.new.items ≡ out.old.items ++ found_text self.now found.now) }
    {
        out.extend_from_slice(b", found ")?;
        push_number(self.alloc, found.len() as u64, out)?;
        out.extend_from_slice(b"\n")?;
        self.push_triple_lines(shown(found, self.limit), out)?;
        self.push_more(INNER_MARGIN, found.len(), out)
    }

    /// Appends why a triple constraint does not take a triple.
    fn push_misfit(
        &self,
        occs: &[Occurrence],
        misfit: Misfit,
        out: &mut Vec<u8>,
    ) -> Result<(), AllocError>
        ensures { OnOk result (out.new.items ≡ out.old.items ++ misfit_line self.now occs.now misfit) }
    {
        out.extend_from_slice(INNER_MARGIN)?;
        push_constraint(
            self.alloc,
            self.terms,
            occs,
            misfit.constraint as usize,
            out,
        )?;
        out.extend_from_slice(b": ")?;
        self.push_why(misfit.node, misfit.value, misfit.why, out)?;
        out.extend_from_slice(b"\n")
    }

    /// Appends why triple constraints do not take a triple.
    fn push_misfits(
        &self,
        occs: &[Occurrence],
        misfits: &[Misfit],
        out: &mut Vec<u8>,
    ) -> Result<(), AllocError>
        ensures { OnOk result (out.new.items ≡ out.old.items ++ flat_map (misfit_line self.now occs.now) misfits.now) }
    {
        for misfit in misfits {
            self.push_misfit(occs, *misfit, out)?;
        }
        Ok(())
    }

    /// Appends why triple constraints do not take a triple, at most so many of them, and how many more there are.
    fn push_limited_misfits(
        &self,
        occs: &[Occurrence],
        misfits: &[Misfit],
        out: &mut Vec<u8>,
    ) -> Result<(), AllocError>
        ensures { OnOk result (out.new.items ≡ out.old.items ++ limited self.now.limit inner_margin (misfit_line self.now occs.now) misfits.now) }
    {
        self.push_misfits(occs, shown(misfits, self.limit), out)?;
        self.push_more(INNER_MARGIN, misfits.len(), out)
    }

    /// Appends that a triple is not matched, and why each constraint that fits it does not take it.
    fn push_unmatched(
        &self,
        occs: &[Occurrence],
        triple: Triple,
        misfits: &[Misfit],
        out: &mut Vec<u8>,
    ) -> Result<(), AllocError>
        ensures { OnOk result (out.new.items ≡ out.old.items ++ reason_text self.now occs.now misfits.now [] (Unmatched triple)) }
    {
        out.extend_from_slice(b"  unmatched: ")?;
        push_triple(self.alloc, self.terms, triple, out)?;
        out.extend_from_slice(b"\n")?;
        self.push_limited_misfits(occs, misfits, out)
    }

    /// Appends that a triple is forbidden.
    fn push_forbidden(&self, triple: Triple, out: &mut Vec<u8>) -> Result<(), AllocError>
        ensures { OnOk result (out.new.items ≡ out.old.items ++ (codes "  closed: " ++ (triple_text self.now.terms.now triple ++ codes "\n"))) }
    {
        out.extend_from_slice(b"  closed: ")?;
        push_triple(self.alloc, self.terms, triple, out)?;
        out.extend_from_slice(b"\n")
    }

    /// Appends triple constraints, a word and a number.
    fn push_bound(
        &self,
        occs: &[Occurrence],
        own: &[u16],
        word: &[u8],
        bound: u64,
        out: &mut Vec<u8>,
    ) -> Result<(), AllocError>
        ensures { OnOk result (out.new.items ≡ out.old.items ++ (constraints_text self.now.terms.now occs.now own.now ++ (word.now ++ decimal bound))) }
    {
        push_constraints(self.alloc, self.terms, occs, own, out)?;
        out.extend_from_slice(word)?;
        push_number(self.alloc, bound, out)
    }

    /// Appends that there are too few triples for these constraints.
    fn push_too_few(
        &self,
        occs: &[Occurrence],
        own: &[u16],
        least: u64,
        found: &[Triple],
        out: &mut Vec<u8>,
    ) -> Result<(), AllocError>
        ensures { OnOk result (out.new.items ≡ out.old.items ++
            (codes "  too few: " ++ (constraints_text self.now.terms.now occs.now own.now ++
            (codes " at least " ++ (decimal least ++ found_text self.now found.now))))) }
    {
        out.extend_from_slice(b"  too few: ")?;
        self.push_bound(occs, own, b" at least ", least, out)?;
        self.push_found(found, out)
    }

    /// Appends that there are too many triples for these constraints.
    fn push_too_many(
        &self,
        occs: &[Occurrence],
        own: &[u16],
        most: u64,
        found: &[Triple],
        out: &mut Vec<u8>,
    ) -> Result<(), AllocError>
        ensures { OnOk result (out.new.items ≡ out.old.items ++
            (codes "  too many: " ++ (constraints_text self.now.terms.now occs.now own.now ++
            (codes " at most " ++ (decimal most ++ found_text self.now found.now))))) }
    {
        out.extend_from_slice(b"  too many: ")?;
        self.push_bound(occs, own, b" at most ", most, out)?;
        self.push_found(found, out)
    }

    /// Appends how many triples a constraint takes.
    fn push_count(
        &self,
        occs: &[Occurrence],
        number: usize,
        low: u32,
        high: Option<&u32>,
        out: &mut Vec<u8>,
    ) -> Result<(), AllocError>
        ensures { OnOk result (out.new.items ≡ out.old.items ++ count_text self.now.terms.now occs.now number low (option_copied high.entry)) }
    {
        out.extend_from_slice(separator(number))?;
        push_constraint(self.alloc, self.terms, occs, number, out)?;
        out.extend_from_slice(b" ")?;
        push_range(self.alloc, low, high, out)
    }

    /// Appends for each triple constraint how many triples it takes.
    fn push_counts(
        &self,
        occs: &[Occurrence],
        low: &[u32],
        high: &[u32],
        out: &mut Vec<u8>,
    ) -> Result<(), AllocError>
        ensures { OnOk result (out.new.items ≡ out.old.items ++ counts_text self.now.terms.now occs.now high.now 0 low.now) }
    {
        for number in 0..low.len() {
            self.push_count(occs, number, low[number], high.get(number), out)?;
        }
        Ok(())
    }

    /// Appends that there is no match with these numbers.
    fn push_no_matching_counts(
        &self,
        occs: &[Occurrence],
        low: &[u32],
        high: &[u32],
        out: &mut Vec<u8>,
    ) -> Result<(), AllocError>
        ensures { OnOk result (out.new.items ≡ out.old.items ++
            (codes "  no match with these numbers: " ++ (counts_text self.now.terms.now occs.now high.now 0 low.now ++ codes "\n"))) }
    {
        out.extend_from_slice(b"  no match with these numbers: ")?;
        self.push_counts(occs, low, high, out)?;
        out.extend_from_slice(b"\n")
    }

    /// Appends which triple constraints may take a triple, and that it may be left over, where it may.
    fn push_taking(
        &self,
        occs: &[Occurrence],
        left: bool,
        numbers: &[u16],
        out: &mut Vec<u8>,
    ) -> Result<(), AllocError>
        ensures { OnOk result (out.new.items ≡ out.old.items ++
            (codes " fits " ++ (constraints_text self.now.terms.now occs.now numbers.now ++ or_left left))) }
    {
        out.extend_from_slice(b" fits ")?;
        push_constraints(self.alloc, self.terms, occs, numbers, out)?;
        push_or_left(left, out)
    }

    /// Appends which triple constraints may take a triple, and whether it may be left over.
    fn push_fits(
        &self,
        occs: &[Occurrence],
        left: bool,
        numbers: &[u16],
        out: &mut Vec<u8>,
    ) -> Result<(), AllocError>
        ensures { OnOk result (out.new.items ≡ out.old.items ++ fits_text self.now.terms.now occs.now left numbers.now) }
    {
        if numbers.is_empty() {
            return out.extend_from_slice(untaken(left));
        }
        self.push_taking(occs, left, numbers, out)
    }

    /// Appends what may be done with a triple that has these places.
    fn push_places(
        &self,
        occs: &[Occurrence],
        places: &[Place],
        out: &mut Vec<u8>,
    ) -> Result<(), AllocError>
        ensures { OnOk result (out.new.items ≡ out.old.items ++
            fits_text self.now.terms.now occs.now (list_any is_rest places.now) (flat_map constraint_at places.now)) }
    {
        let numbers = constraints_at(self.alloc, places)?;
        let left = may_be_left(places);
        self.push_fits(occs, left, numbers.as_slice(), out)
    }

    /// Appends a triple with what may be done with it.
    fn push_offer(
        &self,
        occs: &[Occurrence],
        offer: &Offer,
        out: &mut Vec<u8>,
    ) -> Result<(), AllocError>
        ensures { OnOk result (out.new.items ≡ out.old.items ++ offer_line self.now.terms.now occs.now offer.now) }
    {
        out.extend_from_slice(INNER_MARGIN)?;
        push_triple(self.alloc, self.terms, offer.triple, out)?;
        self.push_places(occs, offer.places.as_slice(), out)?;
        out.extend_from_slice(b"\n")
    }

    /// Appends triples with what may be done with each.
    fn push_offers(
        &self,
        occs: &[Occurrence],
        offers: &[Offer],
        out: &mut Vec<u8>,
    ) -> Result<(), AllocError>
        ensures { OnOk result (out.new.items ≡ out.old.items ++ flat_map (offer_line self.now.terms.now occs.now) offers.now) }
    {
        for offer in offers {
            self.push_offer(occs, offer, out)?;
        }
        Ok(())
    }

    /// Appends triples with what may be done with each, at most so many of them, and how many more there are.
    fn push_limited_offers(
        &self,
        occs: &[Occurrence],
        offers: &[Offer],
        out: &mut Vec<u8>,
    ) -> Result<(), AllocError>
        ensures { OnOk result (out.new.items ≡ out.old.items ++ limited self.now.limit inner_margin (offer_line self.now.terms.now occs.now) offers.now) }
    {
        self.push_offers(occs, shown(offers, self.limit), out)?;
        self.push_more(INNER_MARGIN, offers.len(), out)
    }

    /// Appends that no way deals the triples, and what may be done with each.
    fn push_no_way(
        &self,
        occs: &[Occurrence],
        offers: &[Offer],
        out: &mut Vec<u8>,
    ) -> Result<(), AllocError>
        ensures { OnOk result (out.new.items ≡ out.old.items ++ reason_text self.now occs.now [] offers.now NoMatchingPlaces) }
    {
        out.extend_from_slice(b"  no way to match\n")?;
        self.push_limited_offers(occs, offers, out)
    }

    /// Appends a reason why a node does not have a Shape.
    pub(crate) fn push_reason(
        &self,
        occs: &[Occurrence],
        told: &ToldReason,
        out: &mut Vec<u8>,
    ) -> Result<(), AllocError>
        ensures { OnOk result (out.new.items ≡ out.old.items ++ told_reason_text self.now occs.now told.now) }
    {
        match &told.reason {
            Reason::Forbidden(triple) => self.push_forbidden(*triple, out),
            Reason::Unmatched(triple) => {
                self.push_unmatched(occs, *triple, told.misfits.as_slice(), out)
            }
            Reason::TooFew(own, least, found) => {
                self.push_too_few(occs, own.as_slice(), *least, found.as_slice(), out)
            }
            Reason::TooMany(own, most, found) => {
                self.push_too_many(occs, own.as_slice(), *most, found.as_slice(), out)
            }
            Reason::NoMatchingCounts(low, high) => {
                self.push_no_matching_counts(occs, low.as_slice(), high.as_slice(), out)
            }
            Reason::NoMatchingPlaces => self.push_no_way(occs, told.offers.as_slice(), out),
        }
    }

    /// Appends why a node does not satisfy a member, if that is told, below a line.
    fn push_member_line(
        &self,
        node: TermId,
        member: ExprId,
        why: Option<&Why>,
        out: &mut Vec<u8>,
    ) -> Result<(), AllocError>
        ensures { OnOk result (out.new.items ≡ out.old.items ++ member_line self.now node member (option_copied why.entry)) }
    {
        let Some(why) = why else {
            return Ok(());
        };
        out.extend_from_slice(INNER_MARGIN)?;
        self.push_why(node, member, *why, out)?;
        out.extend_from_slice(b"\n")
    }

    /// Appends why a node does not satisfy each of these members, as far as that is told.
    fn push_member_lines(
        &self,
        node: TermId,
        members: &[ExprId],
        whys: &[Why],
        out: &mut Vec<u8>,
    ) -> Result<(), AllocError>
        ensures { OnOk result (out.new.items ≡ out.old.items ++ member_lines self.now node whys.now 0 members.now) }
    {
        for number in 0..members.len() {
            self.push_member_line(node, members[number], whys.get(number), out)?;
        }
        Ok(())
    }

    /// Appends that a node satisfies no member.
    fn push_no_member(
        &self,
        node: TermId,
        members: &[ExprId],
        whys: &[Why],
        out: &mut Vec<u8>,
    ) -> Result<(), AllocError>
        ensures { OnOk result (out.new.items ≡ out.old.items ++ no_member_text self.now node members.now whys.now) }
    {
        out.extend_from_slice(b"  none of ")?;
        push_number(self.alloc, members.len() as u64, out)?;
        out.extend_from_slice(b":\n")?;
        self.push_member_lines(node, shown(members, self.limit), whys, out)?;
        self.push_more(INNER_MARGIN, members.len(), out)
    }

    /// Appends why a node does not satisfy a member.
    fn push_member(
        &self,
        node: TermId,
        member: ExprId,
        why: Option<&Why>,
        out: &mut Vec<u8>,
    ) -> Result<(), AllocError>
        ensures { OnOk result (out.new.items ≡ out.old.items ++ member_text self.now node member (option_copied why.entry)) }
    {
        let Some(why) = why else {
            return Ok(());
        };
        out.extend_from_slice(b"  member: ")?;
        self.push_why(node, member, *why, out)?;
        out.extend_from_slice(b"\n")
    }

    /// Appends that a node satisfies the member of a ShapeNot.
    fn push_negated(
        &self,
        node: TermId,
        member: ExprId,
        out: &mut Vec<u8>,
    ) -> Result<(), AllocError>
        ensures { OnOk result (out.new.items ≡ out.old.items ++ negated_text self.now node member) }
    {
        out.extend_from_slice(b"  not: ")?;
        push_term(self.alloc, self.terms, node, out)?;
        self.push_satisfied_expr(member, out)?;
        out.extend_from_slice(b"\n")
    }

    /// Appends a cause why a node does not satisfy an expression.
    pub(crate) fn push_cause(
        &self,
        node: TermId,
        told: &ToldCause,
        out: &mut Vec<u8>,
    ) -> Result<(), AllocError>
        ensures { OnOk result (out.new.items ≡ out.old.items ++ told_cause_text self.now node told.now) }
    {
        match &told.cause {
            Cause::Member(member) => {
                self.push_member(node, *member, told.members.as_slice().first(), out)
            }
            Cause::NoMember(members) => {
                self.push_no_member(node, members.as_slice(), told.members.as_slice(), out)
            }
            Cause::Negated(member) => self.push_negated(node, *member, out),
            Cause::FailedPart(_) | Cause::Lacks(_) => Ok(()),
        }
    }
}
