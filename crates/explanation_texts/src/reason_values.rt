//! Reasons why a node does not have a Shape, as values of JSON.

ghost use Rattle.std.specs.Prelude.{◌≡◌, IfOk, OnOk, codes, map};
ghost use Rattle.std.specs.Option.{option_copied};
ghost use Rattle.serde_json.specs.Data.{no_members, object, put};
ghost use Rattle.serde_json.specs.View.{view};
ghost use Rattle.explanation_texts.specs.Data.{members_of};
ghost use Rattle.explanation_texts.specs.Trees.{count_data, counts_data, list_data, misfit_data, offer_data, put_bound, put_kind, put_most, put_told, reason_data, triple_data};

use crate::object::Object;
use crate::reasons::{constraints_at, may_be_left};
use crate::setting::Setting;
use explanations::explanation::{Misfit, ToldReason};
use nonconformance::offers::Offer;
use nonconformance::reason::Reason;
use rdf_terms::terms::Triple;
use schema_tree::schema::Occurrence;
use serde_json::Value;
use std::alloc::AllocError;

/// Puts a greatest number, if there is one.
fn put_most(most: Option<&u32>, members: &mut Object) -> Result<(), AllocError>
    ensures { OnOk result (members_of members.new ≡ put_most (option_copied most.entry) (members_of members.old)) }
{
    match most {
        Some(most) => members.put_number("most", u64::from(*most)),
        None => Ok(()),
    }
}

impl Setting<'_> {
    /// Puts why a triple constraint does not take a triple.
    fn put_misfit(
        &self,
        occs: &[Occurrence],
        misfit: Misfit,
        members: &mut Object,
    ) -> Result<(), AllocError>
        requires { members_of members.old ≡ no_members }
        ensures { OnOk result (object (members_of members.new) ≡ misfit_data self.now occs.now misfit) }
    {
        self.put_constraint(occs, misfit.constraint as usize, members)?;
        self.put_term("node", misfit.node, members)?;
        self.put_why(misfit.node, misfit.value, misfit.why, members)
    }

    /// Why a triple constraint does not take a triple.
    fn misfit_value(&self, occs: &[Occurrence], misfit: Misfit) -> Result<Value, AllocError>
        ensures { IfOk result (λ v. view v ≡ misfit_data self.now occs.now misfit) }
    {
        let mut members = Object::new(self.alloc);
        self.put_misfit(occs, misfit, &mut members)?;
        Ok(members.into_value())
    }

    /// Why triple constraints do not take a triple.
    fn misfit_values(
        &self,
        occs: &[Occurrence],
        misfits: &[Misfit],
    ) -> Result<Vec<Value>, AllocError>
        ensures { IfOk result (λ v. map view v.items ≡ map (misfit_data self.now occs.now) misfits.now) }
    {
        let mut values = Vec::new(self.alloc);
        for misfit in misfits {
            values.push(self.misfit_value(occs, *misfit)?)?;
        }
        Ok(values)
    }

    /// Puts how many triples a triple constraint takes.
    fn put_count(
        &self,
        occs: &[Occurrence],
        number: usize,
        low: u32,
        high: Option<&u32>,
        members: &mut Object,
    ) -> Result<(), AllocError>
        requires { members_of members.old ≡ no_members }
        ensures { OnOk result (object (members_of members.new) ≡ count_data self.now.terms.now occs.now number low (option_copied high.entry)) }
    {
        self.put_constraint(occs, number, members)?;
        members.put_number("least", u64::from(low))?;
        put_most(high, members)
    }

    /// How many triples a triple constraint takes.
    fn count_value(
        &self,
        occs: &[Occurrence],
        number: usize,
        low: u32,
        high: Option<&u32>,
    ) -> Result<Value, AllocError>
        ensures { IfOk result (λ v. view v ≡ count_data self.now.terms.now occs.now number low (option_copied high.entry)) }
    {
        let mut members = Object::new(self.alloc);
        self.put_count(occs, number, low, high, &mut members)?;
        Ok(members.into_value())
    }

    /// How many triples each triple constraint takes.
    fn count_values(
        &self,
        occs: &[Occurrence],
        low: &[u32],
        high: &[u32],
    ) -> Result<Vec<Value>, AllocError>
        ensures { IfOk result (λ v. map view v.items ≡ counts_data self.now.terms.now occs.now high.now 0 low.now) }
    {
        let mut values = Vec::new(self.alloc);
        for number in 0..low.len() {
            values.push(self.count_value(occs, number, low[number], high.get(number))?)?;
        }
        Ok(values)
    }

    /// Puts a triple with what may be done with it.
    fn put_offer(
        &self,
        occs: &[Occurrence],
        offer: &Offer,
        members: &mut Object,
    ) -> Result<(), AllocError>
        requires { members_of members.old ≡ no_members }
        ensures { OnOk result (object (members_of members.new) ≡ offer_data self.now.terms.now occs.now offer.now) }
    {
        self.put_triple("triple", offer.triple, members)?;
        let numbers = constraints_at(self.alloc, offer.places.as_slice())?;
        members.put_list(
            "constraints",
            self.constraint_values(occs, numbers.as_slice())?,
        )?;
        members.put_flag("leftOver", may_be_left(offer.places.as_slice()))
    }

    /// A triple with what may be done with it.
    fn offer_value(&self, occs: &[Occurrence], offer: &Offer) -> Result<Value, AllocError>
        ensures { IfOk result (λ v. view v ≡ offer_data self.now.terms.now occs.now offer.now) }
    {
        let mut members = Object::new(self.alloc);
        self.put_offer(occs, offer, &mut members)?;
        Ok(members.into_value())
    }

    /// Triples with what may be done with each.
    fn offer_values(&self, occs: &[Occurrence], offers: &[Offer]) -> Result<Vec<Value>, AllocError>
        ensures { IfOk result (λ v. map view v.items ≡ map (offer_data self.now.terms.now occs.now) offers.now) }
    {
        let mut values = Vec::new(self.alloc);
        for offer in offers {
            values.push(self.offer_value(occs, offer)?)?;
        }
        Ok(values)
    }

    /// Puts that a triple is forbidden.
    fn put_forbidden(&self, triple: Triple, members: &mut Object) -> Result<(), AllocError>
        ensures { OnOk result (members_of members.new ≡
            put (codes "triple") (triple_data self.now.terms.now triple) (put_kind (codes "closed") (members_of members.old))) }
    {
        members.put_kind("closed")?;
        self.put_triple("triple", triple, members)
    }

    /// Puts that a triple is not matched, and why each constraint that fits it does not take it.
    fn put_unmatched(
        &self,
        occs: &[Occurrence],
        triple: Triple,
        misfits: &[Misfit],
        members: &mut Object,
    ) -> Result<(), AllocError>
        ensures { OnOk result (members_of members.new ≡
            put (codes "causes") (list_data (map (misfit_data self.now occs.now) misfits.now))
            (put (codes "triple") (triple_data self.now.terms.now triple) (put_kind (codes "unmatched") (members_of members.old)))) }
    {
        members.put_kind("unmatched")?;
        self.put_triple("triple", triple, members)?;
        members.put_list("causes", self.misfit_values(occs, misfits)?)
    }

    /// Puts a number of triples that triple constraints take together, under a key, and the triples that were found for them.
    fn put_bound(
        &self,
        occs: &[Occurrence],
        key: &str,
        bound: u64,
        own: &[u16],
        found: &[Triple],
        members: &mut Object,
    ) -> Result<(), AllocError>
        ensures { OnOk result (members_of members.new ≡
            put_bound self.now.terms.now occs.now key.now bound own.now found.now (members_of members.old)) }
    {
        members.put_list("constraints", self.constraint_values(occs, own)?)?;
        members.put_number(key, bound)?;
        members.put_list("found", self.triple_values(found)?)
    }

    /// Puts that there are too few triples for these constraints.
    fn put_too_few(
        &self,
        occs: &[Occurrence],
        own: &[u16],
        least: u64,
        found: &[Triple],
        members: &mut Object,
    ) -> Result<(), AllocError>
        ensures { OnOk result (members_of members.new ≡
            put_bound self.now.terms.now occs.now (codes "least") least own.now found.now (put_kind (codes "tooFew") (members_of members.old))) }
    {
        members.put_kind("tooFew")?;
        self.put_bound(occs, "least", least, own, found, members)
    }

    /// Puts that there are too many triples for these constraints.
    fn put_too_many(
        &self,
        occs: &[Occurrence],
        own: &[u16],
        most: u64,
        found: &[Triple],
        members: &mut Object,
    ) -> Result<(), AllocError>
        ensures { OnOk result (members_of members.new ≡
            put_bound self.now.terms.now occs.now (codes "most") most own.now found.now (put_kind (codes "tooMany") (members_of members.old))) }
    {
        members.put_kind("tooMany")?;
        self.put_bound(occs, "most", most, own, found, members)
    }

    /// Puts that there is no match with these numbers.
    fn put_no_matching_counts(
        &self,
        occs: &[Occurrence],
        low: &[u32],
        high: &[u32],
        members: &mut Object,
    ) -> Result<(), AllocError>
        ensures { OnOk result (members_of members.new ≡
            put (codes "counts") (list_data (counts_data self.now.terms.now occs.now high.now 0 low.now))
            (put_kind (codes "noMatchingNumbers") (members_of members.old))) }
    {
        members.put_kind("noMatchingNumbers")?;
        members.put_list("counts", self.count_values(occs, low, high)?)
    }

    /// Puts that no way deals the triples, and what may be done with each.
    fn put_no_way(
        &self,
        occs: &[Occurrence],
        offers: &[Offer],
        members: &mut Object,
    ) -> Result<(), AllocError>
        ensures { OnOk result (members_of members.new ≡
            put (codes "triples") (list_data (map (offer_data self.now.terms.now occs.now) offers.now))
            (put_kind (codes "noWay") (members_of members.old))) }
    {
        members.put_kind("noWay")?;
        members.put_list("triples", self.offer_values(occs, offers)?)
    }

    /// Puts a reason why a node does not have a Shape.
    fn put_reason(
        &self,
        occs: &[Occurrence],
        told: &ToldReason,
        members: &mut Object,
    ) -> Result<(), AllocError>
        ensures { OnOk result (members_of members.new ≡
            put_told self.now occs.now told.now.misfits told.now.offers told.now.reason (members_of members.old)) }
    {
        match &told.reason {
            Reason::Forbidden(triple) => self.put_forbidden(*triple, members),
            Reason::Unmatched(triple) => {
                self.put_unmatched(occs, *triple, told.misfits.as_slice(), members)
            }
            Reason::TooFew(own, least, found) => {
                self.put_too_few(occs, own.as_slice(), *least, found.as_slice(), members)
            }
            Reason::TooMany(own, most, found) => {
                self.put_too_many(occs, own.as_slice(), *most, found.as_slice(), members)
            }
            Reason::NoMatchingCounts(low, high) => {
                self.put_no_matching_counts(occs, low.as_slice(), high.as_slice(), members)
            }
            Reason::NoMatchingPlaces => self.put_no_way(occs, told.offers.as_slice(), members),
        }
    }

    /// A reason why a node does not have a Shape.
    fn reason_value(&self, occs: &[Occurrence], told: &ToldReason) -> Result<Value, AllocError>
        ensures { IfOk result (λ v. view v ≡ reason_data self.now occs.now told.now) }
    {
        let mut members = Object::new(self.alloc);
        self.put_reason(occs, told, &mut members)?;
        Ok(members.into_value())
    }

    /// Reasons why a node does not have a Shape.
    pub(crate) fn reason_values(
        &self,
        occs: &[Occurrence],
        told: &[&ToldReason],
    ) -> Result<Vec<Value>, AllocError>
        ensures { IfOk result (λ v. map view v.items ≡ map (reason_data self.now occs.now) (map (λ r. r.now) told.now)) }
    {
        let mut values = Vec::new(self.alloc);
        for reason in told {
            values.push(self.reason_value(occs, reason)?)?;
        }
        Ok(values)
    }
}
