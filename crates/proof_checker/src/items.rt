//! Which check of which item of a proof fails first.

ghost use Rattle.std.specs.Prelude.{◌≡◌, ◌↔◌, ◌<◌, ◌+◌, ◌^◌, [], ◌∷◌, map, Contains, IfOk, IsTrue, Some, length};
ghost use Rattle.schema_tree.specs.Loaded.{IsShapeLoaded};
ghost use Rattle.schema_tree.specs.Places.{MayFail, MayHold};
ghost use Rattle.schema_tree.specs.Relevant.{relevant_in_order};
ghost use Rattle.schema_tree.specs.Sure.{IsSure};
ghost use Rattle.schema_tree.specs.declared.verdicts.Lean.TheVariants.{Possible};
ghost use Rattle.proof_file.specs.Accepts.{AreStates, Passes, PassesKind, PassesMinus, PassesPlus, checks_of, in_section, is_claim, items_of, kind_checks, verdict_of};
ghost use Rattle.schema_tree.specs.States.{IsStateBefore};
ghost use Rattle.schema_tree.specs.Rising.{Rises};
ghost use Rattle.proof_file.specs.declared.Record.{Record as Line};
ghost use Rattle.proof_file.specs.declared.Why.TheVariants as Whys;
ghost use Rattle.proof_checker.specs.Faults.{FirstFault, FoundBy, IsReady, StatesRise, known_to, proof_in, setting};
ghost use Rattle.proof_checker.specs.declared.standings.Reader.TheVariants.{Refutes};

use crate::standings::{Reader, RecordView, Standings, stratum_of};
use crate::states::Listing;
use bag_match::arcs::{RelevantTriples, is_shut, relevant};
use bag_match::counts::have_counts;
use bag_match::places::{Form, Values, are_allowed};
use graph_index::graph::Graph;
use proof_file::{Claim, Record, RecordKind, Section, Why};
use rdf_terms::table::TermTable;
use rdf_terms::terms::TermId;
use schema_tree::laws::layers_are_meanings;
use schema_tree::schema::{ExprId, Schema, Shape, ShapeId};
use schema_tree::sure::sure;
use schema_tree::verdicts::{Lean, Place, State, Verdict};
use std::alloc::{AllocError, Global};

/// The first item of a proof that is not accepted, and its first check that fails.
#[derive(Clone, Copy, Debug, PartialEq, Eq)]
pub struct Fault {
    /// The item's number, from 0.
    pub item: usize,
    /// The check.
    pub why: Why,
}

/// A proof, and the setting that it is held against.
#[derive(Clone, Copy)]
pub struct ProofInSetting<'a> {
    /// The schema, which is loaded.
    pub schema: &'a Schema,
    /// The terms.
    pub terms: &'a TermTable,
    /// The graph, which is sealed with the terms.
    pub graph: &'a Graph,
    /// The stratum of each Shape.
    pub strata: &'a [u32],
    /// The numbers of the node lines' terms.
    pub nodes: &'a [TermId],
    /// The sections of the proof.
    pub sections: &'a [Section],
    /// The claims of the proof.
    pub claims: &'a [Claim],
    /// What its records say of pairs.
    pub standings: &'a Standings,
}

impl ProofInSetting<'_> {
    /// Whether the values at the places are as a record that confirms on the stratum may take them.
    fn values_fit(
        &self,
        alloc: Global,
        stratum: u32,
        shape: &Shape,
        node: TermId,
        triples: &RelevantTriples<'_>,
        places: &[Place],
    ) -> Result<bool, AllocError>
        requires ready { IsReady self.now }
        requires triples { triples.now ≡ relevant_in_order self.now.terms.now self.now.graph.now.triples shape.now node }
        ensures { IfOk result (λ b. IsTrue b ↔ PassesPlus (setting self.now) (proof_in self.now) stratum node shape.now places.now Whys.Value) }
    {
        layers_are_meanings();
        let judge = Values {
            schema: self.schema,
            terms: self.terms,
            view: &RecordView {
                standings: self.standings,
                strata: self.strata,
                reader: Reader::Confirms(stratum),
            },
            lean: Lean::Impossible,
        };
        are_allowed(alloc, &judge, shape, node, triples, places)
    }

    /// Whether the states leave no match, as a record that refutes on the stratum with the rank may take values.
    fn states_refute(
        &self,
        alloc: Global,
        stratum: u32,
        rank: u32,
        shape: &Shape,
        node: TermId,
        triples: &RelevantTriples<'_>,
        states: &[State],
    ) -> Result<bool, AllocError>
        requires ready { IsReady self.now }
        requires rising { Rises IsStateBefore states.now }
        requires shape { IsShapeLoaded self.now.schema.now shape.now }
        requires few { length triples.now < 2 ^ 31 }
        ensures { IfOk result (λ b. IsTrue b ↔ AreStates
            (MayHold self.now.schema.now self.now.terms.now (known_to self.now (Refutes stratum rank)) Possible)
            (MayFail self.now.schema.now self.now.terms.now (known_to self.now (Refutes stratum rank)) Possible)
            shape.now node triples.now states.now) }
    {
        layers_are_meanings();
        let listing = Listing {
            shape,
            node,
            triples,
            states,
            judge: &Values {
                schema: self.schema,
                terms: self.terms,
                view: &RecordView {
                    standings: self.standings,
                    strata: self.strata,
                    reader: Reader::Refutes(stratum, rank),
                },
                lean: Lean::Possible,
            },
        };
        listing.are_states(alloc)
    }

    /// The first check of places that fails.
    fn places_fail(
        &self,
        alloc: Global,
        stratum: u32,
        shape: &Shape,
        node: TermId,
        places: &[Place],
    ) -> Result<Option<Why>, AllocError>
        requires ready { IsReady self.now }
        requires shape { IsShapeLoaded self.now.schema.now shape.now }
        ensures { IfOk result (FoundBy (PassesPlus (setting self.now) (proof_in self.now) stratum node shape.now places.now) (Whys.Places ∷ Whys.Value ∷ Whys.Counts ∷ [])) }
    {
        if is_shut(self.graph, shape, node) {
            return Ok(Some(Why::Places));
        }
        let triples = relevant(alloc, self.graph, shape, node)?;
        // Places whose values fit have the right form, so that is asked only where they do not.
        if !self.values_fit(alloc, stratum, shape, node, &triples, places)? {
            if are_allowed(alloc, &Form, shape, node, &triples, places)? {
                return Ok(Some(Why::Value));
            }
            return Ok(Some(Why::Places));
        }
        let counts = have_counts(alloc, shape, places)?;
        Ok((!counts).then_some(Why::Counts))
    }

    /// The check of states, if it fails.
    fn states_fail(
        &self,
        alloc: Global,
        stratum: u32,
        rank: u32,
        shape: &Shape,
        node: TermId,
        states: &[State],
    ) -> Result<Option<Why>, AllocError>
        requires ready { IsReady self.now }
        requires rising { Rises IsStateBefore states.now }
        requires shape { IsShapeLoaded self.now.schema.now shape.now }
        ensures { IfOk result (FoundBy (PassesMinus (setting self.now) (proof_in self.now) stratum node shape.now rank states.now) (Whys.States ∷ [])) }
    {
        if is_shut(self.graph, shape, node) {
            return Ok(None);
        }
        let triples = relevant(alloc, self.graph, shape, node)?;
        let refuted = self.states_refute(alloc, stratum, rank, shape, node, &triples, states)?;
        Ok((!refuted).then_some(Why::States))
    }

    /// The first check that fails of those that look at the node and the Shape of a record.
    fn kind_fails(
        &self,
        alloc: Global,
        stratum: u32,
        kind: &RecordKind,
        node: TermId,
        shape: &Shape,
    ) -> Result<Option<Why>, AllocError>
        requires ready { IsReady self.now }
        requires rising { StatesRise kind.now }
        requires shape { IsShapeLoaded self.now.schema.now shape.now }
        ensures { IfOk result (FoundBy (PassesKind (setting self.now) (proof_in self.now) stratum kind.now (Some node) (Some shape.now)) (kind_checks kind.now)) }
    {
        match kind {
            RecordKind::Plus(places) => {
                self.places_fail(alloc, stratum, shape, node, places.as_slice())
            }
            RecordKind::Minus(rank, states) => {
                self.states_fail(alloc, stratum, *rank, shape, node, states.as_slice())
            }
        }
    }

    /// The first check of a record that fails, in the section of the stratum.
    fn record_fails(
        &self,
        alloc: Global,
        stratum: u32,
        entry: &Record,
    ) -> Result<Option<Why>, AllocError>
        requires ready { IsReady self.now }
        requires rising { StatesRise entry.now.kind }
        ensures { IfOk result (FoundBy (Passes (setting self.now) (proof_in self.now) (in_section stratum entry.now)) (checks_of (in_section stratum entry.now))) }
    {
        let Some(node) = self.nodes.get(entry.node as usize) else {
            return Ok(Some(Why::Node));
        };
        let Some(shape) = self.schema.shapes.as_slice().get(entry.shape as usize) else {
            return Ok(Some(Why::Shape));
        };
        if stratum_of(self.strata, ShapeId(entry.shape)) != stratum {
            return Ok(Some(Why::Stratum));
        }
        self.kind_fails(alloc, stratum, &entry.kind, *node, shape)
    }

    /// The first check of a claim that fails.
    fn claim_fails(&self, alloc: Global, claim: &Claim) -> Result<Option<Why>, AllocError>
        requires ready { IsReady self.now }
        ensures { IfOk result (FoundBy (Passes (setting self.now) (proof_in self.now) (is_claim claim.now)) (checks_of (is_claim claim.now))) }
    {
        let Some(node) = self.nodes.get(claim.node as usize) else {
            return Ok(Some(Why::Node));
        };
        let Some(expr) = self.schema.target(&claim.target) else {
            return Ok(Some(Why::Claim));
        };
        let sure = self.is_sure(alloc, *node, expr, claim.holds)?;
        Ok((!sure).then_some(Why::Claim))
    }

    /// Whether all records make sure that the node satisfies the expression, or that it does not.
    fn is_sure(
        &self,
        alloc: Global,
        node: TermId,
        expr: ExprId,
        holds: bool,
    ) -> Result<bool, AllocError>
        requires ready { IsReady self.now }
        ensures { IfOk result (λ b. IsTrue b ↔ IsSure self.now.schema.now self.now.terms.now (known_to self.now Reader.Claims) node expr (verdict_of holds)) }
    {
        layers_are_meanings();
        let view = RecordView {
            standings: self.standings,
            strata: self.strata,
            reader: Reader::Claims,
        };
        let verdict = sure(alloc, self.schema, self.terms, node, expr, &view)?;
        Ok(is_asked(verdict, holds))
    }

    /// The first record of a section that is not accepted.
    fn section_fault(
        &self,
        alloc: Global,
        stratum: u32,
        records: &[Record],
    ) -> Result<Option<Fault>, AllocError>
        requires ready { IsReady self.now }
        requires rising { (r : Line) → Contains records.now r → StatesRise r.kind }
        ensures { IfOk result (FirstFault (setting self.now) (proof_in self.now) (map (λ r. in_section stratum r) records.now)) }
    {
        for i in 0..records.len() {
            let failed = self.record_fails(alloc, stratum, &records[i])?;
            if let Some(why) = failed {
                return Ok(Some(Fault { item: i, why }));
            }
        }
        Ok(None)
    }

    /// The first claim that is not accepted.
    fn claims_fault(&self, alloc: Global) -> Result<Option<Fault>, AllocError>
        requires ready { IsReady self.now }
        ensures { IfOk result (FirstFault (setting self.now) (proof_in self.now) (map (λ c. is_claim c) self.now.claims.now)) }
    {
        for i in 0..self.claims.len() {
            let failed = self.claim_fails(alloc, &self.claims[i])?;
            if let Some(why) = failed {
                return Ok(Some(Fault { item: i, why }));
            }
        }
        Ok(None)
    }

    /// The first item that is not accepted.
    pub fn fault(&self, alloc: Global) -> Result<Option<Fault>, AllocError>
        requires ready { IsReady self.now }
        requires few { length (items_of (proof_in self.now)) < 2 ^ 64 }
        ensures { IfOk result (FirstFault (setting self.now) (proof_in self.now) (items_of (proof_in self.now))) }
    {
        let mut before = 0;
        for section in self.sections {
            let records = section.records.as_slice();
            let failed = self.section_fault(alloc, section.stratum, records)?;
            if let Some(fault) = failed {
                return Ok(Some(fault.after(before)));
            }
            before += records.len();
        }
        let failed = self.claims_fault(alloc)?;
        match failed {
            Some(fault) => Ok(Some(fault.after(before))),
            None => Ok(None),
        }
    }
}

impl Fault {
    /// The fault with so many items before its own.
    fn after(self, before: usize) -> Fault
        requires { self.item + before < 2 ^ 64 }
        ensures { result ≡ record { item = self.item + before; why = self.why } }
    {
        Fault {
            item: self.item + before,
            why: self.why,
        }
    }
}

/// Whether the verdict is the one that a claim asks for.
fn is_asked(verdict: Verdict, holds: bool) -> bool
    ensures { IsTrue result ↔ (verdict ≡ verdict_of holds) }
{
    match (verdict, holds) {
        (Verdict::Yes, true) | (Verdict::No, false) => true,
        _ => false,
    }
}
