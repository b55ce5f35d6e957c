//! The check of bytes that are given as a proof.

ghost use Rattle.std.specs.Prelude.{◌<◌, ◌^◌, ◌≡◌, All, Contains, IfErr, IfOk, length};
ghost use Rattle.lists.specs.Distinct.{AreDistinct};
ghost use Rattle.graph_index.specs.Contents.{IsSealedWith};
ghost use Rattle.graph_index.specs.Laws.{IsOfTable};
ghost use Rattle.schema_tree.specs.Cycles.{HasNegatedCycle};
ghost use Rattle.schema_tree.specs.Loaded.{IsLoaded};
ghost use Rattle.proof_file.specs.Accepts.{items_of, setting_of};
ghost use Rattle.proof_checker.specs.Checks.{FailsAs, IsAcceptedFor, IsTrueAs, KeepsTerms};
ghost use Rattle.proof_checker.specs.Faults.{AreRising, FirstFault, proof_of};

use crate::claims::{Claims, answers};
use crate::current::used_strata;
use crate::items::{Fault, ProofInSetting};
use crate::lines::take_up;
use crate::standings::Standings;
use graph_index::graph::Graph;
use graph_index::laws::sealing_outlives_growth;
use proof_file::head::{Digests, Part};
use proof_file::laws::lines_are_few;
use proof_file::read::{ReadError, read};
use proof_file::{Claim, Proof, Section, Why, accepted_is_true};
use rdf_terms::table::{PutError, TermTable};
use rdf_terms::terms::TermId;
use schema_tree::laws::{strata_are_alike, strata_are_least, typing_is_one};
use schema_tree::schema::Schema;
use std::alloc::{AllocError, Global};
use std::error::Error;
use std::fmt;

/// Why bytes are not accepted as a proof. It shows the text that a program prints for it.
#[derive(Debug, Drop, PartialEq, Eq)]
pub enum CheckError {
    /// They are no text of a proof: the place of the first line for which the lines up to it begin none, or their length
    /// where they end before the last line.
    Syntax(u64),
    /// They are the text of a proof that is made for other files: the first part of which the digests differ, in the order of
    /// schema, imports and data.
    Stale(Part),
    /// They are the text of a proof that is made for these files, and the strata that it brings are no stratification.
    Strata,
    /// They are the text of a current proof with an item that is not accepted: its number, from 0 over records and claims,
    /// and the first check that it fails. A proof is current where its head, if it has one, passes the two checks above.
    Rejected(u64, Why),
    /// They are the text of a current proof, and the table cannot take up all terms of its node lines.
    Full,
    /// Memory ran out.
    Memory,
}

impl fmt::Display for CheckError {
    ghost use Rattle.std.specs.Prelude.{Some};
    ghost use Rattle.proof_checker.specs.Messages.{check_text};

    ghost output = { λ e. Some (check_text e) };

    fn fmt<W: fmt::Write>(&self, f: &mut fmt::Formatter<W>) -> fmt::Result {
        match self {
            CheckError::Syntax(at) => write!(f, "Syntax({at})"),
            CheckError::Stale(part) => write!(f, "Stale({part})"),
            CheckError::Strata => f.write_str("Strata"),
            CheckError::Rejected(number, why) => write!(f, "Rejected({number},{why})"),
            CheckError::Full => f.write_str("Full"),
            CheckError::Memory => f.write_str("Memory"),
        }
    }
}

impl Error for CheckError {}

impl From<AllocError> for CheckError {
    ghost use Rattle.std.specs.Prelude.{◌≡◌};
    ghost use Rattle.proof_checker.specs.declared.checking.CheckError.TheVariants.{Memory};

    ghost from_gives = { λ _ e. e ≡ Memory };

    fn from(_error: AllocError) -> CheckError {
        CheckError::Memory
    }
}

/// The first item of a proof that is not accepted.
fn first_fault(
    alloc: Global,
    schema: &Schema,
    strata: &[u32],
    graph: &Graph,
    terms: &TermTable,
    nodes: &[TermId],
    sections: &[Section],
    claims: &[Claim],
) -> Result<Option<Fault>, AllocError>
    requires loaded { IsLoaded schema.now }
    requires sealed { IsSealedWith terms.now graph.now }
    requires rising { AreRising sections.now }
    requires few_items { length (items_of (proof_of sections.now claims.now)) < 2 ^ 64 }
    ensures { IfOk result (FirstFault (setting_of strata.now schema.now terms.now graph.now.triples nodes.now) (proof_of sections.now claims.now) (items_of (proof_of sections.now claims.now))) }
{
    // The length of a graph tells contracts that it is within the limit.
    let _held = graph.len();
    let standings = Standings::of_sections(alloc, nodes, sections)?;
    let proof = ProofInSetting {
        schema,
        terms,
        graph,
        strata,
        nodes,
        sections,
        claims,
        standings: &standings,
    };
    proof.fault(alloc)
}

/// How many bytes there are, which a `u64` holds.
fn size(bytes: &[u8]) -> u64
    ensures { result ≡ length bytes.now }
{
    bytes.len() as u64
}

/// Checks bytes that are given as a proof, as `check` does.
fn checked(
    alloc: Global,
    schema: &Schema,
    graph: &Graph,
    terms: &mut TermTable,
    files: &Digests,
    proof: &[u8],
) -> Result<Claims, CheckError>
    requires loaded { IsLoaded schema.now }
    requires stratified { ¬ HasNegatedCycle schema.now }
    requires sealed { IsSealedWith terms.old graph.now }
    requires numbers { All (IsOfTable terms.old) graph.now.triples }
    ensures accepted { IfOk result (IsAcceptedFor schema.now files.now terms.old terms.new graph.now.triples proof.now) }
    ensures fails { IfErr result (FailsAs schema.now files.now terms.old terms.new graph.now.triples proof.now) }
    ensures kept { KeepsTerms terms.old terms.new }
    ensures distinct { AreDistinct terms.new }
{
    // The length of a table tells contracts that its terms are distinct.
    let _distinct = terms.len();
    // The number of bytes tells contracts that it is below 2^64.
    let _fits = size(proof);
    lines_are_few();
    sealing_outlives_growth();
    let Proof {
        head,
        nodes,
        sections,
        claims,
    } = match read(alloc, proof) {
        Ok(read) => read,
        Err(ReadError::Syntax(at)) => return Err(CheckError::Syntax(at)),
        Err(ReadError::Memory) => return Err(CheckError::Memory),
    };
    let strata = used_strata(alloc, schema, files, head)?;
    let nodes = match take_up(alloc, terms, nodes.into_vec()) {
        Ok(nodes) => nodes,
        Err(PutError::Full) => return Err(CheckError::Full),
        Err(PutError::Memory) => return Err(CheckError::Memory),
    };
    let (nodes, sections) = (nodes.as_slice(), sections.as_slice());
    let fault = first_fault(
        alloc,
        schema,
        strata.list(),
        graph,
        terms,
        nodes,
        sections,
        claims.as_slice(),
    )?;
    if let Some(fault) = fault {
        return Err(CheckError::Rejected(fault.item as u64, fault.why));
    }
    Ok(Claims::of(answers(alloc, nodes, claims.into_vec())?))
}

/// Checks bytes that are given as a proof, against a loaded schema in which no cycle of edges has a negative one, a graph that
/// is sealed with the table, and the digests of the files that these were read from. The terms of the node lines are put into
/// the table. Gives the claims in their order where the proof is current for the files and accepted, with each Shape on the
/// stratum that the proof brings for it, or on its own where it brings none; then each of its records and claims is true of
/// the complete typing (ShEx 2.1, section 5.2). After a refusal the table may have more terms.
pub fn check(
    alloc: Global,
    schema: &Schema,
    graph: &Graph,
    terms: &mut TermTable,
    files: &Digests,
    proof: &[u8],
) -> Result<Claims, CheckError>
    requires loaded { IsLoaded schema.now }
    requires stratified { ¬ HasNegatedCycle schema.now }
    requires sealed { IsSealedWith terms.old graph.now }
    requires numbers { All (IsOfTable terms.old) graph.now.triples }
    ensures accepted { IfOk result (IsAcceptedFor schema.now files.now terms.old terms.new graph.now.triples proof.now) }
    ensures sound { IfOk result (IsTrueAs schema.now terms.old terms.new graph.now.triples proof.now) }
    ensures fails { IfErr result (FailsAs schema.now files.now terms.old terms.new graph.now.triples proof.now) }
    ensures kept { KeepsTerms terms.old terms.new }
    ensures distinct { AreDistinct terms.new }
{
    // The laws that tie what is accepted, by whatever stratification, to the complete typing.
    accepted_is_true();
    strata_are_least();
    strata_are_alike();
    typing_is_one();
    checked(alloc, schema, graph, terms, files, proof)
}
