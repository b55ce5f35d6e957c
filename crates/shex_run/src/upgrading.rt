//! A proof that is checked, in format 2.

ghost use Rattle.std.specs.Prelude.{◌≡◌, All, IfErr, IfOk, Some, true};
ghost use Rattle.std.specs.List.{AllByRecursion};
ghost use Rattle.graph_index.specs.Laws.{IsOfTable};
ghost use Rattle.lists.specs.Distinct.{AreDistinct};
ghost use Rattle.schema_tree.specs.Edges.{IsStratum};
ghost use Rattle.schema_tree.specs.Loaded.{IsLoaded};
ghost use Rattle.proof_file.specs.declared.Proof.{Proof as Written};
ghost use Rattle.proof_file.specs.Text.{HasNoFeeds, IsLine, Keeps, ProofText, head_lines};
ghost use Rattle.shex_inputs.specs.Held.{held_by};
ghost use Rattle.shex_run.specs.Checking.{ConfirmStops};
ghost use Rattle.shex_run.specs.Ready.{head_if};
ghost use Rattle.shex_run.specs.Storing.{IsNewest, Upgrades, with_head};
ghost use Rattle.shex_run.specs.declared.stop.Stop.TheVariants as Stops;

use crate::checking::confirm;
use crate::head::head_of;
use crate::stop::Stop;
use proof_file::Proof;
use proof_file::head::{Digests, Head};
use proof_file::read::{ReadError, read};
use proof_file::write::write;
use shex_inputs::Holding;
use std::alloc::{AllocError, Global};

/// What an accepted proof is upgraded to.
#[derive(Drop)]
pub struct Upgraded {
    /// The result map of its claims.
    pub text: Vec<u8>,
    /// Its text in format 2.
    pub proof: Vec<u8>,
}

/// The text of a proof with this head in place of its own.
fn write_with(alloc: Global, head: Head, proof: Proof) -> Result<Vec<u8>, AllocError>
    requires fits { AllByRecursion IsLine (head_lines (Some head)) }
    requires keeps { Keeps proof }
    ensures { IfOk result (λ v. HasNoFeeds proof → ProofText (with_head head proof) v.items) }
{
    let Proof {
        head: _,
        nodes,
        sections,
        claims,
    } = proof;
    let proof = Proof {
        head: Some(head),
        nodes,
        sections,
        claims,
    };
    write(alloc, &proof)
}

/// The proof of which the bytes are the text, in format 2: the bytes themselves where it has a head, and else the text of the same
/// proof with this head.
fn newest(alloc: Global, head: Head, bytes: Vec<u8>) -> Result<Vec<u8>, Stop>
    requires fits { AllByRecursion IsLine (head_lines (Some head)) }
    requires proof { (p : Written) × ProofText p bytes.items }
    ensures newest { IfOk result (λ v. (p : Written) → ProofText p bytes.items → IsNewest head p bytes.items p.head v.items) }
    ensures memory { IfErr result (λ s. s ≡ Stops.Memory) }
{
    let proof = match read(alloc, bytes.as_slice()) {
        Ok(proof) => proof,
        Err(ReadError::Syntax(_)) => unreachable!(),
        Err(ReadError::Memory) => return Err(Stop::Memory),
    };
    if proof.head.is_some() {
        return Ok(bytes);
    }
    match write_with(alloc, head, proof) {
        Ok(text) => Ok(text),
        Err(_) => Err(Stop::Memory),
    }
}

/// The result map of the claims of a proof that is current and accepted, and the proof in format 2, or why it is not confirmed.
pub fn confirm_newest(
    alloc: Global,
    holding: &mut Holding,
    digests: &Digests,
    proof: Vec<u8>,
) -> Result<Upgraded, Stop>
    requires loaded { IsLoaded holding.old.schema }
    requires strata { IsStratum holding.old.schema holding.old.strata }
    requires distinct { AreDistinct holding.old.terms }
    requires of_table { All (IsOfTable holding.old.terms) holding.old.graph.triples }
    requires fits { AllByRecursion IsLine (head_lines (head_if true (held_by holding.old digests.now))) }
    ensures upgrades { IfOk result (λ u. Upgrades (held_by holding.old digests.now) proof.items u.text.items u.proof.items) }
    ensures stops { IfErr result (ConfirmStops (held_by holding.old digests.now) proof.items) }
{
    let head = head_of(alloc, holding, digests)?;
    let text = confirm(alloc, holding, digests, proof.as_slice())?;
    let proof = newest(alloc, head, proof)?;
    Ok(Upgraded { text, proof })
}
