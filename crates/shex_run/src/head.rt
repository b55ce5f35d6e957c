//! The head of the proof that is stored.

ghost use Rattle.std.specs.Prelude.{◌≡◌, IfOk, IfSome, is_some};
ghost use Rattle.proof_file.specs.declared.head.Digests.{Digests as FilesDigests};
ghost use Rattle.shex_inputs.specs.Held.{held_by};
ghost use Rattle.shex_run.specs.Ready.{head_if, head_of};

use proof_file::head::{Digests, Head};
use rdf_terms::items::Items;
use shex_inputs::Holding;
use std::alloc::{AllocError, Global};

/// A copy of digests.
fn copied_digests(alloc: Global, files: &Digests) -> Result<Digests, AllocError>
    ensures { IfOk result (λ d. d ≡ files.now) }
{
    Ok(Digests {
        schema: files.schema,
        imports: Items::of(Vec::from_slice(alloc, files.imports.as_slice())?),
        graph: files.graph,
    })
}

/// The head of a proof over what is held of files with these digests: the digests, and the strata of its Shapes.
pub fn head_of(alloc: Global, holding: &Holding, digests: &Digests) -> Result<Head, AllocError>
    ensures { IfOk result (λ h. h ≡ head_of (held_by holding.now digests.now)) }
{
    Ok(Head {
        files: copied_digests(alloc, digests)?,
        strata: Items::of(Vec::from_slice(alloc, holding.strata.list())?),
    })
}

/// The head of a proof over what is held, if there are digests of the files.
pub fn head_if(
    alloc: Global,
    holding: &Holding,
    digests: Option<Digests>,
) -> Result<Option<Head>, AllocError>
    ensures { (files : FilesDigests) → IfSome digests (λ d. d ≡ files) → IfOk result (λ h. h ≡ head_if (is_some digests) (held_by holding.now files)) }
{
    match digests {
        Some(digests) => Ok(Some(head_of(alloc, holding, &digests)?)),
        None => Ok(None),
    }
}
