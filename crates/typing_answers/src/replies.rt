//! The answers to associations.

ghost use Rattle.std.specs.Prelude.{◌≡◌, ◌∷◌, ◌++◌, [], IfOk, IfSome, List, None, OnOk};
ghost use Rattle.proof_file.specs.Accepts.{verdict_of};
ghost use Rattle.rdf_terms.specs.declared.terms.Term.{Term};
ghost use Rattle.schema_tree.specs.declared.schema.Schema.{Schema as Tree};
ghost use Rattle.schema_tree.specs.Loaded.{IsLoaded};
ghost use Rattle.schema_tree.specs.Sure.{IsSure, Known};
ghost use Rattle.shape_map.specs.declared.resolve.Association.{Association as Asked};
ghost use Rattle.typing_answers.specs.Replies.{AreSureAnswers};

use rdf_terms::table::TermTable;
use schema_tree::schema::{Answer, Schema};
use schema_tree::sure::{View, sure};
use schema_tree::verdicts::Verdict;
use shape_map::Association;
use std::alloc::{AllocError, Global};

/// The answer to an association, whose target it takes.
fn answered(association: Association, holds: bool) -> Answer
    ensures { result ≡ record { node = association.node; target = association.target; holds = holds } }
{
    Answer {
        node: association.node,
        target: association.target,
        holds,
    }
}

/// What a verdict says, unless it is Unknown.
fn decided(verdict: Verdict) -> Option<bool>
    ensures some { IfSome result (λ holds. verdict ≡ verdict_of holds) }
    ensures none { result ≡ None → verdict ≡ Verdict.Unknown }
{
    match verdict {
        Verdict::Yes => Some(true),
        Verdict::No => Some(false),
        Verdict::Unknown => None,
    }
}

/// Puts the answer of a verdict to an association behind the others, unless it is Unknown.
fn reply(
    answers: &mut Vec<Answer>,
    association: Association,
    verdict: Verdict,
) -> Result<(), AllocError>
    ensures { (s : Tree) (terms : List Term) (view : Known) (asked : List Asked) →
        IsSure s terms view association.node association.expr verdict → AreSureAnswers s terms view asked answers.old.items →
        OnOk result (AreSureAnswers s terms view (asked ++ association ∷ []) answers.new.items) }
{
    let Some(holds) = decided(verdict) else {
        return Ok(());
    };
    answers.push(answered(association, holds))?;
    Ok(())
}

/// The answers to associations (ShapeMap Structure and Language, section 4), in their order, by the verdicts of a view. Those on
/// whose expressions the verdict is Unknown are left out. It fails for want of memory alone.
pub fn answers<V: View>(
    alloc: Global,
    schema: &Schema,
    terms: &TermTable,
    view: &V,
    associations: Vec<Association>,
) -> Result<Vec<Answer>, AllocError>
    requires { IsLoaded schema.now }
    ensures { IfOk result (λ v. AreSureAnswers schema.now terms.now (V.known view.now) associations.items v.items) }
{
    let mut answers = Vec::new(alloc);
    for association in associations {
        let verdict = sure(
            alloc,
            schema,
            terms,
            association.node,
            association.expr,
            view,
        )?;
        reply(&mut answers, association, verdict)?;
    }
    Ok(answers)
}
