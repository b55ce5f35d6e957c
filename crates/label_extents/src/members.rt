//! The members of extents by the verdicts of refinement.

ghost use Rattle.std.specs.Prelude.{◌≡◌, ◌++◌, ◌||◌, IfOk, OnOk};
ghost use Rattle.std.specs.List.{flat_map, list_any};
ghost use Rattle.rdf_terms.specs.declared.terms.TermId.{TermId as Id};
ghost use Rattle.schema_tree.specs.declared.schema.ExprId.{ExprId as Entry};
ghost use Rattle.schema_tree.specs.declared.verdicts.Verdict.{Verdict as Said};
ghost use Rattle.schema_tree.specs.Loaded.{IsLoaded};
ghost use Rattle.typing_refiner.specs.Refinement.{known_by_it};
ghost use Rattle.label_extents.specs.Extents.{member};
ghost use Rattle.label_extents.specs.Members.{GivesVerdicts, has_unknown, is_unknown, member_by, members_with};

use rdf_terms::table::TermTable;
use rdf_terms::terms::TermId;
use schema_tree::labels::Label;
use schema_tree::schema::{Answer, ExprId, Schema, Target};
use schema_tree::sure::sure;
use schema_tree::verdicts::Verdict;
use std::alloc::{AllocError, Global};
use typing_refiner::Refined;

/// The members that were found, and what was left out.
#[derive(Drop)]
pub(crate) struct Members {
    /// The members.
    pub(crate) answers: Vec<Answer>,
    /// Whether the verdict on some node with some label was Unknown.
    pub(crate) undecided: bool,
}

/// The answer that a node satisfies the expression of a label.
fn member(alloc: Global, label: &Label, node: TermId) -> Result<Answer, AllocError>
    ensures { IfOk result (λ a. a ≡ member label.now node) }
{
    Ok(Answer {
        node,
        target: Target::Label(label.try_clone(alloc)?),
        holds: true,
    })
}

/// Takes up the verdict on a node with a label.
fn note(
    alloc: Global,
    label: &Label,
    node: TermId,
    verdict: Verdict,
    found: &mut Members,
) -> Result<(), AllocError>
    ensures members { OnOk result (found.new.answers.items ≡ found.old.answers.items ++ member_by label.now node verdict) }
    ensures undecided { OnOk result (found.new.undecided ≡ (found.old.undecided || is_unknown verdict)) }
{
    match verdict {
        Verdict::Yes => {
            found.answers.push(member(alloc, label, node)?)?;
            Ok(())
        }
        Verdict::No => Ok(()),
        Verdict::Unknown => {
            found.undecided = true;
            Ok(())
        }
    }
}

/// Takes up the verdicts on nodes with a label, which has this expression.
fn note_all(
    alloc: Global,
    schema: &Schema,
    terms: &TermTable,
    refined: &Refined,
    nodes: &[TermId],
    label: &Label,
    expr: ExprId,
    found: &mut Members,
) -> Result<(), AllocError>
    requires { IsLoaded schema.now }
    ensures members { (verdict : Id → Entry → Said) → GivesVerdicts schema.now terms.now (known_by_it refined.now) verdict →
        OnOk result (found.new.answers.items ≡ found.old.answers.items ++ members_with verdict nodes.now (label.now, expr)) }
    ensures undecided { (verdict : Id → Entry → Said) → GivesVerdicts schema.now terms.now (known_by_it refined.now) verdict →
        OnOk result (found.new.undecided ≡ (found.old.undecided || has_unknown verdict nodes.now (label.now, expr))) }
{
    for node in nodes {
        let verdict = sure(alloc, schema, terms, *node, expr, refined)?;
        note(alloc, label, *node, verdict, found)?;
    }
    Ok(())
}

/// The members with each label of a schema, in their order, by the verdicts of refinement, and whether one of these is Unknown.
pub(crate) fn members_of(
    alloc: Global,
    schema: &Schema,
    terms: &TermTable,
    refined: &Refined,
    nodes: &[TermId],
) -> Result<Members, AllocError>
    requires { IsLoaded schema.now }
    ensures members { (verdict : Id → Entry → Said) → GivesVerdicts schema.now terms.now (known_by_it refined.now) verdict →
        IfOk result (λ x. x.answers.items ≡ flat_map (members_with verdict nodes.now) schema.now.labels) }
    ensures undecided { (verdict : Id → Entry → Said) → GivesVerdicts schema.now terms.now (known_by_it refined.now) verdict →
        IfOk result (λ x. x.undecided ≡ list_any (has_unknown verdict nodes.now) schema.now.labels) }
{
    let mut found = Members {
        answers: Vec::new(alloc),
        undecided: false,
    };
    for place in 0..schema.labels.len() {
        match schema.labels.at(place) {
            Some((label, expr)) => note_all(
                alloc, schema, terms, refined, nodes, label, expr, &mut found,
            )?,
            None => unreachable!(),
        }
    }
    Ok(found)
}
