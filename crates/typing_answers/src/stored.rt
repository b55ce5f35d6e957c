//! The proof that is stored for answers.

ghost use Rattle.std.specs.Prelude.{◌≡◌, ℕ, IfOk, List};
ghost use Rattle.std.specs.List.{AllByRecursion};
ghost use Rattle.rdf_terms.specs.declared.terms.Triple.{Triple};
ghost use Rattle.schema_tree.specs.declared.schema.Pair.{Pair};
ghost use Rattle.schema_tree.specs.declared.schema.Schema.{Schema};
ghost use Rattle.schema_tree.specs.Sure.{Known};
ghost use Rattle.lists.specs.Distinct.{AreDistinct};
ghost use Rattle.proof_file.specs.Text.{IsLine, head_lines};
ghost use Rattle.typing_answers.specs.Laws.{AreLaws};
ghost use Rattle.typing_answers.specs.Proofs.{AreInRange, AreShownFor, IsProofOf};

use crate::claims::claims_of;
use crate::nodes::{nodes_of, places_by_number, places_of, terms_of};
use crate::sections::moved_sections;
use proof_file::Proof;
use proof_file::head::Head;
use rdf_terms::items::Items;
use rdf_terms::laws::texts_are_distinct;
use rdf_terms::table::TermTable;
use schema_tree::laws::{layers_are_meanings, strata_are_least};
use schema_tree::schema::Answer;
use std::alloc::{AllocError, Global};
use typing_refiner::records::Records;

/// The laws that tie a stored proof to the verdicts.
fn laws(terms: &TermTable)
    ensures laws { AreLaws }
    ensures distinct { AreDistinct terms.now }
{
    // The length of a table tells contracts that its terms are distinct.
    let _count = terms.len();
    layers_are_meanings();
    strata_are_least();
    texts_are_distinct();
}

/// The proof, with this head, of answers that are sure by the verdicts which these records show. Its node lines are the nodes of
/// the records and of the answers, each once in the order of their texts, its sections are those of the records, and its claims are
/// the answers in their order. There are at most 4,194,304 nodes of records and 1,000,000 answers. It fails for want of memory
/// alone.
pub fn proof_of(
    alloc: Global,
    terms: &TermTable,
    head: Option<Head>,
    records: Records,
    answers: &[Answer],
) -> Result<Proof, AllocError>
    requires lines { AllByRecursion IsLine (head_lines head) }
    requires range { AreInRange terms.now records.nodes.items records.sections.items answers.now }
    ensures head { IfOk result (λ p. p.head ≡ head) }
    ensures proof { IfOk result (λ p. (s : Schema) (g : List Triple) (f : List ℕ) (pairs : List Pair) (budget : ℕ) (verdicts : Known) →
        AreShownFor s terms.now g f pairs budget verdicts records.nodes.items records.sections.items answers.now →
        IsProofOf f s terms.now g pairs budget answers.now p) }
{
    laws(terms);
    let Records {
        nodes: own,
        sections,
    } = records;
    let recorded = own.as_slice();
    let distinct = nodes_of(alloc, terms, recorded, answers)?;
    let nodes = distinct.as_slice();
    let placed = places_by_number(alloc, terms, nodes)?;
    let by_number = placed.as_slice();
    let places = places_of(alloc, by_number, recorded)?;
    let numbers = places.as_slice();
    let renumbered = moved_sections(alloc, sections, numbers)?;
    let terms_of_nodes = terms_of(alloc, terms, nodes)?;
    let claims = claims_of(alloc, by_number, answers)?;
    Ok(Proof {
        head,
        nodes: Items::of(terms_of_nodes),
        sections: Items::of(renumbered),
        claims: Items::of(claims),
    })
}
