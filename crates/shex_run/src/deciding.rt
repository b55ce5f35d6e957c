//! The answers to `validate`, their text, what is noted beside them, and their proof.

ghost use Rattle.std.specs.Prelude.{◌≡◌, ◌<◌, ℕ, Contains, IfOk, IfSome, List, false, is_some, length, map, true};
ghost use Rattle.std.specs.Bool.{beq};
ghost use Rattle.std.specs.List.{AllByRecursion};
ghost use Rattle.rdf_terms.specs.declared.terms.Triple.{Triple};
ghost use Rattle.schema_tree.specs.declared.schema.Answer.{Answer as Given};
ghost use Rattle.schema_tree.specs.declared.schema.Pair.{Pair};
ghost use Rattle.schema_tree.specs.declared.schema.Schema.{Schema};
ghost use Rattle.schema_tree.specs.Sure.{Known};
ghost use Rattle.proof_file.specs.Text.{IsLine, head_lines};
ghost use Rattle.shape_map.specs.Results.{result_text};
ghost use Rattle.typing_answers.specs.Proofs.{AreInRange, AreShownFor, IsProofOf};
ghost use Rattle.typing_refiner.specs.declared.wanted.Wanted.TheVariants as Wanteds;
ghost use Rattle.shex_run.specs.Ready.{IsDecided, IsReady};
ghost use Rattle.shex_run.specs.Statuses.{IsAnswering, are_wanted, status_by};
ghost use Rattle.shex_run.specs.Texts.{notes_by};

use proof_file::Proof;
use proof_file::head::Head;
use rdf_terms::table::TermTable;
use schema_tree::schema::Answer;
use shape_map::{Association, write_result};
use shex_inputs::{Asked, Holding};
use std::alloc::{AllocError, Global};
use typing_answers::laws::sure_answers_are_true;
use typing_answers::{answers, proof_of};
use typing_refiner::building::WidePair;
use typing_refiner::{Refined, Wanted, refine};
use wide_pairs::push_lines;

/// The answers to the associations of a map: their status, their text, what is noted beside them and, if it was wanted, their
/// proof.
#[derive(Drop)]
pub struct Decided {
    /// 4 where an association has no answer, 0 where each is answered as it wants, and else 1.
    pub status: u8,
    /// The answers.
    pub answers: Vec<Answer>,
    /// The result map of the answers.
    pub text: Vec<u8>,
    /// A line for each wide pair, where an association has no answer.
    pub notes: Vec<u8>,
    /// The proof, whose claims are the answers, if one was wanted.
    pub proof: Option<Proof>,
}

/// What each association wants.
fn wants(alloc: Global, associations: &[Association]) -> Result<Vec<bool>, AllocError>
    ensures { IfOk result (λ v. v.items ≡ map (λ a. a.want) associations.now) }
{
    associations.iter().map(|a| a.want).collect(alloc)
}

/// Whether an answer is as it is wanted.
fn is_wanted(want: bool, answer: &Answer) -> bool
    ensures { result ≡ beq want answer.now.holds }
{
    want == answer.holds
}

/// Whether each answer is as it is wanted.
#[tactic(auto, unfolding(crate::specs::Statuses::are_wanted))]
fn are_wanted(wants: &[bool], answers: &[Answer]) -> bool
    ensures { result ≡ are_wanted wants.now answers.now }
{
    wants
        .iter()
        .zip(answers)
        .all(|(want, answer)| is_wanted(*want, answer))
}

/// The status of answers.
#[tactic(auto, unfolding(crate::specs::Statuses::status_by))]
fn status(wants: &[bool], answers: &[Answer]) -> u8
    ensures status { result ≡ status_by wants.now answers.now }
    ensures low { IsAnswering result }
{
    if answers.len() < wants.len() {
        4
    } else if are_wanted(wants, answers) {
        0
    } else {
        1
    }
}

/// What is noted beside answers to so many associations.
#[tactic(auto, unfolding(crate::specs::Texts::notes_by))]
fn notes(
    alloc: Global,
    terms: &TermTable,
    asked: usize,
    budget: u64,
    answers: &[Answer],
    wide: &[WidePair],
) -> Result<Vec<u8>, AllocError>
    ensures { IfOk result (λ v. v.items ≡ notes_by terms.now asked budget answers.now wide.now) }
{
    let mut notes = Vec::new(alloc);
    if answers.len() < asked {
        push_lines(alloc, terms, budget, wide, &mut notes)?;
    }
    Ok(notes)
}

/// The result map of answers.
fn text_of(alloc: Global, terms: &TermTable, answers: &[Answer]) -> Result<Vec<u8>, AllocError>
    requires { (x : Given) → Contains answers.now x → x.node.0 < length terms.now }
    ensures { IfOk result (λ v. v.items ≡ result_text terms.now answers.now) }
{
    let mut text = Vec::new(alloc);
    write_result(alloc, terms, answers, &mut text)?;
    Ok(text)
}

/// What a refinement is to give.
fn wanted(with_proof: bool) -> Wanted
    ensures records { with_proof ≡ true → result ≡ Wanteds.Records }
    ensures verdicts { with_proof ≡ false → result ≡ Wanteds.Verdicts }
{
    if with_proof {
        Wanted::Records
    } else {
        Wanted::Verdicts
    }
}

/// The proof of answers that are sure by the verdicts of a refinement, if there is a head for it.
fn proof_if(
    alloc: Global,
    head: Option<Head>,
    terms: &TermTable,
    refined: Refined,
    answers: &[Answer],
) -> Result<Option<Proof>, AllocError>
    requires lines { AllByRecursion IsLine (head_lines head) }
    requires range { is_some head ≡ true → AreInRange terms.now refined.nodes refined.sections answers.now }
    ensures wanted { IfOk result (λ p. is_some p ≡ is_some head) }
    ensures headed { IfOk result (λ p. IfSome p (λ q. q.head ≡ head)) }
    ensures proof { IfOk result (λ p. (s : Schema) (g : List Triple) (f : List ℕ) (pairs : List Pair) (budget : ℕ) (verdicts : Known) →
        (is_some head ≡ true → AreShownFor s terms.now g f pairs budget verdicts refined.nodes refined.sections answers.now) →
        IfSome p (IsProofOf f s terms.now g pairs budget answers.now)) }
{
    if head.is_none() {
        return Ok(None);
    }
    let records = refined.into_records();
    Ok(Some(proof_of(alloc, terms, head, records, answers)?))
}

/// The answers to what a map asks of a schema and a graph, with their proof, if there is a head for it. Pairs whose Width is above
/// the budget are not looked into.
pub fn decide(
    alloc: Global,
    holding: &Holding,
    asked: Asked,
    budget: u64,
    head: Option<Head>,
) -> Result<Decided, AllocError>
    requires { IsReady holding.now asked.associations.items asked.pairs budget head }
    ensures { IfOk result (IsDecided holding.now asked.associations.items asked.pairs budget head) }
{
    // The law by which what is sure is true.
    sure_answers_are_true();
    let Asked {
        map: _,
        associations,
        pairs,
    } = asked;
    let schema = &holding.schema;
    let terms = &holding.terms;
    let strata = &holding.strata;
    let wanted = wanted(head.is_some());
    let wants = wants(alloc, associations.as_slice())?;
    let refined = refine(
        alloc,
        schema,
        &holding.graph,
        terms,
        strata,
        &pairs,
        budget,
        wanted,
    )?;
    let given = answers(alloc, schema, terms, &refined, associations)?;
    let answers = given.as_slice();
    let text = text_of(alloc, terms, answers)?;
    let wide = refined.wide();
    let notes = notes(alloc, terms, wants.len(), budget, answers, wide)?;
    let status = status(wants.as_slice(), answers);
    let proof = proof_if(alloc, head, terms, refined, answers)?;
    Ok(Decided {
        status,
        answers: given,
        text,
        notes,
        proof,
    })
}
