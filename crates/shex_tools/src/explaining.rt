//! What answers `explain`.

ghost use Rattle.std.specs.Prelude.{◌≡◌, ◌≤◌, ◌<◌, ◌++◌, All, IfErr, IfOk, IsSome, OnOk, codes, true};
ghost use Rattle.input_names.specs.Names.{is_base};
ghost use Rattle.command_words.specs.Requests.{max_budget};
ghost use Rattle.iri_resolve.specs.Reference.{scheme_of};
ghost use Rattle.graph_index.specs.Laws.{IsOfTable};
ghost use Rattle.proof_file.specs.declared.head.Digests.{Digests};
ghost use Rattle.rdf_lex.specs.Prefixes.{base_of};
ghost use Rattle.schema_tree.specs.Edges.{IsStratum};
ghost use Rattle.schema_tree.specs.Loaded.{IsLoaded};
ghost use Rattle.shape_map.specs.Selection.{selected};
ghost use Rattle.shex_inputs.specs.Asked.{EndsAs, HoldsMap, IsAskedOf};
ghost use Rattle.shex_inputs.specs.Held.{IsTaken, held_by};
ghost use Rattle.explanation_texts.specs.Answers.{explanation_text};
ghost use Rattle.explanation_texts.specs.Data.{explanation_data};
ghost use Rattle.serde_json.specs.Written.{compact_text};
ghost use Rattle.tool_words.specs.Asked.{of_reasons};
ghost use Rattle.tool_words.specs.Lent.{explaining_of};
ghost use Rattle.shex_tools.specs.Calls.{inputs_of};
ghost use Rattle.shex_tools.specs.Reasons.{AreTrueReasons, IsReady, are_as_asked, are_undecided, is_as_asked, is_unknown, status_of};
ghost use Rattle.shex_tools.specs.Results.{IsExplained, IsExplainedBy};
ghost use Rattle.shex_tools.specs.Stopping.{Explains, FaultsAs};
ghost use Rattle.shex_tools.specs.Texts.{printed};

use crate::noting::{push_idle_notes, wide_notes};
use crate::stop::{Stop, stop_of};
use call_ends::Response;
use explanation_texts::names::names_of;
use explanation_texts::{Setting, write_explanation, write_explanation_data};
use explanations::explanation::{Explanation, Told};
use explanations::laws::{blocks_are_true, refined_cannot_match};
use nonconformance::laws::{reasons_are_true, reasons_are_whole};
use rdf_terms::items::Items;
use schema_tree::laws::refinement_is_complete;
use schema_tree::verdicts::Verdict;
use shape_map::Association;
use shex_inputs::{Asked, Holding, Wanted, read_holding, read_map};
use shex_io::Files;
use std::alloc::{AllocError, Global};
use tool_words::Explaining;
use typing_answers::laws::sure_answers_are_true;
use typing_refiner::building::WidePair;
use typing_refiner::{Refined, Wanted as Sought, refine};

/// What the files of the schema and the data file hold.
fn hold<F: Files>(
    alloc: Global,
    files: &mut F,
    explaining: &Explaining<'_>,
) -> Result<Holding, Stop>
    requires schema_base { is_base explaining.now.inputs.schema_base.now ≡ true }
    requires data_base { is_base explaining.now.inputs.data_base.now ≡ true }
    ensures taken { IfOk result (λ h. (digests : Digests) × IsTaken (F.told files.old) (inputs_of (of_reasons (explaining_of explaining.now))) (held_by h digests)) }
    ensures loaded { IfOk result (λ h. IsLoaded h.schema) }
    ensures strata { IfOk result (λ h. IsStratum h.schema h.strata) }
    ensures scheme { IfOk result (λ h. IsSome (scheme_of (base_of h.names))) }
    ensures labels { IfOk result (λ h. IsSome (scheme_of (base_of h.labels))) }
    ensures of_table { IfOk result (λ h. All (IsOfTable h.terms) h.graph.triples) }
    ensures cause { IfErr result (Explains (F.told files.old) (of_reasons (explaining_of explaining.now))) }
    ensures faults { IfErr result (FaultsAs (of_reasons (explaining_of explaining.now)) (F.faults files.old) (F.faults files.new) (F.blame files.new) (F.act files.new)) }
    ensures faults_stay { OnOk result (F.faults files.new ≡ F.faults files.old) }
    ensures told_stays { F.told files.new ≡ F.told files.old }
{
    match read_holding(alloc, files, &explaining.inputs, Wanted::Contents) {
        Ok(taken) => Ok(taken.holding),
        Err(error) => Err(stop_of(error)),
    }
}

/// What the map asks of what the files of the schema and the data file hold, whose table takes up the nodes of the map and whose graph
/// is sealed with it.
fn ask<F: Files>(
    alloc: Global,
    files: &mut F,
    explaining: &Explaining<'_>,
    holding: &mut Holding,
) -> Result<Asked, Stop>
    requires taken { (digests : Digests) × IsTaken (F.told files.old) (inputs_of (of_reasons (explaining_of explaining.now))) (held_by holding.old digests) }
    requires loaded { IsLoaded holding.old.schema }
    requires strata { IsStratum holding.old.schema holding.old.strata }
    requires scheme { IsSome (scheme_of (base_of holding.old.names)) }
    requires labels { IsSome (scheme_of (base_of holding.old.labels)) }
    requires of_table { All (IsOfTable holding.old.terms) holding.old.graph.triples }
    requires budget { explaining.now.budget ≤ max_budget }
    ensures asked { (digests : Digests) → IsTaken (F.told files.old) (inputs_of (of_reasons (explaining_of explaining.now))) (held_by holding.old digests) →
        IfOk result (λ v. IsAskedOf (F.told files.old) (inputs_of (of_reasons (explaining_of explaining.now)))
        (record { held = held_by holding.old digests; terms = holding.new.terms; associations = v.associations.items; pairs = v.pairs })) }
    ensures map { (digests : Digests) → IsTaken (F.told files.old) (inputs_of (of_reasons (explaining_of explaining.now))) (held_by holding.old digests) →
        IfOk result (λ v. HoldsMap (F.told files.old) (inputs_of (of_reasons (explaining_of explaining.now))) (held_by holding.old digests) v.map) }
    ensures ends { (digests : Digests) → IsTaken (F.told files.old) (inputs_of (of_reasons (explaining_of explaining.now))) (held_by holding.old digests) →
        IfOk result (λ v. EndsAs (held_by holding.old digests) v.map (selected v.associations.items holding.new.terms)) }
    ensures ready { IfOk result (λ v. IsReady holding.new v.associations.items v.pairs explaining.now.budget) }
    ensures schema { holding.new.schema ≡ holding.old.schema }
    ensures strata { holding.new.strata ≡ holding.old.strata }
    ensures graph { holding.new.graph.triples ≡ holding.old.graph.triples }
    ensures cause { IfErr result (Explains (F.told files.old) (of_reasons (explaining_of explaining.now))) }
    ensures faults { IfErr result (FaultsAs (of_reasons (explaining_of explaining.now)) (F.faults files.old) (F.faults files.new) (F.blame files.new) (F.act files.new)) }
    ensures faults_stay { OnOk result (F.faults files.new ≡ F.faults files.old) }
    ensures told_stays { F.told files.new ≡ F.told files.old }
{
    match read_map(alloc, files, &explaining.inputs, explaining.map, holding) {
        Ok(asked) => Ok(asked),
        Err(error) => Err(stop_of(error)),
    }
}

/// Why associations are not as asked, and the pairs that are too wide to be looked into.
#[derive(Drop)]
struct Findings {
    explanation: Explanation,
    wide: Items<WidePair>,
}

/// The pairs whose Width is above the budget.
fn wide_of(alloc: Global, refined: &Refined) -> Result<Vec<WidePair>, AllocError>
    ensures { IfOk result (λ v. v.items ≡ refined.now.wide) }
{
    Vec::from_slice(alloc, refined.wide())
}

/// Why the associations that are asked are not as asked, by the verdicts of refinement.
fn reasons(
    alloc: Global,
    holding: &Holding,
    asked: &Asked,
    budget: u64,
) -> Result<Findings, AllocError>
    requires { IsReady holding.now asked.now.associations.items asked.now.pairs budget }
    ensures { IfOk result (λ r. AreTrueReasons holding.now.schema holding.now.terms holding.now.graph.triples holding.now.strata budget
        asked.now.associations.items asked.now.pairs r.explanation r.wide) }
{
    // The laws by which what is sure is true, and so are the reasons by what refinement comes to.
    sure_answers_are_true();
    refined_cannot_match();
    blocks_are_true();
    refinement_is_complete();
    reasons_are_whole();
    reasons_are_true();
    let schema = &holding.schema;
    let graph = &holding.graph;
    let terms = &holding.terms;
    let strata = &holding.strata;
    let refined = refine(
        alloc,
        schema,
        graph,
        terms,
        strata,
        &asked.pairs,
        budget,
        Sought::Verdicts,
    )?;
    let associations = asked.associations.as_slice();
    let explanation = explanations::explaining::explain(
        alloc,
        schema,
        graph,
        terms,
        &refined,
        associations,
    )?;
    let wide = wide_of(alloc, &refined)?;
    Ok(Findings {
        explanation,
        wide: Items::of(wide),
    })
}

/// Whether the verdict that is told is Unknown.
fn is_unknown(told: &Told) -> bool
    ensures { result ≡ is_unknown told.now.verdict }
{
    match told.verdict {
        Verdict::Yes => false,
        Verdict::No => false,
        Verdict::Unknown => true,
    }
}

/// Whether some verdict that is told is Unknown.
#[tactic(auto, unfolding(crate::specs::Reasons::are_undecided))]
fn are_undecided(answers: &[Told]) -> bool
    ensures { result ≡ are_undecided answers.now }
{
    answers.iter().any(|told| is_unknown(told))
}

/// Whether the verdict that is told is as it is asked for.
fn is_as_asked(association: &Association, told: &Told) -> bool
    ensures { result ≡ is_as_asked association.now.want told.now.verdict }
{
    match told.verdict {
        Verdict::Yes => association.want,
        Verdict::No => !association.want,
        Verdict::Unknown => false,
    }
}

/// Whether each verdict that is told is as it is asked for.
#[tactic(auto, unfolding(crate::specs::Reasons::are_as_asked))]
fn are_as_asked(associations: &[Association], answers: &[Told]) -> bool
    ensures { result ≡ are_as_asked associations.now answers.now }
{
    associations
        .iter()
        .zip(answers)
        .all(|(association, told)| is_as_asked(association, told))
}

/// The status of what is told of associations.
fn status(associations: &[Association], answers: &[Told]) -> u8
    ensures status { result ≡ status_of associations.now answers.now }
    ensures low { result < 7 }
{
    if are_undecided(answers) {
        4
    } else if are_as_asked(associations, answers) {
        0
    } else {
        1
    }
}

/// The text of an explanation of associations.
fn text_of(
    setting: &Setting<'_>,
    associations: &[Association],
    explanation: &Explanation,
) -> Result<Vec<u8>, AllocError>
    ensures { IfOk result (λ v. v.items ≡ explanation_text setting.now associations.now explanation.now.answers) }
{
    let mut text = Vec::new(setting.alloc);
    write_explanation(setting, associations, explanation, &mut text)?;
    Ok(text)
}

/// The JSON of an explanation of associations, compact and with a line feed.
fn json_of(
    setting: &Setting<'_>,
    associations: &[Association],
    explanation: &Explanation,
) -> Result<Vec<u8>, AllocError>
    ensures { IfOk result (λ v. v.items ≡ compact_text (explanation_data setting.now associations.now explanation.now.answers) ++ codes "\n") }
{
    let mut text = Vec::new(setting.alloc);
    write_explanation_data(setting, associations, explanation, &mut text)?;
    Ok(text)
}

/// The text of an explanation of associations, or its JSON.
#[tactic(auto, unfolding(crate::specs::Texts::printed))]
fn printed(
    setting: &Setting<'_>,
    json: bool,
    associations: &[Association],
    explanation: &Explanation,
) -> Result<Vec<u8>, AllocError>
    ensures { IfOk result (λ v. v.items ≡ printed setting.now json associations.now explanation.now.answers) }
{
    if json {
        json_of(setting, associations, explanation)
    } else {
        text_of(setting, associations, explanation)
    }
}

/// What is due for reasons.
fn response_of(
    alloc: Global,
    holding: &Holding,
    asked: &Asked,
    explaining: &Explaining<'_>,
    findings: &Findings,
) -> Result<Response, AllocError>
    requires ready { IsReady holding.now asked.now.associations.items asked.now.pairs explaining.now.budget }
    requires findings { AreTrueReasons holding.now.schema holding.now.terms holding.now.graph.triples holding.now.strata explaining.now.budget
        asked.now.associations.items asked.now.pairs findings.now.explanation findings.now.wide }
    ensures explained { IfOk result (λ r. IsExplainedBy holding.now.schema holding.now.terms holding.now.graph.triples holding.now.strata
        asked.now.associations.items asked.now.pairs asked.now.map (explaining_of explaining.now) r.status r.text.items r.notes.items) }
    ensures low { IfOk result (λ r. r.status < 7) }
{
    let associations = asked.associations.as_slice();
    let answers = findings.explanation.answers.as_slice();
    let wide = findings.wide.as_slice();
    let names = names_of(alloc, &holding.schema, &holding.terms)?;
    let setting = Setting {
        alloc,
        schema: &holding.schema,
        terms: &holding.terms,
        names: &names,
        limit: explaining.limit as usize,
    };
    let text = printed(
        &setting,
        explaining.json,
        associations,
        &findings.explanation,
    )?;
    let undecided = are_undecided(answers);
    let mut notes = wide_notes(&setting, explaining.budget, undecided, wide)?;
    push_idle_notes(&setting, &holding.graph, &asked.map, &mut notes)?;
    Ok(Response {
        status: status(associations, answers),
        text,
        notes,
    })
}

/// What is due for what the map asks of what is held.
fn answer(
    alloc: Global,
    holding: &Holding,
    asked: &Asked,
    explaining: &Explaining<'_>,
) -> Result<Response, AllocError>
    requires { IsReady holding.now asked.now.associations.items asked.now.pairs explaining.now.budget }
    ensures explained { IfOk result (λ r. IsExplainedBy holding.now.schema holding.now.terms holding.now.graph.triples holding.now.strata
        asked.now.associations.items asked.now.pairs asked.now.map (explaining_of explaining.now) r.status r.text.items r.notes.items) }
    ensures low { IfOk result (λ r. r.status < 7) }
{
    let findings = reasons(alloc, holding, asked, explaining.budget)?;
    response_of(alloc, holding, asked, explaining, &findings)
}

/// What answers what the map asks of what the files of the schema and the data file hold.
fn explain_held<F: Files>(
    alloc: Global,
    files: &mut F,
    explaining: &Explaining<'_>,
    holding: &mut Holding,
) -> Result<Response, Stop>
    requires taken { (digests : Digests) × IsTaken (F.told files.old) (inputs_of (of_reasons (explaining_of explaining.now))) (held_by holding.old digests) }
    requires loaded { IsLoaded holding.old.schema }
    requires strata { IsStratum holding.old.schema holding.old.strata }
    requires scheme { IsSome (scheme_of (base_of holding.old.names)) }
    requires labels { IsSome (scheme_of (base_of holding.old.labels)) }
    requires of_table { All (IsOfTable holding.old.terms) holding.old.graph.triples }
    requires budget { explaining.now.budget ≤ max_budget }
    ensures explained { IfOk result (λ r. IsExplained (F.told files.old) (explaining_of explaining.now) r.status r.text.items r.notes.items) }
    ensures low { IfOk result (λ r. r.status < 7) }
    ensures cause { IfErr result (Explains (F.told files.old) (of_reasons (explaining_of explaining.now))) }
    ensures faults { IfErr result (FaultsAs (of_reasons (explaining_of explaining.now)) (F.faults files.old) (F.faults files.new) (F.blame files.new) (F.act files.new)) }
    ensures faults_stay { OnOk result (F.faults files.new ≡ F.faults files.old) }
    ensures told_stays { F.told files.new ≡ F.told files.old }
{
    let asked = ask(alloc, files, explaining, holding)?;
    match answer(alloc, holding, &asked, explaining) {
        Ok(response) => Ok(response),
        Err(_) => Err(Stop::Memory),
    }
}

/// What answers `explain`: why the associations of the map are not as asked of the schema and the graph.
pub fn explain<F: Files>(
    alloc: Global,
    files: &mut F,
    explaining: &Explaining<'_>,
) -> Result<Response, Stop>
    requires schema_base { is_base explaining.now.inputs.schema_base.now ≡ true }
    requires data_base { is_base explaining.now.inputs.data_base.now ≡ true }
    requires budget { explaining.now.budget ≤ max_budget }
    ensures explained { IfOk result (λ r. IsExplained (F.told files.old) (explaining_of explaining.now) r.status r.text.items r.notes.items) }
    ensures low { IfOk result (λ r. r.status < 7) }
    ensures cause { IfErr result (Explains (F.told files.old) (of_reasons (explaining_of explaining.now))) }
    ensures faults { IfErr result (FaultsAs (of_reasons (explaining_of explaining.now)) (F.faults files.old) (F.faults files.new) (F.blame files.new) (F.act files.new)) }
    ensures faults_stay { OnOk result (F.faults files.new ≡ F.faults files.old) }
    ensures told_stays { F.told files.new ≡ F.told files.old }
{
    let mut holding = hold(alloc, files, explaining)?;
    let response = explain_held(alloc, files, explaining, &mut holding);
    // What is held is dropped by one call, which is proved in less time.
    drop(holding);
    response
}
