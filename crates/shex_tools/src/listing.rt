//! What answers `extents`.

ghost use Rattle.std.specs.Prelude.{◌≡◌, ◌≤◌, ◌<◌, All, Contains, IfErr, IfOk, OnOk, length, true};
ghost use Rattle.graph_index.specs.Contents.{IsSealedWith};
ghost use Rattle.graph_index.specs.Laws.{IsOfTable};
ghost use Rattle.schema_tree.specs.declared.schema.Answer.{Answer as Given};
ghost use Rattle.schema_tree.specs.Edges.{IsStratum};
ghost use Rattle.schema_tree.specs.Loaded.{IsLoaded};
ghost use Rattle.proof_file.specs.declared.head.Digests.{Digests};
ghost use Rattle.shape_map.specs.Results.{result_text};
ghost use Rattle.input_names.specs.Names.{is_base};
ghost use Rattle.command_words.specs.Requests.{max_budget};
ghost use Rattle.shex_inputs.specs.Held.{held_by};
ghost use Rattle.call_ends.specs.Statuses.{status_by};
ghost use Rattle.tool_words.specs.Asked.{of_labels};
ghost use Rattle.tool_words.specs.Lent.{listing_of};
ghost use Rattle.shex_tools.specs.Finding.{IsFound, FindingStops};
ghost use Rattle.shex_tools.specs.Outcomes.{AreHeld};
ghost use Rattle.shex_tools.specs.Results.{IsListed, IsListedOf};
ghost use Rattle.shex_tools.specs.Stopping.{Explains, FaultsAs};
ghost use Rattle.shex_tools.specs.Texts.{notes_by};

use crate::stop::{Stop, extents_stop, stop_of};
use call_ends::{Response, status_of};
use label_extents::{Extents, extents_of};
use rdf_terms::table::TermTable;
use schema_tree::schema::Answer;
use shape_map::write_result;
use shex_inputs::{Holding, Wanted, read_holding};
use shex_io::Files;
use std::alloc::{AllocError, Global};
use tool_words::Listing;
use typing_refiner::building::WidePair;
use wide_pairs::push_lines;

/// What the files of the schema and the data file hold.
fn hold<F: Files>(alloc: Global, files: &mut F, listing: &Listing<'_>) -> Result<Holding, Stop>
    requires schema_base { is_base listing.now.inputs.schema_base.now ≡ true }
    requires data_base { is_base listing.now.inputs.data_base.now ≡ true }
    ensures held { IfOk result (λ h. (digests : Digests) × AreHeld (F.told files.old) (listing_of listing.now) (held_by h digests)) }
    ensures loaded { IfOk result (λ h. IsLoaded h.schema) }
    ensures strata { IfOk result (λ h. IsStratum h.schema h.strata) }
    ensures of_table { IfOk result (λ h. All (IsOfTable h.terms) h.graph.triples) }
    ensures cause { IfErr result (Explains (F.told files.old) (of_labels (listing_of listing.now))) }
    ensures faults { IfErr result (FaultsAs (of_labels (listing_of listing.now)) (F.faults files.old) (F.faults files.new) (F.blame files.new) (F.act files.new)) }
    ensures faults_stay { OnOk result (F.faults files.new ≡ F.faults files.old) }
    ensures told_stays { F.told files.new ≡ F.told files.old }
{
    match read_holding(alloc, files, &listing.inputs, Wanted::Contents) {
        Ok(taken) => Ok(taken.holding),
        Err(error) => Err(stop_of(error)),
    }
}

/// Seals the graph of what is held with the table.
fn seal(holding: &mut Holding) -> Result<(), AllocError>
    ensures sealed { OnOk result (IsSealedWith holding.new.terms holding.new.graph) }
    ensures held { (digests : Digests) → held_by holding.new digests ≡ held_by holding.old digests }
{
    holding.graph.seal(&holding.terms)
}

/// The extents of the labels of the schema that is held in the graph, which is sealed with the table.
fn found(alloc: Global, holding: &Holding, budget: u64) -> Result<Extents, Stop>
    requires loaded { IsLoaded holding.now.schema }
    requires strata { IsStratum holding.now.schema holding.now.strata }
    requires of_table { All (IsOfTable holding.now.terms) holding.now.graph.triples }
    requires sealed { IsSealedWith holding.now.terms holding.now.graph }
    requires budget { budget ≤ max_budget }
    ensures found { (digests : Digests) → IfOk result (IsFound (held_by holding.now digests) budget) }
    ensures of_terms { IfOk result (λ x. (a : Given) → Contains x.members a → a.node.0 < length holding.now.terms) }
    ensures stops { (digests : Digests) → IfErr result (FindingStops (held_by holding.now digests)) }
{
    let schema = &holding.schema;
    let terms = &holding.terms;
    match extents_of(
        alloc,
        schema,
        &holding.graph,
        terms,
        &holding.strata,
        budget,
    ) {
        Ok(extents) => Ok(extents),
        Err(error) => Err(extents_stop(error)),
    }
}

/// The result map of answers.
fn text_of(alloc: Global, terms: &TermTable, answers: &[Answer]) -> Result<Vec<u8>, AllocError>
    requires { (x : Given) → Contains answers.now x → x.node.0 < length terms.now }
    ensures { IfOk result (λ v. v.items ≡ result_text terms.now answers.now) }
{
    let mut text = Vec::new(alloc);
    write_result(alloc, terms, answers, &mut text)?;
    Ok(text)
}

/// The lines for wide pairs, where something is not told.
#[tactic(auto, unfolding(crate::specs::Texts::notes_by))]
pub fn notes_of(
    alloc: Global,
    terms: &TermTable,
    budget: u64,
    undecided: bool,
    wide: &[WidePair],
) -> Result<Vec<u8>, AllocError>
    ensures { IfOk result (λ v. v.items ≡ notes_by terms.now budget undecided wide.now) }
{
    let mut notes = Vec::new(alloc);
    if undecided {
        push_lines(alloc, terms, budget, wide, &mut notes)?;
    }
    Ok(notes)
}

/// What is due for extents.
fn response_of(
    alloc: Global,
    terms: &TermTable,
    budget: u64,
    extents: &Extents,
) -> Result<Response, AllocError>
    requires { (a : Given) → Contains extents.now.members a → a.node.0 < length terms.now }
    ensures status { IfOk result (λ r. r.status ≡ status_by extents.now.undecided) }
    ensures text { IfOk result (λ r. r.text.items ≡ result_text terms.now extents.now.members) }
    ensures notes { IfOk result (λ r. r.notes.items ≡ notes_by terms.now budget extents.now.undecided extents.now.wide) }
    ensures low { IfOk result (λ r. r.status < 7) }
{
    let text = text_of(alloc, terms, extents.members.as_slice())?;
    let undecided = extents.undecided;
    let notes = notes_of(alloc, terms, budget, undecided, extents.wide.as_slice())?;
    Ok(Response {
        status: status_of(undecided),
        text,
        notes,
    })
}

/// What is due for the extents of the labels of the schema that is held in the graph, which is sealed first.
fn answer(alloc: Global, holding: &mut Holding, budget: u64) -> Result<Response, Stop>
    requires loaded { IsLoaded holding.old.schema }
    requires strata { IsStratum holding.old.schema holding.old.strata }
    requires of_table { All (IsOfTable holding.old.terms) holding.old.graph.triples }
    requires budget { budget ≤ max_budget }
    ensures listed { (digests : Digests) → IfOk result (λ r. IsListedOf (held_by holding.old digests) budget r.status r.text.items r.notes.items) }
    ensures low { IfOk result (λ r. r.status < 7) }
    ensures stops { (digests : Digests) → IfErr result (FindingStops (held_by holding.old digests)) }
{
    seal(holding)?;
    let extents = found(alloc, holding, budget)?;
    Ok(response_of(alloc, &holding.terms, budget, &extents)?)
}

/// What answers `extents`: the result map of what is found of the extents of the schema's labels in the graph.
pub fn list<F: Files>(alloc: Global, files: &mut F, listing: &Listing<'_>) -> Result<Response, Stop>
    requires schema_base { is_base listing.now.inputs.schema_base.now ≡ true }
    requires data_base { is_base listing.now.inputs.data_base.now ≡ true }
    requires budget { listing.now.budget ≤ max_budget }
    ensures listed { IfOk result (λ r. IsListed (F.told files.old) (listing_of listing.now) r.status r.text.items r.notes.items) }
    ensures low { IfOk result (λ r. r.status < 7) }
    ensures cause { IfErr result (Explains (F.told files.old) (of_labels (listing_of listing.now))) }
    ensures faults { IfErr result (FaultsAs (of_labels (listing_of listing.now)) (F.faults files.old) (F.faults files.new) (F.blame files.new) (F.act files.new)) }
    ensures faults_stay { OnOk result (F.faults files.new ≡ F.faults files.old) }
    ensures told_stays { F.told files.new ≡ F.told files.old }
{
    let mut holding = hold(alloc, files, listing)?;
    answer(alloc, &mut holding, listing.budget)
}
