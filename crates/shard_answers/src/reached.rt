//! What answers `reached`.

ghost use Rattle.std.specs.Prelude.{◌≡◌, All, IfErr, IfOk, IsSome, OnOk, true, ◌<◌, []};
ghost use Rattle.input_names.specs.Names.{is_base};
ghost use Rattle.iri_resolve.specs.Reference.{scheme_of};
ghost use Rattle.graph_index.specs.Laws.{IsOfTable};
ghost use Rattle.proof_file.specs.declared.head.Digests.{Digests};
ghost use Rattle.rdf_lex.specs.Prefixes.{base_of};
ghost use Rattle.schema_tree.specs.Loaded.{IsLoaded};
ghost use Rattle.shex_inputs.specs.Asked.{IsAskedOf};
ghost use Rattle.shex_inputs.specs.Held.{IsTaken, held_by};
ghost use Rattle.shard_answers.specs.Answers.{IsAnswer, AreNodesOf};
ghost use Rattle.shard_answers.specs.Sources.{inputs_of};
ghost use Rattle.shard_answers.specs.Stops.{Explains, FaultsAs};
ghost use Rattle.tool_words.specs.Asked.{of_nodes};
ghost use Rattle.tool_words.specs.Lent.{reaching_of};

use crate::error::{ShardError, stop_of};
use crate::response::told;
use call_ends::Response;
use shard_checks::lines_of_pairs;
use shex_inputs::{Asked, Holding, Wanted, read_holding, read_map};
use shex_io::Files;
use std::alloc::Global;
use tool_words::Reaching;

/// What the files of the schema and the data file hold.
fn hold<F: Files>(
    alloc: Global,
    files: &mut F,
    reaching: &Reaching<'_>,
) -> Result<Holding, ShardError>
    requires schema_base { is_base reaching.now.inputs.schema_base.now ≡ true }
    requires data_base { is_base reaching.now.inputs.data_base.now ≡ true }
    ensures taken { IfOk result (λ h. (digests : Digests) × IsTaken (F.told files.old) (inputs_of (of_nodes (reaching_of reaching.now))) (held_by h digests)) }
    ensures loaded { IfOk result (λ h. IsLoaded h.schema) }
    ensures scheme { IfOk result (λ h. IsSome (scheme_of (base_of h.names))) }
    ensures labels { IfOk result (λ h. IsSome (scheme_of (base_of h.labels))) }
    ensures of_table { IfOk result (λ h. All (IsOfTable h.terms) h.graph.triples) }
    ensures cause { IfErr result (Explains (F.told files.old) (of_nodes (reaching_of reaching.now))) }
    ensures faults { IfErr result (FaultsAs (of_nodes (reaching_of reaching.now)) (F.faults files.old) (F.faults files.new) (F.blame files.new) (F.act files.new)) }
    ensures faults_stay { OnOk result (F.faults files.new ≡ F.faults files.old) }
    ensures told_stays { F.told files.new ≡ F.told files.old }
{
    match read_holding(alloc, files, &reaching.inputs, Wanted::Contents) {
        Ok(taken) => Ok(taken.holding),
        Err(error) => Err(stop_of(error)),
    }
}

/// What the map asks of what the files of the schema and the data file hold, whose table takes up the nodes of the map.
fn ask<F: Files>(
    alloc: Global,
    files: &mut F,
    reaching: &Reaching<'_>,
    holding: &mut Holding,
) -> Result<Asked, ShardError>
    requires taken { (digests : Digests) × IsTaken (F.told files.old) (inputs_of (of_nodes (reaching_of reaching.now))) (held_by holding.old digests) }
    requires loaded { IsLoaded holding.old.schema }
    requires scheme { IsSome (scheme_of (base_of holding.old.names)) }
    requires labels { IsSome (scheme_of (base_of holding.old.labels)) }
    requires of_table { All (IsOfTable holding.old.terms) holding.old.graph.triples }
    ensures asked { (digests : Digests) → IsTaken (F.told files.old) (inputs_of (of_nodes (reaching_of reaching.now))) (held_by holding.old digests) →
        IfOk result (λ v. IsAskedOf (F.told files.old) (inputs_of (of_nodes (reaching_of reaching.now)))
        (record { held = held_by holding.old digests; terms = holding.new.terms; associations = v.associations.items; pairs = v.pairs })) }
    ensures cause { IfErr result (Explains (F.told files.old) (of_nodes (reaching_of reaching.now))) }
    ensures faults { IfErr result (FaultsAs (of_nodes (reaching_of reaching.now)) (F.faults files.old) (F.faults files.new) (F.blame files.new) (F.act files.new)) }
    ensures faults_stay { OnOk result (F.faults files.new ≡ F.faults files.old) }
    ensures told_stays { F.told files.new ≡ F.told files.old }
{
    match read_map(alloc, files, &reaching.inputs, reaching.map, holding) {
        Ok(asked) => Ok(asked),
        Err(error) => Err(stop_of(error)),
    }
}

/// The nodes that the associations of the map reach over the graph that is held, a line each.
fn nodes_over<F: Files>(
    alloc: Global,
    files: &mut F,
    reaching: &Reaching<'_>,
    holding: &mut Holding,
) -> Result<Vec<u8>, ShardError>
    requires taken { (digests : Digests) × IsTaken (F.told files.old) (inputs_of (of_nodes (reaching_of reaching.now))) (held_by holding.old digests) }
    requires loaded { IsLoaded holding.old.schema }
    requires scheme { IsSome (scheme_of (base_of holding.old.names)) }
    requires labels { IsSome (scheme_of (base_of holding.old.labels)) }
    requires of_table { All (IsOfTable holding.old.terms) holding.old.graph.triples }
    ensures nodes { IfOk result (λ text. AreNodesOf (F.told files.old) (reaching_of reaching.now) text.items) }
    ensures cause { IfErr result (Explains (F.told files.old) (of_nodes (reaching_of reaching.now))) }
    ensures faults { IfErr result (FaultsAs (of_nodes (reaching_of reaching.now)) (F.faults files.old) (F.faults files.new) (F.blame files.new) (F.act files.new)) }
    ensures faults_stay { OnOk result (F.faults files.new ≡ F.faults files.old) }
    ensures told_stays { F.told files.new ≡ F.told files.old }
{
    let asked = ask(alloc, files, reaching, holding)?;
    let lines = lines_of_pairs(alloc, &holding.terms, asked.pairs.list());
    drop(asked);
    let text = lines?;
    Ok(text)
}

/// The nodes that the associations of the map reach over the graph, a line each.
fn text_of<F: Files>(
    alloc: Global,
    files: &mut F,
    reaching: &Reaching<'_>,
) -> Result<Vec<u8>, ShardError>
    requires schema_base { is_base reaching.now.inputs.schema_base.now ≡ true }
    requires data_base { is_base reaching.now.inputs.data_base.now ≡ true }
    ensures nodes { IfOk result (λ text. AreNodesOf (F.told files.old) (reaching_of reaching.now) text.items) }
    ensures cause { IfErr result (Explains (F.told files.old) (of_nodes (reaching_of reaching.now))) }
    ensures faults { IfErr result (FaultsAs (of_nodes (reaching_of reaching.now)) (F.faults files.old) (F.faults files.new) (F.blame files.new) (F.act files.new)) }
    ensures faults_stay { OnOk result (F.faults files.new ≡ F.faults files.old) }
    ensures told_stays { F.told files.new ≡ F.told files.old }
{
    let mut holding = hold(alloc, files, reaching)?;
    let text = nodes_over(alloc, files, reaching, &mut holding);
    drop(holding);
    text
}

/// What answers `reached`: the nodes that the associations of the map reach over the graph, a line each.
pub fn reached<F: Files>(
    alloc: Global,
    files: &mut F,
    reaching: &Reaching<'_>,
) -> Result<Response, ShardError>
    requires schema_base { is_base reaching.now.inputs.schema_base.now ≡ true }
    requires data_base { is_base reaching.now.inputs.data_base.now ≡ true }
    ensures answer { IfOk result (λ r. IsAnswer (F.told files.old) (of_nodes (reaching_of reaching.now)) r.status r.text.items) }
    ensures notes { IfOk result (λ r. r.notes.items ≡ []) }
    ensures low { IfOk result (λ r. r.status < 7) }
    ensures cause { IfErr result (Explains (F.told files.old) (of_nodes (reaching_of reaching.now))) }
    ensures faults { IfErr result (FaultsAs (of_nodes (reaching_of reaching.now)) (F.faults files.old) (F.faults files.new) (F.blame files.new) (F.act files.new)) }
    ensures faults_stay { OnOk result (F.faults files.new ≡ F.faults files.old) }
    ensures told_stays { F.told files.new ≡ F.told files.old }
{
    let text = text_of(alloc, files, reaching)?;
    Ok(told(alloc, text))
}
