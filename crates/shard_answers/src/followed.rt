//! What answers `followed`.

ghost use Rattle.std.specs.Prelude.{◌≡◌, [], IfErr, IfOk, OnOk, List, true, ◌<◌};
ghost use Rattle.input_names.specs.Names.{is_base};
ghost use Rattle.schema_tree.specs.Loaded.{IsLoaded};
ghost use Rattle.shex_inputs.specs.Named.{inputs_with};
ghost use Rattle.shard_answers.specs.Answers.{IsAnswer, AreWaysOf, IsSchemaOfFiles};
ghost use Rattle.shard_answers.specs.Sources.{inputs_of};
ghost use Rattle.shard_answers.specs.Stops.{Explains, FaultsAs};
ghost use Rattle.tool_words.specs.Asked.{of_ways};
ghost use Rattle.tool_words.specs.Lent.{following_of};

use crate::error::{ShardError, stop_of};
use crate::response::told;
use call_ends::Response;
use input_names::Inputs;
use shard_checks::lines_of_ways;
use shex_inputs::{Loaded, read_schema};
use shex_io::Files;
use std::alloc::{AllocError, Global};
use tool_words::Following;

/// The inputs with the files of the schema, and without data.
fn inputs_of<'a>(alloc: Global, following: &Following<'a>) -> Result<Inputs<'a>, AllocError>
    ensures base { IfOk result (λ i. i.schema_base.now ≡ following.now.schema_base.now) }
    ensures inputs { IfOk result (λ i. inputs_with i [] ≡ inputs_of (of_ways (following_of following.now))) }
{
    let imports = Vec::from_slice(alloc, following.imports.as_slice())?;
    Ok(Inputs {
        schema: following.schema,
        data: "",
        schema_base: following.schema_base,
        data_base: "",
        imports,
    })
}

/// The schema that the files hold.
fn load<F: Files>(
    alloc: Global,
    files: &mut F,
    following: &Following<'_>,
) -> Result<Loaded, ShardError>
    requires { is_base following.now.schema_base.now ≡ true }
    ensures schema { IfOk result (λ l. IsSchemaOfFiles (F.told files.old) (following_of following.now) l.terms l.schema) }
    ensures loaded { IfOk result (λ l. IsLoaded l.schema) }
    ensures cause { IfErr result (Explains (F.told files.old) (of_ways (following_of following.now))) }
    ensures faults { IfErr result (FaultsAs (of_ways (following_of following.now)) (F.faults files.old) (F.faults files.new) (F.blame files.new) (F.act files.new)) }
    ensures faults_stay { OnOk result (F.faults files.new ≡ F.faults files.old) }
    ensures told_stays { F.told files.new ≡ F.told files.old }
{
    let inputs = inputs_of(alloc, following)?;
    match read_schema(alloc, files, &inputs) {
        Ok(loaded) => Ok(loaded),
        Err(error) => Err(stop_of(error)),
    }
}

/// The lines of the ways that the schema reads.
fn text_of<F: Files>(
    alloc: Global,
    files: &mut F,
    following: &Following<'_>,
) -> Result<Vec<u8>, ShardError>
    requires { is_base following.now.schema_base.now ≡ true }
    ensures ways { IfOk result (λ text. AreWaysOf (F.told files.old) (following_of following.now) text.items) }
    ensures cause { IfErr result (Explains (F.told files.old) (of_ways (following_of following.now))) }
    ensures faults { IfErr result (FaultsAs (of_ways (following_of following.now)) (F.faults files.old) (F.faults files.new) (F.blame files.new) (F.act files.new)) }
    ensures faults_stay { OnOk result (F.faults files.new ≡ F.faults files.old) }
    ensures told_stays { F.told files.new ≡ F.told files.old }
{
    let loaded = load(alloc, files, following)?;
    let lines = lines_of_ways(alloc, &loaded.schema, &loaded.terms);
    drop(loaded);
    let text = lines?;
    Ok(text)
}

/// What answers `followed`: the lines of the ways that the schema reads.
pub fn followed<F: Files>(
    alloc: Global,
    files: &mut F,
    following: &Following<'_>,
) -> Result<Response, ShardError>
    requires { is_base following.now.schema_base.now ≡ true }
    ensures answer { IfOk result (λ r. IsAnswer (F.told files.old) (of_ways (following_of following.now)) r.status r.text.items) }
    ensures notes { IfOk result (λ r. r.notes.items ≡ []) }
    ensures low { IfOk result (λ r. r.status < 7) }
    ensures cause { IfErr result (Explains (F.told files.old) (of_ways (following_of following.now))) }
    ensures faults { IfErr result (FaultsAs (of_ways (following_of following.now)) (F.faults files.old) (F.faults files.new) (F.blame files.new) (F.act files.new)) }
    ensures faults_stay { OnOk result (F.faults files.new ≡ F.faults files.old) }
    ensures told_stays { F.told files.new ≡ F.told files.old }
{
    let text = text_of(alloc, files, following)?;
    Ok(told(alloc, text))
}
