//! What answers a call about data in shards.

ghost use Rattle.std.specs.Prelude.{◌≡◌, ◌<◌, [], IfErr, IfOk, OnOk};
ghost use Rattle.std.specs.Option.{option_map};
ghost use Rattle.shard_answers.specs.Answers.{IsAnswer, IsFit};
ghost use Rattle.shard_answers.specs.Sources.{cover_name, inputs_of, name_of, nodes_name, shard_name};
ghost use Rattle.shex_inputs.specs.Named.{source_name};
ghost use Rattle.tool_words.specs.Asked.{of_cover, of_lines, of_ways};
ghost use Rattle.tool_words.specs.Requests.{Covering as Cover};
ghost use Rattle.shard_answers.specs.Stops.{Explains, FaultsAs};
ghost use Rattle.tool_words.specs.Lent.{covering_of, following_of, lining_of, shard_call_of, shard_of};

use crate::covers::covers;
use crate::error::{CallFile, CoverFile, ShardError};
use crate::followed::followed;
use crate::lines::lines;
use crate::reached::reached;
use call_ends::Response;
use schema_files::{SchemaFile, file_name};
use shex_inputs::{Source, input_name};
use shex_io::Files;
use std::alloc::Global;
use tool_words::{Covering, Following, Lining, ShardCall, ShardFiles};

/// What answers a call about data in shards.
pub fn answer<F: Files>(
    alloc: Global,
    files: &mut F,
    call: &ShardCall<'_>,
) -> Result<Response, ShardError>
    requires { IsFit (shard_call_of call.now) }
    ensures answer { IfOk result (λ r. IsAnswer (F.told files.old) (shard_call_of call.now) r.status r.text.items) }
    ensures notes { IfOk result (λ r. r.notes.items ≡ []) }
    ensures low { IfOk result (λ r. r.status < 7) }
    ensures cause { IfErr result (Explains (F.told files.old) (shard_call_of call.now)) }
    ensures faults { IfErr result (FaultsAs (shard_call_of call.now) (F.faults files.old) (F.faults files.new) (F.blame files.new) (F.act files.new)) }
    ensures faults_stay { OnOk result (F.faults files.new ≡ F.faults files.old) }
    ensures told_stays { F.told files.new ≡ F.told files.old }
{
    match call {
        ShardCall::Lines(lining) => lines(alloc, files, lining),
        ShardCall::Followed(following) => followed(alloc, files, following),
        ShardCall::Reached(reaching) => reached(alloc, files, reaching),
        ShardCall::Covers(covering) => covers(alloc, files, covering),
    }
}

/// The name of the file with a shard's nodes, and the empty text where there is no such shard.
fn nodes_name<'a>(files: Option<&ShardFiles<'a>>) -> &'a str
    ensures { result.now ≡ nodes_name (option_map (λ s. shard_of s.now) files.entry) }
{
    match files {
        Some(files) => files.nodes,
        None => "",
    }
}

/// The name of the file with a shard's lines, and the empty text where there is no such shard.
fn shard_name<'a>(files: Option<&ShardFiles<'a>>) -> &'a str
    ensures { result.now ≡ shard_name (option_map (λ s. shard_of s.now) files.entry) }
{
    match files {
        Some(files) => files.shard,
        None => "",
    }
}

/// The name of a file of `covers`, and the empty text where there is no such shard.
fn cover_name<'a>(covering: &Covering<'a>, file: CoverFile) -> &'a str
    ensures { result.now ≡ cover_name (covering_of covering.now) file }
{
    let shards = covering.shards.as_slice();
    match file {
        CoverFile::Followed => covering.followed,
        CoverFile::Part => covering.part,
        CoverFile::Nodes(at) => nodes_name(shards.get(at)),
        CoverFile::Shard(at) => shard_name(shards.get(at)),
    }
}

/// The name of the data file of `lines`, and the empty text for a file that it has not.
fn lined_name<'a>(lining: &Lining<'a>, source: Source) -> &'a str
    ensures { result.now ≡ source_name (inputs_of (of_lines (lining_of lining.now))) source }
{
    match source {
        Source::Data => lining.data,
        Source::Schema(SchemaFile::Root) | Source::Schema(SchemaFile::Imported(_)) | Source::Map =>
            { "" }
    }
}

/// The name of a file of the schema of `followed`, and the empty text for a file that it has not.
fn followed_name<'a>(following: &Following<'a>, source: Source) -> &'a str
    ensures { result.now ≡ source_name (inputs_of (of_ways (following_of following.now))) source }
{
    match source {
        Source::Schema(file) => file_name(following.schema, following.imports.as_slice(), file),
        Source::Data | Source::Map => "",
    }
}

/// The empty text for a file of the inputs of `covers`, which has none.
fn no_name(source: Source) -> &'static str
    ensures { (c : Cover) → result.now ≡ source_name (inputs_of (of_cover c)) source }
{
    match source {
        Source::Schema(SchemaFile::Root) | Source::Schema(SchemaFile::Imported(_)) => "",
        Source::Data | Source::Map => "",
    }
}

/// The name of a file of the inputs of a call, and the empty text where they have no such file.
fn inputs_name<'a>(call: &ShardCall<'a>, source: Source) -> &'a str
    ensures { result.now ≡ source_name (inputs_of (shard_call_of call.now)) source }
{
    match call {
        ShardCall::Lines(lining) => lined_name(lining, source),
        ShardCall::Followed(following) => followed_name(following, source),
        ShardCall::Reached(reaching) => input_name(&reaching.inputs, reaching.map, source),
        ShardCall::Covers(_) => no_name(source),
    }
}

/// The name of a file of a call in the words, and the empty text where they name none.
pub fn source_name<'a>(call: &ShardCall<'a>, file: CallFile) -> &'a str
    ensures { result.now ≡ name_of (shard_call_of call.now) file }
{
    match file {
        CallFile::Input(source) => inputs_name(call, source),
        CallFile::Cover(file) => match call {
            ShardCall::Covers(covering) => cover_name(covering, file),
            ShardCall::Lines(_) | ShardCall::Followed(_) | ShardCall::Reached(_) => "",
        },
    }
}
