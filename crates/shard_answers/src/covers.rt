//! What answers `covers`.

ghost use Rattle.std.specs.Prelude.{◌≡◌, ℕ, IfErr, IfOk, List, OnOk, map, ◌<◌, []};
ghost use Rattle.std.specs.Option.{option_map};
ghost use Rattle.shard_answers.specs.Answers.{IsAnswer, CoversTo, Finds, FindsFirst, lacking_line, told_of};
ghost use Rattle.shard_answers.specs.Stops.{ComparingStops, Explains, FaultsAs, PairStops};
ghost use Rattle.shard_checks.specs.Sets.{IsPart};
ghost use Rattle.tool_words.specs.Asked.{of_cover};
ghost use Rattle.tool_words.specs.Lent.{covering_of, shard_of};

use crate::error::{CallFile, CoverFile, ShardError};
use crate::fetch::fetch;
use crate::response::found;
use call_ends::Response;
use shard_checks::Part;
use shex_io::Files;
use std::alloc::{AllocError, Global};
use tool_words::{Covering, ShardFiles};

/// The name of a shard, and a line that it lacks.
fn lacking_line(alloc: Global, shard: &str, line: &[u8]) -> Result<Vec<u8>, AllocError>
    ensures { IfOk result (λ v. v.items ≡ lacking_line shard.now line.now) }
{
    let mut text = Vec::new(alloc);
    text.extend_from_slice(shard.as_bytes())?;
    text.extend_from_slice(b": ")?;
    text.extend_from_slice(line)?;
    text.push(b'\n')?;
    Ok(text)
}

/// The line that tells what the shard with these bytes lacks of the part, if it lacks something.
fn text_if_lacking(
    alloc: Global,
    part: &Part<'_>,
    name: &str,
    nodes: &[u8],
    shard: &[u8],
) -> Result<Option<Vec<u8>>, AllocError>
    ensures { IfOk result (λ r. (lines back : List (List ℕ)) → IsPart part.now lines back →
        option_map (λ v. v.items) r ≡ told_of lines back name.now nodes.now shard.now) }
{
    match part.first_missing(alloc, nodes, shard)? {
        Some(line) => Ok(Some(lacking_line(alloc, name, line)?)),
        None => Ok(None),
    }
}

/// The line that tells what the shard at a place among the words lacks of the part, if it lacks something.
fn compare<F: Files>(
    alloc: Global,
    files: &mut F,
    part: &Part<'_>,
    names: &ShardFiles<'_>,
    at: usize,
) -> Result<Option<Vec<u8>>, ShardError>
    ensures found { IfOk result (λ r. (lines back : List (List ℕ)) → IsPart part.now lines back →
        Finds (F.told files.old) lines back (shard_of names.now) (option_map (λ v. v.items) r)) }
    ensures stops { IfErr result (PairStops (F.told files.old) (shard_of names.now) at (F.faults files.old) (F.faults files.new) (F.blame files.new) (F.act files.new)) }
    ensures faults_stay { OnOk result (F.faults files.new ≡ F.faults files.old) }
    ensures told_stays { F.told files.new ≡ F.told files.old }
{
    let nodes_file = CallFile::Cover(CoverFile::Nodes(at));
    let nodes = fetch(alloc, files, names.nodes, nodes_file)?;
    let shard_file = CallFile::Cover(CoverFile::Shard(at));
    let shard = fetch(alloc, files, names.shard, shard_file)?;
    Ok(text_if_lacking(alloc, part, names.shard, nodes.as_slice(), shard.as_slice())?)
}

/// The line that tells what the first of the shards lacks that lacks something of the part, if one does.
fn compare_all<F: Files>(
    alloc: Global,
    files: &mut F,
    part: &Part<'_>,
    shards: &[ShardFiles<'_>],
) -> Result<Option<Vec<u8>>, ShardError>
    ensures found { IfOk result (λ r. (lines back : List (List ℕ)) → IsPart part.now lines back →
        FindsFirst (F.told files.old) lines back (map shard_of shards.now) (option_map (λ v. v.items) r)) }
    ensures stops { (lines back : List (List ℕ)) → IsPart part.now lines back → IfErr result
        (ComparingStops (F.told files.old) lines back (map shard_of shards.now) (F.faults files.old) (F.faults files.new) (F.blame files.new) (F.act files.new)) }
    ensures faults_stay { OnOk result (F.faults files.new ≡ F.faults files.old) }
    ensures told_stays { F.told files.new ≡ F.told files.old }
{
    for at in 0..shards.len() {
        let text = compare(alloc, files, part, &shards[at], at)?;
        if text.is_some() {
            return Ok(text);
        }
    }
    Ok(None)
}

/// The line that tells what the first of the shards lacks that lacks something of the part, if one does.
fn find<F: Files>(
    alloc: Global,
    files: &mut F,
    covering: &Covering<'_>,
) -> Result<Option<Vec<u8>>, ShardError>
    ensures found { IfOk result (λ r. CoversTo (F.told files.old) (covering_of covering.now) (option_map (λ v. v.items) r)) }
    ensures cause { IfErr result (Explains (F.told files.old) (of_cover (covering_of covering.now))) }
    ensures faults { IfErr result (FaultsAs (of_cover (covering_of covering.now)) (F.faults files.old) (F.faults files.new) (F.blame files.new) (F.act files.new)) }
    ensures faults_stay { OnOk result (F.faults files.new ≡ F.faults files.old) }
    ensures told_stays { F.told files.new ≡ F.told files.old }
{
    let ways_file = CallFile::Cover(CoverFile::Followed);
    let ways = fetch(alloc, files, covering.followed, ways_file)?;
    let part_file = CallFile::Cover(CoverFile::Part);
    let bytes = fetch(alloc, files, covering.part, part_file)?;
    let part = Part::of(alloc, bytes.as_slice(), ways.as_slice())?;
    compare_all(alloc, files, &part, covering.shards.as_slice())
}

/// What answers `covers`: the line that tells what the first of the shards lacks that lacks something of the part, if one does.
pub fn covers<F: Files>(
    alloc: Global,
    files: &mut F,
    covering: &Covering<'_>,
) -> Result<Response, ShardError>
    ensures answer { IfOk result (λ r. IsAnswer (F.told files.old) (of_cover (covering_of covering.now)) r.status r.text.items) }
    ensures notes { IfOk result (λ r. r.notes.items ≡ []) }
    ensures low { IfOk result (λ r. r.status < 7) }
    ensures cause { IfErr result (Explains (F.told files.old) (of_cover (covering_of covering.now))) }
    ensures faults { IfErr result (FaultsAs (of_cover (covering_of covering.now)) (F.faults files.old) (F.faults files.new) (F.blame files.new) (F.act files.new)) }
    ensures faults_stay { OnOk result (F.faults files.new ≡ F.faults files.old) }
    ensures told_stays { F.told files.new ≡ F.told files.old }
{
    let text = find(alloc, files, covering)?;
    Ok(found(alloc, text))
}
