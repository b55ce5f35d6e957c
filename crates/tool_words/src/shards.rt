//! The words about data in shards.

ghost use Rattle.std.specs.Prelude.{◌≡◌, IfErr, IfOk, map, string_bytes};
ghost use Rattle.command_words.specs.Lent.{Because};
ghost use Rattle.tool_words.specs.Asked.{FailsFollowing, IsCovering, IsCoveringFault, IsFollowing, IsFollowingFault, IsLining, IsLiningFault, IsReaching, IsReachingFault, PassesFollowing};
ghost use Rattle.tool_words.specs.Lent.{covering_of, following_of, lining_of, reaching_of, schemed_of};

use crate::call::{Covering, Following, Lining, Reaching};
use crate::commands::{covers, followed, lines, reached};
use crate::shard_requests::{Mapped, Schemed, read_covered, read_lined, read_mapped, read_schemed};
use command_words::WordsError;
use command_words::checks::checked_inputs;
use command_words::imports::read_imports;
use command_words::matches::matches_of;
use input_names::{is_base, is_data_name, is_schema_name};
use std::alloc::Global;

/// What the words behind `lines` ask for, or the first thing that is wrong with them.
pub fn read_lining<'a>(alloc: Global, words: &'a [String]) -> Result<Lining<'a>, WordsError<'a>>
    ensures ok { IfOk result (λ l. IsLining (map string_bytes words.entry.now) (lining_of l)) }
    ensures fault { IfErr result (Because (IsLiningFault (map string_bytes words.entry.now))) }
{
    let command = lines(alloc)?;
    let Some(matches) = matches_of(command, words)? else {
        return Err(WordsError::Arguments);
    };
    let Some(lining) = read_lined(&matches) else {
        return Err(WordsError::Arguments);
    };
    if !is_data_name(lining.data) {
        return Err(WordsError::Ending(lining.data));
    }
    if !is_base(lining.data_base) {
        return Err(WordsError::Base(lining.data_base));
    }
    Ok(lining)
}

/// What is given of a schema, where it passes the checks. It fails with the first one that is failed, in this order: `Ending` of the
/// schema's name; for each import word in turn `Import` and then `Ending` of its file's name; `Base` of the schema.
fn checked_schema<'a>(alloc: Global, asked: Schemed<'a>) -> Result<Following<'a>, WordsError<'a>>
    ensures ok { IfOk result (λ f. PassesFollowing (schemed_of asked.entry) (following_of f)) }
    ensures fault { IfErr result (Because (FailsFollowing (schemed_of asked.entry))) }
{
    if !is_schema_name(asked.schema) {
        return Err(WordsError::Ending(asked.schema));
    }
    let imports = read_imports(alloc, &asked.import_words)?;
    if !is_base(asked.schema_base) {
        return Err(WordsError::Base(asked.schema_base));
    }
    Ok(Following {
        schema: asked.schema,
        schema_base: asked.schema_base,
        imports,
    })
}

/// What the words behind `followed` ask for, or the first thing that is wrong with them.
pub fn read_following<'a>(
    alloc: Global,
    words: &'a [String],
) -> Result<Following<'a>, WordsError<'a>>
    ensures ok { IfOk result (λ f. IsFollowing (map string_bytes words.entry.now) (following_of f)) }
    ensures fault { IfErr result (Because (IsFollowingFault (map string_bytes words.entry.now))) }
{
    let command = followed(alloc)?;
    let Some(matches) = matches_of(command, words)? else {
        return Err(WordsError::Arguments);
    };
    let asked = read_schemed(alloc, &matches)?;
    let following = checked_schema(alloc, asked)?;
    Ok(following)
}

/// What the words behind `reached` ask for, or the first thing that is wrong with them.
pub fn read_reaching<'a>(alloc: Global, words: &'a [String]) -> Result<Reaching<'a>, WordsError<'a>>
    ensures ok { IfOk result (λ r. IsReaching (map string_bytes words.entry.now) (reaching_of r)) }
    ensures fault { IfErr result (Because (IsReachingFault (map string_bytes words.entry.now))) }
{
    let command = reached(alloc)?;
    let Some(matches) = matches_of(command, words)? else {
        return Err(WordsError::Arguments);
    };
    let Mapped { given, map } = read_mapped(alloc, &matches)?;
    let inputs = checked_inputs(alloc, given)?;
    Ok(Reaching { inputs, map })
}

/// What the words behind `covers` ask for, or the first thing that is wrong with them.
pub fn read_covering<'a>(alloc: Global, words: &'a [String]) -> Result<Covering<'a>, WordsError<'a>>
    ensures ok { IfOk result (λ c. IsCovering (map string_bytes words.entry.now) (covering_of c)) }
    ensures fault { IfErr result (Because (IsCoveringFault (map string_bytes words.entry.now))) }
{
    let command = covers(alloc)?;
    let Some(matches) = matches_of(command, words)? else {
        return Err(WordsError::Arguments);
    };
    let covering = read_covered(alloc, &matches)?;
    Ok(covering)
}
