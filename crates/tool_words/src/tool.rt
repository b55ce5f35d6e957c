//! The words of `shextool`.

ghost use Rattle.std.specs.Prelude.{◌≡◌, IfErr, IfOk, IsErrAnd, MatchResult, map, string_bytes};
ghost use Rattle.command_words.specs.Checks.{Fault};
ghost use Rattle.command_words.specs.Lent.{Because};
ghost use Rattle.tool_words.specs.Asked.{IsConverting, IsConvertingFault, IsExplaining, IsExplainingFault, IsListing, IsListingFault, IsToolCall, IsToolFault, ToolCall as Calling};
ghost use Rattle.tool_words.specs.Lent.{converting_of, explaining_of, listing_of, tool_call_of};

use crate::call::{Converting, Explaining, Listing, ShardCall, ToolCall};
use crate::commands::{convert, explain, extents};
use crate::requests::{Budgeted, Explained, read_budgeted, read_explained, read_named};
use crate::shards::{read_covering, read_following, read_lining, read_reaching};
use command_words::WordsError;
use command_words::checks::checked_inputs;
use command_words::matches::{matches_of, words_behind};
use input_names::{is_base, is_schema_name};
use std::alloc::Global;

/// What the words behind `convert` ask for, or the first thing that is wrong with them.
fn read_converting<'a>(alloc: Global, words: &'a [String]) -> Result<Converting<'a>, WordsError<'a>>
    ensures ok { IfOk result (λ c. IsConverting (map string_bytes words.entry.now) (converting_of c)) }
    ensures fault { IfErr result (Because (IsConvertingFault (map string_bytes words.entry.now))) }
{
    let command = convert(alloc)?;
    let Some(matches) = matches_of(command, words)? else {
        return Err(WordsError::Arguments);
    };
    let Some(converting) = read_named(&matches) else {
        return Err(WordsError::Arguments);
    };
    if !is_schema_name(converting.schema) {
        return Err(WordsError::Ending(converting.schema));
    }
    if !is_base(converting.schema_base) {
        return Err(WordsError::Base(converting.schema_base));
    }
    Ok(converting)
}

/// What the words behind `extents` ask for, or the first thing that is wrong with them.
fn read_listing<'a>(alloc: Global, words: &'a [String]) -> Result<Listing<'a>, WordsError<'a>>
    ensures ok { IfOk result (λ l. IsListing (map string_bytes words.entry.now) (listing_of l)) }
    ensures fault { IfErr result (Because (IsListingFault (map string_bytes words.entry.now))) }
{
    let command = extents(alloc)?;
    let Some(matches) = matches_of(command, words)? else {
        return Err(WordsError::Arguments);
    };
    let Budgeted { given, budget } = read_budgeted(alloc, &matches)?;
    let inputs = checked_inputs(alloc, given)?;
    Ok(Listing { inputs, budget })
}

/// What the words behind `explain` ask for, or the first thing that is wrong with them.
fn read_explaining<'a>(alloc: Global, words: &'a [String]) -> Result<Explaining<'a>, WordsError<'a>>
    ensures ok { IfOk result (λ e. IsExplaining (map string_bytes words.entry.now) (explaining_of e)) }
    ensures fault { IfErr result (Because (IsExplainingFault (map string_bytes words.entry.now))) }
{
    let command = explain(alloc)?;
    let Some(matches) = matches_of(command, words)? else {
        return Err(WordsError::Arguments);
    };
    let Explained {
        budgeted,
        map,
        limit,
        json,
    } = read_explained(alloc, &matches)?;
    let Budgeted { given, budget } = budgeted;
    let inputs = checked_inputs(alloc, given)?;
    Ok(Explaining {
        inputs,
        map,
        budget,
        limit,
        json,
    })
}

/// What the words ask for, or the first thing that is wrong with them.
fn read_call<'a>(alloc: Global, words: &'a [String]) -> Result<ToolCall<'a>, WordsError<'a>>
    ensures ok { IfOk result (λ c. IsToolCall (map string_bytes words.entry.now) (tool_call_of c)) }
    ensures fault { IfErr result (Because (IsToolFault (map string_bytes words.entry.now))) }
{
    if let Some(behind) = words_behind(words, "convert") {
        let converting = read_converting(alloc, behind)?;
        return Ok(ToolCall::Convert(converting));
    }
    if let Some(behind) = words_behind(words, "extents") {
        let listing = read_listing(alloc, behind)?;
        return Ok(ToolCall::Extents(listing));
    }
    if let Some(behind) = words_behind(words, "explain") {
        let explaining = read_explaining(alloc, behind)?;
        return Ok(ToolCall::Explain(explaining));
    }
    if let Some(behind) = words_behind(words, "lines") {
        let lining = read_lining(alloc, behind)?;
        return Ok(ToolCall::Shards(ShardCall::Lines(lining)));
    }
    if let Some(behind) = words_behind(words, "followed") {
        let following = read_following(alloc, behind)?;
        return Ok(ToolCall::Shards(ShardCall::Followed(following)));
    }
    if let Some(behind) = words_behind(words, "reached") {
        let reaching = read_reaching(alloc, behind)?;
        return Ok(ToolCall::Shards(ShardCall::Reached(reaching)));
    }
    if let Some(behind) = words_behind(words, "covers") {
        let covering = read_covering(alloc, behind)?;
        return Ok(ToolCall::Shards(ShardCall::Covers(covering)));
    }
    Err(WordsError::Arguments)
}

/// What the words behind the program's name ask of `shextool`: `convert --schema F [--schema-base I]`,
/// `extents --schema F --data F [--budget N] [--schema-base I] [--data-base I] [IRI=FILE ..]`,
/// `explain --schema F --data F --map F [--budget N] [--limit N] [--json] [--schema-base I] [--data-base I] [IRI=FILE ..]`,
/// `lines --data F [--prefix P] [--data-base I]`, `followed --schema F [--schema-base I] [IRI=FILE ..]`,
/// `reached --schema F --data F --map F [--schema-base I] [--data-base I] [IRI=FILE ..]`, or
/// `covers --followed F --part F [NODES=SHARD ..]`. It fails with the first thing that is wrong with them, in this order: `Arguments`;
/// `Ending` of the schema's name, then of the data's; for each import word in turn `Import` and then `Ending` of its file's name;
/// `Base` of the schema, then of the data. P is letters, digits and `_`, and begins with no digit; the last `=` of NODES=SHARD divides
/// it into two names; a word that is not so is one of `Arguments`.
pub fn read_tool<'a>(alloc: Global, words: &'a [String]) -> Result<ToolCall<'a>, WordsError<'a>>
    ensures asked { IfOk result (λ c. IsToolCall (map string_bytes words.entry.now) (tool_call_of c)) }
    ensures complete { (c : Calling) → IsToolCall (map string_bytes words.entry.now) c → MatchResult result (λ d. tool_call_of d ≡ c) (Because (λ f. ⊥)) }
    ensures refused { IfErr result (Because (IsToolFault (map string_bytes words.entry.now))) }
    ensures refuses { (f : Fault) → IsToolFault (map string_bytes words.entry.now) f → IsErrAnd result (Because (λ g. g ≡ f)) }
{
    read_call(alloc, words)
}
