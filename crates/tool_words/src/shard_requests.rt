//! What words ask for about data in shards, before it is checked, by what `clap` finds.

ghost use Rattle.std.specs.Prelude.{◌≡◌, ℕ, IfErr, IfOk, IfSome, IsNone, List, Option, false, map, option_map, true};
ghost use Rattle.std.specs.List.{AllZip, list_all};
ghost use Rattle.clap.specs.Words.{found_of, rows_of};
ghost use Rattle.command_words.specs.Checks.{arguments};
ghost use Rattle.command_words.specs.Lent.{Because};
ghost use Rattle.tool_words.specs.Lent.{covering_of, lining_of, mapped_of, schemed_of, shard_of};
ghost use Rattle.tool_words.specs.Requests.{Covering as Wanted, IsCovering, IsLining, IsMapped, IsPrefix, IsSchemed, Lining as Lined, Mapped as Asking, NamesBoth, Schemed as Named, ShardFiles as Files, begins_with_digit, is_prefix, is_prefix_character};

use crate::call::{Covering, Lining, ShardFiles};
use clap::ArgMatches;
use command_words::matches::{value_of, value_or, values_of};
use command_words::{DEFAULT_BASE, Given, WordsError, read_given};
use std::alloc::Global;

/// A schema's file and its base, and the import words.
#[derive(Drop)]
pub struct Schemed<'a> {
    /// The name of the schema's file.
    pub schema: &'a str,
    /// The base of the schema.
    pub schema_base: &'a str,
    /// Words `IRI=FILE`, as they were given.
    pub import_words: Vec<&'a str>,
}

/// What is given with a map.
#[derive(Drop)]
pub struct Mapped<'a> {
    /// The schema and the data.
    pub given: Given<'a>,
    /// The name of the map's file.
    pub map: &'a str,
}

/// Whether a prefix may have this byte.
fn is_prefix_character(byte: u8) -> bool
    ensures { result ≡ is_prefix_character byte }
{
    byte.is_ascii_alphanumeric() || byte == b'_'
}

/// Whether the first byte is a digit.
fn begins_with_digit(bytes: &[u8]) -> bool
    ensures { result ≡ begins_with_digit bytes.now }
{
    match bytes {
        [first, ..] => first.is_ascii_digit(),
        [] => false,
    }
}

/// Whether a prefix may have each of these bytes.
fn are_prefix_characters(bytes: &[u8]) -> bool
    ensures { result ≡ list_all is_prefix_character bytes.now }
{
    bytes.iter().all(|byte| is_prefix_character(*byte))
}

/// Whether a text is letters, digits and `_`, and begins with no digit.
#[tactic(auto, unfolding(crate::specs::Requests::is_prefix))]
fn is_prefix(text: &str) -> bool
    ensures { result ≡ is_prefix text.now }
{
    let bytes = text.as_bytes();
    if begins_with_digit(bytes) {
        return false;
    }
    are_prefix_characters(bytes)
}

/// Whether the prefix that is given, if there is one, is one.
fn is_prefix_if_any(value: Option<&str>) -> bool
    ensures yes { result ≡ true → IsPrefix (option_map (λ s. s.now) value.entry) (option_map (λ s. s.now) value.entry) }
    ensures no { result ≡ false → (p : Option (List ℕ)) → ¬ IsPrefix (option_map (λ s. s.now) value.entry) p }
{
    match value {
        Some(text) => is_prefix(text),
        None => true,
    }
}

/// A data file, the prefix and the base of the data, and `None` where no file is named or the prefix is none.
pub fn read_lined<'a>(matches: &ArgMatches<'a>) -> Option<Lining<'a>>
    ensures found { IfSome result (λ l. IsLining (rows_of (found_of matches.now)) (lining_of l)) }
    ensures missed { IsNone result → (l : Lined) → ¬ IsLining (rows_of (found_of matches.now)) l }
{
    let data = value_of(matches, "data")?;
    let prefix = value_of(matches, "prefix");
    if !is_prefix_if_any(prefix) {
        return None;
    }
    Some(Lining {
        data,
        prefix,
        data_base: value_or(matches, "data-base", DEFAULT_BASE),
    })
}

/// A schema's file, its base and the import words. It fails with `Arguments` where the schema has no file.
pub fn read_schemed<'a>(
    alloc: Global,
    matches: &ArgMatches<'a>,
) -> Result<Schemed<'a>, WordsError<'a>>
    ensures ok { IfOk result (λ s. IsSchemed (rows_of (found_of matches.now)) (schemed_of s)) }
    ensures fault { IfErr result (Because (λ f. (f ≡ arguments) × ((s : Named) → ¬ IsSchemed (rows_of (found_of matches.now)) s))) }
{
    let Some(schema) = value_of(matches, "schema") else {
        return Err(WordsError::Arguments);
    };
    let import_words = values_of(alloc, matches, "imports")?;
    Ok(Schemed {
        schema,
        schema_base: value_or(matches, "schema-base", DEFAULT_BASE),
        import_words,
    })
}

/// What is given with a map. It fails with `Arguments` where the schema, the data or the map have no file.
pub fn read_mapped<'a>(
    alloc: Global,
    matches: &ArgMatches<'a>,
) -> Result<Mapped<'a>, WordsError<'a>>
    ensures ok { IfOk result (λ m. IsMapped (rows_of (found_of matches.now)) (mapped_of m)) }
    ensures fault { IfErr result (Because (λ f. (f ≡ arguments) × ((m : Asking) → ¬ IsMapped (rows_of (found_of matches.now)) m))) }
{
    let Some(map) = value_of(matches, "map") else {
        return Err(WordsError::Arguments);
    };
    let given = read_given(alloc, matches)?;
    Ok(Mapped { given, map })
}

/// The files that a word names which its last `=` divides into two parts that are not empty.
fn divided(word: &str) -> Option<ShardFiles<'_>>
    ensures found { IfSome result (λ s. NamesBoth word.now (shard_of s)) }
    ensures missed { IsNone result → (s : Files) → ¬ NamesBoth word.now s }
{
    let (nodes, shard) = word.rsplit_once('=')?;
    if nodes.is_empty() {
        return None;
    }
    if shard.is_empty() {
        return None;
    }
    Some(ShardFiles { nodes, shard })
}

/// The files that the words name. It fails with `Arguments` where one names none.
fn read_shards<'a>(alloc: Global, words: &[&'a str]) -> Result<Vec<ShardFiles<'a>>, WordsError<'a>>
    ensures ok { IfOk result (λ v. AllZip NamesBoth (map (λ w. w.now) words.now) (map shard_of v.items)) }
    ensures fault { IfErr result (Because (λ f. (f ≡ arguments) × ((ss : List Files) → ¬ AllZip NamesBoth (map (λ w. w.now) words.now) ss))) }
{
    let mut shards = Vec::new(alloc);
    for word in words {
        let Some(files) = divided(word) else {
            return Err(WordsError::Arguments);
        };
        shards.push(files)?;
    }
    Ok(shards)
}

/// The files of the ways, of the part and of the shards. It fails with `Arguments` where one of the first two is not named, or a word
/// names no files of a shard.
pub fn read_covered<'a>(
    alloc: Global,
    matches: &ArgMatches<'a>,
) -> Result<Covering<'a>, WordsError<'a>>
    ensures ok { IfOk result (λ c. IsCovering (rows_of (found_of matches.now)) (covering_of c)) }
    ensures fault { IfErr result (Because (λ f. (f ≡ arguments) × ((c : Wanted) → ¬ IsCovering (rows_of (found_of matches.now)) c))) }
{
    let Some(followed) = value_of(matches, "followed") else {
        return Err(WordsError::Arguments);
    };
    let Some(part) = value_of(matches, "part") else {
        return Err(WordsError::Arguments);
    };
    let words = values_of(alloc, matches, "shards")?;
    let shards = read_shards(alloc, words.as_slice())?;
    Ok(Covering {
        followed,
        part,
        shards,
    })
}
