//! The patterns of facets, read once and found in texts.

ghost use Rattle.std.specs.Prelude.{◌≡◌, ◌↔◌, IfOk, IsTrue, MatchResult};
ghost use Rattle.std.specs.List.{AllByRecursion};
ghost use Rattle.std.specs.Str.{chars};
ghost use Rattle.node_constraint.specs.Held.{AreReadFrom, IsFoundIn, Reads, StopsAt, error_of};
ghost use Rattle.node_constraint.specs.Making.{patterns_in};

use crate::{Facet, MakeError};
use rdf_terms::text::Text;
use std::alloc::{AllocError, Global};
use xs_pattern::{Pattern, PatternError};

/// The patterns of the facets, in order. The first that is not read is refused.
pub(crate) fn read_patterns(alloc: Global, facets: &[Facet]) -> Result<Vec<Pattern>, MakeError>
    ensures { MatchResult result (λ ps. AreReadFrom (patterns_in facets.now) ps.items) (StopsAt (patterns_in facets.now)) }
{
    let mut patterns = Vec::new(alloc);
    for facet in facets {
        if let Facet::Pattern(text, flags) = facet {
            let pattern = read_pattern(alloc, text, flags)?;
            patterns.push(pattern)?;
        }
    }
    Ok(patterns)
}

/// The pattern of a text with its flags.
fn read_pattern(alloc: Global, text: &Text, flags: &Text) -> Result<Pattern, MakeError>
    ensures { Reads (record { pattern = text.now; flags = flags.now }) result }
{
    match Pattern::read(alloc, text.as_str(), flags.as_str()) {
        Ok(pattern) => Ok(pattern),
        Err(error) => Err(error_of(error)),
    }
}

/// The error of a pattern that is not read.
fn error_of(error: PatternError) -> MakeError
    ensures { result ≡ error_of error }
{
    match error {
        PatternError::Flag | PatternError::Syntax | PatternError::Large => MakeError::Pattern(
            error,
        ),
        PatternError::Memory => MakeError::Memory,
    }
}

/// Whether each pattern is found in the text.
pub(crate) fn all_found(alloc: Global, patterns: &[Pattern], text: &str) -> Result<bool, AllocError>
    ensures { IfOk result (λ b. IsTrue b ↔ AllByRecursion (IsFoundIn (chars text.now)) patterns.now) }
{
    for pattern in patterns {
        if !pattern.found(alloc, text)? {
            return Ok(false);
        }
    }
    Ok(true)
}
