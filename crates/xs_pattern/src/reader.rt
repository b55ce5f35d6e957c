//! Reading the expression of a text.
ghost use Rattle.std.specs.Prelude.{◌≡◌, ◌<◌, IfOk};
ghost use Rattle.std.specs.Str.{chars};
ghost use Rattle.xs_pattern.specs.Parses.{Parses, ParsesUnder};
ghost use Rattle.xs_pattern.specs.Parsing.{IsSpelled, tokens_of};
ghost use Rattle.xs_pattern.specs.Regex.{regex_of};
ghost use Rattle.xs_pattern.specs.Tokens as Tokens;

use crate::characters::characters;
use crate::flagged::{has_flag, literal};
use crate::lexer::tokens;
use crate::parser::{Token, has_large, is_pattern, nesting, pattern_of};
use crate::{Expression, PatternError};
use std::alloc::{AllocError, Global};

/// How deep groups and classes may nest.
const DEEPEST: usize = 64;

/// The expression with these tokens.
fn whole(alloc: Global, mut tokens: Vec<Token>) -> Result<Expression, AllocError>
    requires { IsSpelled (tokens_of tokens.items) }
    ensures { IfOk result (λ e. (Tokens.tokens (regex_of e) ≡ tokens_of tokens.items) × Tokens.IsPattern (regex_of e)) }
{
    tokens.reverse();
    match pattern_of(alloc, tokens)? {
        Some(expression) => Ok(expression),
        None => unreachable!(),
    }
}

/// The expression that the text spells. It is built only where its numbers and its nesting are within their limits.
fn parse(alloc: Global, text: &[char]) -> Result<Expression, PatternError>
    ensures { Parses text.now result }
{
    let Some(tokens) = tokens(alloc, text)? else {
        return Err(PatternError::Syntax);
    };
    if !is_pattern(&tokens) {
        return Err(PatternError::Syntax);
    }
    if has_large(&tokens) {
        return Err(PatternError::Large);
    }
    if nesting(&tokens) > DEEPEST {
        return Err(PatternError::Large);
    }
    Ok(whole(alloc, tokens)?)
}

/// The expression that the text spells under these flags.
pub(crate) fn read_expression(
    alloc: Global,
    text: &str,
    flags: &str,
) -> Result<Expression, PatternError>
    ensures { ParsesUnder (chars flags.now) (chars text.now) result }
{
    let characters = characters(alloc, text)?;
    if has_flag('q', flags) {
        return Ok(literal(alloc, &characters)?);
    }
    parse(alloc, &characters)
}
