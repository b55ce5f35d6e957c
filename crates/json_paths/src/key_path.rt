//! Paths of one step or more, and their text.

ghost use Rattle.std.specs.Prelude.{◌≡◌, [], IfOk, MatchOption, false, string_bytes};
ghost use Rattle.json_paths.specs.Texts.{is_word, is_word_byte, key_text, path_text, step_text};
ghost use Rattle.std.specs.List.{list_all};

use crate::steps::Step;
use serde_json::Value;
use std::alloc::{AllocError, Global};
use std::marker::Model;

/// A path into a JSON value, of one step or more. Contracts see it as the list of its steps.
#[derive(Debug, Drop)]
pub struct KeyPath {
    steps: Vec<Step>,
}

impl Model for KeyPath {
    ghost use Rattle.std.specs.Prelude.{List};
    ghost use Rattle.json_paths.specs.declared.steps.Step.{Step};

    ghost Value = { List Step };

    ghost view = { λ p. p.steps.items };
}

/// Whether the byte is a letter of ASCII, a digit, or `_`.
fn is_word_byte(byte: &u8) -> bool
    ensures { result ≡ is_word_byte byte.now }
{
    *byte == b'_' || byte.is_ascii_alphanumeric()
}

/// Whether all bytes are letters of ASCII, digits, or `_`.
fn are_word_bytes(bytes: &[u8]) -> bool
    ensures { result ≡ list_all is_word_byte bytes.now }
{
    bytes.iter().all(is_word_byte)
}

/// Whether a name needs no quotes: it is one letter of ASCII, digit or `_`, or more.
fn is_word(name: &str) -> bool
    ensures { result ≡ is_word name.now }
{
    !name.is_empty() && are_word_bytes(name.as_bytes())
}

/// A name that needs no quotes, behind a point where a step stands before it; another one as a text of JSON in square brackets.
fn key_text(alloc: Global, follows: bool, name: &str) -> Result<String, AllocError>
    ensures { IfOk result (λ s. string_bytes s ≡ key_text follows name.now) }
{
    if !is_word(name) {
        let quoted = Value::try_from_str(alloc, name)?.to_string(alloc)?;
        return format!(in alloc; "[{}]", quoted.as_str());
    }
    if follows {
        format!(in alloc; ".{name}")
    } else {
        String::from_str(alloc, name)
    }
}

/// The text of a step: an index stands in square brackets.
fn step_text(alloc: Global, follows: bool, step: &Step) -> Result<String, AllocError>
    ensures { IfOk result (λ s. string_bytes s ≡ step_text follows step.now) }
{
    match step {
        Step::Key(name) => key_text(alloc, follows, name.as_str()),
        Step::Index(index) => format!(in alloc; "[{index}]"),
    }
}

impl KeyPath {
    /// The path of these steps; there is none without a step.
    pub fn of(steps: Vec<Step>) -> Option<KeyPath>
        ensures { MatchOption result (steps.items ≡ []) (λ p. p ≡ steps.items) }
    {
        if steps.is_empty() {
            None
        } else {
            Some(KeyPath { steps })
        }
    }

    /// The steps, from the outermost value inwards.
    pub fn steps(&self) -> &[Step]
        ensures { result.now ≡ self.now }
    {
        self.steps.as_slice()
    }

    /// The text of the path, such as `shapes[3].expression.valueExpr`: names are joined by points, and indices stand in square
    /// brackets, as do names that are not of letters, digits and `_`, which are written as texts of JSON. It fails for want of
    /// memory alone.
    pub fn to_text(&self, alloc: Global) -> Result<String, AllocError>
        ensures { IfOk result (λ s. string_bytes s ≡ path_text false self.now) }
    {
        text_of(alloc, self.steps())
    }
}

/// The text of steps.
fn text_of(alloc: Global, steps: &[Step]) -> Result<String, AllocError>
    ensures { IfOk result (λ s. string_bytes s ≡ path_text false steps.now) }
{
    let mut text = String::new(alloc);
    let mut follows = false;
    for step in steps {
        let part = step_text(alloc, follows, step)?;
        text.push_str(part.as_str())?;
        follows = true;
    }
    Ok(text)
}
