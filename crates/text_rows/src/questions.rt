//! Questions that rows ask of single calls of the libraries.

use crate::{
    arcs, commands, compact, constraints, graphs, maps, numbers, patterns, proof_texts, references,
    scripts, terms, tokens,
};
use anyhow::bail;
use row_format::{NamedFile, bytes_named, first_word};
use std::alloc::Global;

/// The files that a question may name: those of all rows, and those of the row.
#[derive(Clone, Copy)]
pub struct Named<'a> {
    /// Those of all rows.
    pub common: &'a [NamedFile],
    /// Those of the row.
    pub own: &'a [NamedFile],
}

impl<'a> Named<'a> {
    /// The bytes of the file with this name.
    fn bytes_of(self, name: &str) -> anyhow::Result<&'a [u8]> {
        match bytes_named(self.own, name).or(bytes_named(self.common, name)) {
            Some(bytes) => Ok(bytes),
            None => bail!("a question names a file that is not there"),
        }
    }
}

/// What a call of a kind, with what stands behind its name, answers to a text.
fn of_text(
    alloc: Global,
    files: Named<'_>,
    kind: &str,
    with: &str,
    text: &str,
) -> anyhow::Result<String> {
    match kind {
        "resolve" => Ok(references::resolved(alloc, with, text)?),
        "components" => Ok(references::components(alloc, text)?),
        "tokens" => tokens::tokens(alloc, with, text),
        "meaning" => Ok(tokens::meaning(alloc, text)?),
        "pattern" => patterns::sought(alloc, with, text),
        "compare" => Ok(numbers::compared(alloc, text, with)?),
        "digits" => Ok(numbers::digits(alloc, text)?),
        "words" => Ok(commands::asked(alloc, text)?),
        "tool-words" => Ok(commands::asked_of_tool(alloc, text)?),
        "session-words" => Ok(commands::asked_of_session(alloc, text)?),
        "shexc" => Ok(compact::outcome(alloc, text)?),
        "term" => Ok(terms::parts(alloc, text)?),
        "numbers" => terms::numbers(alloc, text),
        "sorted" => terms::sorted(alloc, text),
        "facet" => constraints::held(alloc, with, text),
        "facets" => constraints::made(alloc, text),
        "failed" => constraints::failed(alloc, with, text),
        "value" => constraints::valued(alloc, with, text),
        "proof-line" => Ok(proof_texts::of_line(alloc, text)?),
        "arcs" => arcs::arcs(alloc, with, files.bytes_of(with)?, text),
        _ => bail!("no call is of this kind"),
    }
}

/// What a call answers to a question.
pub fn answer(
    alloc: Global,
    files: Named<'_>,
    call: &str,
    question: &[u8],
) -> anyhow::Result<String> {
    let (kind, with) = first_word(call);
    match kind {
        "triples" | "count" | "table" | "names" => Ok(graphs::asked(alloc, kind, with, question)?),
        "items" | "select" => maps::asked(alloc, kind, with, files.bytes_of(with)?, question),
        "proof" => Ok(proof_texts::rewritten(alloc, question)?),
        "script" => Ok(scripts::outcome(alloc, question)?),
        _ => match str::from_utf8(question) {
            Ok(text) => of_text(alloc, files, kind, with, text),
            Err(_) => bail!("a question is no text"),
        },
    }
}
