//! Rows for single calls of the libraries that read: each asks something, and says what has to be answered. For each document
//! that a word names its name is printed, and a line for each row, as `row_format` says. The program ends with 0 where rows
//! differ too: what it prints tells of them. A line that cannot be obeyed ends it with an error.
//!
//! What stands before the first row of a document are files. The lines of a row give files and ask:
//!
//! - `each KIND ..` asks a single call: each line of its text is a question, ` -> ` and the answer.
//! - `ask KIND ..` asks it about the whole text without the last line feed, `hex KIND ..` about bytes in hexadecimal digits;
//!   `gives` says what is answered, which is its text without the last line feed.
//!
//! The kinds are these. A refusal is answered by its name, with what it names: a place, a name or a label, where there is one.
//!
//! - `resolve BASE` resolves a reference, and `components` cuts it.
//! - `tokens LANGUAGE` gives the tokens of `N-Triples`, `Turtle`, a `map` or `ShExC`; `meaning` what the first token of a map
//!   stands for.
//! - `pattern FLAGS/PATTERN` seeks a pattern in a text.
//! - `compare NUMBER` says how a number stands to this one, and `digits` how many digits it has, and how many behind the point.
//! - `facet NAME VALUE` asks a node constraint of one facet about a decimal, and `facets` makes one of a facet a line. The
//!   names are `mininclusive`, `minexclusive`, `maxinclusive`, `maxexclusive`, and `pattern` with `FLAGS/PATTERN` as its value.
//! - `failed TERM` gives the first part that the term fails of the node constraint that asks for these lines, `holds` where it
//!   fails none. A line is a facet as above, `kind` with `iri`, `bnode`, `nonliteral` or `literal`, `datatype IRI`, or
//!   `value FORM TEXT` as below.
//! - `value FORM TEXT` asks a value set of one value about a term. The forms are `term`, `iri-stem`, `literal-stem`, `language`
//!   and `language-stem`, and for all IRIs, literals and tags but those with this stem `iris-but`, `literals-but` and
//!   `languages-but`.
//! - `term` says what the text of a term says, `numbers` numbers terms as a table does, `sorted` puts them in order.
//! - `triples NAME`, `count NAME`, `table NAME` and `names NAME` read data under the base `http://localhost/`, as of a file with
//!   this name, and give their triples, how many these are, the terms by number, or the last base and the prefix `e`.
//! - `arcs FILE` gives the arcs in this file's data that a question asks for: `outs NODE`, `ins NODE`, either with a predicate,
//!   or `neigh NODE`.
//! - `shexc` reads a schema in ShExC under the base `http://b.example/`, and gives `read` or why it is refused.
//! - `items FILE` reads a map over this file's data, and `select FILE` gives what it selects. Targets have the base `http://s/` and
//!   the prefix `ex` for `http://l/`; declared are `<S>`, `_:T` and a start.
//! - `words` says what words ask for, `tool-words` what they ask of `shextool`, and `session-words` of `typing_session`.
//! - `proof` writes the proof that is read of a text, and `proof-line` that of a line with `¶` for line feeds.
//! - `script` gives the commands of an edit script, one a line.
#![tactic(auto)]

mod arcs;
mod asking;
mod commands;
mod common;
mod compact;
mod constraints;
mod graphs;
mod items;
mod maps;
mod numbers;
mod patterns;
mod proof_texts;
mod questions;
mod references;
mod scripts;
mod terms;
mod tokens;

use common::Common;
use row_format::print_reports;

fn main(rt: HostRuntime) -> anyhow::Result<()> {
    print_reports::<Common>(&rt)
}
