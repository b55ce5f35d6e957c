//! Edit scripts: their commands.

use graph_index::loading::TermTriple;
use rdf_terms::terms::Term;
use rdf_terms::written::write_term;
use schema_tree::schema::Target;
use session_script::{Command, read_script};
use std::alloc::{AllocError, Global};

/// Appends a triple and its dot.
fn push_triple(alloc: Global, triple: &TermTriple, out: &mut Vec<u8>) -> Result<(), AllocError> {
    write_term(alloc, &triple.subject, out)?;
    out.push(b' ')?;
    write_term(alloc, &triple.predicate, out)?;
    out.push(b' ')?;
    write_term(alloc, &triple.object, out)?;
    out.extend_from_slice(b" .")
}

/// Appends a node and its target.
fn push_question(
    alloc: Global,
    node: &Term,
    target: &Target,
    out: &mut Vec<u8>,
) -> Result<(), AllocError> {
    write_term(alloc, node, out)?;
    out.push(b'@')?;
    out.extend_from_slice(target.text(alloc)?.as_bytes())
}

/// Appends a command, and a line feed before each but the first.
fn push_command(alloc: Global, command: &Command, out: &mut Vec<u8>) -> Result<(), AllocError> {
    if !out.is_empty() {
        out.push(b'\n')?;
    }
    match command {
        Command::Add(triple) => {
            out.extend_from_slice(b"+ ")?;
            push_triple(alloc, triple, out)
        }
        Command::Remove(triple) => {
            out.extend_from_slice(b"- ")?;
            push_triple(alloc, triple, out)
        }
        Command::Ask(node, target) => {
            out.extend_from_slice(b"? ")?;
            push_question(alloc, node, target, out)
        }
    }
}

/// Commands, one a line.
fn written(alloc: Global, commands: &[Command]) -> Result<String, AllocError> {
    let mut out = Vec::new(alloc);
    for command in commands {
        push_command(alloc, command, &mut out)?;
    }
    String::from_utf8_lossy(alloc, out.as_slice())
}

/// The commands of a script, one a line, or why it is refused.
pub fn outcome(alloc: Global, source: &[u8]) -> Result<String, AllocError> {
    match read_script(alloc, source) {
        Ok(commands) => written(alloc, commands.as_slice()),
        Err(error) => format!(in alloc; "{error}"),
    }
}
