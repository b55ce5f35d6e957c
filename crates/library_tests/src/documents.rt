//! Documents that are too large to be written down.

use data_reader::{Format, read};
use graph_index::graph::Graph;
use graph_index::read_error::ReadError;
use rdf_terms::table::TermTable;
use std::alloc::{AllocError, Global};
use std::test::Fail;

/// Reads data into the table and the graph, and tells how many triples that then holds, or why they are refused.
fn loaded(
    alloc: Global,
    format: Format,
    source: &str,
    terms: &mut TermTable,
    graph: &mut Graph,
) -> Result<u64, ReadError> {
    let source = source.as_bytes();
    read(alloc, format, "http://localhost/", source, terms, graph)?;
    Ok(graph.len())
}

/// How many triples data are, over an empty table and graph, or why they are refused.
fn count(alloc: Global, format: Format, source: &str) -> Result<u64, ReadError> {
    let mut terms = TermTable::new(alloc);
    let mut graph = Graph::new(alloc);
    loaded(alloc, format, source, &mut terms, &mut graph)
}

/// Appends the part so many times.
fn push_times(text: &mut String, part: &str, times: u32) -> Result<(), AllocError> {
    for _ in 0..times {
        text.push_str(part)?;
    }
    Ok(())
}

/// A text, and a part of it so many times between.
pub fn repeated(
    alloc: Global,
    front: &str,
    part: &str,
    times: u32,
    back: &str,
) -> Result<String, AllocError> {
    let mut text = String::from_str(alloc, front)?;
    push_times(&mut text, part, times)?;
    text.push_str(back)?;
    Ok(text)
}

/// A collection, a list of objects, and a document of statements.
#[test]
fn large_documents_are_read(rt: HostRuntime) -> Result<(), Fail> {
    let alloc = rt.alloc();
    for (format, front, part, times, back, wanted) in [
        (
            Format::Turtle,
            "<s> <p> (",
            " 1",
            100_000,
            " ) .",
            Ok(200_001),
        ),
        (
            Format::Turtle,
            "<s> <p> 0",
            ", []",
            100_000,
            " .",
            Ok(100_001),
        ),
        (Format::Turtle, "", "[] <p> 1 .\n", 100_000, "", Ok(100_000)),
    ] {
        let text = repeated(alloc, front, part, times, back)?;
        assert_eq!(rt; count(alloc, format, text.as_str()), wanted, "{part}");
    }
    Ok(())
}

/// How many triples a statement is whose object is a literal of so many bytes, or why it is refused.
fn count_of_literal(
    alloc: Global,
    format: Format,
    bytes: u32,
) -> Result<Result<u64, ReadError>, AllocError> {
    let text = repeated(alloc, "<a:s> <a:p> \"", "x", bytes, "\" .")?;
    Ok(count(alloc, format, text.as_str()))
}

/// A literal as long as it may be, and one of a byte more.
#[test]
fn the_longest_literal_is_read(rt: HostRuntime) -> Result<(), Fail> {
    for format in [Format::NTriples, Format::Turtle] {
        let within = count_of_literal(rt.alloc(), format, 16_777_216)?;
        assert_eq!(rt; within, Ok(1));
        let beyond = count_of_literal(rt.alloc(), format, 16_777_217)?;
        assert_eq!(rt; beyond, Err(ReadError::Long(12)));
    }
    Ok(())
}
