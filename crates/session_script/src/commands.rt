//! Commands of a script as values.

use graph_index::loading::TermTriple;
use rdf_terms::terms::Term;
use schema_tree::schema::Target;

/// What a line of a script says (own).
#[derive(Debug, Drop)]
pub enum Command {
    /// This triple is added to the graph.
    Add(TermTriple),
    /// This triple is removed from the graph.
    Remove(TermTriple),
    /// Whether this node satisfies this target is asked.
    Ask(Term, Target),
}
