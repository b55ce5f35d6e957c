//! What the text of an explanation is made with.

use crate::names::Names;
use rdf_terms::table::TermTable;
use schema_tree::schema::Schema;
use std::alloc::Global;

/// What the text of an explanation is made with.
#[derive(Clone, Copy)]
pub struct Setting<'a> {
    /// Where memory is taken from.
    pub alloc: Global,
    /// The schema.
    pub schema: &'a Schema,
    /// The terms.
    pub terms: &'a TermTable,
    /// What the expressions and Shapes of the schema are called.
    pub names: &'a Names,
    /// How many triples, lines or reasons are printed at most in one place of a block.
    pub limit: usize,
}
