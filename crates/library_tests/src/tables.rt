//! Terms of a table by their texts.

use rdf_terms::reader::read_term;
use rdf_terms::table::TermTable;
use rdf_terms::terms::TermId;
use std::alloc::Global;
use std::test::Fail;

/// Puts the term of a text into the table, and gives its number.
pub fn put(alloc: Global, terms: &mut TermTable, text: &str) -> Result<TermId, Fail> {
    let Some(term) = read_term(alloc, text)? else {
        return Err("no term".into());
    };
    let id = terms.put(term)?;
    Ok(id)
}
