//! Laws of the documents that bytes spell: the contract of each function is the law, and it does nothing.

ghost use Rattle.shex_tools.specs.Laws.{DocumentsAreExpressible, DocumentsAreOne};

use conversion_laws::laws::compact_are_expressible;
use shexj_writer::laws::read_are_expressible;

/// In one format and under one base, bytes spell one document at most.
pub fn documents_are_one()
    ensures { DocumentsAreOne }
{
    shexc_reader::documents_are_one();
    shexj_reader::laws::documents_are_one();
}

/// Each document that bytes spell, under a base that has a scheme, has a form in ShExJ.
pub fn documents_are_expressible()
    ensures { DocumentsAreExpressible }
{
    compact_are_expressible();
    read_are_expressible();
}
