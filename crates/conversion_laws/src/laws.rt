//! The laws. Each function claims one of them by its contract, and does nothing when called.

ghost use Rattle.conversion_laws.specs.Laws.{CompactAreExpressible, CompactAreHeld, ConversionsAreRead, SchemasAreExpressible};

/// Each document that bytes spell in ShExC, under a base that has a scheme, has a form in ShExJ.
pub fn compact_are_expressible()
    ensures { CompactAreExpressible }
{}

/// Each document that bytes are in ShExC or in ShExJ has a form in ShExJ.
pub fn schemas_are_expressible()
    ensures { SchemasAreExpressible }
{
    shexj_writer::laws::read_are_expressible();
}

/// The parts of each document that bytes spell in ShExC, under a base of UTF-8, are those that the types of a program allow.
pub fn compact_are_held()
    ensures { CompactAreHeld }
{}

/// What is written of a document that bytes are in ShExC or in ShExJ is read back as the document in plain form, where each
/// of its range facets is a whole number and it is not too deep.
pub fn conversions_are_read()
    ensures { ConversionsAreRead }
{
    shexj_writer::laws::read_are_expressible();
    shexj_writer::laws::read_are_held();
    shexj_writer::laws::written_are_read();
}
