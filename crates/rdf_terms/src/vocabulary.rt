//! The IRIs of RDF and of XML Schema datatypes that readers and node constraints name.

/// The datatype of language-tagged strings (RDF 1.1 Concepts, section 3.3).
pub const RDF_LANG_STRING: &str = "http://www.w3.org/1999/02/22-rdf-syntax-ns#langString";

/// What `a` stands for (RDF 1.1 Turtle, section 2.4).
pub const RDF_TYPE: &str = "http://www.w3.org/1999/02/22-rdf-syntax-ns#type";

/// The first member of a collection (RDF 1.1 Turtle, section 2.8).
pub const RDF_FIRST: &str = "http://www.w3.org/1999/02/22-rdf-syntax-ns#first";

/// The other members of a collection (RDF 1.1 Turtle, section 2.8).
pub const RDF_REST: &str = "http://www.w3.org/1999/02/22-rdf-syntax-ns#rest";

/// The collection without members (RDF 1.1 Turtle, section 2.8).
pub const RDF_NIL: &str = "http://www.w3.org/1999/02/22-rdf-syntax-ns#nil";

/// What the IRI of each built-in datatype begins with (XML Schema Part 2, version 1.1, section 3).
pub const XSD_NAMESPACE: &str = "http://www.w3.org/2001/XMLSchema#";

/// The datatype of plain strings (RDF 1.1 Concepts, section 3.3).
pub const XSD_STRING: &str = "http://www.w3.org/2001/XMLSchema#string";

/// Whole numbers (XML Schema Part 2, version 1.1, section 3.4.13).
pub const XSD_INTEGER: &str = "http://www.w3.org/2001/XMLSchema#integer";

/// Decimal numbers (XML Schema Part 2, version 1.1, section 3.3.3).
pub const XSD_DECIMAL: &str = "http://www.w3.org/2001/XMLSchema#decimal";

/// Floating-point numbers of 32 bits (XML Schema Part 2, version 1.1, section 3.3.4).
pub const XSD_FLOAT: &str = "http://www.w3.org/2001/XMLSchema#float";

/// Floating-point numbers of 64 bits (XML Schema Part 2, version 1.1, section 3.3.5).
pub const XSD_DOUBLE: &str = "http://www.w3.org/2001/XMLSchema#double";

/// Truth values (XML Schema Part 2, version 1.1, section 3.3.2).
pub const XSD_BOOLEAN: &str = "http://www.w3.org/2001/XMLSchema#boolean";
