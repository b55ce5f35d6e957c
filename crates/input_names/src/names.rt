//! The checks of names and bases.

ghost use Rattle.std.specs.Prelude.{◌≡◌, nat_eq};
ghost use Rattle.std.specs.List.{ends_with, list_all};
ghost use Rattle.std.specs.Str.{chars};
ghost use Rattle.rdf_lex.specs.Characters.{has, iri_char};
ghost use Rattle.input_names.specs.Names.{is_base, is_data_name, is_schema_name};

use iri_resolve::split;
use rdf_lex::is_iri_char;

/// Whether a name ends in this.
fn ends_in(name: &str, ending: &str) -> bool
    ensures { result ≡ ends_with nat_eq name.now ending.now }
{
    name.ends_with(ending)
}

/// Whether the name of a schema file says how it is read: it ends in `.shex` (ShExC), `.json` or `.shexj` (ShExJ).
#[tactic(auto, unfolding(crate::specs::Names::is_schema_name))]
pub fn is_schema_name(name: &str) -> bool
    ensures { result ≡ is_schema_name name.now }
{
    ends_in(name, ".shex") || ends_in(name, ".json") || ends_in(name, ".shexj")
}

/// Whether the name of a data file says how it is read: it ends in `.nt` (N-Triples) or `.ttl` (Turtle).
#[tactic(auto, unfolding(crate::specs::Names::is_data_name))]
pub fn is_data_name(name: &str) -> bool
    ensures { result ≡ is_data_name name.now }
{
    ends_in(name, ".nt") || ends_in(name, ".ttl")
}

/// Whether each character may stand in an IRI.
fn has_iri_chars(text: &str) -> bool
    ensures { result ≡ list_all (has iri_char) (chars text.now) }
{
    text.chars().all(|c| is_iri_char(c))
}

/// Whether references can be resolved against the text: it has a scheme (RFC 3986, section 3.1), and only characters that an IRI
/// may have unescaped (RDF 1.1 Turtle, section 6.5).
#[tactic(auto, unfolding(crate::specs::Names::is_base))]
pub fn is_base(text: &str) -> bool
    ensures { result ≡ is_base text.now }
{
    split(text).scheme.is_some() && has_iri_chars(text)
}
