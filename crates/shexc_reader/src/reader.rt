//! The reader of a whole text.

ghost use Rattle.std.specs.Prelude.{◌≡◌, ◌⊎◌, codes, Err, IfOk, IfErr, IsSome};
ghost use Rattle.std.specs.Str.{IsUtf8, chars};
ghost use Rattle.iri_resolve.specs.Reference.{scheme_of};
ghost use Rattle.rdf_cursor.specs.Cursors.{ahead};
ghost use Rattle.rdf_lex.specs.Prefixes.{base_of};
ghost use Rattle.schema_documents.specs.declared.error.SchemaError.TheVariants.{Form, Memory, NotUtf8};
ghost use Rattle.shexc_reader.specs.Documents.{IsRead, ReadsAll};
ghost use Rattle.shexc_reader.specs.Refusals.{Explains, IsErrorOf, refusal_at};

use crate::state::{Parsed, State};
use crate::statements::document;
use rdf_cursor::{Cursor, Symbol};
use rdf_lex::Mode;
use rdf_terms::text::Text;
use schema_documents::SchemaError;
use shexc_constraints::{Fault, Stop};
use std::alloc::Global;

/// How many brackets are open at one place at most.
const MAX_DEPTH: u32 = 64;

/// The refusal of a word that is left out.
fn left_out(alloc: Global, word: &str) -> SchemaError
    ensures { (result ≡ Memory) ⊎ (result ≡ Form (chars word.now)) }
{
    match Text::from_str(alloc, word) {
        Ok(word) => SchemaError::Form(word),
        Err(_) => SchemaError::Memory,
    }
}

/// The refusal of the next token where no document has it: an action and words that are left out have refusals of their own.
fn refusal(alloc: Global, c: &Cursor<'_>, at: u64) -> SchemaError
    ensures { (result ≡ Memory) ⊎ (result ≡ refusal_at (ahead c.now) at) }
{
    if c.is_at(Symbol::Percent) {
        SchemaError::Action
    } else if c.is_at(Symbol::Abstract) {
        left_out(alloc, "ABSTRACT")
    } else if c.is_at(Symbol::Extends) {
        left_out(alloc, "EXTENDS")
    } else if c.is_at(Symbol::Restricts) {
        left_out(alloc, "RESTRICTS")
    } else {
        SchemaError::Syntax(at)
    }
}

/// The answer for a stop at a place.
fn error(alloc: Global, stop: Stop, c: &Cursor<'_>, at: u64) -> SchemaError
    ensures { IsErrorOf stop (ahead c.now) at result }
{
    match stop {
        Stop::Memory => SchemaError::Memory,
        Stop::Fault(Fault::Syntax) => refusal(alloc, c, at),
        Stop::Fault(Fault::External) => SchemaError::External,
        Stop::Fault(Fault::Deep) => SchemaError::Deep,
        Stop::Fault(Fault::Prefix) => SchemaError::Prefix(at),
        Stop::Fault(Fault::FloatFacet) => SchemaError::FloatFacet,
        Stop::Fault(Fault::FacetNumber) => SchemaError::FacetNumber,
        Stop::Fault(Fault::Pattern(error)) => SchemaError::Pattern(error),
    }
}

/// Reads a text.
fn read_text(alloc: Global, text: &str, base: &str) -> Result<Parsed, SchemaError>
    requires { IsSome (scheme_of base.now) }
    ensures found { IfOk result (IsRead base.now text.now) }
    ensures complete { ReadsAll base.now text.now result }
    ensures refused { IfErr result (λ e. Explains base.now e text.now) }
    ensures scheme { IfOk result (λ p. IsSome (scheme_of (base_of p.prefixes))) }
{
    let Ok(mut state) = State::new(alloc, base) else {
        return Err(SchemaError::Memory);
    };
    let mut c = Cursor::new(text, Mode::Schema);
    match document(&mut c, &mut state, MAX_DEPTH) {
        Ok(()) => Ok(state.into_parsed()),
        Err(stop) => {
            drop(state);
            Err(error(alloc, stop, &c, c.place()))
        }
    }
}

/// Reads a document in ShExC. References are resolved against the base in force, at first `base`, which has a scheme.
///
/// It fails as `Memory`, as `NotUtf8` exactly where the bytes are not UTF-8, and else at the first token that is at fault:
///
/// - `Syntax`: no document goes on as the bytes do from that place on, of any depth and with patterns of any size, and nothing that
///   has a refusal of its own stands there.
/// - `Action`: the same at a `%`, with which a semantic action begins.
/// - `Form`: the same at ABSTRACT, EXTENDS or RESTRICTS, and its name is that word in capitals.
/// - `External`: EXTERNAL stands behind the label of a declaration, in the place of its shape expression.
/// - `Deep`: a `(` or a `{` opens where 64 of them are open.
/// - `Prefix`: a name has a prefix that is not declared before it.
/// - `FloatFacet`: the number of a range has an exponent, or a facet on numbers stands beside xsd:float or xsd:double.
/// - `FacetNumber`: the whole number of a facet is not from 0 to 4,294,967,295, or the value of a range facet is no decimal.
/// - `Pattern`: a pattern has a flag other than `s`, `i` and `q`, is no regular expression, or is too large.
pub fn read(alloc: Global, source: &[u8], base: &str) -> Result<Parsed, SchemaError>
    requires { IsSome (scheme_of base.now) }

    // What was read is what the whole bytes spell.
    ensures found { IfOk result (IsRead base.now source.now) }

    // What the bytes spell is read.
    ensures complete { ReadsAll base.now source.now result }

    // What is refused has its cause in the bytes.
    ensures refused { IfErr result (λ e. Explains base.now e source.now) }
    ensures not_utf8 { ¬ IsUtf8 source.now → result ≡ Err NotUtf8 }

    // The last base has a scheme.
    ensures scheme { IfOk result (λ p. IsSome (scheme_of (base_of p.prefixes))) }
{
    match std::str::from_utf8(source) {
        Ok(text) => read_text(alloc, text, base),
        Err(_) => Err(SchemaError::NotUtf8),
    }
}
