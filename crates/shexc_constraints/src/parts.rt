//! IRIs, labels, literals, annotations and references (ShEx 2.1, section 6).

ghost use Rattle.std.specs.Prelude.{◌≡◌, IfOk, IsSome, string_bytes};
ghost use Rattle.iri_resolve.specs.Reference.{scheme_of};
ghost use Rattle.rdf_cursor.specs.Cursors.{ahead, source_in};
ghost use Rattle.rdf_cursor.specs.Readers.{one};
ghost use Rattle.schema_documents.specs.Tree.{expr_of};
ghost use Rattle.term_tokens.specs.Scopes.{scope_in};
ghost use Rattle.shexc_constraints.specs.declared.faults.Fault.TheVariants.{Syntax};
ghost use Rattle.shexc_constraints.specs.Meanings.{iri_ref_of, at_name_of, label_of, string_of, tagged_of, shorthand_of};
ghost use Rattle.shexc_constraints.specs.Reading.{iri, predicate, label, datatyped, suffix, literal, object, annotation, annotations, notes, reference};
ghost use Rattle.shexc_constraints.specs.Stops.{Gives};

use crate::classes::at_iri;
use crate::faults::Stop;
use crate::tokens::take;
use rdf_cursor::{Cursor, Symbol};
use rdf_terms::terms::{Literal, Term};
use rdf_terms::text::Text;
use rdf_terms::vocabulary::RDF_TYPE;
use schema_documents::{DocExpr, Label};
use term_tokens::Names;
use term_tokens::reading::{self, at_tag};

/// An IRIREF.
pub fn iri_ref(c: &mut Cursor<'_>, names: &Names<'_>) -> Result<String, Stop>
    ensures gives { Gives string_bytes result (ahead c.new) (one Syntax (iri_ref_of (scope_in names.now)) (ahead c.old)) }
    ensures scheme { IfOk result (λ iri. IsSome (scheme_of (string_bytes iri))) }
    ensures source { source_in c.new ≡ source_in c.old }
{
    Ok(reading::iri_ref(c, names, false)?)
}

/// An IRI.
#[tactic(auto, unfolding(crate::specs::Reading::iri))]
pub fn iri(c: &mut Cursor<'_>, names: &Names<'_>) -> Result<String, Stop>
    ensures gives { Gives string_bytes result (ahead c.new) (iri (scope_in names.now) (ahead c.old)) }
    ensures source { source_in c.new ≡ source_in c.old }
{
    Ok(reading::iri(c, names, false)?)
}

/// A predicate: an IRI or `a`.
#[tactic(auto, unfolding(crate::specs::Reading::predicate))]
pub fn predicate(c: &mut Cursor<'_>, names: &Names<'_>) -> Result<String, Stop>
    ensures gives { Gives string_bytes result (ahead c.new) (predicate (scope_in names.now) (ahead c.old)) }
    ensures source { source_in c.new ≡ source_in c.old }
{
    if c.is_at(Symbol::A) {
        take(c, Symbol::A)?;
        Ok(String::from_str(names.alloc, RDF_TYPE)?)
    } else {
        iri(c, names)
    }
}

/// The label of a blank node, without `_:`.
fn blank_label(c: &mut Cursor<'_>, names: &Names<'_>) -> Result<Text, Stop>
    ensures gives { Gives (λ x. x) result (ahead c.new) (one Syntax label_of (ahead c.old)) }
    ensures source { source_in c.new ≡ source_in c.old }
{
    Ok(reading::label(c, names.alloc, false)?)
}

/// A label.
#[tactic(auto, unfolding(crate::specs::Reading::label))]
pub fn label(c: &mut Cursor<'_>, names: &Names<'_>) -> Result<Label, Stop>
    ensures gives { Gives (λ x. x) result (ahead c.new) (label (scope_in names.now) (ahead c.old)) }
    ensures source { source_in c.new ≡ source_in c.old }
{
    if c.is_at(Symbol::BlankLabel) {
        let name = blank_label(c, names)?;
        Ok(Label::Blank(name))
    } else {
        let iri = iri(c, names)?;
        Ok(Label::Iri(Text::from_string(iri)))
    }
}

/// The lexical form of a string.
fn string(c: &mut Cursor<'_>, names: &Names<'_>) -> Result<Text, Stop>
    ensures gives { Gives (λ x. x) result (ahead c.new) (one Syntax string_of (ahead c.old)) }
    ensures source { source_in c.new ≡ source_in c.old }
{
    Ok(reading::string(c, names.alloc, false)?)
}

/// `^^` and a datatype behind a lexical form.
#[tactic(auto, unfolding(crate::specs::Reading::datatyped))]
fn datatyped(c: &mut Cursor<'_>, names: &Names<'_>, lex: Text) -> Result<Term, Stop>
    ensures gives { Gives (λ x. x) result (ahead c.new) (datatyped (scope_in names.now) lex (ahead c.old)) }
    ensures source { source_in c.new ≡ source_in c.old }
{
    Ok(reading::datatyped(c, names, lex, false)?)
}

/// A language tag behind a lexical form.
fn tagged(c: &mut Cursor<'_>, names: &Names<'_>, lex: Text) -> Result<Term, Stop>
    ensures gives { Gives (λ x. x) result (ahead c.new) (one Syntax (tagged_of lex) (ahead c.old)) }
    ensures source { source_in c.new ≡ source_in c.old }
{
    Ok(reading::tagged(c, names.alloc, lex)?)
}

/// What stands behind a lexical form: a tag, a datatype, or nothing.
#[tactic(auto, unfolding(crate::specs::Reading::suffix))]
fn suffix(c: &mut Cursor<'_>, names: &Names<'_>, lex: Text) -> Result<Term, Stop>
    ensures gives { Gives (λ x. x) result (ahead c.new) (suffix (scope_in names.now) lex (ahead c.old)) }
    ensures source { source_in c.new ≡ source_in c.old }
{
    if at_tag(c) {
        tagged(c, names, lex)
    } else if c.is_at(Symbol::Carets) {
        datatyped(c, names, lex)
    } else {
        Ok(Term::Lit(Literal::plain(names.alloc, lex)?))
    }
}

/// A number or a truth value.
fn shorthand(c: &mut Cursor<'_>, names: &Names<'_>) -> Result<Term, Stop>
    ensures gives { Gives (λ x. x) result (ahead c.new) (one Syntax shorthand_of (ahead c.old)) }
    ensures source { source_in c.new ≡ source_in c.old }
{
    Ok(reading::shorthand(c, names.alloc, false)?)
}

/// A literal.
#[tactic(auto, unfolding(crate::specs::Reading::literal))]
pub fn literal(c: &mut Cursor<'_>, names: &Names<'_>) -> Result<Term, Stop>
    ensures gives { Gives (λ x. x) result (ahead c.new) (literal (scope_in names.now) (ahead c.old)) }
    ensures source { source_in c.new ≡ source_in c.old }
{
    if c.is_at(Symbol::Str) {
        let lex = string(c, names)?;
        suffix(c, names, lex)
    } else {
        shorthand(c, names)
    }
}

/// An IRI or a literal.
#[tactic(auto, unfolding(crate::specs::Reading::object))]
pub fn object(c: &mut Cursor<'_>, names: &Names<'_>) -> Result<Term, Stop>
    ensures gives { Gives (λ x. x) result (ahead c.new) (object (scope_in names.now) (ahead c.old)) }
    ensures source { source_in c.new ≡ source_in c.old }
{
    if at_iri(c) {
        let iri = iri(c, names)?;
        Ok(Term::Iri(Text::from_string(iri)))
    } else {
        literal(c, names)
    }
}

/// An annotation, which is dropped.
#[tactic(auto, unfolding(crate::specs::Reading::annotation))]
fn annotation(c: &mut Cursor<'_>, names: &Names<'_>) -> Result<(), Stop>
    ensures gives { Gives (λ x. tt) result (ahead c.new) (annotation (scope_in names.now) (ahead c.old)) }
    ensures source { source_in c.new ≡ source_in c.old }
{
    take(c, Symbol::Slashes)?;
    drop(predicate(c, names)?);
    drop(object(c, names)?);
    Ok(())
}

/// Annotations.
#[tactic(auto, unfolding(crate::specs::Reading::annotations))]
pub fn annotations(c: &mut Cursor<'_>, names: &Names<'_>) -> Result<(), Stop>
    ensures gives { Gives (λ x. tt) result (ahead c.new) (annotations (scope_in names.now) (ahead c.old)) }
    ensures source { source_in c.new ≡ source_in c.old }
{
    while c.is_at(Symbol::Slashes) {
        annotation(c, names)?;
    }
    Ok(())
}

/// Annotations, where they may stand.
#[tactic(auto, unfolding(crate::specs::Reading::notes))]
pub fn notes(c: &mut Cursor<'_>, names: &Names<'_>, whole: bool) -> Result<(), Stop>
    ensures gives { Gives (λ x. tt) result (ahead c.new) (notes (scope_in names.now) whole (ahead c.old)) }
    ensures source { source_in c.new ≡ source_in c.old }
{
    if whole { annotations(c, names) } else { Ok(()) }
}

/// A prefixed name with `@` in front of it.
fn at_name(c: &mut Cursor<'_>, names: &Names<'_>) -> Result<String, Stop>
    ensures gives { Gives string_bytes result (ahead c.new) (one Syntax (at_name_of (scope_in names.now)) (ahead c.old)) }
    ensures source { source_in c.new ≡ source_in c.old }
{
    Ok(reading::at_name(c, names, false)?)
}

/// A reference.
#[tactic(auto, unfolding(crate::specs::Reading::reference))]
pub fn reference(c: &mut Cursor<'_>, names: &Names<'_>) -> Result<DocExpr, Stop>
    ensures gives { Gives expr_of result (ahead c.new) (reference (scope_in names.now) (ahead c.old)) }
    ensures source { source_in c.new ≡ source_in c.old }
{
    if c.is_at(Symbol::AtName) {
        let iri = at_name(c, names)?;
        Ok(DocExpr::Ref(Label::Iri(Text::from_string(iri))))
    } else {
        take(c, Symbol::At)?;
        let label = label(c, names)?;
        Ok(DocExpr::Ref(label))
    }
}
