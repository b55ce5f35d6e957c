//! Value sets (ShEx 2.1, section 5.4, Values Constraint).

ghost use Rattle.std.specs.Prelude.{◌≡◌, IfOk, None, []};
ghost use Rattle.rdf_cursor.specs.Ahead.{next_is};
ghost use Rattle.rdf_cursor.specs.Cursors.{ahead, source_in};
ghost use Rattle.rdf_cursor.specs.Readers.{one, loop};
ghost use Rattle.rdf_cursor.specs.Symbols.{is_other};
ghost use Rattle.rdf_cursor.specs.declared.symbols.Symbol.TheVariants.{CloseBracket};
ghost use Rattle.term_tokens.specs.Scopes.{scope_in};
ghost use Rattle.shexc_constraints.specs.declared.faults.Fault.TheVariants.{Syntax};
ghost use Rattle.shexc_constraints.specs.Meanings.{tag_of};
ghost use Rattle.shexc_constraints.specs.Reading.{stem_or_exact, exclusion, exclusions, stemmed, iri_value, literal_value, tag_value, any_tag, excluded, wildcard, value, value_behind, value_set};
ghost use Rattle.shexc_constraints.specs.Stops.{Gives};
ghost use Rattle.shexc_constraints.specs.TextKinds.{texts, stem_of, range_of};
ghost use Rattle.shexc_constraints.specs.Values.{form_of, stem_or_range};

use crate::classes::at_iri;
use crate::faults::{Fault, Stop};
use crate::parts::{iri, literal};
use crate::terms;
use crate::tokens::take;
use rdf_cursor::{Cursor, Symbol};
use rdf_terms::items::Items;
use rdf_terms::terms::Term;
use rdf_terms::text::Text;
use std::alloc::{AllocError, Global};
use term_tokens::Names;
use term_tokens::reading::at_tag;
use value_sets::{Except, Value};

/// What the exclusions of a range are texts of.
#[derive(Clone, Copy, Debug, PartialEq, Eq)]
pub enum TextKind {
    /// IRIs.
    Iri,
    /// Literals, by their lexical forms.
    Literal,
    /// Language tags.
    Tag,
}

/// The empty text.
fn empty(alloc: Global) -> Result<Text, AllocError>
    ensures { IfOk result (λ t. t ≡ []) }
{
    Text::from_str(alloc, "")
}

/// The lexical form of a literal, and the empty text for another term.
fn form(alloc: Global, term: &Term) -> Result<Text, AllocError>
    ensures { IfOk result (λ t. t ≡ form_of term.now) }
{
    match term {
        Term::Lit(literal) => literal.lex().try_clone(alloc),
        Term::Iri(_) => Text::from_str(alloc, ""),
        Term::Blank(_) => Text::from_str(alloc, ""),
    }
}

/// The lexical form of a literal that is then dropped, and the empty text for another term.
fn into_form(alloc: Global, term: Term) -> Result<Text, AllocError>
    ensures { IfOk result (λ t. t ≡ form_of term) }
{
    let form = form(alloc, &term);
    drop(term);
    form
}

/// The stem of a text.
fn stem(kind: TextKind, text: Text) -> Value
    ensures { result ≡ stem_of kind text }
{
    match kind {
        TextKind::Iri => Value::IriStem(text),
        TextKind::Literal => Value::LitStem(text),
        TextKind::Tag => Value::LangStem(text),
    }
}

/// A range.
fn range(kind: TextKind, stem: Option<Text>, xs: Vec<Except>) -> Value
    ensures { result ≡ range_of kind stem xs.items }
{
    match kind {
        TextKind::Iri => Value::IriRange(stem, Items::of(xs)),
        TextKind::Literal => Value::LitRange(stem, Items::of(xs)),
        TextKind::Tag => Value::LangRange(stem, Items::of(xs)),
    }
}

/// The stem of a text, or its range where there are exclusions.
fn stem_or_range(kind: TextKind, text: Text, xs: Vec<Except>) -> Value
    ensures { result ≡ stem_or_range (stem_of kind) (range_of kind) text xs.items }
{
    if xs.as_slice().is_empty() {
        stem(kind, text)
    } else {
        range(kind, Some(text), xs)
    }
}

/// Whether a token is next that does not close a value set.
#[tactic(auto, unfolding(rdf_cursor::specs::Symbols::is_other))]
fn at_value(c: &Cursor<'_>) -> bool
    ensures { result ≡ next_is (is_other CloseBracket) (ahead c.now) }
{
    c.has_next() && !c.is_at(Symbol::CloseBracket)
}

/// A language tag.
fn tag(c: &mut Cursor<'_>, names: &Names<'_>) -> Result<Text, Stop>
    ensures gives { Gives (λ x. x) result (ahead c.new) (one Syntax tag_of (ahead c.old)) }
    ensures source { source_in c.new ≡ source_in c.old }
{
    let Some(token) = c.peek() else {
        return Err(Stop::Fault(Fault::Syntax));
    };
    let value = terms::tag(names.alloc, token)?;
    c.advance();
    Ok(value)
}

/// A text of this kind.
#[tactic(auto, unfolding(crate::specs::Reading::iri_text, crate::specs::Reading::lexical_form, crate::specs::Reading::tag))]
fn text(c: &mut Cursor<'_>, names: &Names<'_>, kind: TextKind) -> Result<Text, Stop>
    ensures gives { Gives (λ x. x) result (ahead c.new) (texts (scope_in names.now) kind (ahead c.old)) }
    ensures source { source_in c.new ≡ source_in c.old }
{
    match kind {
        TextKind::Iri => {
            let iri = iri(c, names)?;
            Ok(Text::from_string(iri))
        }
        TextKind::Literal => {
            let term = literal(c, names)?;
            Ok(into_form(names.alloc, term)?)
        }
        TextKind::Tag => tag(c, names),
    }
}

/// A text, perhaps as a stem, that goes behind others.
#[tactic(auto, unfolding(crate::specs::Reading::stem_or_exact))]
fn stem_or_exact(
    c: &mut Cursor<'_>,
    names: &Names<'_>,
    kind: TextKind,
    xs: &mut Vec<Except>,
) -> Result<(), Stop>
    ensures gives { Gives (λ x. xs.new.items) result (ahead c.new) (stem_or_exact (scope_in names.now) (texts (scope_in names.now) kind) xs.old.items (ahead c.old)) }
    ensures source { source_in c.new ≡ source_in c.old }
{
    let text = text(c, names, kind)?;
    if c.is_at(Symbol::Tilde) {
        take(c, Symbol::Tilde)?;
        xs.push(Except::Stem(text))?;
    } else {
        xs.push(Except::Exact(text))?;
    }
    Ok(())
}

/// An exclusion.
#[tactic(auto, unfolding(crate::specs::Reading::exclusion))]
fn exclusion(
    c: &mut Cursor<'_>,
    names: &Names<'_>,
    kind: TextKind,
    xs: &mut Vec<Except>,
) -> Result<(), Stop>
    ensures gives { Gives (λ x. xs.new.items) result (ahead c.new) (exclusion (scope_in names.now) (texts (scope_in names.now) kind) xs.old.items (ahead c.old)) }
    ensures source { source_in c.new ≡ source_in c.old }
{
    take(c, Symbol::Minus)?;
    stem_or_exact(c, names, kind, xs)
}

/// All further exclusions.
#[tactic(auto, unfolding(crate::specs::Reading::exclusions))]
fn exclusions(
    c: &mut Cursor<'_>,
    names: &Names<'_>,
    kind: TextKind,
    xs: &mut Vec<Except>,
) -> Result<(), Stop>
    ensures gives { Gives (λ x. xs.new.items) result (ahead c.new) (exclusions (scope_in names.now) (texts (scope_in names.now) kind) xs.old.items (ahead c.old)) }
    ensures source { source_in c.new ≡ source_in c.old }
{
    while c.is_at(Symbol::Minus) {
        exclusion(c, names, kind, xs)?;
    }
    Ok(())
}

/// Behind a text `~` and exclusions.
#[tactic(auto, unfolding(crate::specs::Reading::stemmed))]
fn stemmed(c: &mut Cursor<'_>, names: &Names<'_>, kind: TextKind, text: Text) -> Result<Value, Stop>
    ensures gives { Gives (λ x. x) result (ahead c.new) (stemmed (scope_in names.now) (texts (scope_in names.now) kind) (stem_of kind) (range_of kind) text (ahead c.old)) }
    ensures source { source_in c.new ≡ source_in c.old }
{
    take(c, Symbol::Tilde)?;
    let mut xs = Vec::new(names.alloc);
    exclusions(c, names, kind, &mut xs)?;
    Ok(stem_or_range(kind, text, xs))
}

/// A value that begins with an IRI.
#[tactic(auto, unfolding(crate::specs::Reading::iri_value))]
fn iri_value(c: &mut Cursor<'_>, names: &Names<'_>) -> Result<Value, Stop>
    ensures gives { Gives (λ x. x) result (ahead c.new) (iri_value (scope_in names.now) (ahead c.old)) }
    ensures source { source_in c.new ≡ source_in c.old }
{
    let iri = Text::from_string(iri(c, names)?);
    if c.is_at(Symbol::Tilde) {
        stemmed(c, names, TextKind::Iri, iri)
    } else {
        Ok(Value::Term(Term::Iri(iri)))
    }
}

/// A value that begins with a literal.
#[tactic(auto, unfolding(crate::specs::Reading::literal_value))]
fn literal_value(c: &mut Cursor<'_>, names: &Names<'_>) -> Result<Value, Stop>
    ensures gives { Gives (λ x. x) result (ahead c.new) (literal_value (scope_in names.now) (ahead c.old)) }
    ensures source { source_in c.new ≡ source_in c.old }
{
    let term = literal(c, names)?;
    if c.is_at(Symbol::Tilde) {
        let text = into_form(names.alloc, term)?;
        stemmed(c, names, TextKind::Literal, text)
    } else {
        Ok(Value::Term(term))
    }
}

/// A value that begins with a language tag.
#[tactic(auto, unfolding(crate::specs::Reading::tag_value, crate::specs::Reading::tag))]
fn tag_value(c: &mut Cursor<'_>, names: &Names<'_>) -> Result<Value, Stop>
    ensures gives { Gives (λ x. x) result (ahead c.new) (tag_value (scope_in names.now) (ahead c.old)) }
    ensures source { source_in c.new ≡ source_in c.old }
{
    let text = tag(c, names)?;
    if c.is_at(Symbol::Tilde) {
        stemmed(c, names, TextKind::Tag, text)
    } else {
        Ok(Value::Lang(text))
    }
}

/// `@` and `~`: the stem of all tags.
#[tactic(auto, unfolding(crate::specs::Reading::any_tag))]
fn any_tag(c: &mut Cursor<'_>, names: &Names<'_>) -> Result<Value, Stop>
    ensures gives { Gives (λ x. x) result (ahead c.new) (any_tag (scope_in names.now) (ahead c.old)) }
    ensures source { source_in c.new ≡ source_in c.old }
{
    take(c, Symbol::At)?;
    let text = empty(names.alloc)?;
    stemmed(c, names, TextKind::Tag, text)
}

/// Behind `.` and the first `-`: exclusions of one kind.
#[tactic(auto, unfolding(crate::specs::Reading::excluded))]
fn excluded(c: &mut Cursor<'_>, names: &Names<'_>, kind: TextKind) -> Result<Value, Stop>
    ensures gives { Gives (λ x. x) result (ahead c.new) (excluded (scope_in names.now) (texts (scope_in names.now) kind) (range_of kind) (ahead c.old)) }
    ensures source { source_in c.new ≡ source_in c.old }
{
    let mut xs = Vec::new(names.alloc);
    stem_or_exact(c, names, kind, &mut xs)?;
    exclusions(c, names, kind, &mut xs)?;
    Ok(range(kind, None, xs))
}

/// `.` and exclusions.
#[tactic(auto, unfolding(crate::specs::Reading::wildcard))]
fn wildcard(c: &mut Cursor<'_>, names: &Names<'_>) -> Result<Value, Stop>
    ensures gives { Gives (λ x. x) result (ahead c.new) (wildcard (scope_in names.now) (ahead c.old)) }
    ensures source { source_in c.new ≡ source_in c.old }
{
    take(c, Symbol::Dot)?;
    take(c, Symbol::Minus)?;
    if at_iri(c) {
        excluded(c, names, TextKind::Iri)
    } else if at_tag(c) {
        excluded(c, names, TextKind::Tag)
    } else {
        excluded(c, names, TextKind::Literal)
    }
}

/// A value.
#[tactic(auto, unfolding(crate::specs::Reading::value))]
fn value(c: &mut Cursor<'_>, names: &Names<'_>) -> Result<Value, Stop>
    ensures gives { Gives (λ x. x) result (ahead c.new) (value (scope_in names.now) (ahead c.old)) }
    ensures source { source_in c.new ≡ source_in c.old }
{
    if c.is_at(Symbol::Dot) {
        wildcard(c, names)
    } else if at_iri(c) {
        iri_value(c, names)
    } else if at_tag(c) {
        tag_value(c, names)
    } else if c.is_at(Symbol::At) {
        any_tag(c, names)
    } else {
        literal_value(c, names)
    }
}

/// A value that goes behind others.
#[tactic(auto, unfolding(crate::specs::Reading::value_behind))]
fn value_behind(c: &mut Cursor<'_>, names: &Names<'_>, xs: &mut Vec<Value>) -> Result<(), Stop>
    ensures gives { Gives (λ x. xs.new.items) result (ahead c.new) (value_behind (scope_in names.now) xs.old.items (ahead c.old)) }
    ensures source { source_in c.new ≡ source_in c.old }
{
    let value = value(c, names)?;
    xs.push(value)?;
    Ok(())
}

/// All values.
fn values(c: &mut Cursor<'_>, names: &Names<'_>, xs: &mut Vec<Value>) -> Result<(), Stop>
    ensures gives { Gives (λ x. xs.new.items) result (ahead c.new) (loop (is_other CloseBracket) (value_behind (scope_in names.now)) xs.old.items (ahead c.old)) }
    ensures source { source_in c.new ≡ source_in c.old }
{
    while at_value(c) {
        value_behind(c, names, xs)?;
    }
    Ok(())
}

/// A value set.
#[tactic(auto, unfolding(crate::specs::Reading::value_set))]
pub fn value_set(c: &mut Cursor<'_>, names: &Names<'_>) -> Result<Vec<Value>, Stop>
    ensures gives { Gives (λ xs. xs.items) result (ahead c.new) (value_set (scope_in names.now) (ahead c.old)) }
    ensures source { source_in c.new ≡ source_in c.old }
{
    take(c, Symbol::OpenBracket)?;
    let mut xs = Vec::new(names.alloc);
    values(c, names, &mut xs)?;
    take(c, Symbol::CloseBracket)?;
    Ok(xs)
}
