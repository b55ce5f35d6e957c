//! The rules of the grammar (ShapeMap Structure and Language, section 3.1). Numbers in brackets are those of rules of RDF
//! 1.1 Turtle, section 6.5.

ghost use Rattle.std.specs.Prelude.{◌≡◌, string_bytes};
ghost use Rattle.rdf_cursor.specs.Ahead.{next_is};
ghost use Rattle.rdf_cursor.specs.Readers.{one, loop};
ghost use Rattle.rdf_cursor.specs.declared.stops.Fault.TheVariants.{Syntax};
ghost use Rattle.rdf_cursor.specs.declared.symbols.Symbol.TheVariants.{Comma};
ghost use Rattle.rdf_cursor.specs.Stops.{Gives};
ghost use Rattle.rdf_cursor.specs.Cursors.{ahead, source_in};
ghost use Rattle.rdf_cursor.specs.Lent.{spelled};
ghost use Rattle.term_tokens.specs.Scopes.{scope_in};
ghost use Rattle.shape_map.specs.Meanings.{node_tags, node_tagged_of, blank_of, blank_target_of};
ghost use Rattle.shape_map.specs.Reading.{iri, literal, resource, node, verb, or_any, of_subjects, of_objects, pattern, triples, selector, target, wish, asked, item, added, behind, all_items, shape_map};
ghost use Rattle.rdf_cursor.specs.Symbols.{is_symbol, is_among};

use crate::items::{Focus, Item, Selector, TriplePattern};
use rdf_cursor::{Cursor, Fault, Stop, Symbol};
use rdf_lex::Token;
use rdf_terms::terms::{Literal, Term};
use rdf_terms::text::Text;
use rdf_terms::vocabulary::RDF_TYPE;
use rdf_terms::written::name_from;
use schema_tree::labels::Label;
use schema_tree::schema::Target;
use std::alloc::Global;
use term_tokens::{Names, reading, terms};

/// An IRI [135s].
#[tactic(auto, unfolding(crate::specs::Reading::iri))]
fn iri(c: &mut Cursor<'_>, names: &Names<'_>) -> Result<String, Stop>
    ensures gives { Gives string_bytes result (ahead c.new) (iri (scope_in names.now) (ahead c.old)) }
    ensures source { source_in c.new ≡ source_in c.old }
{
    reading::iri(c, names, false)
}

/// A blank node by its printed name [141s].
#[tactic(auto, unfolding(crate::specs::Meanings::blank_of))]
fn blank(c: &mut Cursor<'_>, alloc: Global) -> Result<Term, Stop>
    ensures gives { Gives (λ x. x) result (ahead c.new) (one Syntax blank_of (ahead c.old)) }
    ensures source { source_in c.new ≡ source_in c.old }
{
    let label = reading::label(c, alloc, false)?;
    let name = name_from(alloc, label.as_str())?;
    Ok(Term::Blank(name))
}

/// A target that is the label of a blank node.
#[tactic(auto, unfolding(crate::specs::Meanings::blank_target_of))]
fn blank_target(c: &mut Cursor<'_>, alloc: Global) -> Result<Target, Stop>
    ensures gives { Gives (λ x. x) result (ahead c.new) (one Syntax blank_target_of (ahead c.old)) }
    ensures source { source_in c.new ≡ source_in c.old }
{
    let label = reading::label(c, alloc, false)?;
    Ok(Target::Label(Label::Blank(label)))
}

/// Whether a token is a language tag: `@START` is a target and none.
#[tactic(auto, unfolding(rdf_cursor::specs::Symbols::is_among))]
fn is_node_tag(token: Token<'_>) -> bool
    ensures { result ≡ is_among node_tags (spelled token.entry) }
{
    let symbol = Symbol::of(token);
    matches!(symbol, Symbol::LangTag | Symbol::AtPrefix | Symbol::AtBase)
}

/// Whether a language tag is next.
#[tactic(auto, unfolding(rdf_cursor::specs::Symbols::is_among))]
fn at_node_tag(c: &Cursor<'_>) -> bool
    ensures { result ≡ next_is (is_among node_tags) (ahead c.now) }
{
    match c.peek() {
        Some(token) => is_node_tag(token),
        None => false,
    }
}

/// A language tag behind a lexical form.
#[tactic(auto, unfolding(crate::specs::Meanings::node_tagged_of))]
fn tagged(c: &mut Cursor<'_>, alloc: Global, lex: Text) -> Result<Term, Stop>
    ensures gives { Gives (λ x. x) result (ahead c.new) (one Syntax (node_tagged_of lex) (ahead c.old)) }
    ensures source { source_in c.new ≡ source_in c.old }
{
    let Some(token) = c.peek() else {
        return Err(Stop::Fault(Fault::Syntax));
    };
    if !is_node_tag(token) {
        return Err(Stop::Fault(Fault::Syntax));
    }
    let value = terms::tagged(alloc, lex, token)?;
    c.advance();
    Ok(value)
}

/// A literal that begins with a string [128s].
#[tactic(auto, unfolding(crate::specs::Reading::literal))]
fn literal(c: &mut Cursor<'_>, names: &Names<'_>) -> Result<Term, Stop>
    ensures gives { Gives (λ x. x) result (ahead c.new) (literal (scope_in names.now) (ahead c.old)) }
    ensures source { source_in c.new ≡ source_in c.old }
{
    let lex = reading::string(c, names.alloc, false)?;
    if at_node_tag(c) {
        tagged(c, names.alloc, lex)
    } else if c.is_at(Symbol::Carets) {
        reading::datatyped(c, names, lex, false)
    } else {
        Ok(Term::Lit(Literal::plain(names.alloc, lex)?))
    }
}

/// An IRI or a blank node.
#[tactic(auto, unfolding(crate::specs::Reading::resource))]
fn resource(c: &mut Cursor<'_>, names: &Names<'_>) -> Result<Term, Stop>
    ensures gives { Gives (λ x. x) result (ahead c.new) (resource (scope_in names.now) (ahead c.old)) }
    ensures source { source_in c.new ≡ source_in c.old }
{
    if c.is_at(Symbol::BlankLabel) {
        blank(c, names.alloc)
    } else {
        let iri = iri(c, names)?;
        Ok(Term::Iri(Text::from_string(iri)))
    }
}

/// A node: a literal, an IRI or a blank node.
#[tactic(auto, unfolding(crate::specs::Reading::node))]
fn node(c: &mut Cursor<'_>, names: &Names<'_>) -> Result<Term, Stop>
    ensures gives { Gives (λ x. x) result (ahead c.new) (node (scope_in names.now) (ahead c.old)) }
    ensures source { source_in c.new ≡ source_in c.old }
{
    if c.is_at(Symbol::Str) {
        literal(c, names)
    } else if reading::at_shorthand(c) {
        reading::shorthand(c, names.alloc, false)
    } else {
        resource(c, names)
    }
}

/// A verb [9].
#[tactic(auto, unfolding(crate::specs::Reading::verb))]
fn verb(c: &mut Cursor<'_>, names: &Names<'_>) -> Result<Term, Stop>
    ensures gives { Gives (λ x. x) result (ahead c.new) (verb (scope_in names.now) (ahead c.old)) }
    ensures source { source_in c.new ≡ source_in c.old }
{
    if c.is_at(Symbol::A) {
        c.take(Symbol::A)?;
        Ok(Term::Iri(Text::from_str(names.alloc, RDF_TYPE)?))
    } else {
        let iri = iri(c, names)?;
        Ok(Term::Iri(Text::from_string(iri)))
    }
}

/// The object of a triple pattern, `None` where any is meant.
#[tactic(auto, unfolding(crate::specs::Reading::or_any))]
fn object(c: &mut Cursor<'_>, names: &Names<'_>) -> Result<Option<Term>, Stop>
    ensures gives { Gives (λ x. x) result (ahead c.new) (or_any (scope_in names.now) (node (scope_in names.now)) (ahead c.old)) }
    ensures source { source_in c.new ≡ source_in c.old }
{
    if c.is_at(Symbol::Underscore) {
        c.take(Symbol::Underscore)?;
        Ok(None)
    } else {
        let term = node(c, names)?;
        Ok(Some(term))
    }
}

/// The subject of a triple pattern, `None` where any is meant.
#[tactic(auto, unfolding(crate::specs::Reading::or_any))]
fn subject(c: &mut Cursor<'_>, names: &Names<'_>) -> Result<Option<Term>, Stop>
    ensures gives { Gives (λ x. x) result (ahead c.new) (or_any (scope_in names.now) (resource (scope_in names.now)) (ahead c.old)) }
    ensures source { source_in c.new ≡ source_in c.old }
{
    if c.is_at(Symbol::Underscore) {
        c.take(Symbol::Underscore)?;
        Ok(None)
    } else {
        let term = resource(c, names)?;
        Ok(Some(term))
    }
}

/// A triple pattern whose focus is the subject, without its braces.
#[tactic(auto, unfolding(crate::specs::Reading::of_subjects))]
fn of_subjects(c: &mut Cursor<'_>, names: &Names<'_>) -> Result<TriplePattern, Stop>
    ensures gives { Gives (λ x. x) result (ahead c.new) (of_subjects (scope_in names.now) (ahead c.old)) }
    ensures source { source_in c.new ≡ source_in c.old }
{
    c.take(Symbol::Focus)?;
    let predicate = verb(c, names)?;
    let other = object(c, names)?;
    Ok(TriplePattern {
        focus: Focus::Subject,
        predicate,
        other,
    })
}

/// A triple pattern whose focus is the object, without its braces.
#[tactic(auto, unfolding(crate::specs::Reading::of_objects))]
fn of_objects(c: &mut Cursor<'_>, names: &Names<'_>) -> Result<TriplePattern, Stop>
    ensures gives { Gives (λ x. x) result (ahead c.new) (of_objects (scope_in names.now) (ahead c.old)) }
    ensures source { source_in c.new ≡ source_in c.old }
{
    let other = subject(c, names)?;
    let predicate = verb(c, names)?;
    c.take(Symbol::Focus)?;
    Ok(TriplePattern {
        focus: Focus::Object,
        predicate,
        other,
    })
}

/// A triple pattern without its braces.
#[tactic(auto, unfolding(crate::specs::Reading::pattern))]
fn pattern(c: &mut Cursor<'_>, names: &Names<'_>) -> Result<TriplePattern, Stop>
    ensures gives { Gives (λ x. x) result (ahead c.new) (pattern (scope_in names.now) (ahead c.old)) }
    ensures source { source_in c.new ≡ source_in c.old }
{
    if c.is_at(Symbol::Focus) {
        of_subjects(c, names)
    } else {
        of_objects(c, names)
    }
}

/// A triple pattern in its braces.
#[tactic(auto, unfolding(crate::specs::Reading::triples))]
fn triples(c: &mut Cursor<'_>, names: &Names<'_>) -> Result<TriplePattern, Stop>
    ensures gives { Gives (λ x. x) result (ahead c.new) (triples (scope_in names.now) (ahead c.old)) }
    ensures source { source_in c.new ≡ source_in c.old }
{
    c.take(Symbol::OpenBrace)?;
    let pattern = pattern(c, names)?;
    c.take(Symbol::CloseBrace)?;
    Ok(pattern)
}

/// What selects nodes.
#[tactic(auto, unfolding(crate::specs::Reading::selector))]
fn selector(c: &mut Cursor<'_>, names: &Names<'_>) -> Result<Selector, Stop>
    ensures gives { Gives (λ x. x) result (ahead c.new) (selector (scope_in names.now) (ahead c.old)) }
    ensures source { source_in c.new ≡ source_in c.old }
{
    if c.is_at(Symbol::OpenBrace) {
        let pattern = triples(c, names)?;
        Ok(Selector::Triples(pattern))
    } else {
        let term = node(c, names)?;
        Ok(Selector::Node(term))
    }
}

/// A target: the start, or a label.
#[tactic(auto, unfolding(crate::specs::Reading::target))]
fn target(c: &mut Cursor<'_>, names: &Names<'_>) -> Result<Target, Stop>
    ensures gives { Gives (λ x. x) result (ahead c.new) (target (scope_in names.now) (ahead c.old)) }
    ensures source { source_in c.new ≡ source_in c.old }
{
    if c.is_at(Symbol::Start) {
        c.take(Symbol::Start)?;
        Ok(Target::Start)
    } else if c.is_at(Symbol::BlankLabel) {
        blank_target(c, names.alloc)
    } else {
        let iri = iri(c, names)?;
        Ok(Target::Label(Label::Iri(Text::from_string(iri))))
    }
}

/// A target, and whether nodes are to satisfy it.
#[tactic(auto, unfolding(crate::specs::Reading::wish))]
fn wish(c: &mut Cursor<'_>, names: &Names<'_>) -> Result<(Target, bool), Stop>
    ensures gives { Gives (λ x. x) result (ahead c.new) (wish (scope_in names.now) (ahead c.old)) }
    ensures source { source_in c.new ≡ source_in c.old }
{
    if c.is_at(Symbol::Exclamation) {
        c.take(Symbol::Exclamation)?;
        let target = target(c, names)?;
        Ok((target, false))
    } else {
        let target = target(c, names)?;
        Ok((target, true))
    }
}

/// What is asked of nodes, behind its `@`, which may stand in the token of the target.
#[tactic(auto, unfolding(crate::specs::Reading::asked))]
fn asked(c: &mut Cursor<'_>, names: &Names<'_>) -> Result<(Target, bool), Stop>
    ensures gives { Gives (λ x. x) result (ahead c.new) (asked (scope_in names.now) (ahead c.old)) }
    ensures source { source_in c.new ≡ source_in c.old }
{
    if c.is_at(Symbol::AtStart) {
        c.take(Symbol::AtStart)?;
        Ok((Target::Start, true))
    } else if c.is_at(Symbol::AtName) {
        let iri = reading::at_name(c, names, false)?;
        Ok((Target::Label(Label::Iri(Text::from_string(iri))), true))
    } else {
        c.take(Symbol::At)?;
        wish(c, names)
    }
}

/// An item: a selector, and what is asked of its nodes.
#[tactic(auto, unfolding(crate::specs::Reading::item))]
fn item(c: &mut Cursor<'_>, nodes: &Names<'_>, labels: &Names<'_>) -> Result<Item, Stop>
    ensures gives { Gives (λ x. x) result (ahead c.new) (item (scope_in nodes.now) (scope_in labels.now) (ahead c.old)) }
    ensures source { source_in c.new ≡ source_in c.old }
{
    let selector = selector(c, nodes)?;
    let (target, want) = asked(c, labels)?;
    Ok(Item {
        selector,
        target,
        want,
    })
}

/// An item that goes behind others.
#[tactic(auto, unfolding(crate::specs::Reading::added))]
fn added(
    c: &mut Cursor<'_>,
    nodes: &Names<'_>,
    labels: &Names<'_>,
    items: &mut Vec<Item>,
) -> Result<(), Stop>
    ensures gives { Gives (λ x. items.new.items) result (ahead c.new) (added (scope_in nodes.now) (scope_in labels.now) items.old.items (ahead c.old)) }
    ensures source { source_in c.new ≡ source_in c.old }
{
    let item = item(c, nodes, labels)?;
    items.push(item)?;
    Ok(())
}

/// A further item, behind its comma.
#[tactic(auto, unfolding(crate::specs::Reading::behind))]
fn behind(
    c: &mut Cursor<'_>,
    nodes: &Names<'_>,
    labels: &Names<'_>,
    items: &mut Vec<Item>,
) -> Result<(), Stop>
    ensures gives { Gives (λ x. items.new.items) result (ahead c.new) (behind (scope_in nodes.now) (scope_in labels.now) items.old.items (ahead c.old)) }
    ensures source { source_in c.new ≡ source_in c.old }
{
    c.take(Symbol::Comma)?;
    added(c, nodes, labels, items)
}

/// All further items.
fn further(
    c: &mut Cursor<'_>,
    nodes: &Names<'_>,
    labels: &Names<'_>,
    items: &mut Vec<Item>,
) -> Result<(), Stop>
    ensures gives { Gives (λ x. items.new.items) result (ahead c.new) (loop (is_symbol Comma) (behind (scope_in nodes.now) (scope_in labels.now)) items.old.items (ahead c.old)) }
    ensures source { source_in c.new ≡ source_in c.old }
{
    while c.is_at(Symbol::Comma) {
        behind(c, nodes, labels, items)?;
    }
    Ok(())
}

/// All items.
#[tactic(auto, unfolding(crate::specs::Reading::items, crate::specs::Reading::all_items))]
fn all_items(
    c: &mut Cursor<'_>,
    nodes: &Names<'_>,
    labels: &Names<'_>,
    items: &mut Vec<Item>,
) -> Result<(), Stop>
    ensures gives { Gives (λ x. items.new.items) result (ahead c.new) (all_items (scope_in nodes.now) (scope_in labels.now) items.old.items (ahead c.old)) }
    ensures source { source_in c.new ≡ source_in c.old }
{
    if c.has_next() {
        added(c, nodes, labels, items)?;
        further(c, nodes, labels, items)?;
    }
    Ok(())
}

/// The items of a whole map.
#[tactic(auto, unfolding(crate::specs::Reading::shape_map))]
pub fn shape_map(
    c: &mut Cursor<'_>,
    alloc: Global,
    nodes: &Names<'_>,
    labels: &Names<'_>,
) -> Result<Vec<Item>, Stop>
    ensures gives { Gives (λ v. v.items) result (ahead c.new) (shape_map (scope_in nodes.now) (scope_in labels.now) (ahead c.old)) }
    ensures source { source_in c.new ≡ source_in c.old }
{
    let mut items = Vec::new(alloc);
    all_items(c, nodes, labels, &mut items)?;
    c.end()?;
    Ok(items)
}
