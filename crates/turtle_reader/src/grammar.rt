//! The rules of the grammar (RDF 1.1 Turtle, section 6.5).

ghost use Rattle.std.specs.Prelude.{◌≡◌, true, string_bytes};
ghost use Rattle.std.specs.Result.{IfOk};
ghost use Rattle.std.specs.Option.{IsSome};
ghost use Rattle.iri_resolve.specs.Reference.{scheme_of};
ghost use Rattle.rdf_cursor.specs.Ahead.{next_is};
ghost use Rattle.rdf_cursor.specs.Readers.{one, loop};
ghost use Rattle.rdf_cursor.specs.declared.stops.Fault.TheVariants.{Syntax};
ghost use Rattle.rdf_cursor.specs.declared.symbols.Symbol.TheVariants.{AtPrefix, AtBase, SparqlPrefix, SparqlBase, Comma, Semicolon, CloseParenthesis};
ghost use Rattle.rdf_cursor.specs.Stops.{Gives};
ghost use Rattle.rdf_cursor.specs.Cursors.{ahead, source_in};
ghost use Rattle.rdf_cursor.specs.Lent.{spelled};
ghost use Rattle.turtle_reader.specs.Meanings.{verbs};
ghost use Rattle.turtle_reader.specs.Reading.{iri_ref, iri, literal, resource, simple, verb, one_object, comma, objects, pair, semicolon, predicates, node, in_cell, member, next_member, cells, collection, object, subject, about_subject, listed, about_node, triples, ended, prefix_declaration, base_declaration, behind, statement};
ghost use Rattle.turtle_reader.specs.Objects.{term_of};
ghost use Rattle.turtle_reader.specs.States.{scope_of, anonymous};
ghost use Rattle.rdf_cursor.specs.Symbols.{is_symbol, is_other, is_among};

use crate::resource::Resource;
use crate::state::State;
use rdf_cursor::{Cursor, Fault, Stop, Symbol};
use rdf_lex::Token;
use rdf_terms::terms::{FreshNumber, Literal, Name, Term};
use rdf_terms::text::Text;
use rdf_terms::vocabulary::RDF_TYPE;
use term_tokens::parts::prefix_of;
use term_tokens::reading;

/// How deep blank node property lists and collections nest at most.
const MAX_DEPTH: u32 = 64;

/// An IRI reference [18].
#[tactic(auto, unfolding(crate::specs::Reading::iri_ref))]
fn iri_ref(c: &mut Cursor<'_>, state: &State) -> Result<String, Stop>
    ensures gives { Gives string_bytes result (ahead c.new) (iri_ref true (scope_of state.now) (ahead c.old)) }
    ensures scheme { IfOk result (λ iri. IsSome (scheme_of (string_bytes iri))) }
    ensures source { source_in c.new ≡ source_in c.old }
{
    reading::iri_ref(c, &state.names(), true)
}

/// An IRI [135s].
#[tactic(auto, unfolding(crate::specs::Reading::iri))]
fn iri(c: &mut Cursor<'_>, state: &State) -> Result<String, Stop>
    ensures gives { Gives string_bytes result (ahead c.new) (iri true (scope_of state.now) (ahead c.old)) }
    ensures source { source_in c.new ≡ source_in c.old }
{
    reading::iri(c, &state.names(), true)
}

/// Whether a token begins a verb: `a` or an IRI.
#[tactic(auto, unfolding(rdf_cursor::specs::Symbols::is_among))]
fn is_verb(token: Token<'_>) -> bool
    ensures { result ≡ is_among verbs (spelled token.entry) }
{
    let symbol = Symbol::of(token);
    matches!(
        symbol,
        Symbol::A | Symbol::IriRef | Symbol::PnameNs | Symbol::PnameLn
    )
}

#[tactic(auto, unfolding(rdf_cursor::specs::Symbols::is_among))]
fn at_verb(c: &Cursor<'_>) -> bool
    ensures { result ≡ next_is (is_among verbs) (ahead c.now) }
{
    match c.peek() {
        Some(token) => is_verb(token),
        None => false,
    }
}

/// Whether a token is next that does not close a collection.
#[tactic(auto, unfolding(rdf_cursor::specs::Symbols::is_other))]
fn at_member(c: &Cursor<'_>) -> bool
    ensures { result ≡ next_is (is_other CloseParenthesis) (ahead c.now) }
{
    c.has_next() && !c.is_at(Symbol::CloseParenthesis)
}

/// A literal that begins with a string [128s].
#[tactic(auto, unfolding(crate::specs::Reading::literal))]
fn literal(c: &mut Cursor<'_>, state: &State) -> Result<Term, Stop>
    ensures gives { Gives (λ x. x) result (ahead c.new) (literal true (scope_of state.now) (ahead c.old)) }
    ensures source { source_in c.new ≡ source_in c.old }
{
    let lex = reading::string(c, state.alloc, true)?;
    if reading::at_tag(c) {
        reading::tagged(c, state.alloc, lex)
    } else if c.is_at(Symbol::Carets) {
        reading::datatyped(c, &state.names(), lex, true)
    } else {
        Ok(Term::Lit(Literal::plain(state.alloc, lex)?))
    }
}

/// An IRI or a labelled blank node.
#[tactic(auto, unfolding(crate::specs::Reading::resource))]
fn resource(c: &mut Cursor<'_>, state: &State) -> Result<Resource, Stop>
    ensures gives { Gives term_of result (ahead c.new) (resource true (scope_of state.now) (ahead c.old)) }
    ensures source { source_in c.new ≡ source_in c.old }
{
    if c.is_at(Symbol::BlankLabel) {
        let name = reading::blank(c, state.alloc, true)?;
        Ok(Resource::Blank(name))
    } else {
        let iri = iri(c, state)?;
        Ok(Resource::Iri(Text::from_string(iri)))
    }
}

/// A term without brackets.
#[tactic(auto, unfolding(crate::specs::Reading::simple))]
fn simple(c: &mut Cursor<'_>, state: &State) -> Result<Term, Stop>
    ensures gives { Gives (λ x. x) result (ahead c.new) (simple true (scope_of state.now) (ahead c.old)) }
    ensures source { source_in c.new ≡ source_in c.old }
{
    if c.is_at(Symbol::Str) {
        literal(c, state)
    } else if reading::at_shorthand(c) {
        reading::shorthand(c, state.alloc, true)
    } else {
        let resource = resource(c, state)?;
        Ok(resource.into_term())
    }
}

/// A verb [9].
#[tactic(auto, unfolding(crate::specs::Reading::verb))]
fn verb(c: &mut Cursor<'_>, state: &State) -> Result<String, Stop>
    ensures gives { Gives string_bytes result (ahead c.new) (verb true (scope_of state.now) (ahead c.old)) }
    ensures source { source_in c.new ≡ source_in c.old }
{
    if c.is_at(Symbol::A) {
        c.take(Symbol::A)?;
        Ok(String::from_str(state.alloc, RDF_TYPE)?)
    } else {
        iri(c, state)
    }
}

/// An anonymous node.
fn anonymous_node(number: FreshNumber) -> Resource
    ensures { term_of result ≡ anonymous number }
{
    Resource::Blank(Name::Fresh(number))
}

/// An object of a subject and a predicate.
#[cycle(grammar)]
#[tactic(auto, unfolding(crate::specs::Reading::one_object))]
fn one_object(
    c: &mut Cursor<'_>,
    state: &mut State,
    depth: u32,
    subject: &Resource,
    predicate: &str,
) -> Result<(), Stop>
    ensures gives { Gives (λ x. scope_of state.new) result (ahead c.new) (one_object true (object true depth) (term_of subject.now) predicate.now (scope_of state.old) (ahead c.old)) }
    ensures source { source_in c.new ≡ source_in c.old }
{
    let term = object(c, state, depth)?;
    state.add(subject, predicate, term)?;
    Ok(())
}

/// A further object, behind its comma.
#[cycle(grammar)]
#[tactic(auto, unfolding(crate::specs::Reading::comma))]
fn comma(
    c: &mut Cursor<'_>,
    state: &mut State,
    depth: u32,
    subject: &Resource,
    predicate: &str,
) -> Result<(), Stop>
    ensures gives { Gives (λ x. scope_of state.new) result (ahead c.new) (comma true (object true depth) (term_of subject.now) predicate.now (scope_of state.old) (ahead c.old)) }
    ensures source { source_in c.new ≡ source_in c.old }
{
    c.take(Symbol::Comma)?;
    one_object(c, state, depth, subject, predicate)
}

/// All further objects.
#[cycle(grammar)]
fn commas(
    c: &mut Cursor<'_>,
    state: &mut State,
    depth: u32,
    subject: &Resource,
    predicate: &str,
) -> Result<(), Stop>
    ensures gives { Gives (λ x. scope_of state.new) result (ahead c.new) (loop (is_symbol Comma) (comma true (object true depth) (term_of subject.now) predicate.now) (scope_of state.old) (ahead c.old)) }
    ensures source { source_in c.new ≡ source_in c.old }
{
    while c.is_at(Symbol::Comma) {
        comma(c, state, depth, subject, predicate)?;
    }
    Ok(())
}

/// The objects of a subject and a predicate [8]. The predicate of one object alone is moved to its triple.
#[cycle(grammar)]
#[tactic(auto, unfolding(crate::specs::Reading::objects, crate::specs::Reading::one_object))]
fn objects(
    c: &mut Cursor<'_>,
    state: &mut State,
    depth: u32,
    subject: &Resource,
    predicate: String,
) -> Result<(), Stop>
    ensures gives { Gives (λ x. scope_of state.new) result (ahead c.new) (objects true (object true depth) (term_of subject.now) (string_bytes predicate) (scope_of state.old) (ahead c.old)) }
    ensures source { source_in c.new ≡ source_in c.old }
{
    let first = object(c, state, depth)?;
    if c.is_at(Symbol::Comma) {
        state.add(subject, predicate.as_str(), first)?;
        commas(c, state, depth, subject, predicate.as_str())
    } else {
        state.add_alone(subject, predicate, first)?;
        Ok(())
    }
}

/// A verb and its objects [8].
#[cycle(grammar)]
#[tactic(auto, unfolding(crate::specs::Reading::pair))]
fn pair(c: &mut Cursor<'_>, state: &mut State, depth: u32, subject: &Resource) -> Result<(), Stop>
    ensures gives { Gives (λ x. scope_of state.new) result (ahead c.new) (pair true (object true depth) (term_of subject.now) (scope_of state.old) (ahead c.old)) }
    ensures source { source_in c.new ≡ source_in c.old }
{
    let predicate = verb(c, state)?;
    objects(c, state, depth, subject, predicate)
}

/// What follows a semicolon: a verb and its objects, or nothing.
#[cycle(grammar)]
#[tactic(auto, unfolding(crate::specs::Reading::semicolon))]
fn semicolon(
    c: &mut Cursor<'_>,
    state: &mut State,
    depth: u32,
    subject: &Resource,
) -> Result<(), Stop>
    ensures gives { Gives (λ x. scope_of state.new) result (ahead c.new) (semicolon true (object true depth) (term_of subject.now) (scope_of state.old) (ahead c.old)) }
    ensures source { source_in c.new ≡ source_in c.old }
{
    c.take(Symbol::Semicolon)?;
    if at_verb(c) {
        pair(c, state, depth, subject)
    } else {
        Ok(())
    }
}

/// All that follows by semicolons.
#[cycle(grammar)]
fn semicolons(
    c: &mut Cursor<'_>,
    state: &mut State,
    depth: u32,
    subject: &Resource,
) -> Result<(), Stop>
    ensures gives { Gives (λ x. scope_of state.new) result (ahead c.new) (loop (is_symbol Semicolon) (semicolon true (object true depth) (term_of subject.now)) (scope_of state.old) (ahead c.old)) }
    ensures source { source_in c.new ≡ source_in c.old }
{
    while c.is_at(Symbol::Semicolon) {
        semicolon(c, state, depth, subject)?;
    }
    Ok(())
}

/// The verbs and objects of a subject [7].
#[cycle(grammar)]
#[tactic(auto, unfolding(crate::specs::Reading::predicates))]
fn predicates(
    c: &mut Cursor<'_>,
    state: &mut State,
    depth: u32,
    subject: &Resource,
) -> Result<(), Stop>
    ensures gives { Gives (λ x. scope_of state.new) result (ahead c.new) (predicates true (object true depth) (term_of subject.now) (scope_of state.old) (ahead c.old)) }
    ensures source { source_in c.new ≡ source_in c.old }
{
    pair(c, state, depth, subject)?;
    semicolons(c, state, depth, subject)
}

/// An anonymous node in brackets [14], whose number is that of its opening bracket.
#[cycle(grammar)]
#[tactic(auto, unfolding(crate::specs::Reading::node, crate::specs::Reading::next_node))]
fn node(c: &mut Cursor<'_>, state: &mut State, depth: u32) -> Result<FreshNumber, Stop>
    ensures gives { Gives (λ n. (anonymous n, scope_of state.new)) result (ahead c.new) (node true (object true depth) (scope_of state.old) (ahead c.old)) }
    ensures source { source_in c.new ≡ source_in c.old }
{
    c.take(Symbol::OpenBracket)?;
    let number = state.number()?;
    if c.is_at(Symbol::CloseBracket) {
        c.take(Symbol::CloseBracket)?;
        return Ok(number);
    }
    predicates(c, state, depth, &anonymous_node(number))?;
    c.take(Symbol::CloseBracket)?;
    Ok(number)
}

/// A member of a collection, in its cell.
#[cycle(grammar)]
#[tactic(auto, unfolding(crate::specs::Reading::in_cell))]
fn in_cell(
    c: &mut Cursor<'_>,
    state: &mut State,
    depth: u32,
    cell: FreshNumber,
) -> Result<FreshNumber, Stop>
    ensures gives { Gives (λ n. (anonymous n, scope_of state.new)) result (ahead c.new) (in_cell true (object true depth) (anonymous cell) (scope_of state.old) (ahead c.old)) }
    ensures source { source_in c.new ≡ source_in c.old }
{
    let term = object(c, state, depth)?;
    state.add_first(cell, term)?;
    Ok(cell)
}

/// The first member of a collection, whose cell takes its number before it.
#[cycle(grammar)]
#[tactic(auto, unfolding(crate::specs::Reading::member, crate::specs::Reading::next_node))]
fn member(c: &mut Cursor<'_>, state: &mut State, depth: u32) -> Result<FreshNumber, Stop>
    ensures gives { Gives (λ n. (anonymous n, scope_of state.new)) result (ahead c.new) (member true (object true depth) (scope_of state.old) (ahead c.old)) }
    ensures source { source_in c.new ≡ source_in c.old }
{
    let cell = state.number()?;
    in_cell(c, state, depth, cell)
}

/// A further member, whose cell is the rest of the last one.
#[cycle(grammar)]
#[tactic(auto, unfolding(crate::specs::Reading::next_member, crate::specs::Reading::next_node))]
fn next_member(
    c: &mut Cursor<'_>,
    state: &mut State,
    depth: u32,
    last: FreshNumber,
) -> Result<FreshNumber, Stop>
    ensures gives { Gives (λ n. (anonymous n, scope_of state.new)) result (ahead c.new) (next_member true (object true depth) (anonymous last, scope_of state.old) (ahead c.old)) }
    ensures source { source_in c.new ≡ source_in c.old }
{
    let cell = state.number()?;
    state.add_rest(last, anonymous_node(cell))?;
    in_cell(c, state, depth, cell)
}

/// All further members; the answer is the last cell.
#[cycle(grammar)]
fn members(
    c: &mut Cursor<'_>,
    state: &mut State,
    depth: u32,
    first: FreshNumber,
) -> Result<FreshNumber, Stop>
    ensures gives { Gives (λ n. (anonymous n, scope_of state.new)) result (ahead c.new) (loop (is_other CloseParenthesis) (next_member true (object true depth)) (anonymous first, scope_of state.old) (ahead c.old)) }
    ensures source { source_in c.new ≡ source_in c.old }
{
    let mut last = first;
    while at_member(c) {
        last = next_member(c, state, depth, last)?;
    }
    Ok(last)
}

/// The members of a collection that has some; the answer is the first cell.
#[cycle(grammar)]
#[tactic(auto, unfolding(crate::specs::Reading::cells))]
fn cells(c: &mut Cursor<'_>, state: &mut State, depth: u32) -> Result<FreshNumber, Stop>
    ensures gives { Gives (λ n. (anonymous n, scope_of state.new)) result (ahead c.new) (cells true (object true depth) (scope_of state.old) (ahead c.old)) }
    ensures source { source_in c.new ≡ source_in c.old }
{
    let first = member(c, state, depth)?;
    let last = members(c, state, depth, first)?;
    c.take(Symbol::CloseParenthesis)?;
    let nil = state.nil()?;
    state.add_rest(last, nil)?;
    Ok(first)
}

/// A collection [15].
#[cycle(grammar)]
#[tactic(auto, unfolding(crate::specs::Reading::collection))]
fn collection(c: &mut Cursor<'_>, state: &mut State, depth: u32) -> Result<Resource, Stop>
    ensures gives { Gives (λ x. (term_of x, scope_of state.new)) result (ahead c.new) (collection true (object true depth) (scope_of state.old) (ahead c.old)) }
    ensures source { source_in c.new ≡ source_in c.old }
{
    c.take(Symbol::OpenParenthesis)?;
    if c.is_at(Symbol::CloseParenthesis) {
        c.take(Symbol::CloseParenthesis)?;
        Ok(state.nil()?)
    } else {
        let first = cells(c, state, depth)?;
        Ok(anonymous_node(first))
    }
}

/// An object [12], in which brackets nest so deep at most.
#[cycle(grammar)]
#[tactic(auto, unfolding(crate::specs::Reading::object))]
fn object(c: &mut Cursor<'_>, state: &mut State, depth: u32) -> Result<Term, Stop>
    ensures gives { Gives (λ x. (x, scope_of state.new)) result (ahead c.new) (object true depth (scope_of state.old) (ahead c.old)) }
    ensures source { source_in c.new ≡ source_in c.old }
{
    if c.is_at(Symbol::OpenBracket) {
        if depth == 0 {
            return Err(Stop::Fault(Fault::Deep));
        }
        let number = node(c, state, depth - 1)?;
        Ok(anonymous_node(number).into_term())
    } else if c.is_at(Symbol::OpenParenthesis) {
        if depth == 0 {
            return Err(Stop::Fault(Fault::Deep));
        }
        let first = collection(c, state, depth - 1)?;
        Ok(first.into_term())
    } else {
        simple(c, state)
    }
}

/// A subject [10], but for anonymous nodes.
#[tactic(auto, unfolding(crate::specs::Reading::subject))]
fn subject(c: &mut Cursor<'_>, state: &mut State) -> Result<Resource, Stop>
    ensures gives { Gives (λ x. (term_of x, scope_of state.new)) result (ahead c.new) (subject true 63 (scope_of state.old) (ahead c.old)) }
    ensures source { source_in c.new ≡ source_in c.old }
{
    if c.is_at(Symbol::OpenParenthesis) {
        collection(c, state, MAX_DEPTH - 1)
    } else {
        resource(c, state)
    }
}

/// A subject and its verbs and objects.
#[tactic(auto, unfolding(crate::specs::Reading::about_subject))]
fn about_subject(c: &mut Cursor<'_>, state: &mut State) -> Result<(), Stop>
    ensures gives { Gives (λ x. scope_of state.new) result (ahead c.new) (about_subject true 63 (scope_of state.old) (ahead c.old)) }
    ensures source { source_in c.new ≡ source_in c.old }
{
    let subject = subject(c, state)?;
    predicates(c, state, MAX_DEPTH, &subject)
}

/// The verbs and objects in the brackets of an anonymous node, and further ones behind them.
#[tactic(auto, unfolding(crate::specs::Reading::listed))]
fn listed(c: &mut Cursor<'_>, state: &mut State, subject: &Resource) -> Result<(), Stop>
    ensures gives { Gives (λ x. scope_of state.new) result (ahead c.new) (listed true 63 (term_of subject.now) (scope_of state.old) (ahead c.old)) }
    ensures source { source_in c.new ≡ source_in c.old }
{
    predicates(c, state, MAX_DEPTH - 1, subject)?;
    c.take(Symbol::CloseBracket)?;
    if at_verb(c) {
        predicates(c, state, MAX_DEPTH, subject)
    } else {
        Ok(())
    }
}

/// Triples that begin with an anonymous node in brackets.
#[tactic(auto, unfolding(crate::specs::Reading::about_node, crate::specs::Reading::next_node))]
fn about_node(c: &mut Cursor<'_>, state: &mut State) -> Result<(), Stop>
    ensures gives { Gives (λ x. scope_of state.new) result (ahead c.new) (about_node true 63 (scope_of state.old) (ahead c.old)) }
    ensures source { source_in c.new ≡ source_in c.old }
{
    c.take(Symbol::OpenBracket)?;
    let number = state.number()?;
    let subject = anonymous_node(number);
    if c.is_at(Symbol::CloseBracket) {
        c.take(Symbol::CloseBracket)?;
        predicates(c, state, MAX_DEPTH, &subject)
    } else {
        listed(c, state, &subject)
    }
}

/// Triples [6] and their dot.
#[tactic(auto, unfolding(crate::specs::Reading::triples, crate::specs::Reading::ended))]
fn ended_triples(c: &mut Cursor<'_>, state: &mut State) -> Result<(), Stop>
    ensures gives { Gives (λ x. scope_of state.new) result (ahead c.new) (ended true (triples true 63) (scope_of state.old) (ahead c.old)) }
    ensures source { source_in c.new ≡ source_in c.old }
{
    triples(c, state)?;
    c.take(Symbol::Dot)?;
    Ok(())
}

/// Triples [6].
#[tactic(auto, unfolding(crate::specs::Reading::triples))]
fn triples(c: &mut Cursor<'_>, state: &mut State) -> Result<(), Stop>
    ensures gives { Gives (λ x. scope_of state.new) result (ahead c.new) (triples true 63 (scope_of state.old) (ahead c.old)) }
    ensures source { source_in c.new ≡ source_in c.old }
{
    if c.is_at(Symbol::OpenBracket) {
        about_node(c, state)
    } else {
        about_subject(c, state)
    }
}

/// A prefix and its IRI.
#[tactic(auto, unfolding(crate::specs::Reading::prefix_declaration))]
fn prefix_declaration(c: &mut Cursor<'_>, state: &mut State) -> Result<(), Stop>
    ensures gives { Gives (λ x. scope_of state.new) result (ahead c.new) (prefix_declaration true (scope_of state.old) (ahead c.old)) }
    ensures source { source_in c.new ≡ source_in c.old }
{
    let token = c.take(Symbol::PnameNs)?;
    let iri = iri_ref(c, state)?;
    state.declare(prefix_of(token), iri.as_str())?;
    Ok(())
}

/// An IRI as the base.
#[tactic(auto, unfolding(crate::specs::Reading::base_declaration))]
fn base_declaration(c: &mut Cursor<'_>, state: &mut State) -> Result<(), Stop>
    ensures gives { Gives (λ x. scope_of state.new) result (ahead c.new) (base_declaration true (scope_of state.old) (ahead c.old)) }
    ensures source { source_in c.new ≡ source_in c.old }
{
    let iri = iri_ref(c, state)?;
    state.rebase(iri.as_str())?;
    Ok(())
}

/// `@prefix` and its declaration [4].
#[tactic(auto, unfolding(crate::specs::Reading::behind, crate::specs::Reading::ended))]
fn prefix_id(c: &mut Cursor<'_>, state: &mut State) -> Result<(), Stop>
    ensures gives { Gives (λ x. scope_of state.new) result (ahead c.new) (behind true AtPrefix (ended true (prefix_declaration true)) (scope_of state.old) (ahead c.old)) }
    ensures source { source_in c.new ≡ source_in c.old }
{
    c.take(Symbol::AtPrefix)?;
    prefix_declaration(c, state)?;
    c.take(Symbol::Dot)?;
    Ok(())
}

/// `@base` and its declaration [5].
#[tactic(auto, unfolding(crate::specs::Reading::behind, crate::specs::Reading::ended))]
fn base(c: &mut Cursor<'_>, state: &mut State) -> Result<(), Stop>
    ensures gives { Gives (λ x. scope_of state.new) result (ahead c.new) (behind true AtBase (ended true (base_declaration true)) (scope_of state.old) (ahead c.old)) }
    ensures source { source_in c.new ≡ source_in c.old }
{
    c.take(Symbol::AtBase)?;
    base_declaration(c, state)?;
    c.take(Symbol::Dot)?;
    Ok(())
}

/// `PREFIX` and its declaration [6s].
#[tactic(auto, unfolding(crate::specs::Reading::behind))]
fn sparql_prefix(c: &mut Cursor<'_>, state: &mut State) -> Result<(), Stop>
    ensures gives { Gives (λ x. scope_of state.new) result (ahead c.new) (behind true SparqlPrefix (prefix_declaration true) (scope_of state.old) (ahead c.old)) }
    ensures source { source_in c.new ≡ source_in c.old }
{
    c.take(Symbol::SparqlPrefix)?;
    prefix_declaration(c, state)
}

/// `BASE` and its declaration [5s].
#[tactic(auto, unfolding(crate::specs::Reading::behind))]
fn sparql_base(c: &mut Cursor<'_>, state: &mut State) -> Result<(), Stop>
    ensures gives { Gives (λ x. scope_of state.new) result (ahead c.new) (behind true SparqlBase (base_declaration true) (scope_of state.old) (ahead c.old)) }
    ensures source { source_in c.new ≡ source_in c.old }
{
    c.take(Symbol::SparqlBase)?;
    base_declaration(c, state)
}

/// A statement [2].
#[tactic(auto, unfolding(crate::specs::Reading::statement))]
pub fn statement(c: &mut Cursor<'_>, state: &mut State) -> Result<(), Stop>
    ensures gives { Gives (λ x. scope_of state.new) result (ahead c.new) (statement true 63 (scope_of state.old) (ahead c.old)) }
    ensures source { source_in c.new ≡ source_in c.old }
{
    if c.is_at(Symbol::AtPrefix) {
        prefix_id(c, state)
    } else if c.is_at(Symbol::AtBase) {
        base(c, state)
    } else if c.is_at(Symbol::SparqlPrefix) {
        sparql_prefix(c, state)
    } else if c.is_at(Symbol::SparqlBase) {
        sparql_base(c, state)
    } else {
        ended_triples(c, state)
    }
}
