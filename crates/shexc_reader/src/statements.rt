//! Statements and documents (ShEx 2.1, section 6).

ghost use Rattle.std.specs.Prelude.{◌≡◌, ℕ, true};
ghost use Rattle.rdf_cursor.specs.Cursors.{ahead, source_in};
ghost use Rattle.rdf_cursor.specs.Readers.{finish, loop, one};
ghost use Rattle.rdf_cursor.specs.Symbols.{is_any};
ghost use Rattle.schema_documents.specs.Tree.{expr_of};
ghost use Rattle.term_tokens.specs.Scopes.{scope_in};
ghost use Rattle.shexc_constraints.specs.declared.faults.Fault.TheVariants.{Syntax};
ghost use Rattle.shexc_constraints.specs.Stops.{Gives};
ghost use Rattle.shexc_constraints.specs.Symbols.{of_word};
ghost use Rattle.shexc_reader.specs.Documents.{state_of};
ghost use Rattle.shexc_reader.specs.Reading as reading;
ghost use Rattle.shexc_reader.specs.Symbols.{starts};

use crate::classes::at_start;
use crate::grammar::expression;
use crate::state::State;
use rdf_cursor::{Cursor, Symbol};
use rdf_terms::text::Text;
use schema_documents::DocExpr;
use shexc_constraints::parts::{iri, iri_ref, label};
use shexc_constraints::tokens::{take, take_one};
use shexc_constraints::{Fault, Stop};
use term_tokens::Names;
use term_tokens::parts::prefix_of;

/// Whether the text ends here.
fn end(c: &Cursor<'_>) -> Result<(), Stop>
    ensures { Gives (λ x. x) result (ahead c.now) (finish Syntax tt (ahead c.now)) }
{
    c.end()?;
    Ok(())
}

/// A shape expression in which so many brackets may nest.
#[tactic(auto, unfolding(crate::specs::Reading::whole, crate::specs::Reading::level))]
fn whole(c: &mut Cursor<'_>, names: &Names<'_>, depth: u32) -> Result<DocExpr, Stop>
    ensures gives { Gives expr_of result (ahead c.new) (reading.whole true depth (scope_in names.now) (ahead c.old)) }
    ensures source { source_in c.new ≡ source_in c.old }
{
    let whole = expression(c, names, depth, true)?;
    Ok(whole.0)
}

/// What a label stands for.
#[tactic(auto, unfolding(crate::specs::Reading::body))]
fn body(c: &mut Cursor<'_>, names: &Names<'_>, depth: u32) -> Result<DocExpr, Stop>
    ensures gives { Gives expr_of result (ahead c.new) (reading.body true depth (scope_in names.now) (ahead c.old)) }
    ensures source { source_in c.new ≡ source_in c.old }
{
    if c.is_at(Symbol::External) {
        return Err(Stop::Fault(Fault::External));
    }
    whole(c, names, depth)
}

/// A base.
#[tactic(auto, unfolding(crate::specs::Reading::base_directive))]
fn base_directive(c: &mut Cursor<'_>, state: &mut State) -> Result<(), Stop>
    ensures gives { (depth : ℕ) → Gives (λ x. state_of state.new) result (ahead c.new) (reading.base_directive true depth (state_of state.old) (ahead c.old)) }
    ensures source { source_in c.new ≡ source_in c.old }
{
    take(c, Symbol::SparqlBase)?;
    let iri = iri_ref(c, &state.names())?;
    state.rebase(iri.as_str())?;
    Ok(())
}

/// A prefix and its IRI.
#[tactic(auto, unfolding(crate::specs::Reading::prefix_directive))]
fn prefix_directive(c: &mut Cursor<'_>, state: &mut State) -> Result<(), Stop>
    ensures gives { (depth : ℕ) → Gives (λ x. state_of state.new) result (ahead c.new) (reading.prefix_directive true depth (state_of state.old) (ahead c.old)) }
    ensures source { source_in c.new ≡ source_in c.old }
{
    take(c, Symbol::SparqlPrefix)?;
    let token = take(c, Symbol::PnameNs)?;
    let iri = iri_ref(c, &state.names())?;
    state.declare(prefix_of(token), iri.as_str())?;
    Ok(())
}

/// An import.
#[tactic(auto, unfolding(crate::specs::Reading::import_directive))]
fn import_directive(c: &mut Cursor<'_>, state: &mut State) -> Result<(), Stop>
    ensures gives { (depth : ℕ) → Gives (λ x. state_of state.new) result (ahead c.new) (reading.import_directive true depth (state_of state.old) (ahead c.old)) }
    ensures source { source_in c.new ≡ source_in c.old }
{
    take(c, Symbol::Import)?;
    let iri = iri(c, &state.names())?;
    state.import(Text::from_string(iri))?;
    Ok(())
}

/// The start, where there is none yet.
#[tactic(auto, unfolding(crate::specs::Reading::start_directive, crate::specs::Reading::first_start))]
fn start_directive(c: &mut Cursor<'_>, state: &mut State, depth: u32) -> Result<(), Stop>
    ensures gives { Gives (λ x. state_of state.new) result (ahead c.new) (reading.start_directive true depth (state_of state.old) (ahead c.old)) }
    ensures source { source_in c.new ≡ source_in c.old }
{
    if state.start.is_some() {
        return Err(Stop::Fault(Fault::Syntax));
    }
    take_one(c, &[Symbol::Start, Symbol::AnyStart])?;
    take(c, Symbol::Equals)?;
    let start = whole(c, &state.names(), depth)?;
    state.begin(start);
    Ok(())
}

/// A label and its expression.
#[tactic(auto, unfolding(crate::specs::Reading::declaration))]
fn declaration(c: &mut Cursor<'_>, state: &mut State, depth: u32) -> Result<(), Stop>
    ensures gives { Gives (λ x. state_of state.new) result (ahead c.new) (reading.declaration true depth (state_of state.old) (ahead c.old)) }
    ensures source { source_in c.new ≡ source_in c.old }
{
    let label = label(c, &state.names())?;
    let expr = body(c, &state.names(), depth)?;
    state.add(label, expr)?;
    Ok(())
}

/// A statement.
#[tactic(auto, unfolding(crate::specs::Reading::statement))]
fn statement(c: &mut Cursor<'_>, state: &mut State, depth: u32) -> Result<(), Stop>
    ensures gives { Gives (λ x. state_of state.new) result (ahead c.new) (reading.statement true depth (state_of state.old) (ahead c.old)) }
    ensures source { source_in c.new ≡ source_in c.old }
{
    if c.is_at(Symbol::SparqlBase) {
        base_directive(c, state)
    } else if c.is_at(Symbol::SparqlPrefix) {
        prefix_directive(c, state)
    } else if c.is_at(Symbol::Import) {
        import_directive(c, state)
    } else if at_start(c) {
        start_directive(c, state, depth)
    } else {
        declaration(c, state, depth)
    }
}

/// All statements.
fn statements(c: &mut Cursor<'_>, state: &mut State, depth: u32) -> Result<(), Stop>
    ensures gives { Gives (λ x. state_of state.new) result (ahead c.new) (loop is_any (reading.statement true depth) (state_of state.old) (ahead c.old)) }
    ensures source { source_in c.new ≡ source_in c.old }
{
    while c.has_next() {
        statement(c, state, depth)?;
    }
    Ok(())
}

/// A document, up to the end of the text.
#[tactic(auto, unfolding(crate::specs::Reading::document))]
pub fn document(c: &mut Cursor<'_>, state: &mut State, depth: u32) -> Result<(), Stop>
    ensures gives { Gives (λ x. state_of state.new) result (ahead c.new) (reading.document true depth (state_of state.old) (ahead c.old)) }
    ensures source { source_in c.new ≡ source_in c.old }
{
    statements(c, state, depth)?;
    end(c)?;
    Ok(())
}
