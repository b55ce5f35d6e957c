//! Sessions over a small schema, with ample memory: verdicts that are kept, lost by edits and found again.

ghost use Rattle.std.specs.Prelude.{◌≡◌, ◌≤◌, ◌<◌, ◌↔◌, All, Contains, IfOk, IsTrue, OnOk, length};
ghost use Rattle.graph_index.specs.Contents.{IsSealedWith};
ghost use Rattle.graph_index.specs.Laws.{IsOfTable};
ghost use Rattle.schema_tree.specs.declared.schema.Pair.{Pair as Held};
ghost use Rattle.schema_tree.specs.Loaded.{IsLoaded};
ghost use Rattle.schema_tree.specs.Needs.{Reaches};

use crate::refinements::levels_of;
use crate::samples::{KNOWN, add, put_nodes, schema_of};
use graph_index::graph::Graph;
use rdf_terms::table::TermTable;
use rdf_terms::terms::{TermId, Triple};
use schema_tree::schema::{ExprId, Pair, Schema, ShapeId};
use schema_tree::verdicts::Verdict;
use std::alloc::Global;
use std::marker::Brand;
use std::sync::ledger::{Blank, Ledger};
use std::test::Fail;
use tally::Steps;
use typing_session::{AskError, Session};

/// Whether the three numbers of a triple are of the table.
fn is_of_table(terms: &TermTable, triple: Triple) -> bool
    ensures { IsTrue result ↔ IsOfTable terms.now triple }
{
    let count = terms.len();
    if (triple.s.0 as usize) >= count {
        return false;
    }
    if (triple.p.0 as usize) >= count {
        return false;
    }
    (triple.o.0 as usize) < count
}

/// Whether the triples of a graph are of the table.
fn are_of_table(terms: &TermTable, graph: &Graph) -> bool
    ensures { IsTrue result → All (IsOfTable terms.now) graph.now.triples }
{
    graph.triples().iter().all(|t| is_of_table(terms, *t))
}

/// Adds to the graph that a knows b, b knows a, and a has a name, and seals it.
fn acquaint(graph: &mut Graph, terms: &TermTable) -> Result<(), Fail>
    ensures sealed { OnOk result (IsSealedWith terms.now graph.new) }
    ensures ends { OnOk result (All (IsOfTable terms.now) graph.new.triples) }
{
    add(graph, 3, 1, 4)?;
    add(graph, 4, 1, 3)?;
    add(graph, 3, 0, 5)?;
    graph.seal(terms)?;
    if !are_of_table(terms, graph) {
        return Err("a triple of other terms".into());
    }
    Ok(())
}

/// What is held, once the four nodes are in the table.
fn with_nodes<T: Drop>(alloc: Global, terms: &mut TermTable, held: T) -> Result<T, Fail>
    ensures held { IfOk result (λ x. x ≡ held) }
    ensures terms { OnOk result (5 < length terms.new) }
{
    put_nodes(alloc, terms)?;
    if terms.len() <= 5 {
        return Err("a term is missing".into());
    }
    Ok(held)
}

/// The schema. The table takes up its predicates and the four nodes.
fn known(alloc: Global, terms: &mut TermTable) -> Result<Schema, Fail>
    ensures loaded { IfOk result IsLoaded }
    ensures terms { OnOk result (5 < length terms.new) }
{
    let schema = schema_of(alloc, KNOWN, terms)?;
    with_nodes(alloc, terms, schema)
}

/// The session of the schema, in which nothing was asked.
fn begun(alloc: Global) -> Result<Session, Fail>
    ensures { IfOk result (λ x. 5 < length x.terms) }
{
    let mut terms = TermTable::new(alloc);
    let schema = known(alloc, &mut terms)?;
    let levels = levels_of(alloc, &schema)?;
    let mut graph = Graph::new(alloc);
    acquaint(&mut graph, &terms)?;
    Ok(Session::new(alloc, schema, graph, terms, levels, 10))
}

/// Asks where verdicts on all that is reached are kept, which takes no step.
fn asked_again<L: Ledger>(
    session: &mut Session,
    node: TermId,
    expr: ExprId,
    steps: &mut Steps<L>,
) -> Result<Verdict, AskError>
    requires node { node.0 < length session.old.terms }
    requires kept { (q : Held) → Reaches session.old.schema session.old.graph node expr q → Contains session.old.kept q }
    ensures silent { steps.new ≤ steps.old }
{
    session.ask(node, expr, steps)
}

/// Asks twice, with no edit between.
fn asked_twice<L: Ledger>(
    session: &mut Session,
    node: TermId,
    expr: ExprId,
    steps: &mut Steps<L>,
) -> Result<(Verdict, Verdict), AskError>
    requires node { node.0 < length session.old.terms }
{
    let first = session.ask(node, expr, steps)?;
    let second = asked_again(session, node, expr, steps)?;
    Ok((first, second))
}

/// Whether a has S0 neither at first nor when it is asked again: b has no name.
fn is_no_twice<L: Ledger>(session: &mut Session, steps: &mut Steps<L>) -> Result<bool, Fail>
    requires { 5 < length session.old.terms }
{
    let (first, second) = asked_twice(session, TermId(3), ExprId(0), steps)?;
    Ok(first == Verdict::No && second == Verdict::No)
}

/// Whether a has S0 neither at first nor when it is asked again, in a session that is begun here.
fn stays_no<L: Ledger>(blank: Blank, alloc: Global) -> Result<bool, Fail>
    requires name { blank.name ≡ L.name }
    requires parts { blank.parts ≡ L.parts }
    requires some { 0 < blank.parts }
{
    let mut steps = Steps::<L>::new(blank);
    let mut session = begun(alloc)?;
    is_no_twice(&mut session, &mut steps)
}

/// The second question finds its verdicts kept.
#[test]
fn a_question_that_is_asked_again_takes_no_step(rt: HostRuntime) -> Result<(), Fail> {
    assert!(rt; stays_no::<Brand>(Blank::new(1), rt.alloc())?);
    Ok(())
}

/// Whether the answer on a with S0 is this, and is kept.
fn is_answered<L: Ledger>(
    session: &mut Session,
    wanted: Verdict,
    steps: &mut Steps<L>,
) -> Result<bool, Fail>
    requires { 5 < length session.old.terms }
    ensures { IfOk result (λ b. session.new.terms ≡ session.old.terms) }
{
    let found = session.ask(TermId(3), ExprId(0), steps)?;
    let pair = Pair {
        node: TermId(3),
        shape: ShapeId(0),
    };
    Ok(found == wanted && session.peek(pair) == Some(wanted))
}

/// Gives a name to b; whether that is new.
fn gives_name(session: &mut Session) -> Result<bool, Fail>
    requires { 5 < length session.old.terms }
    ensures { IfOk result (λ b. session.new.terms ≡ session.old.terms) }
{
    let added = session.add(Triple {
        s: TermId(4),
        p: TermId(0),
        o: TermId(2),
    })?;
    Ok(added)
}

/// Takes the name of a; whether it had that.
fn takes_name(session: &mut Session) -> Result<bool, Fail>
    ensures { IfOk result (λ b. session.new.terms ≡ session.old.terms) }
{
    let held = session.remove(Triple {
        s: TermId(3),
        p: TermId(0),
        o: TermId(5),
    })?;
    Ok(held)
}

/// Whether a has S0 once b is given a name, and no more when its own is taken.
fn follows_names<L: Ledger>(session: &mut Session, steps: &mut Steps<L>) -> Result<bool, Fail>
    requires { 5 < length session.old.terms }
{
    let no = is_answered(session, Verdict::No, steps)?;
    let added = gives_name(session)?;
    let yes = is_answered(session, Verdict::Yes, steps)?;
    let held = takes_name(session)?;
    let no_more = is_answered(session, Verdict::No, steps)?;
    Ok(no && added && yes && held && no_more)
}

/// Whether the answers follow the edits of a session that is begun here.
fn follows_edits<L: Ledger>(blank: Blank, alloc: Global) -> Result<bool, Fail>
    requires name { blank.name ≡ L.name }
    requires parts { blank.parts ≡ L.parts }
    requires some { 0 < blank.parts }
{
    let mut steps = Steps::<L>::new(blank);
    let mut session = begun(alloc)?;
    follows_names(&mut session, &mut steps)
}

/// Each answer is over the graph after the edits before it.
#[test]
fn answers_follow_the_edits(rt: HostRuntime) -> Result<(), Fail> {
    assert!(rt; follows_edits::<Brand>(Blank::new(1), rt.alloc())?);
    Ok(())
}
