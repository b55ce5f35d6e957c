//! The triples of a statement, put into a table and a graph.

ghost use Rattle.std.specs.Prelude.{◌≡◌, [], ◌∷◌, ◌++◌, IfOk, OnOk, OnErr, List, Some, length, map, slice_get, Contains};
ghost use Rattle.data_loading.specs.Loads.{LoadsAll};
ghost use Rattle.lists.specs.Additions.{Adds};
ghost use Rattle.lists.specs.Distinct.{AreDistinct};
ghost use Rattle.rdf_terms.specs.Tables.{max_terms};
ghost use Rattle.rdf_terms.specs.declared.terms.Term.{Term};
ghost use Rattle.rdf_terms.specs.declared.terms.Triple.{Triple};
ghost use Rattle.std.specs.List.{flat_map};
ghost use Rattle.turtle_reader.specs.Objects.{all_triples_of, triples_about, triples_of, triple_with, Begins, Leads};

use crate::objects::{ObjectList, SubjectList};
use graph_index::graph::{AddError, Graph};
use graph_index::loading::LoadError;
use rdf_terms::table::{PutError, TermTable};
use rdf_terms::terms::{Term, TermId, Triple};

/// The numbers of a subject and a predicate.
#[derive(Clone, Copy, Debug)]
struct Numbers {
    s: TermId,
    p: TermId,
}

/// The number of a term, which goes last where it is new.
fn number(terms: &mut TermTable, term: Term) -> Result<TermId, LoadError>
    ensures number { IfOk result (λ id. slice_get terms.new id.0 ≡ Some term) }
    ensures added { OnOk result (Adds terms.old term terms.new) }
    ensures full { result ≡ Err LoadError.Full → (¬ Contains terms.old term) × (length terms.old ≡ max_terms) }
    ensures err { OnErr result (terms.new ≡ terms.old) }
    ensures distinct { AreDistinct terms.new }
{
    match terms.put(term) {
        Ok(id) => Ok(id),
        Err(PutError::Full) => Err(LoadError::Full),
        Err(PutError::Memory) => Err(LoadError::Memory),
    }
}

/// Loads the triple of a subject and a predicate of these numbers, and an object.
fn load_object(
    terms: &mut TermTable,
    graph: &mut Graph,
    numbers: Numbers,
    object: Term,
) -> Result<(), LoadError>
    ensures loads { (old : List Term) (s p : Term) → Begins old terms.old s p numbers.s.0 numbers.p.0 → LoadsAll result old graph.old.triples (triple_with s p object ∷ []) terms.new graph.new.triples }
    ensures grown { (more : List Term) × (terms.new ≡ terms.old ++ more) }
    ensures appended { (more : List Triple) × (graph.new.triples ≡ graph.old.triples ++ more) }
{
    let o = number(terms, object)?;
    let Numbers { s, p } = numbers;
    match graph.add(Triple { s, p, o }) {
        Ok(_) => Ok(()),
        Err(AddError::Full) => Err(LoadError::Full),
        Err(AddError::Memory) => Err(LoadError::Memory),
    }
}

/// Loads the triples of a subject and a predicate of these numbers, one object after the other.
fn load_objects(
    terms: &mut TermTable,
    graph: &mut Graph,
    numbers: Numbers,
    before: Vec<Term>,
    last: Term,
) -> Result<(), LoadError>
    ensures loads { (old : List Term) (s p : Term) → Begins old terms.old s p numbers.s.0 numbers.p.0 → LoadsAll result old graph.old.triples (map (triple_with s p) (before.items ++ last ∷ [])) terms.new graph.new.triples }
    ensures grown { (more : List Term) × (terms.new ≡ terms.old ++ more) }
    ensures appended { (more : List Triple) × (graph.new.triples ≡ graph.old.triples ++ more) }
{
    for object in before {
        load_object(terms, graph, numbers, object)?;
    }
    load_object(terms, graph, numbers, last)
}

/// Loads the triples of an object list and of a subject of this number, one after the other. The predicate goes last where it is
/// new.
fn load_list(
    terms: &mut TermTable,
    graph: &mut Graph,
    subject: TermId,
    list: ObjectList,
) -> Result<(), LoadError>
    ensures loads { (old : List Term) (s : Term) → Leads old terms.old s subject.0 →
        LoadsAll result old graph.old.triples (triples_of s list) terms.new graph.new.triples }
    ensures grown { (more : List Term) × (terms.new ≡ terms.old ++ more) }
    ensures appended { (more : List Triple) × (graph.new.triples ≡ graph.old.triples ++ more) }
{
    let ObjectList {
        predicate,
        before,
        last,
    } = list;
    let p = number(terms, Term::Iri(predicate))?;
    load_objects(terms, graph, Numbers { s: subject, p }, before, last)
}

/// Loads the triples of object lists and of a subject of this number, one list after the other.
fn load_each_list(
    terms: &mut TermTable,
    graph: &mut Graph,
    subject: TermId,
    before: Vec<ObjectList>,
    last: ObjectList,
) -> Result<(), LoadError>
    ensures loads { (old : List Term) (s : Term) → Leads old terms.old s subject.0 →
        LoadsAll result old graph.old.triples (flat_map (triples_of s) (before.items ++ last ∷ [])) terms.new graph.new.triples }
    ensures grown { (more : List Term) × (terms.new ≡ terms.old ++ more) }
    ensures appended { (more : List Triple) × (graph.new.triples ≡ graph.old.triples ++ more) }
{
    for list in before {
        load_list(terms, graph, subject, list)?;
    }
    load_list(terms, graph, subject, last)
}

/// Loads the triples of a subject, which goes last where it is new.
fn load_subject(
    terms: &mut TermTable,
    graph: &mut Graph,
    list: SubjectList,
) -> Result<(), LoadError>
    ensures loads { LoadsAll result terms.old graph.old.triples (triples_about list) terms.new graph.new.triples }
    ensures grown { (more : List Term) × (terms.new ≡ terms.old ++ more) }
    ensures appended { (more : List Triple) × (graph.new.triples ≡ graph.old.triples ++ more) }
{
    let SubjectList {
        subject,
        before,
        last,
    } = list;
    let s = number(terms, subject.into_term())?;
    load_each_list(terms, graph, s, before, last)
}

/// Loads the triples of subjects, one subject after the other. It fails as `Full` only where a triple finds no room behind
/// those before it. After a failure the table and the graph hold what they held, and may hold more behind it.
pub fn load_lists(
    terms: &mut TermTable,
    graph: &mut Graph,
    lists: Vec<SubjectList>,
) -> Result<(), LoadError>
    ensures loads { LoadsAll result terms.old graph.old.triples (all_triples_of lists.items) terms.new graph.new.triples }
    ensures grown { (more : List Term) × (terms.new ≡ terms.old ++ more) }
    ensures appended { (more : List Triple) × (graph.new.triples ≡ graph.old.triples ++ more) }
{
    for list in lists {
        load_subject(terms, graph, list)?;
    }
    Ok(())
}
