//! The triples of a statement, which keep a subject once for its predicates, and a predicate once for its objects.

ghost use Rattle.std.specs.Prelude.{◌≡◌, [], ◌∷◌, ◌++◌, ◌↔◌, IfOk, IsTrue, OnOk};
ghost use Rattle.std.specs.Str.{chars};
ghost use Rattle.rdf_terms.specs.declared.terms.Term.{Term as SubjectTerm};
ghost use Rattle.turtle_reader.specs.Objects.{all_triples_of, term_of, triple_of, triples_about, triples_of};

use crate::resource::Resource;
use rdf_terms::terms::Term;
use rdf_terms::text::Text;
use std::alloc::{AllocError, Global};
use std::mem;

/// A predicate and one or more objects (RDF 1.1 Turtle, section 2.3).
#[derive(Debug, Drop)]
pub struct ObjectList {
    /// The predicate.
    pub predicate: Text,
    /// The objects but for the last one.
    pub before: Vec<Term>,
    /// The last object.
    pub last: Term,
}

impl ObjectList {
    /// A predicate and one object.
    pub fn new(alloc: Global, predicate: Text, object: Term) -> ObjectList
        ensures { (s : SubjectTerm) → triples_of s result ≡ triple_of s predicate object ∷ [] }
    {
        ObjectList {
            predicate,
            before: Vec::new(alloc),
            last: object,
        }
    }

    /// Whether the objects are of this predicate.
    pub fn is_of(&self, predicate: &str) -> bool
        ensures { IsTrue result ↔ (self.now.predicate ≡ chars predicate.now) }
    {
        self.predicate.as_str() == predicate
    }

    /// Adds an object.
    pub fn push(&mut self, object: Term) -> Result<(), AllocError>
        ensures { OnOk result ((s : SubjectTerm) → triples_of s self.new ≡ triples_of s self.old ++ triple_of s self.old.predicate object ∷ []) }
    {
        let earlier = mem::replace(&mut self.last, object);
        self.before.push(earlier)?;
        Ok(())
    }
}

/// A subject, and one or more predicates with their objects (RDF 1.1 Turtle, section 2.2).
#[derive(Debug, Drop)]
pub struct SubjectList {
    /// The subject.
    pub subject: Resource,
    /// The object lists but for the last one.
    pub before: Vec<ObjectList>,
    /// The last object list.
    pub last: ObjectList,
}

impl SubjectList {
    /// Adds an object list.
    pub fn push(&mut self, list: ObjectList) -> Result<(), AllocError>
        ensures { OnOk result (triples_about self.new ≡ triples_about self.old ++ triples_of (term_of self.old.subject) list) }
    {
        let earlier = mem::replace(&mut self.last, list);
        self.before.push(earlier)?;
        Ok(())
    }

    /// Adds an object of a predicate: to the last object list, where that list is of the predicate, and else as a list of its own.
    pub fn add(&mut self, alloc: Global, predicate: &str, object: Term) -> Result<(), AllocError>
        ensures { OnOk result (triples_about self.new ≡ triples_about self.old ++ triple_of (term_of self.old.subject) (chars predicate.now) object ∷ []) }
    {
        if self.last.is_of(predicate) {
            return self.last.push(object);
        }
        let predicate = Text::from_str(alloc, predicate)?;
        self.push(ObjectList::new(alloc, predicate, object))
    }
}

/// Adds a subject with one object list.
fn add_subject(
    lists: &mut Vec<SubjectList>,
    alloc: Global,
    subject: &Resource,
    list: ObjectList,
) -> Result<(), AllocError>
    ensures { OnOk result (all_triples_of lists.new.items ≡ all_triples_of lists.old.items ++ triples_of (term_of subject.now) list) }
{
    let subject = subject.try_clone(alloc)?;
    lists.push(SubjectList {
        subject,
        before: Vec::new(alloc),
        last: list,
    })?;
    Ok(())
}

/// Adds a triple as an object list of its own: to the last subject, where that is its subject.
pub fn add_list(
    lists: &mut Vec<SubjectList>,
    alloc: Global,
    subject: &Resource,
    predicate: Text,
    object: Term,
) -> Result<(), AllocError>
    ensures { OnOk result (all_triples_of lists.new.items ≡ all_triples_of lists.old.items ++ triple_of (term_of subject.now) predicate object ∷ []) }
{
    let list = ObjectList::new(alloc, predicate, object);
    if let Some(last) = lists.last_mut() {
        if last.subject.is(subject) {
            return last.push(list);
        }
    }
    add_subject(lists, alloc, subject, list)
}

/// Adds a triple: to the last subject and its last object list, where these are of its subject and its predicate.
pub fn add_triple(
    lists: &mut Vec<SubjectList>,
    alloc: Global,
    subject: &Resource,
    predicate: &str,
    object: Term,
) -> Result<(), AllocError>
    ensures { OnOk result (all_triples_of lists.new.items ≡ all_triples_of lists.old.items ++ triple_of (term_of subject.now) (chars predicate.now) object ∷ []) }
{
    if let Some(last) = lists.last_mut() {
        if last.subject.is(subject) {
            return last.add(alloc, predicate, object);
        }
    }
    let predicate = Text::from_str(alloc, predicate)?;
    add_subject(
        lists,
        alloc,
        subject,
        ObjectList::new(alloc, predicate, object),
    )
}
