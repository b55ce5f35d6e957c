//! What a statement is read with.

ghost use Rattle.std.specs.Prelude.{◌≡◌, ◌≤◌, IfOk, OnOk, IsSome};
ghost use Rattle.iri_resolve.specs.Reference.{scheme_of};
ghost use Rattle.rdf_lex.specs.Prefixes.{base_of};

use crate::objects::{SubjectList, add_list, add_triple};
use crate::resource::Resource;
use rdf_cursor::{Fault, Stop};
use rdf_lex::Prefixes;
use rdf_terms::terms::{FreshNumber, Name, Term};
use rdf_terms::text::Text;
use rdf_terms::vocabulary::{RDF_FIRST, RDF_NIL, RDF_REST};
use std::alloc::{AllocError, Global};
use std::mem;
use term_tokens::Names;

/// The state of the parser (RDF 1.1 Turtle, section 7.1): the base and the prefixes, the number of the next anonymous
/// node, and the triples of the statement that is being read.
#[derive(Drop)]
pub struct State {
    /// Where memory comes from.
    pub alloc: Global,
    /// The base and the prefixes.
    pub prefixes: Prefixes,
    /// The number of the next anonymous node, at least 1.
    pub next: u64,
    /// The triples of the statement that is being read, in their order.
    pub lists: Vec<SubjectList>,
    ghost from_one: { 1 ≤ next },
    ghost absolute: { IsSome (scheme_of (base_of prefixes)) },
}

impl State {
    ghost use Rattle.std.specs.Prelude.{true, string_bytes};
    ghost use Rattle.rdf_cursor.specs.Stops.{Answers};
    ghost use Rattle.turtle_reader.specs.Meanings.{numbered};
    ghost use Rattle.turtle_reader.specs.States.{anonymous, names_in, scope_of, added, begun, declared, rebased, start};
    ghost use Rattle.turtle_reader.specs.Objects.{all_triples_of, term_of};
    ghost use Rattle.term_tokens.specs.Terms.{iri_term};
    ghost use Rattle.turtle_reader.specs.Documents.{AreLast};
    ghost use Rattle.term_tokens.specs.Scopes.{scope_in};
    ghost use Rattle.rdf_terms.specs.Vocabulary.{rdf_first, rdf_rest, rdf_nil};

    /// The state before the first statement of a document with this base, which has a scheme.
    pub fn new(alloc: Global, base: &str) -> Result<State, AllocError>
        requires { IsSome (scheme_of base.now) }
        ensures { IfOk result (λ s. scope_of s ≡ start base.now) }
    {
        Ok(State {
            alloc,
            prefixes: Prefixes::new(alloc, base)?,
            next: 1,
            lists: Vec::new(alloc),
        })
    }

    /// The base and the prefixes, lent.
    pub fn names(&self) -> Names<'_>
        ensures { scope_in result ≡ names_in (scope_of self.now) }
    {
        Names {
            alloc: self.alloc,
            prefixes: &self.prefixes,
        }
    }

    /// Lets a prefix stand for an IRI from here on.
    pub fn declare(&mut self, prefix: &str, iri: &str) -> Result<(), AllocError>
        ensures { OnOk result (scope_of self.new ≡ declared prefix.now iri.now (scope_of self.old)) }
    {
        self.prefixes.set(prefix, iri)
    }

    /// Sets the base, which has a scheme.
    pub fn rebase(&mut self, base: &str) -> Result<(), AllocError>
        requires { IsSome (scheme_of base.now) }
        ensures { OnOk result (scope_of self.new ≡ rebased base.now (scope_of self.old)) }
    {
        self.prefixes.rebase(base)
    }

    /// Adds a triple to those of the statement.
    pub fn add(
        &mut self,
        subject: &Resource,
        predicate: &str,
        object: Term,
    ) -> Result<(), AllocError>
        ensures { OnOk result (scope_of self.new ≡ added (term_of subject.now) predicate.now object (scope_of self.old)) }
    {
        add_triple(&mut self.lists, self.alloc, subject, predicate, object)
    }

    /// Adds a triple of a predicate that is moved to it.
    pub fn add_alone(
        &mut self,
        subject: &Resource,
        predicate: String,
        object: Term,
    ) -> Result<(), AllocError>
        ensures { OnOk result (scope_of self.new ≡ added (term_of subject.now) (string_bytes predicate) object (scope_of self.old)) }
    {
        let predicate = Text::from_string(predicate);
        add_list(&mut self.lists, self.alloc, subject, predicate, object)
    }

    /// Adds the triple of a cell of a collection and its member (RDF 1.1 Turtle, section 2.8).
    pub fn add_first(&mut self, cell: FreshNumber, member: Term) -> Result<(), AllocError>
        ensures { OnOk result (scope_of self.new ≡ added (anonymous cell) rdf_first member (scope_of self.old)) }
    {
        self.add(&Resource::Blank(Name::Fresh(cell)), RDF_FIRST, member)
    }

    /// Adds the triple of a cell of a collection and the rest of the collection (RDF 1.1 Turtle, section 2.8).
    pub fn add_rest(&mut self, cell: FreshNumber, rest: Resource) -> Result<(), AllocError>
        ensures { OnOk result (scope_of self.new ≡ added (anonymous cell) rdf_rest (term_of rest) (scope_of self.old)) }
    {
        self.add(
            &Resource::Blank(Name::Fresh(cell)),
            RDF_REST,
            rest.into_term(),
        )
    }

    /// The collection without a member, rdf:nil.
    pub fn nil(&self) -> Result<Resource, AllocError>
        ensures { IfOk result (λ r. term_of r ≡ iri_term rdf_nil) }
    {
        Ok(Resource::Iri(Text::from_str(self.alloc, RDF_NIL)?))
    }

    /// The triples of the statement that was read, which are taken away.
    pub fn take_lists(&mut self) -> Vec<SubjectList>
        ensures triples { all_triples_of result.items ≡ (scope_of self.old).triples }
        ensures rest { scope_of self.new ≡ begun (scope_of self.old) }
    {
        let alloc = self.alloc;
        mem::replace(&mut self.lists, Vec::new(alloc))
    }

    /// The base and the prefixes.
    pub fn into_prefixes(self) -> Prefixes
        ensures last { AreLast result (scope_of self) }
        ensures scheme { IsSome (scheme_of (base_of result)) }
    {
        self.prefixes
    }

    /// The number of the next anonymous node; `Full` where no number is left.
    #[tactic(auto, unfolding(crate::specs::Meanings::numbered))]
    pub fn number(&mut self) -> Result<FreshNumber, Stop>
        ensures { Answers (λ n. (anonymous n, scope_of self.new)) result (numbered true (scope_of self.old)) }
    {
        match u32::try_from(self.next) {
            Ok(number) => {
                self.next += 1;
                Ok(FreshNumber::new(number))
            }
            Err(_) => Err(Stop::Fault(Fault::Full)),
        }
    }
}
