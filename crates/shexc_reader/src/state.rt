//! What has been read of a document.

ghost use Rattle.std.specs.Prelude.{◌≡◌, IfOk, OnOk, IsSome};
ghost use Rattle.iri_resolve.specs.Reference.{scheme_of};
ghost use Rattle.rdf_lex.specs.Prefixes.{base_of};

use rdf_lex::Prefixes;
use rdf_terms::items::Items;
use rdf_terms::text::Text;
use schema_documents::{Decl, Doc, DocExpr, Label};
use std::alloc::{AllocError, AllocFailed, Global};
use term_tokens::Names;

/// The base, which has a scheme, and the prefixes in force, and the document so far.
#[derive(Drop)]
pub struct State {
    pub alloc: Global,
    pub prefixes: Prefixes,
    pub imports: Vec<Text>,
    pub start: Option<DocExpr>,
    pub decls: Vec<Decl>,
    ghost absolute: { IsSome (scheme_of (base_of prefixes)) },
}

/// A document that was read, with the base and the prefixes that were last in force.
#[derive(Drop)]
pub struct Parsed {
    /// The document.
    pub doc: Doc,
    /// The base and the prefixes at its end.
    pub prefixes: Prefixes,
}

impl State {
    ghost use Rattle.schema_documents.specs.Tree.{expr_of};
    ghost use Rattle.term_tokens.specs.Scopes.{scope_in};
    ghost use Rattle.shexc_reader.specs.States.{rebased, declared, imported, started, added};
    ghost use Rattle.shexc_reader.specs.Documents.{state_of, at_first, IsParsedOf};

    /// The state before the first statement of a document with this base, which has a scheme.
    pub fn new(alloc: Global, base: &str) -> Result<State, AllocError>
        requires { IsSome (scheme_of base.now) }
        ensures { IfOk result (λ s. state_of s ≡ at_first base.now) }
    {
        Ok(State {
            alloc,
            prefixes: Prefixes::new(alloc, base)?,
            imports: Vec::new(alloc),
            start: None,
            decls: Vec::new(alloc),
        })
    }

    /// The names that the next statement is read with.
    pub fn names(&self) -> Names<'_>
        ensures { scope_in result ≡ (state_of self.now).scope }
    {
        Names {
            alloc: self.alloc,
            prefixes: &self.prefixes,
        }
    }

    /// Sets the base, which has a scheme.
    pub fn rebase(&mut self, base: &str) -> Result<(), AllocError>
        requires { IsSome (scheme_of base.now) }
        ensures { OnOk result (state_of self.new ≡ rebased base.now (state_of self.old)) }
    {
        self.prefixes.rebase(base)
    }

    /// Lets a prefix stand for an IRI from here on.
    pub fn declare(&mut self, prefix: &str, iri: &str) -> Result<(), AllocError>
        ensures { OnOk result (state_of self.new ≡ declared prefix.now iri.now (state_of self.old)) }
    {
        self.prefixes.set(prefix, iri)
    }

    /// Adds an import.
    pub fn import(&mut self, iri: Text) -> Result<(), AllocFailed<Text>>
        ensures { OnOk result (state_of self.new ≡ imported iri (state_of self.old)) }
    {
        self.imports.push(iri)
    }

    /// Sets the start.
    pub fn begin(&mut self, start: DocExpr)
        ensures { state_of self.new ≡ started (expr_of start) (state_of self.old) }
    {
        drop(self.start.replace(start));
    }

    /// Adds a declaration.
    pub fn add(&mut self, label: Label, expr: DocExpr) -> Result<(), AllocFailed<Decl>>
        ensures { OnOk result (state_of self.new ≡ added label (expr_of expr) (state_of self.old)) }
    {
        self.decls.push(Decl { label, expr })
    }

    /// The document.
    pub fn into_parsed(self) -> Parsed
        ensures parsed { IsParsedOf result (state_of self) }
        ensures scheme { IsSome (scheme_of (base_of result.prefixes)) }
    {
        Parsed {
            doc: Doc {
                imports: Items::of(self.imports),
                start: self.start,
                decls: Items::of(self.decls),
            },
            prefixes: self.prefixes,
        }
    }
}
