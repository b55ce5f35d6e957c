//! What is known before a token of a text.

ghost use Rattle.std.specs.Prelude.{◌≡◌, IfOk, IfSome, IsSome, IsTrue, OnOk, option_map, string_bytes};
ghost use Rattle.std.specs.Str.{chars};
ghost use Rattle.iri_resolve.specs.Reference.{scheme_of};
ghost use Rattle.rdf_cursor.specs.Lent.{spelled};
ghost use Rattle.rdf_lex.specs.Escapes.{IsSpelled};
ghost use Rattle.rdf_lex.specs.Prefixes.{base_of};
ghost use Rattle.term_tokens.specs.Scopes.{scope_in};
ghost use Rattle.label_tokens.specs.Scenes.{iri_in};

use crate::spots::{Role, Spot};
use rdf_cursor::{Stop, Symbol};
use rdf_lex::{Prefixes, Token};
use std::alloc::{AllocError, Global};
use term_tokens::parts::prefix_of;
use term_tokens::{Names, terms};

/// A place before a token of a text: where the token stands, the base, which has a scheme, and the prefixes in force, and the prefix of
/// the token before it.
#[derive(Drop)]
pub(crate) struct Walk<'a> {
    alloc: Global,
    spot: Spot,
    prefixes: Prefixes,
    prefix: &'a str,
    ghost absolute: { IsSome (scheme_of (base_of prefixes)) },
}

/// The IRI of a token, if it is an IRIREF.
fn iri_in(names: &Names<'_>, token: Token<'_>) -> Result<Option<String>, AllocError>
    requires { IsSpelled token.kind (chars token.text.now) }
    ensures iri { IfOk result (λ found. option_map string_bytes found ≡ iri_in (scope_in names.now) (spelled token.entry)) }
    ensures scheme { IfOk result (λ found. IfSome found (λ iri. IsSome (scheme_of (string_bytes iri)))) }
{
    match terms::iri_ref(names, token, false) {
        Ok(iri) => Ok(Some(iri)),
        Err(Stop::Memory) => Err(AllocError),
        Err(Stop::Fault(_)) => Ok(None),
    }
}

impl<'a> Walk<'a> {
    ghost use Rattle.std.specs.Prelude.{◌≡◌, ℕ, List, Some};
    ghost use Rattle.term_tokens.specs.Scopes.{scope_in, scope_of};
    ghost use Rattle.label_tokens.specs.Scenes.{declared, first_scene, iri_in, next_scene, rebased, scope_behind};
    ghost use Rattle.label_tokens.specs.Views.{scene_of};

    /// Before the first token of a text with this base, which has a scheme.
    pub(crate) fn new(alloc: Global, base: &str) -> Result<Walk<'a>, AllocError>
        requires { IsSome (scheme_of base.now) }
        ensures { IfOk result (λ walk. scene_of walk ≡ first_scene base.now) }
    {
        Ok(Walk {
            alloc,
            spot: Spot::first(),
            prefixes: Prefixes::new(alloc, base)?,
            prefix: "",
        })
    }

    /// Where the token stands.
    pub(crate) fn spot(&self) -> Spot
        ensures { result ≡ (scene_of self.now).spot }
    {
        self.spot
    }

    /// The base and the prefixes in force.
    pub(crate) fn names(&self) -> Names<'_>
        ensures { scope_in result ≡ (scene_of self.now).scope }
    {
        Names {
            alloc: self.alloc,
            prefixes: &self.prefixes,
        }
    }

    /// Lets the token, if it is an IRIREF, be the base.
    fn rebase(&mut self, token: Token<'_>) -> Result<(), AllocError>
        requires { IsSpelled token.kind (chars token.text.now) }
        ensures scope { OnOk result (scope_of self.new.prefixes ≡ rebased (iri_in (scope_of self.old.prefixes) (spelled token.entry)) (scope_of self.old.prefixes)) }
        ensures spot { self.new.spot ≡ self.old.spot }
    {
        match iri_in(&self.names(), token)? {
            Some(iri) => self.prefixes.rebase(iri.as_str()),
            None => Ok(()),
        }
    }

    /// Lets the prefix of the token before stand for an IRI.
    fn set_prefix(&mut self, iri: &str) -> Result<(), AllocError>
        ensures scope { OnOk result (scope_of self.new.prefixes ≡ declared self.old.prefix.now (Some iri.now) (scope_of self.old.prefixes)) }
        ensures spot { self.new.spot ≡ self.old.spot }
    {
        self.prefixes.set(self.prefix, iri)
    }

    /// Lets the prefix of the token before stand for the token, if that is an IRIREF.
    fn declare(&mut self, token: Token<'_>) -> Result<(), AllocError>
        requires { IsSpelled token.kind (chars token.text.now) }
        ensures scope { OnOk result (scope_of self.new.prefixes
            ≡ declared self.old.prefix.now (iri_in (scope_of self.old.prefixes) (spelled token.entry)) (scope_of self.old.prefixes)) }
        ensures spot { self.new.spot ≡ self.old.spot }
    {
        match iri_in(&self.names(), token)? {
            Some(iri) => self.set_prefix(iri.as_str()),
            None => Ok(()),
        }
    }

    /// Lets the token be the IRI of a base or of a prefix, where it stands for one.
    fn follow(&mut self, token: Token<'_>) -> Result<(), AllocError>
        requires { IsSpelled token.kind (chars token.text.now) }
        ensures scope { OnOk result (scope_of self.new.prefixes
            ≡ scope_behind self.old.spot.role self.old.prefix.now (spelled token.entry) (scope_of self.old.prefixes)) }
        ensures spot { self.new.spot ≡ self.old.spot }
    {
        match self.spot.role {
            Role::BaseIri => self.rebase(token),
            Role::PrefixIri => self.declare(token),
            Role::Reference | Role::Expression | Role::PrefixName | Role::ImportIri | Role::Other =>
                Ok(()),
        }
    }

    /// Passes the token, unless more brackets are open than can be counted; whether it did.
    pub(crate) fn pass(&mut self, token: Token<'a>) -> Result<bool, AllocError>
        requires { IsSpelled token.kind (chars token.text.now) }
        ensures { IfOk result (λ passed. IsTrue passed → scene_of self.new ≡ next_scene (scene_of self.old) (spelled token.entry)) }
    {
        let Some(spot) = self.spot.behind(Symbol::of(token)) else {
            return Ok(false);
        };
        self.follow(token)?;
        self.spot = spot;
        self.prefix = prefix_of(token);
        Ok(true)
    }
}
