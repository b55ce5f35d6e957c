//! The base and the prefixes of a document.

ghost use Rattle.std.specs.Prelude.{ℕ, List, Some, None, ◌≡◌, ◌≢◌, option_map, IfOk, IfSome, OnOk, OnErr};
ghost use Rattle.std.specs.Str.{IsUtf8};

use std::alloc::{AllocError, Global};
use std::collections::BTreeMap;

/// The base and the prefixes that are in force at a place of a document (RDF 1.1 Turtle, section
/// 2.4): one IRI, and a finite map from prefixes, written without their colons, to IRIs.
#[derive(Drop)]
pub struct Prefixes {
    alloc: Global,
    base: String,
    by_prefix: BTreeMap<String, String>,
}

impl Prefixes {
    ghost use Rattle.rdf_lex.specs.Prefixes.{base_of, iri_under, KeepsOtherPrefixes};

    /// This base, and no prefix.
    pub fn new(alloc: Global, base: &str) -> Result<Prefixes, AllocError>
        ensures base { IfOk result (λ made. base_of made ≡ base.now) }
        ensures empty { IfOk result (λ made. (prefix : List ℕ) → iri_under made prefix ≡ None) }
    {
        Ok(Prefixes {
            alloc,
            base: String::from_str(alloc, base)?,
            by_prefix: BTreeMap::new(alloc),
        })
    }

    /// Lets a prefix stand for an IRI, in place of the IRI that it stood for, if there was one. A
    /// refusal changes nothing.
    pub fn set(&mut self, prefix: &str, iri: &str) -> Result<(), AllocError>
        ensures set { OnOk result (iri_under self.new prefix.now ≡ Some iri.now) }
        ensures others { KeepsOtherPrefixes (iri_under self.old) (iri_under self.new) prefix.now }
        ensures refused { OnErr result (iri_under self.new ≡ iri_under self.old) }
        ensures base { base_of self.new ≡ base_of self.old }
    {
        let key = String::from_str(self.alloc, prefix)?;
        let value = String::from_str(self.alloc, iri)?;
        self.by_prefix.insert(key, value)?;
        Ok(())
    }

    /// The IRI that a prefix stands for, if it was set.
    pub fn get(&self, prefix: &str) -> Option<&str>
        ensures iri { option_map (λ iri. iri.now) result ≡ iri_under self.now prefix.now }
        ensures utf8 { IfSome result (λ iri. IsUtf8 iri.now) }
    {
        match self.by_prefix.get(prefix) {
            Some(iri) => Some(iri.as_str()),
            None => None,
        }
    }

    /// The base.
    pub fn base(&self) -> &str
        ensures base { result.now ≡ base_of self.now }
        ensures utf8 { IsUtf8 result.now }
    {
        self.base.as_str()
    }

    /// Sets the base. A refusal changes nothing.
    pub fn rebase(&mut self, base: &str) -> Result<(), AllocError>
        ensures set { OnOk result (base_of self.new ≡ base.now) }
        ensures refused { OnErr result (base_of self.new ≡ base_of self.old) }
        ensures prefixes { iri_under self.new ≡ iri_under self.old }
    {
        self.base = String::from_str(self.alloc, base)?;
        Ok(())
    }
}
